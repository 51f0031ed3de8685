// A region term of each form.
use crate::copied::{Copied, are_copied, boxed, list, text};
use region_syntax::{
    Constructor, Effect, FixDef, MData, MTy, Place, RBind, RDec, RExp, RExpForm, RPat, RPatForm,
    RPiece, RProgram, RRule, RTy,
};
use sml_syntax::{Boxed, Listed, NoMemory};
use std::alloc::Global;
use std::process::Abort;
use std::test::Fail;

fn effect(rt: &(impl Abort + AllocGlobal)) -> Effect {
    Effect {
        regions: list(rt, [Place::Global, Place::Reg(3)]),
        vars: list(rt, [4]),
    }
}

fn no_effect(rt: &(impl Abort + AllocGlobal)) -> Effect {
    Effect {
        regions: list(rt, []),
        vars: list(rt, []),
    }
}

fn data(rt: &(impl Abort + AllocGlobal), effect: Effect) -> RTy {
    RTy::DataTy {
        number: 1,
        args: list(rt, [RTy::Int]),
        place: Place::Reg(3),
        effect,
    }
}

fn arrow(rt: &(impl Abort + AllocGlobal), effect: Effect) -> RTy {
    RTy::Arrow(
        Place::Reg(3),
        boxed(rt, RTy::Int),
        effect,
        boxed(rt, RTy::Char),
    )
}

fn type_of_each_form(rt: &(impl Abort + AllocGlobal)) -> [RTy; 14] {
    [
        RTy::Int,
        RTy::Char,
        RTy::Unit,
        RTy::Str(Place::Global),
        RTy::Str(Place::Reg(3)),
        RTy::Tuple(Place::Reg(3), list(rt, [RTy::Int, RTy::Char])),
        arrow(rt, effect(rt)),
        arrow(rt, no_effect(rt)),
        data(rt, effect(rt)),
        data(rt, no_effect(rt)),
        RTy::Ref(Place::Reg(3), boxed(rt, RTy::Int)),
        RTy::Exn,
        RTy::CacheTy(Place::Reg(3), boxed(rt, MTy::Int), boxed(rt, MTy::Str)),
        RTy::DescTy(boxed(rt, MTy::Int)),
    ]
}

fn pat(form: RPatForm) -> RPat {
    RPat { ty: RTy::Int, form }
}

fn exp(form: RExpForm) -> RExp {
    RExp { ty: RTy::Int, form }
}

fn one(n: i64) -> RExp {
    exp(RExpForm::Int(n))
}

fn part(rt: &(impl Abort + AllocGlobal), n: i64) -> Boxed<RExp> {
    boxed(rt, one(n))
}

/// `x => 1`
fn rules(rt: &(impl Abort + AllocGlobal)) -> Listed<RRule> {
    let rule = RRule {
        pat: pat(RPatForm::Name(text(rt, "x"))),
        body: one(1),
    };
    list(rt, [rule])
}

pub(crate) fn region_patterns(rt: &(impl Abort + AllocGlobal)) -> [RPat; 10] {
    [
        pat(RPatForm::Any),
        pat(RPatForm::Int(-1)),
        pat(RPatForm::Char(97)),
        pat(RPatForm::Str(text(rt, "a"))),
        pat(RPatForm::Unit),
        pat(RPatForm::Name(text(rt, "a"))),
        pat(RPatForm::Tuple(list(rt, [pat(RPatForm::Any), pat(RPatForm::Unit)]))),
        pat(RPatForm::List(list(rt, [pat(RPatForm::Any), pat(RPatForm::Unit)]))),
        pat(RPatForm::Con(Constructor::Data(2, 0))),
        pat(RPatForm::App(Constructor::Exn(8), boxed(rt, pat(RPatForm::Any)))),
    ]
}

fn group(rt: &(impl Abort + AllocGlobal)) -> Listed<FixDef> {
    let def = FixDef {
        name: text(rt, "f"),
        regions: list(rt, [3]),
        effects: list(rt, [4]),
        ty: RTy::Int,
        rules: rules(rt),
        at: Place::Global,
    };
    list(rt, [def])
}

/// `pat = 1`
fn binds(rt: &(impl Abort + AllocGlobal), form: RPatForm) -> Listed<RBind> {
    let bind = RBind {
        pat: pat(form),
        exp: one(1),
    };
    list(rt, [bind])
}

pub(crate) fn region_declarations(rt: &(impl Abort + AllocGlobal)) -> [RDec; 3] {
    let hidden = list(rt, [RDec::Val(binds(rt, RPatForm::Unit))]);
    let shown = list(rt, [RDec::ValRec(group(rt))]);
    [
        RDec::Val(binds(rt, RPatForm::Any)),
        RDec::ValRec(group(rt)),
        RDec::Local(hidden, shown),
    ]
}

fn pieces(rt: &(impl Abort + AllocGlobal)) -> Listed<RPiece> {
    list(rt, [RPiece::Plain(text(rt, "a")), RPiece::Anti(one(1))])
}

pub(crate) fn region_forms(rt: &(impl Abort + AllocGlobal)) -> [RExp; 23] {
    let decs = list(rt, region_declarations(rt));
    [
        one(-1),
        exp(RExpForm::Char(97)),
        exp(RExpForm::Str(text(rt, "a"), Place::Reg(3))),
        exp(RExpForm::Name(text(rt, "a"))),
        exp(RExpForm::Prim(text(rt, "+"))),
        exp(RExpForm::Con(Constructor::Ref)),
        exp(RExpForm::Unit),
        exp(RExpForm::Tuple(list(rt, [one(1), one(2)]), Place::Reg(3))),
        exp(RExpForm::List(list(rt, [one(1), one(2)]), Place::Reg(3))),
        exp(RExpForm::Seq(list(rt, [one(1), one(2)]))),
        exp(RExpForm::App(part(rt, 1), part(rt, 2))),
        exp(RExpForm::Let(decs, list(rt, [one(1)]))),
        exp(RExpForm::Fn(rules(rt), Place::Reg(3))),
        exp(RExpForm::Case(part(rt, 1), rules(rt))),
        exp(RExpForm::Handle(part(rt, 1), rules(rt))),
        exp(RExpForm::Raise(part(rt, 1))),
        exp(RExpForm::If(part(rt, 1), part(rt, 2), part(rt, 3))),
        exp(RExpForm::Both(part(rt, 1), part(rt, 2))),
        exp(RExpForm::Either(part(rt, 1), part(rt, 2))),
        exp(RExpForm::Quote(pieces(rt), Place::Reg(3))),
        exp(RExpForm::LetRegion(list(rt, [3]), part(rt, 1))),
        exp(RExpForm::Fix(group(rt), part(rt, 1))),
        exp(RExpForm::Inst(
            text(rt, "f"),
            list(rt, [Place::Reg(3)]),
            list(rt, [effect(rt)]),
        )),
    ]
}

pub(crate) fn region_program(rt: &(impl Abort + AllocGlobal)) -> RProgram {
    let data = MData {
        declaration: 6,
        params: 1,
        cons: list(
            rt,
            [(text(rt, "A"), None), (text(rt, "B"), Some(MTy::Var(0)))],
        ),
    };
    let argument = Some(RTy::Str(Place::Global));
    RProgram {
        datatypes: list(rt, [data]),
        exceptions: list(rt, [(text(rt, "E"), None), (text(rt, "F"), argument)]),
        items: list(rt, region_declarations(rt)),
    }
}

#[test]
fn copies_region_terms(rt: HostRuntime) -> Result<(), Fail> {
    are_copied(&rt, &type_of_each_form(&rt));
    are_copied(&rt, &region_patterns(&rt));
    are_copied(&rt, &region_forms(&rt));
    are_copied(&rt, &region_declarations(&rt));
    are_copied(&rt, &[region_program(&rt)]);
    Ok(())
}

impl Copied for RTy {
    fn copied(&self, alloc: Global) -> Result<RTy, NoMemory> {
        self.try_copy(alloc)
    }
}

impl Copied for RPat {
    fn copied(&self, alloc: Global) -> Result<RPat, NoMemory> {
        self.try_copy(alloc)
    }
}

impl Copied for RExp {
    fn copied(&self, alloc: Global) -> Result<RExp, NoMemory> {
        self.try_copy(alloc)
    }
}

impl Copied for RDec {
    fn copied(&self, alloc: Global) -> Result<RDec, NoMemory> {
        self.try_copy(alloc)
    }
}

impl Copied for RProgram {
    fn copied(&self, alloc: Global) -> Result<RProgram, NoMemory> {
        self.try_copy(alloc)
    }
}
