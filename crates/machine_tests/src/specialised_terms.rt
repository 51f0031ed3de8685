// A specialised term of each form.
use crate::copied::{Copied, are_copied, boxed, list, text};
use region_syntax::{
    Constructor, MBind, MData, MDec, MDef, MExp, MExpForm, MPat, MPatForm, MPiece, MProgram, MRule,
    MTy,
};
use sml_syntax::{Boxed, Listed, NoMemory};
use std::alloc::Global;
use std::process::Abort;
use std::test::Fail;

pub(crate) fn type_of_each_form(rt: &(impl Abort + AllocGlobal)) -> [MTy; 12] {
    [
        MTy::Int,
        MTy::Char,
        MTy::Str,
        MTy::Unit,
        MTy::Exn,
        MTy::Tuple(list(rt, [MTy::Int, MTy::Char])),
        MTy::Arrow(boxed(rt, MTy::Int), boxed(rt, MTy::Char)),
        MTy::DataTy(1, list(rt, [MTy::Int])),
        MTy::Ref(boxed(rt, MTy::Int)),
        MTy::CacheTy(boxed(rt, MTy::Int), boxed(rt, MTy::Str)),
        MTy::DescTy(boxed(rt, MTy::Int)),
        MTy::Var(2),
    ]
}

fn pat(form: MPatForm) -> MPat {
    MPat { ty: MTy::Int, form }
}

fn exp(form: MExpForm) -> MExp {
    MExp { ty: MTy::Int, form }
}

fn one(n: i64) -> MExp {
    exp(MExpForm::Int(n))
}

fn part(rt: &(impl Abort + AllocGlobal), n: i64) -> Boxed<MExp> {
    boxed(rt, one(n))
}

/// `x => 1`
fn rules(rt: &(impl Abort + AllocGlobal)) -> Listed<MRule> {
    let rule = MRule {
        pat: pat(MPatForm::Name(text(rt, "x"))),
        body: one(1),
    };
    list(rt, [rule])
}

pub(crate) fn ground_patterns(rt: &(impl Abort + AllocGlobal)) -> [MPat; 10] {
    [
        pat(MPatForm::Any),
        pat(MPatForm::Int(-1)),
        pat(MPatForm::Char(97)),
        pat(MPatForm::Str(text(rt, "a"))),
        pat(MPatForm::Unit),
        pat(MPatForm::Name(text(rt, "a"))),
        pat(MPatForm::Tuple(list(rt, [pat(MPatForm::Any), pat(MPatForm::Unit)]))),
        pat(MPatForm::List(list(rt, [pat(MPatForm::Any), pat(MPatForm::Unit)]))),
        pat(MPatForm::Con(Constructor::Data(2, 0))),
        pat(MPatForm::App(Constructor::Exn(8), boxed(rt, pat(MPatForm::Any)))),
    ]
}

fn group(rt: &(impl Abort + AllocGlobal)) -> Listed<MDef> {
    let def = MDef {
        name: text(rt, "f"),
        rules: rules(rt),
    };
    list(rt, [def])
}

/// `pat = 1`
fn binds(rt: &(impl Abort + AllocGlobal), form: MPatForm) -> Listed<MBind> {
    let bind = MBind {
        pat: pat(form),
        exp: one(1),
    };
    list(rt, [bind])
}

pub(crate) fn ground_declarations(rt: &(impl Abort + AllocGlobal)) -> [MDec; 3] {
    let hidden = list(rt, [MDec::Val(binds(rt, MPatForm::Unit))]);
    let shown = list(rt, [MDec::ValRec(group(rt))]);
    [
        MDec::Val(binds(rt, MPatForm::Any)),
        MDec::ValRec(group(rt)),
        MDec::Local(hidden, shown),
    ]
}

fn pieces(rt: &(impl Abort + AllocGlobal)) -> Listed<MPiece> {
    list(rt, [MPiece::Plain(text(rt, "a")), MPiece::Anti(one(1))])
}

pub(crate) fn ground_forms(rt: &(impl Abort + AllocGlobal)) -> [MExp; 20] {
    let decs = list(rt, ground_declarations(rt));
    [
        one(-1),
        exp(MExpForm::Char(97)),
        exp(MExpForm::Str(text(rt, "a"))),
        exp(MExpForm::Name(text(rt, "a"))),
        exp(MExpForm::Prim(text(rt, "+"))),
        exp(MExpForm::Con(Constructor::Ref)),
        exp(MExpForm::Unit),
        exp(MExpForm::Tuple(list(rt, [one(1), one(2)]))),
        exp(MExpForm::List(list(rt, [one(1), one(2)]))),
        exp(MExpForm::Seq(list(rt, [one(1), one(2)]))),
        exp(MExpForm::App(part(rt, 1), part(rt, 2))),
        exp(MExpForm::Let(decs, list(rt, [one(1)]))),
        exp(MExpForm::Fn(rules(rt))),
        exp(MExpForm::Case(part(rt, 1), rules(rt))),
        exp(MExpForm::Handle(part(rt, 1), rules(rt))),
        exp(MExpForm::Raise(part(rt, 1))),
        exp(MExpForm::If(part(rt, 1), part(rt, 2), part(rt, 3))),
        exp(MExpForm::Both(part(rt, 1), part(rt, 2))),
        exp(MExpForm::Either(part(rt, 1), part(rt, 2))),
        exp(MExpForm::Quote(pieces(rt))),
    ]
}

pub(crate) fn ground_program(rt: &(impl Abort + AllocGlobal)) -> MProgram {
    let data = MData {
        declaration: 6,
        params: 1,
        cons: list(
            rt,
            [(text(rt, "A"), None), (text(rt, "B"), Some(MTy::Var(0)))],
        ),
    };
    MProgram {
        datatypes: list(rt, [data]),
        exceptions: list(rt, [(text(rt, "E"), None), (text(rt, "F"), Some(MTy::Str))]),
        items: list(rt, ground_declarations(rt)),
    }
}

#[test]
fn copies_specialised_terms(rt: HostRuntime) -> Result<(), Fail> {
    are_copied(&rt, &type_of_each_form(&rt));
    are_copied(&rt, &ground_patterns(&rt));
    are_copied(&rt, &ground_forms(&rt));
    are_copied(&rt, &ground_declarations(&rt));
    are_copied(&rt, &[ground_program(&rt)]);
    Ok(())
}

impl Copied for MTy {
    fn copied(&self, alloc: Global) -> Result<MTy, NoMemory> {
        self.try_copy(alloc)
    }
}

impl Copied for MPat {
    fn copied(&self, alloc: Global) -> Result<MPat, NoMemory> {
        self.try_copy(alloc)
    }
}

impl Copied for MExp {
    fn copied(&self, alloc: Global) -> Result<MExp, NoMemory> {
        self.try_copy(alloc)
    }
}

impl Copied for MDec {
    fn copied(&self, alloc: Global) -> Result<MDec, NoMemory> {
        self.try_copy(alloc)
    }
}

impl Copied for MProgram {
    fn copied(&self, alloc: Global) -> Result<MProgram, NoMemory> {
        self.try_copy(alloc)
    }
}
