// The size of a program, which bounds its code: for each item, expression and pattern of the program
// without regions 1 and the nodes of its type, times 1 and the functions around it, and for each type that
// is compared 1 and its nodes, times 1 and its constructors.
use crate::types::{compared_type, erased, instance};
use region_syntax::{
    FixDef, MTy, RBind, RDec, RExp, RExpForm, RPat, RPatForm, RPiece, RProgram, RRule, RTy,
};
use sml_syntax::NoMemory;
use std::alloc::Global;

/// From this size on code may be full. Sizes are told exactly up to here.
const ENOUGH: u64 = 2_097_152;

/// The size of a program, or some number above 1,048,576 where it is greater than that.
pub fn program_size(alloc: Global, program: &RProgram) -> Result<u64, NoMemory> {
    let mut sizes = Sizes {
        alloc,
        total: 0,
        compared: Vec::new(alloc),
    };
    sizes.items(program.items.as_slice())?;
    sizes.equalities(program)?;
    Ok(sizes.total)
}

#[derive(Drop)]
struct Sizes {
    alloc: Global,
    total: u64,
    /// The types that are compared.
    compared: Vec<MTy>,
}

impl Sizes {
    fn add(&mut self, size: u64) {
        self.total = self.total.saturating_add(size);
    }

    fn node(&mut self, ty: &RTy, around: u64) {
        let functions = around.saturating_add(1);
        self.add(type_nodes(ty).saturating_add(1).saturating_mul(functions));
    }

    fn items(&mut self, decs: &[RDec]) -> Result<(), NoMemory> {
        for dec in decs {
            self.add(1);
            match dec {
                RDec::Local(hidden, shown) => {
                    self.items(hidden.as_slice())?;
                    self.items(shown.as_slice())?;
                }
                RDec::Val(binds) => self.bindings(binds.as_slice(), 0)?,
                RDec::ValRec(group) => self.group(group.as_slice(), 0)?,
            }
        }
        Ok(())
    }

    #[cycle(sizes)]
    fn decs(&mut self, decs: &[RDec], around: u64) -> Result<(), NoMemory> {
        for dec in decs {
            match dec {
                RDec::Local(hidden, shown) => {
                    self.decs(hidden.as_slice(), around)?;
                    self.decs(shown.as_slice(), around)?;
                }
                RDec::Val(binds) => self.bindings(binds.as_slice(), around)?,
                RDec::ValRec(group) => self.group(group.as_slice(), around)?,
            }
        }
        Ok(())
    }

    #[cycle(sizes)]
    fn bindings(&mut self, binds: &[RBind], around: u64) -> Result<(), NoMemory> {
        for bind in binds {
            self.pattern(&bind.pat, around);
            self.exp(&bind.exp, around)?;
        }
        Ok(())
    }

    #[cycle(sizes)]
    fn group(&mut self, group: &[FixDef], around: u64) -> Result<(), NoMemory> {
        for def in group {
            self.rules(def.rules.as_slice(), around.saturating_add(1))?;
        }
        Ok(())
    }

    #[cycle(sizes)]
    fn rules(&mut self, rules: &[RRule], around: u64) -> Result<(), NoMemory> {
        for rule in rules {
            self.pattern(&rule.pat, around);
            self.exp(&rule.body, around)?;
        }
        Ok(())
    }

    #[cycle(sizes)]
    fn exps(&mut self, es: &[RExp], around: u64) -> Result<(), NoMemory> {
        for e in es {
            self.exp(e, around)?;
        }
        Ok(())
    }

    #[cycle(sizes)]
    fn pieces(&mut self, pieces: &[RPiece], around: u64) -> Result<(), NoMemory> {
        for piece in pieces {
            if let RPiece::Anti(e) = piece {
                self.exp(e, around)?;
            }
        }
        Ok(())
    }

    #[cycle(sizes)]
    fn exp(&mut self, e: &RExp, around: u64) -> Result<(), NoMemory> {
        if let RExpForm::LetRegion(_, body) = &e.form {
            return self.exp(body.get(), around);
        }
        self.node(&e.ty, around);
        match &e.form {
            RExpForm::Prim(name) => self.primitive(name.as_bytes(), &e.ty),
            RExpForm::Tuple(es, _) | RExpForm::List(es, _) => self.exps(es.as_slice(), around),
            RExpForm::Seq(es) => self.exps(es.as_slice(), around),
            RExpForm::App(f, argument) => {
                self.exp(f.get(), around)?;
                self.exp(argument.get(), around)
            }
            RExpForm::Let(decs, body) => {
                self.decs(decs.as_slice(), around)?;
                self.exps(body.as_slice(), around)
            }
            RExpForm::Fn(rules, _) => self.rules(rules.as_slice(), around.saturating_add(1)),
            RExpForm::Case(part, rules) | RExpForm::Handle(part, rules) => {
                self.exp(part.get(), around)?;
                self.rules(rules.as_slice(), around)
            }
            RExpForm::Raise(part) => self.exp(part.get(), around),
            RExpForm::If(test, yes, no) => {
                self.exp(test.get(), around)?;
                self.exp(yes.get(), around)?;
                self.exp(no.get(), around)
            }
            RExpForm::Both(left, right) | RExpForm::Either(left, right) => {
                self.exp(left.get(), around)?;
                self.exp(right.get(), around)
            }
            RExpForm::Quote(pieces, _) => self.pieces(pieces.as_slice(), around),
            RExpForm::Fix(group, body) => {
                self.group(group.as_slice(), around)?;
                self.exp(body.get(), around)
            }
            _ => Ok(()),
        }
    }

    fn pattern(&mut self, pat: &RPat, around: u64) {
        self.node(&pat.ty, around);
        match &pat.form {
            RPatForm::Tuple(parts) | RPatForm::List(parts) => {
                for part in parts.as_slice() {
                    self.pattern(part, around);
                }
            }
            RPatForm::App(_, argument) => self.pattern(argument.get(), around),
            _ => {}
        }
    }

    // A use of equality at a type.
    fn primitive(&mut self, name: &[u8], ty: &RTy) -> Result<(), NoMemory> {
        if matches!(name, b"=" | b"<>") {
            if let Some(ty) = compared_type(ty) {
                let ty = erased(self.alloc, ty)?;
                self.compare(ty)?;
            }
        }
        Ok(())
    }

    fn compare(&mut self, ty: MTy) -> Result<(), NoMemory> {
        if !self.compared.as_slice().contains(&ty) {
            self.compared.push(ty)?;
        }
        Ok(())
    }

    // The types that are compared, and those of the parts of their values.
    fn equalities(&mut self, program: &RProgram) -> Result<(), NoMemory> {
        for index in 0..ENOUGH {
            if self.total > ENOUGH {
                return Ok(());
            }
            let Some(ty) = self.compared.as_slice().get(index as usize) else {
                return Ok(());
            };
            let ty = ty.try_copy(self.alloc)?;
            self.equality(program, &ty)?;
        }
        self.total = ENOUGH;
        Ok(())
    }

    fn equality(&mut self, program: &RProgram, ty: &MTy) -> Result<(), NoMemory> {
        let mut constructors: u64 = 0;
        match ty {
            MTy::Tuple(parts) => {
                for part in parts.as_slice() {
                    self.compare(part.try_copy(self.alloc)?)?;
                }
            }
            MTy::DataTy(number, args) => {
                if let Some(datatype) = program.datatypes.as_slice().get(*number as usize) {
                    constructors = datatype.cons.as_slice().len() as u64;
                    for (_, argument) in datatype.cons.as_slice() {
                        if let Some(argument) = argument {
                            self.compare(instance(self.alloc, argument, args.as_slice())?)?;
                        }
                    }
                }
            }
            _ => {}
        }
        let nodes = plain_nodes(ty).saturating_add(1);
        self.add(nodes.saturating_mul(constructors.saturating_add(1)));
        Ok(())
    }
}

// The nodes of a type without its places.
fn type_nodes(ty: &RTy) -> u64 {
    match ty {
        RTy::Tuple(_, parts) => {
            let mut nodes: u64 = 1;
            for part in parts.as_slice() {
                nodes = nodes.saturating_add(type_nodes(part));
            }
            nodes
        }
        RTy::DataTy { args, .. } => {
            let mut nodes: u64 = 1;
            for part in args.as_slice() {
                nodes = nodes.saturating_add(type_nodes(part));
            }
            nodes
        }
        RTy::Arrow(_, from, _, to) => type_nodes(from.get())
            .saturating_add(type_nodes(to.get()))
            .saturating_add(1),
        RTy::Ref(_, held) => type_nodes(held.get()).saturating_add(1),
        RTy::CacheTy(_, key, value) => plain_nodes(key.get())
            .saturating_add(plain_nodes(value.get()))
            .saturating_add(1),
        RTy::DescTy(described) => plain_nodes(described.get()).saturating_add(1),
        RTy::Int | RTy::Char | RTy::Unit | RTy::Str(_) | RTy::Exn => 1,
    }
}

fn plain_nodes(ty: &MTy) -> u64 {
    match ty {
        MTy::Tuple(parts) | MTy::DataTy(_, parts) => {
            let mut nodes: u64 = 1;
            for part in parts.as_slice() {
                nodes = nodes.saturating_add(plain_nodes(part));
            }
            nodes
        }
        MTy::Arrow(from, to) | MTy::CacheTy(from, to) => plain_nodes(from.get())
            .saturating_add(plain_nodes(to.get()))
            .saturating_add(1),
        MTy::Ref(held) | MTy::DescTy(held) => plain_nodes(held.get()).saturating_add(1),
        MTy::Int | MTy::Char | MTy::Str | MTy::Unit | MTy::Exn | MTy::Var(_) => 1,
    }
}
