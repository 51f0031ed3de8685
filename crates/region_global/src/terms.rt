// Expressions, matches and declarations.
use crate::scope::Scope;
use crate::types::{function_type, global_type};
use region_syntax::{
    FixDef, MBind, MDec, MDef, MExp, MExpForm, MPiece, MRule, Place, RBind, RDec, RExp, RExpForm,
    RPiece, RRule,
};
use sml_syntax::{Boxed, Listed, NoMemory, Text};
use std::alloc::Global;

/// The names in scope: those of groups are told from others.
#[derive(Drop)]
pub(crate) struct Globals {
    pub alloc: Global,
    pub scope: Scope,
}

impl Globals {
    pub fn new(alloc: Global) -> Globals {
        Globals {
            alloc,
            scope: Scope::new(alloc),
        }
    }

    #[cycle(terms)]
    fn exp(&mut self, exp: &MExp) -> Result<RExp, NoMemory> {
        Ok(RExp {
            form: self.form(&exp.form)?,
            ty: global_type(self.alloc, &exp.ty)?,
        })
    }

    #[cycle(terms)]
    fn form(&mut self, form: &MExpForm) -> Result<RExpForm, NoMemory> {
        match form {
            MExpForm::Int(n) => Ok(RExpForm::Int(*n)),
            MExpForm::Char(c) => Ok(RExpForm::Char(*c)),
            MExpForm::Str(text) => { Ok(RExpForm::Str(text.try_copy(self.alloc)?, Place::Global)) }
            MExpForm::Name(name) => self.name(name),
            MExpForm::Prim(name) => Ok(RExpForm::Prim(name.try_copy(self.alloc)?)),
            MExpForm::Con(con) => Ok(RExpForm::Con(*con)),
            MExpForm::Unit => Ok(RExpForm::Unit),
            MExpForm::Tuple(parts) => {
                Ok(RExpForm::Tuple(self.exps(parts.as_slice())?, Place::Global))
            }
            MExpForm::List(items) => {
                Ok(RExpForm::List(self.exps(items.as_slice())?, Place::Global))
            }
            MExpForm::Seq(steps) => Ok(RExpForm::Seq(self.exps(steps.as_slice())?)),
            MExpForm::App(f, x) => {
                let f = self.boxed(f)?;
                Ok(RExpForm::App(f, self.boxed(x)?))
            }
            MExpForm::Let(decs, body) => {
                let depth = self.scope.depth();
                let decs = self.decs(decs.as_slice())?;
                let body = self.exps(body.as_slice())?;
                self.scope.cut(depth);
                Ok(RExpForm::Let(decs, body))
            }
            MExpForm::Fn(rules) => {
                Ok(RExpForm::Fn(self.rules(rules.as_slice())?, Place::Global))
            }
            MExpForm::Case(x, rules) => {
                let x = self.boxed(x)?;
                Ok(RExpForm::Case(x, self.rules(rules.as_slice())?))
            }
            MExpForm::Handle(x, rules) => {
                let x = self.boxed(x)?;
                Ok(RExpForm::Handle(x, self.rules(rules.as_slice())?))
            }
            MExpForm::Raise(x) => Ok(RExpForm::Raise(self.boxed(x)?)),
            MExpForm::If(x, y, z) => {
                let x = self.boxed(x)?;
                let y = self.boxed(y)?;
                Ok(RExpForm::If(x, y, self.boxed(z)?))
            }
            MExpForm::Both(x, y) => {
                let x = self.boxed(x)?;
                Ok(RExpForm::Both(x, self.boxed(y)?))
            }
            MExpForm::Either(x, y) => {
                let x = self.boxed(x)?;
                Ok(RExpForm::Either(x, self.boxed(y)?))
            }
            MExpForm::Quote(pieces) => Ok(RExpForm::Quote(
                self.pieces(pieces.as_slice())?,
                Place::Global,
            )),
        }
    }

    // A use of a name of a group is an instance.
    fn name(&mut self, name: &Text) -> Result<RExpForm, NoMemory> {
        let text = name.try_copy(self.alloc)?;
        if !self.scope.is_of_group(name) {
            return Ok(RExpForm::Name(text));
        }
        let places = Listed::of(Vec::new(self.alloc));
        let effects = Listed::of(Vec::new(self.alloc));
        Ok(RExpForm::Inst(text, places, effects))
    }

    #[cycle(terms)]
    fn boxed(&mut self, exp: &Boxed<MExp>) -> Result<Boxed<RExp>, NoMemory> {
        Boxed::new(self.alloc, self.exp(exp.get())?)
    }

    #[cycle(terms)]
    fn exps(&mut self, exps: &[MExp]) -> Result<Listed<RExp>, NoMemory> {
        let mut written = Vec::new(self.alloc);
        for exp in exps {
            written.push(self.exp(exp)?)?;
        }
        Ok(Listed::of(written))
    }

    #[cycle(terms)]
    fn pieces(&mut self, pieces: &[MPiece]) -> Result<Listed<RPiece>, NoMemory> {
        let mut written = Vec::new(self.alloc);
        for piece in pieces {
            written.push(self.piece(piece)?)?;
        }
        Ok(Listed::of(written))
    }

    #[cycle(terms)]
    fn piece(&mut self, piece: &MPiece) -> Result<RPiece, NoMemory> {
        match piece {
            MPiece::Plain(text) => Ok(RPiece::Plain(text.try_copy(self.alloc)?)),
            MPiece::Anti(exp) => Ok(RPiece::Anti(self.exp(exp)?)),
        }
    }

    #[cycle(terms)]
    fn rules(&mut self, rules: &[MRule]) -> Result<Listed<RRule>, NoMemory> {
        let mut written = Vec::new(self.alloc);
        for rule in rules {
            written.push(self.rule(rule)?)?;
        }
        Ok(Listed::of(written))
    }

    #[cycle(terms)]
    fn rule(&mut self, rule: &MRule) -> Result<RRule, NoMemory> {
        let depth = self.scope.depth();
        let mut named = Vec::new(self.alloc);
        let pat = self.pat(&rule.pat, &mut named)?;
        self.scope.add_all(named.as_slice())?;
        let body = self.exp(&rule.body)?;
        self.scope.cut(depth);
        Ok(RRule { pat, body })
    }

    #[cycle(terms)]
    pub fn decs(&mut self, decs: &[MDec]) -> Result<Listed<RDec>, NoMemory> {
        let mut written = Vec::new(self.alloc);
        for dec in decs {
            written.push(self.dec(dec)?)?;
        }
        Ok(Listed::of(written))
    }

    #[cycle(terms)]
    fn dec(&mut self, dec: &MDec) -> Result<RDec, NoMemory> {
        match dec {
            MDec::Val(binds) => Ok(RDec::Val(self.val(binds.as_slice())?)),
            MDec::ValRec(defs) => {
                for def in defs.as_slice() {
                    self.scope.add_function(&def.name)?;
                }
                Ok(RDec::ValRec(self.group(defs.as_slice())?))
            }
            MDec::Local(hidden, shown) => {
                let outer = self.scope.depth();
                let hidden = self.decs(hidden.as_slice())?;
                let inner = self.scope.depth();
                let shown = self.decs(shown.as_slice())?;
                self.scope.hide(outer, inner)?;
                Ok(RDec::Local(hidden, shown))
            }
        }
    }

    #[cycle(terms)]
    fn val(&mut self, binds: &[MBind]) -> Result<Listed<RBind>, NoMemory> {
        let mut named = Vec::new(self.alloc);
        let mut written = Vec::new(self.alloc);
        for bind in binds {
            let exp = self.exp(&bind.exp)?;
            let pat = self.pat(&bind.pat, &mut named)?;
            written.push(RBind { pat, exp })?;
        }
        self.scope.add_all(named.as_slice())?;
        Ok(Listed::of(written))
    }

    #[cycle(terms)]
    fn group(&mut self, defs: &[MDef]) -> Result<Listed<FixDef>, NoMemory> {
        let mut written = Vec::new(self.alloc);
        for def in defs {
            written.push(self.function(def)?)?;
        }
        Ok(Listed::of(written))
    }

    #[cycle(terms)]
    fn function(&mut self, def: &MDef) -> Result<FixDef, NoMemory> {
        Ok(FixDef {
            name: def.name.try_copy(self.alloc)?,
            regions: Listed::of(Vec::new(self.alloc)),
            effects: Listed::of(Vec::new(self.alloc)),
            ty: function_type(self.alloc, def)?,
            rules: self.rules(def.rules.as_slice())?,
            at: Place::Global,
        })
    }
}
