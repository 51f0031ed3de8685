// Expressions and matches.
use crate::naming::called;
use crate::pattern::constructor_of;
use crate::refusal::MonoRefusal;
use crate::walk::Walk;
use hm_infer::Stands;
use region_syntax::{MExp, MExpForm, MPiece, MRule};
use sml_syntax::{Boxed, Exp, ExpForm, Listed, Piece, Rule, Text};

impl Walk<'_> {
    /// An expression, in the copy that is made.
    #[cycle(programs)]
    pub(crate) fn exp(&mut self, e: &Exp, node: u32) -> Result<MExp, MonoRefusal> {
        if let ExpForm::Typed(part, _) = &e.form {
            return self.exp(part.get(), node.saturating_add(1));
        }
        let ty = self.type_of(node)?;
        let form = self.exp_form(&e.form, node)?;
        Ok(MExp { ty, form })
    }

    #[cycle(programs)]
    fn exp_form(&mut self, form: &ExpForm, node: u32) -> Result<MExpForm, MonoRefusal> {
        let first = node.saturating_add(1);
        match form {
            ExpForm::Int(n) => Ok(MExpForm::Int(*n)),
            ExpForm::Char(c) => Ok(MExpForm::Char(*c)),
            ExpForm::Str(text) => Ok(MExpForm::Str(text.try_copy(self.alloc)?)),
            ExpForm::Name(name) => self.name(name, node),
            ExpForm::Unit | ExpForm::Typed(_, _) => Ok(MExpForm::Unit),
            ExpForm::Tuple(es) => Ok(MExpForm::Tuple(self.exps(es.as_slice(), first)?)),
            ExpForm::List(es) => Ok(MExpForm::List(self.exps(es.as_slice(), first)?)),
            ExpForm::Seq(es) => Ok(MExpForm::Seq(self.exps(es.as_slice(), first)?)),
            ExpForm::App(f, argument) => {
                let f = self.boxed(f.get(), first)?;
                Ok(MExpForm::App(f, self.boxed(argument.get(), self.behind(first))?))
            }
            ExpForm::Let(ds, es) => {
                // The body comes first: it tells what the declarations are used at.
                let behind = self.behind_decs(ds.as_slice(), first);
                let body = self.exps(es.as_slice(), behind)?;
                Ok(MExpForm::Let(self.decs(ds.as_slice(), first)?, body))
            }
            ExpForm::Fn(rules) => Ok(MExpForm::Fn(self.rules(rules.as_slice(), first)?)),
            ExpForm::Case(part, rules) => {
                let part = self.boxed(part.get(), first)?;
                Ok(MExpForm::Case(part, self.rules(rules.as_slice(), self.behind(first))?))
            }
            ExpForm::Handle(part, rules) => {
                let part = self.boxed(part.get(), first)?;
                Ok(MExpForm::Handle(part, self.rules(rules.as_slice(), self.behind(first))?))
            }
            ExpForm::Raise(part) => Ok(MExpForm::Raise(self.boxed(part.get(), first)?)),
            ExpForm::If(test, chosen, otherwise) => {
                let second = self.behind(first);
                let test = self.boxed(test.get(), first)?;
                let chosen = self.boxed(chosen.get(), second)?;
                let otherwise = self.boxed(otherwise.get(), self.behind(second))?;
                Ok(MExpForm::If(test, chosen, otherwise))
            }
            ExpForm::Both(left, right) => {
                let left = self.boxed(left.get(), first)?;
                Ok(MExpForm::Both(left, self.boxed(right.get(), self.behind(first))?))
            }
            ExpForm::Either(left, right) => {
                let left = self.boxed(left.get(), first)?;
                Ok(MExpForm::Either(left, self.boxed(right.get(), self.behind(first))?))
            }
            ExpForm::Quote(pieces) => Ok(MExpForm::Quote(self.pieces(pieces.as_slice(), first)?)),
        }
    }

    #[cycle(programs)]
    fn boxed(&mut self, e: &Exp, node: u32) -> Result<Boxed<MExp>, MonoRefusal> {
        let e = self.exp(e, node)?;
        Ok(Boxed::new(self.alloc, e)?)
    }

    #[cycle(programs)]
    pub(crate) fn exps(&mut self, es: &[Exp], first: u32) -> Result<Listed<MExp>, MonoRefusal> {
        let mut node = first;
        let mut made = Vec::new(self.alloc);
        for e in es {
            made.push(self.exp(e, node)?)?;
            node = self.behind(node);
        }
        Ok(Listed::of(made))
    }

    #[cycle(programs)]
    fn pieces(&mut self, pieces: &[Piece], first: u32) -> Result<Listed<MPiece>, MonoRefusal> {
        let mut node = first;
        let mut made = Vec::new(self.alloc);
        for piece in pieces {
            match piece {
                Piece::Plain(text) => made.push(MPiece::Plain(text.try_copy(self.alloc)?))?,
                Piece::Anti(part) => {
                    made.push(MPiece::Anti(self.exp(part, node)?))?;
                    node = self.behind(node);
                }
            }
        }
        Ok(Listed::of(made))
    }

    /// Rules, of which the first begins with that node.
    #[cycle(programs)]
    pub(crate) fn rules(
        &mut self,
        rules: &[Rule],
        first: u32,
    ) -> Result<Listed<MRule>, MonoRefusal> {
        let mut node = first;
        let mut made = Vec::new(self.alloc);
        for rule in rules {
            let pat = self.pat(&rule.pat, node, None)?;
            let body = self.exp(&rule.body, self.behind(node))?;
            made.push(MRule { pat, body })?;
            node = self.behind(self.behind(node));
        }
        Ok(Listed::of(made))
    }

    // A name: a primitive, a constructor, or a name of a copy.
    fn name(&mut self, name: &Text, node: u32) -> Result<MExpForm, MonoRefusal> {
        let stands = self.stands(node);
        if let Some(con) = constructor_of(stands) {
            return Ok(MExpForm::Con(con));
        }
        let copy = match stands {
            Stands::Primitive => {
                if name.as_bytes() == b"=".as_slice() || name.as_bytes() == b"<>".as_slice() {
                    self.compare(node)?;
                }
                return Ok(MExpForm::Prim(name.try_copy(self.alloc)?));
            }
            Stands::Bound(binding, first) => self.used(binding, first)?,
            Stands::Own(binding) => self.own(binding),
            _ => None,
        };
        Ok(MExpForm::Name(called(self.alloc, name, copy)?))
    }
}
