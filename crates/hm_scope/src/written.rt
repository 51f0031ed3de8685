// Types and patterns: what in them has no binding, and the names that patterns bind.
ghost use Rattle.std.specs.Prelude.{◌≡◌, ◌-◌, ◌++◌, length, OnOk};
ghost use Rattle.typing_rules.specs.Scope.{UnboundInType, UnboundInPat, Binds, BindsAll, has_name};
ghost use Rattle.hm_scope.specs.Least.{Sees, Some_of};

use crate::search::Search;
use sml_syntax::{NoMemory, Pat, PatForm, Text, Ty, TyForm};

// Whether the name is one of these.
fn is_among(name: &[u8], names: &[Text]) -> bool
    ensures { result ≡ has_name name.now names.now }
{
    for other in names {
        if other.as_bytes() == name {
            return true;
        }
    }
    false
}

// The first byte of a name that a type ends with.
fn name_place(name: &Text, t: &Ty) -> u64
    ensures { result ≡ t.now.span.to - length name.now }
{
    t.span.to.saturating_sub(name.as_bytes().len() as u64)
}

impl Search {
    /// A type, with these type variables.
    #[cycle(written_types)]
    pub(crate) fn ty(&mut self, variables: &[Text], t: &Ty)
        ensures { Sees (UnboundInType self.old.names variables.now t.now) self.old self.new }
    {
        match &t.form {
            TyForm::Var(name) => {
                if !is_among(name.as_bytes(), variables) {
                    self.find(t.span.from);
                }
            }
            TyForm::Con(name, arguments) => {
                if !self.has_type(name.as_bytes()) {
                    self.find(name_place(name, t));
                }
                self.tys(variables, arguments.as_slice());
            }
            TyForm::Tuple(parts) => self.tys(variables, parts.as_slice()),
            TyForm::Arrow(from, to) => {
                self.ty(variables, from.get());
                self.ty(variables, to.get());
            }
        }
    }

    #[cycle(written_types)]
    fn tys(&mut self, variables: &[Text], ts: &[Ty])
        ensures { Sees (Some_of (UnboundInType self.old.names variables.now) ts.now) self.old self.new }
    {
        for t in ts {
            self.ty(variables, t);
        }
    }

    /// A pattern.
    #[cycle(patterns)]
    pub(crate) fn pat(&mut self, p: &Pat)
        ensures { Sees (UnboundInPat self.old.names p.now) self.old self.new }
    {
        match &p.form {
            PatForm::Any
            | PatForm::Int(_)
            | PatForm::Char(_)
            | PatForm::Str(_)
            | PatForm::Unit
            | PatForm::Name(_) => {}
            PatForm::Tuple(ps) | PatForm::List(ps) => self.pats(ps.as_slice()),
            PatForm::Con(name, argument) => {
                if self.status(name.as_bytes()).is_none() {
                    self.find(p.span.from);
                }
                self.pat(argument.get());
            }
            PatForm::Typed(part, t) => {
                self.pat(part.get());
                self.ty(&[], t);
            }
        }
    }

    #[cycle(patterns)]
    fn pats(&mut self, ps: &[Pat])
        ensures { Sees (Some_of (UnboundInPat self.old.names) ps.now) self.old self.new }
    {
        for p in ps {
            self.pat(p);
        }
    }

    /// Adds the names that a pattern binds to those of the list.
    #[cycle(bound)]
    pub(crate) fn bound(&self, p: &Pat, names: &mut Vec<Text>) -> Result<(), NoMemory>
        ensures { OnOk result ((more : _) × Binds self.now.names p.now more × (names.new.items ≡ names.old.items ++ more)) }
    {
        match &p.form {
            PatForm::Any | PatForm::Int(_) | PatForm::Char(_) | PatForm::Str(_) | PatForm::Unit => {
                Ok(())
            }
            PatForm::Name(name) => {
                if self.status(name.as_bytes()) != Some(true) {
                    names.push(name.try_copy(self.alloc)?)?;
                }
                Ok(())
            }
            PatForm::Tuple(ps) | PatForm::List(ps) => self.bound_all(ps.as_slice(), names),
            PatForm::Con(_, argument) => self.bound(argument.get(), names),
            PatForm::Typed(part, _) => self.bound(part.get(), names),
        }
    }

    #[cycle(bound)]
    fn bound_all(&self, ps: &[Pat], names: &mut Vec<Text>) -> Result<(), NoMemory>
        ensures { OnOk result ((more : _) × BindsAll self.now.names ps.now more × (names.new.items ≡ names.old.items ++ more)) }
    {
        for p in ps {
            self.bound(p, names)?;
        }
        Ok(())
    }
}
