// Patterns.
use crate::naming::{Copy, called};
use crate::refusal::MonoRefusal;
use crate::walk::Walk;
use hm_infer::Stands;
use region_syntax::{MPat, MPatForm};
use sml_syntax::{Boxed, Constructor, Listed, NoMemory, Pat, PatForm, Text};

/// The constructor that a name stands for.
pub(crate) fn constructor_of(stands: Stands) -> Option<Constructor> {
    match stands {
        Stands::Con(constructor) => Some(constructor),
        _ => None,
    }
}

impl Walk<'_> {
    /// A pattern, whose names are those of this copy.
    #[cycle(patterns)]
    pub(crate) fn pat(
        &mut self,
        p: &Pat,
        node: u32,
        copy: Option<Copy>,
    ) -> Result<MPat, MonoRefusal> {
        if let PatForm::Typed(part, _) = &p.form {
            return self.pat(part.get(), node.saturating_add(1), copy);
        }
        let ty = self.type_of(node)?;
        let form = self.pat_form(&p.form, node, copy)?;
        Ok(MPat { ty, form })
    }

    #[cycle(patterns)]
    fn pat_form(
        &mut self,
        form: &PatForm,
        node: u32,
        copy: Option<Copy>,
    ) -> Result<MPatForm, MonoRefusal> {
        let first = node.saturating_add(1);
        match form {
            PatForm::Any | PatForm::Typed(_, _) => Ok(MPatForm::Any),
            PatForm::Int(n) => Ok(MPatForm::Int(*n)),
            PatForm::Char(c) => Ok(MPatForm::Char(*c)),
            PatForm::Str(text) => Ok(MPatForm::Str(text.try_copy(self.alloc)?)),
            PatForm::Unit => Ok(MPatForm::Unit),
            PatForm::Name(name) => Ok(self.named_pat(name, node, copy)?),
            PatForm::Tuple(ps) => Ok(MPatForm::Tuple(self.pats(ps.as_slice(), first, copy)?)),
            PatForm::List(ps) => Ok(MPatForm::List(self.pats(ps.as_slice(), first, copy)?)),
            PatForm::Con(_, argument) => {
                let argument = self.pat(argument.get(), first, copy)?;
                let con = constructor_of(self.stands(node)).unwrap_or(Constructor::Ref);
                Ok(MPatForm::App(con, Boxed::new(self.alloc, argument)?))
            }
        }
    }

    #[cycle(patterns)]
    fn pats(
        &mut self,
        ps: &[Pat],
        first: u32,
        copy: Option<Copy>,
    ) -> Result<Listed<MPat>, MonoRefusal> {
        let mut node = first;
        let mut made = Vec::new(self.alloc);
        for p in ps {
            made.push(self.pat(p, node, copy)?)?;
            node = self.behind(node);
        }
        Ok(Listed::of(made))
    }

    // A name in a pattern: a constructor, or a name that is bound.
    fn named_pat(&self, name: &Text, node: u32, copy: Option<Copy>) -> Result<MPatForm, NoMemory> {
        match constructor_of(self.stands(node)) {
            Some(con) => Ok(MPatForm::Con(con)),
            None => Ok(MPatForm::Name(called(self.alloc, name, copy)?)),
        }
    }

    /// Whether a pattern is one name that it binds.
    pub(crate) fn is_one_name(&self, p: &Pat, node: u32) -> bool {
        match &p.form {
            PatForm::Name(_) => constructor_of(self.stands(node)).is_none(),
            _ => false,
        }
    }
}
