// Patterns.
ghost use Rattle.std.specs.Prelude.{length, map, OnOk};
ghost use Rattle.typing_rules.specs.Scope.{pat_parts};
ghost use Rattle.sml_syntax.specs.declared.tree.PatForm.{out-PatForm};
ghost use Rattle.hm_infer.specs.Numbering.{Numbered, AllNumbered, a_pat};

use crate::inference::Inference;
use crate::named::Named;
use hm_scheme::Stop;
use sml_syntax::{Pat, PatForm};

impl Inference {
    /// The class of a pattern, whose names are added to the list.
    #[cycle(patterns)]
    pub(crate) fn pat(&mut self, p: &Pat, named: &mut Vec<Named>) -> Result<u32, Stop>
        ensures { OnOk result (Numbered (a_pat p.now) (length self.old.nodes.items) (length self.new.nodes.items)) }
    {
        let node = self.open()?;
        let class = self.pat_form(&p.form, named)?;
        self.close(node, class);
        Ok(class)
    }

    #[cycle(patterns)]
    fn pat_form(&mut self, form: &PatForm, named: &mut Vec<Named>) -> Result<u32, Stop>
        ensures { OnOk result (AllNumbered (map a_pat (pat_parts (out-PatForm form.now))) (length self.old.nodes.items) (length self.new.nodes.items)) }
    {
        match form {
            PatForm::Any => self.context.types.var(false),
            PatForm::Int(_) => Ok(self.context.plain.int),
            PatForm::Char(_) => Ok(self.context.plain.char),
            PatForm::Str(_) => Ok(self.context.plain.string),
            PatForm::Unit => Ok(self.context.plain.unit),
            PatForm::Name(name) => self
                .context
                .named_pat(name, self.nodes.len().saturating_sub(1), named),
            PatForm::Tuple(ps) => {
                let parts = self.pats(ps.as_slice(), named)?;
                self.context.types.tuple(parts.as_slice())
            }
            PatForm::List(ps) => {
                let parts = self.pats(ps.as_slice(), named)?;
                self.context.list_of(parts.as_slice())
            }
            PatForm::Con(name, argument) => {
                let node = self.nodes.len().saturating_sub(1);
                let class = self.pat(argument.get(), named)?;
                self.context.constructed(name, node, class)
            }
            PatForm::Typed(part, t) => {
                let class = self.pat(part.get(), named)?;
                self.context.constrain(class, t)
            }
        }
    }

    #[cycle(patterns)]
    fn pats(&mut self, ps: &[Pat], named: &mut Vec<Named>) -> Result<Vec<u32>, Stop>
        ensures { OnOk result (AllNumbered (map a_pat ps.now) (length self.old.nodes.items) (length self.new.nodes.items)) }
    {
        let mut parts = Vec::new(self.context.alloc);
        for p in ps {
            let part = self.pat(p, named)?;
            parts.push(part)?;
        }
        Ok(parts)
    }
}
