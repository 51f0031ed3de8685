// Declarations of values. Each leaves its names in scope.
ghost use Rattle.std.specs.Prelude.{length, map, OnOk};
ghost use Rattle.hm_infer.specs.Numbering.{Numbered, AllNumbered, a_dec};

use crate::inference::Inference;
use hm_scheme::Stop;
use sml_syntax::{Dec, DecForm};

impl Inference {
    #[cycle(programs)]
    pub(crate) fn decs(&mut self, ds: &[Dec]) -> Result<(), Stop>
        ensures { OnOk result (AllNumbered (map a_dec ds.now) (length self.old.nodes.items) (length self.new.nodes.items)) }
    {
        for d in ds {
            self.dec(d)?;
        }
        Ok(())
    }

    /// A declaration of values; any other is ill here. Of one `val`, all expressions stand outside the scope of the names.
    #[cycle(programs)]
    pub(crate) fn dec(&mut self, d: &Dec) -> Result<(), Stop>
        ensures { OnOk result (Numbered (a_dec d.now) (length self.old.nodes.items) (length self.new.nodes.items)) }
    {
        match &d.form {
            DecForm::Val(binds) => {
                let mut bounds = Vec::new(self.context.alloc);
                for bind in binds.as_slice() {
                    let mut bound = self.context.begin_bound(self.nodes.len())?;
                    let pattern = self.pat(&bind.0, &mut bound.named)?;
                    let class = self.exp(&bind.1)?;
                    self.context.end_bound(&mut bound, pattern, class, &bind.1)?;
                    bounds.push(bound)?;
                }
                self.context.add_bounds(bounds.as_slice())
            }
            DecForm::ValRec(binds) => {
                let group = self
                    .context
                    .begin_group(binds.as_slice(), self.nodes.len())?;
                let functions = binds.as_slice();
                for (i, bind) in functions.iter().enumerate() {
                    let (from, to) = self.context.function_of(&group, i)?;
                    self.rules(bind.1.as_slice(), from, to)?;
                }
                self.context.end_group(&group)
            }
            DecForm::Local(hidden, shown) => {
                let outer = self.context.values.depth();
                self.decs(hidden.as_slice())?;
                let inner = self.context.values.depth();
                self.decs(shown.as_slice())?;
                self.context.values.hide(outer, inner)?;
                Ok(())
            }
            DecForm::Abbrev(_) | DecForm::DataDef(_) | DecForm::ExnDef(_) => Err(Stop::Ill),
        }
    }
}
