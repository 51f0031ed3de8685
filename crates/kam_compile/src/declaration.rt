// Declarations: what they bind stays on the stack.
use crate::compiler::Compiler;
use crate::pattern::Matched;
use code_parts::{BIND, Seen, sum};
use region_syntax::{RBind, RDec};
use sml_syntax::NoMemory;

impl Compiler {
    /// Declarations, whose names stay in scope. The answer is the number of words in the frame behind them.
    #[cycle(terms)]
    pub(crate) fn decs(&mut self, decs: &[RDec], depth: u64) -> Result<u64, NoMemory> {
        let mut depth = depth;
        for dec in decs {
            depth = match dec {
                RDec::Val(binds) => self.bindings(binds.as_slice(), depth)?,
                RDec::ValRec(group) => self.group(group.as_slice(), depth)?,
                RDec::Local(hidden, shown) => {
                    let outer = self.scope.depth();
                    let between = self.decs(hidden.as_slice(), depth)?;
                    let inner = self.scope.depth();
                    let behind = self.decs(shown.as_slice(), between)?;
                    self.scope.hide(outer, inner)?;
                    behind
                }
            };
        }
        Ok(depth)
    }

    // The bindings of a `val`. Where a pattern doesn't fit, `Bind` is raised, whose handler's frame has no
    // word of these.
    #[cycle(terms)]
    fn bindings(&mut self, binds: &[RBind], depth: u64) -> Result<u64, NoMemory> {
        let mut depth = depth;
        let mut matched = Matched::new(self.alloc);
        for bind in binds {
            self.exp(&bind.exp, depth, false)?;
            let value = Seen::local(depth);
            depth = self.pattern(&bind.pat, value, sum(depth, 1)?, &mut matched)?;
        }
        for fail in &matched.failing {
            self.writer.aim(fail.jump, BIND);
        }
        self.bind_matched(&matched)?;
        Ok(depth)
    }
}
