// Whole programs.
use crate::refusal::MonoRefusal;
use crate::tables::Tables;
use crate::walk::Walk;
use hm_infer::Typed;
use region_syntax::{MDec, MProgram};
use sml_syntax::Listed;
use std::alloc::Global;
use web_prims::prelude;

/// The specialised program of a program with its types, as `infer` gives it: each binding once for each list of types at which it is
/// used, and once where it generalises nothing. Variables that are left are unit. Of the prelude, whose text stands before that of
/// the program, functions that nothing reaches are left out.
pub fn specialise(alloc: Global, typed: &Typed) -> Result<MProgram, MonoRefusal> {
    let before = prelude(alloc)?.len();
    let mut walk = Walk::start(alloc, typed)?;
    let tables = walk.tables()?;
    let items = walk.items(before)?;
    let Tables {
        datatypes,
        exceptions,
        ..
    } = tables;
    Ok(MProgram {
        datatypes: Listed::of(datatypes),
        exceptions: Listed::of(exceptions),
        items,
    })
}

impl Walk<'_> {
    // The items, of which those that end within so many bytes are the prelude's.
    fn items(&mut self, before: u64) -> Result<Listed<MDec>, MonoRefusal> {
        let typed = self.typed;
        let ds = typed.program.items.as_slice();
        let starts = self.starts(ds, 0)?;
        let mut made = Vec::new(self.alloc);
        for i in (0..ds.len()).rev() {
            let node = starts.get(i).copied().unwrap_or(0);
            self.dec(&ds[i], node, ds[i].span.to <= before, &mut made)?;
        }
        made.reverse();
        Ok(Listed::of(made))
    }
}
