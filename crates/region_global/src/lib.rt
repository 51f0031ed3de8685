//! All values of a specialised program in the global region: the region program that every machine can run.
#![tactic(auto)]

mod patterns;
mod scope;
mod terms;
mod types;

use region_syntax::{MData, MProgram, MTy, RProgram, RTy};
use sml_syntax::{Listed, NoMemory, Text};
use std::alloc::Global;
use terms::Globals;
use types::global_argument;

/// Everything lies in the global region, and each function and datatype has the effect that this region is used. It takes steps in
/// proportion to the program's size.
pub fn all_global(alloc: Global, program: &MProgram) -> Result<RProgram, NoMemory> {
    Ok(RProgram {
        datatypes: copy_datatypes(alloc, &program.datatypes)?,
        exceptions: global_exceptions(alloc, &program.exceptions)?,
        items: Globals::new(alloc).decs(program.items.as_slice())?,
    })
}

fn copy_datatypes(alloc: Global, datatypes: &Listed<MData>) -> Result<Listed<MData>, NoMemory> {
    let mut copies = Vec::new(alloc);
    for datatype in datatypes.as_slice() {
        copies.push(datatype.try_copy(alloc)?)?;
    }
    Ok(Listed::of(copies))
}

fn global_exceptions(
    alloc: Global,
    exceptions: &Listed<(Text, Option<MTy>)>,
) -> Result<Listed<(Text, Option<RTy>)>, NoMemory> {
    let mut written = Vec::new(alloc);
    for exception in exceptions.as_slice() {
        let name = exception.0.try_copy(alloc)?;
        written.push((name, global_argument(alloc, &exception.1)?))?;
    }
    Ok(Listed::of(written))
}
