// Names of copies.
use sml_syntax::{NoMemory, Text};
use std::alloc::Global;

/// A copy of a binding: the numbers of both.
#[derive(Clone, Copy, Debug, PartialEq, Eq)]
pub(crate) struct Copy {
    pub(crate) binding: u32,
    pub(crate) number: u32,
}

// Adds a `#` and the digits of a number.
fn push_number(name: &mut Vec<u8>, number: u32) -> Result<(), NoMemory> {
    name.push(b'#')?;
    let mut unit: u32 = 1_000_000_000;
    let mut started = false;
    for _ in 0..10 {
        let digit = (number / unit.max(1)) % 10;
        if digit != 0 || started || unit <= 1 {
            name.push(b'0' + digit as u8)?;
            started = true;
        }
        unit = unit / 10;
    }
    Ok(())
}

/// What a name is called: in a copy of its binding the name, the number of the binding and that of the copy, with `#` before either.
pub(crate) fn called(alloc: Global, name: &Text, copy: Option<Copy>) -> Result<Text, NoMemory> {
    match copy {
        None => name.try_copy(alloc),
        Some(copy) => {
            let mut bytes = Vec::from_slice(alloc, name.as_bytes())?;
            push_number(&mut bytes, copy.binding)?;
            push_number(&mut bytes, copy.number)?;
            Ok(Text::from_vec(bytes))
        }
    }
}
