// The datatypes and exceptions of the basis.
use region_syntax::{MData, MTy};
use sml_syntax::{Listed, NoMemory, Text};
use std::alloc::Global;

/// The exceptions of the basis without an argument; `Fail` comes behind them.
const EXCEPTIONS: [&str; 8] = [
    "Match",
    "Bind",
    "Div",
    "Overflow",
    "Subscript",
    "Chr",
    "Empty",
    "Option",
];

/// A constructor or exception.
pub(crate) fn constructor(
    alloc: Global,
    name: &[u8],
    argument: Option<MTy>,
) -> Result<(Text, Option<MTy>), NoMemory> {
    Ok((Text::from_bytes(alloc, name)?, argument))
}

fn pair(alloc: Global, first: MTy, second: MTy) -> Result<MTy, NoMemory> {
    let mut parts = Vec::new(alloc);
    parts.push(first)?;
    parts.push(second)?;
    Ok(MTy::Tuple(Listed::of(parts)))
}

// A datatype at one argument.
fn over(alloc: Global, datatype: u32, argument: MTy) -> Result<MTy, NoMemory> {
    let mut arguments = Vec::new(alloc);
    arguments.push(argument)?;
    Ok(MTy::DataTy(datatype, Listed::of(arguments)))
}

// Adds a datatype with these constructors to the list, as a declaration of its own.
fn add(
    datatypes: &mut Vec<MData>,
    params: u32,
    cons: Vec<(Text, Option<MTy>)>,
) -> Result<(), NoMemory> {
    let declaration = datatypes.len().min(4_294_967_295) as u32;
    datatypes.push(MData {
        declaration,
        params,
        cons: Listed::of(cons),
    })?;
    Ok(())
}

// Constructors without argument.
fn constants(alloc: Global, names: &[&str]) -> Result<Vec<(Text, Option<MTy>)>, NoMemory> {
    let mut cons = Vec::new(alloc);
    for name in names {
        cons.push(constructor(alloc, name.as_bytes(), None)?)?;
    }
    Ok(cons)
}

/// The datatypes of the basis: bool, list, option, order, frag and kind.
pub(crate) fn datatypes(alloc: Global) -> Result<Vec<MData>, NoMemory> {
    let mut datatypes = Vec::new(alloc);
    add(&mut datatypes, 0, constants(alloc, &["false", "true"])?)?;
    let mut list = constants(alloc, &["nil"])?;
    let rest = over(alloc, 1, MTy::Var(0))?;
    list.push(constructor(alloc, b"::", Some(pair(alloc, MTy::Var(0), rest)?))?)?;
    add(&mut datatypes, 1, list)?;
    let mut option = constants(alloc, &["NONE"])?;
    option.push(constructor(alloc, b"SOME", Some(MTy::Var(0)))?)?;
    add(&mut datatypes, 1, option)?;
    add(
        &mut datatypes,
        0,
        constants(alloc, &["LESS", "EQUAL", "GREATER"])?,
    )?;
    let mut frag = Vec::new(alloc);
    frag.push(constructor(alloc, b"QUOTE", Some(MTy::Str))?)?;
    frag.push(constructor(alloc, b"ANTIQUOTE", Some(MTy::Var(0)))?)?;
    add(&mut datatypes, 1, frag)?;
    let mut kind = Vec::new(alloc);
    kind.push(constructor(alloc, b"Web.Cache.WhileUsed", Some(limits(alloc)?))?)?;
    kind.push(constructor(alloc, b"Web.Cache.TimeOut", Some(limits(alloc)?))?)?;
    add(&mut datatypes, 0, kind)?;
    Ok(datatypes)
}

// The type of the two limits of a cache.
fn limits(alloc: Global) -> Result<MTy, NoMemory> {
    let first = over(alloc, 2, MTy::Int)?;
    pair(alloc, first, over(alloc, 2, MTy::Int)?)
}

/// The exceptions of the basis.
pub(crate) fn exceptions(alloc: Global) -> Result<Vec<(Text, Option<MTy>)>, NoMemory> {
    let mut exceptions = constants(alloc, &EXCEPTIONS)?;
    exceptions.push(constructor(alloc, b"Fail", Some(MTy::Str))?)?;
    Ok(exceptions)
}
