// Names and types of scripts.
use crate::scripts::tree_of;
use hm_infer::{TypeRefusal, Typed, infer};
use hm_scheme::{TYPES, TyName};
use hm_scope::first_unbound;
use hm_types::TypeTable;
use sml_syntax::{Listed, NoMemory, Program};
use std::alloc::Global;
use web_prims::prelude;

/// The first place of a script where something has no binding, the prelude aside, or `bound`.
pub(crate) fn show_unbound(alloc: Global, script: &[u8], out: &mut String) -> Result<(), NoMemory> {
    if let Some(program) = tree_of(alloc, script, out)? {
        match first_unbound(alloc, &program)? {
            Some(place) => write!(out, "{place}")?,
            None => out.push_str("bound")?,
        }
    }
    Ok(())
}

// The script behind the prelude.
fn behind_prelude(
    alloc: Global,
    script: &[u8],
    out: &mut String,
) -> Result<Option<Program>, NoMemory> {
    let text = prelude(alloc)?;
    let Some(before) = tree_of(alloc, text.as_bytes(), out)? else {
        return Ok(None);
    };
    let Some(after) = tree_of(alloc, script, out)? else {
        return Ok(None);
    };
    let mut items = before.items.into_vec();
    let mut others = after.items.into_vec();
    items.append(&mut others)?;
    Ok(Some(Program {
        items: Listed::of(items),
    }))
}

/// `ok` and the type of the script's last node, or the refusal.
pub(crate) fn show_typing(alloc: Global, script: &[u8], out: &mut String) -> Result<(), NoMemory> {
    let Some(program) = behind_prelude(alloc, script, out)? else {
        return Ok(());
    };
    match infer(alloc, &program) {
        Ok(typed) => show_last_type(alloc, &typed, out)?,
        Err(TypeRefusal::Unbound(place)) => write!(out, "Unbound {place}")?,
        Err(TypeRefusal::Ill(place)) => write!(out, "Ill {place}")?,
        Err(TypeRefusal::NoMemory) => return Err(NoMemory),
    }
    Ok(())
}

fn show_last_type(alloc: Global, typed: &Typed, out: &mut String) -> Result<(), NoMemory> {
    out.push_str("ok")?;
    if let Some(class) = typed.types.as_slice().last() {
        let mut variables = Vec::new(alloc);
        out.push(' ')?;
        let names = typed.names.as_slice();
        show_class(&typed.table, names, *class, 12, &mut variables, out)?;
    }
    Ok(())
}

// A variable, by the number of its first place in the type; one whose types admit equality stands behind `=`.
fn show_variable(
    table: &TypeTable,
    class: u32,
    variables: &mut Vec<u32>,
    out: &mut String,
) -> Result<(), NoMemory> {
    if class >= table.count() {
        return Ok(());
    }
    let root = table.find(class);
    let equality = if table.asked(class).equality { "=" } else { "" };
    if !variables.contains(&root) {
        variables.push(root)?;
    }
    for (number, other) in variables.iter().enumerate() {
        if *other == root {
            write!(out, "'{equality}{number}")?;
        }
    }
    Ok(())
}

fn show_name(names: &[TyName], name: u32, out: &mut String) -> Result<(), NoMemory> {
    match names.get(name as usize) {
        Some(TyName::Basis(row)) => match TYPES.get(*row as usize) {
            Some(row) => out.push_str(row.0)?,
            None => out.push_str("?")?,
        },
        Some(TyName::Arrow) => out.push_str("arrow")?,
        Some(TyName::Tuple(_)) => out.push_str("tuple")?,
        Some(TyName::Declared(number)) => write!(out, "datatype{number}")?,
        None => out.push_str("?")?,
    }
    Ok(())
}

// A part of a class, where there is one.
fn part_of(table: &TypeTable, class: u32, index: u32) -> Option<u32> {
    if class >= table.count() {
        return None;
    }
    table.part(class, index)
}

// The type of a class, its name before its parts, down to a depth.
#[cycle(shown_classes)]
fn show_class(
    table: &TypeTable,
    names: &[TyName],
    class: u32,
    depth: u32,
    variables: &mut Vec<u32>,
    out: &mut String,
) -> Result<(), NoMemory> {
    if depth == 0 || class >= table.count() {
        return Ok(out.push_str("..")?);
    }
    match table.name(class) {
        Some(name) => show_made(table, names, class, name, depth - 1, variables, out),
        None => show_variable(table, class, variables, out),
    }
}

// A type name, and the parts of a class behind it.
#[cycle(shown_classes)]
fn show_made(
    table: &TypeTable,
    names: &[TyName],
    class: u32,
    name: u32,
    depth: u32,
    variables: &mut Vec<u32>,
    out: &mut String,
) -> Result<(), NoMemory> {
    let count = table.arity(name).unwrap_or(0);
    if count > 0 {
        out.push('(')?;
    }
    show_name(names, name, out)?;
    for index in 0..count {
        out.push(' ')?;
        if let Some(part) = part_of(table, class, index) {
            show_class(table, names, part, depth, variables, out)?;
        }
    }
    if count > 0 {
        out.push(')')?;
    }
    Ok(())
}
