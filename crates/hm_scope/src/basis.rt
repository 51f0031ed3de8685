// The names of the basis, the last ones first: the first of them is the innermost.
ghost use Rattle.std.specs.Prelude.{◌≡◌, map, reverse, IfOk};
ghost use Rattle.typing_rules.specs.Scope.{basis_names};

use sml_syntax::{NoMemory, Text};
use std::alloc::Global;

/// Value names, each with whether it is a constructor.
const VALUES: [(&str, bool); 69] = [
    ("Web.Db.rows", false),
    ("Web.Db.dml", false),
    ("Web.Cache.flush", false),
    ("Web.Cache.insert", false),
    ("Web.Cache.lookup", false),
    ("Web.Cache.get", false),
    ("Web.Cache.List", false),
    ("Web.Cache.Option", false),
    ("Web.Cache.Triple", false),
    ("Web.Cache.Pair", false),
    ("Web.Cache.Unit", false),
    ("Web.Cache.String", false),
    ("Web.Cache.Char", false),
    ("Web.Cache.Bool", false),
    ("Web.Cache.Int", false),
    ("Web.formvars", false),
    ("Web.formvar", false),
    ("Web.setStatus", false),
    ("Web.setType", false),
    ("Web.write", false),
    ("Int.fromString", false),
    ("Int.toString", false),
    ("String.compare", false),
    ("concat", false),
    ("substring", false),
    ("String.sub", false),
    ("str", false),
    ("size", false),
    ("chr", false),
    ("ord", false),
    (":=", false),
    ("!", false),
    ("ref", false),
    ("^", false),
    ("<>", false),
    ("=", false),
    (">=", false),
    (">", false),
    ("<=", false),
    ("<", false),
    ("~", false),
    ("mod", false),
    ("div", false),
    ("*", false),
    ("-", false),
    ("+", false),
    ("Fail", true),
    ("Option", true),
    ("Empty", true),
    ("Chr", true),
    ("Subscript", true),
    ("Overflow", true),
    ("Div", true),
    ("Bind", true),
    ("Match", true),
    ("ref", true),
    ("Web.Cache.TimeOut", true),
    ("Web.Cache.WhileUsed", true),
    ("ANTIQUOTE", true),
    ("QUOTE", true),
    ("GREATER", true),
    ("EQUAL", true),
    ("LESS", true),
    ("SOME", true),
    ("NONE", true),
    ("::", true),
    ("nil", true),
    ("true", true),
    ("false", true),
];

/// Type names.
const TYPES: [&str; 14] = [
    "Web.Cache.kind",
    "Web.Cache.cache",
    "Web.Cache.ty",
    "ref",
    "frag",
    "order",
    "option",
    "list",
    "bool",
    "unit",
    "exn",
    "string",
    "char",
    "int",
];

/// The value names of the basis, the innermost last.
pub(crate) fn basis_values(alloc: Global) -> Result<Vec<(Text, bool)>, NoMemory>
    ensures { IfOk result (λ values. reverse values.items ≡ basis_names.values) }
{
    entries(alloc, &VALUES)
}

/// The type names of the basis, the innermost last.
pub(crate) fn basis_types(alloc: Global) -> Result<Vec<Text>, NoMemory>
    ensures { IfOk result (λ types. reverse types.items ≡ basis_names.types) }
{
    texts(alloc, &TYPES)
}

// The rows with their names as texts.
fn entries(alloc: Global, rows: &[(&str, bool)]) -> Result<Vec<(Text, bool)>, NoMemory>
    ensures { IfOk result (λ values. values.items ≡ map (λ row. (row.0.now, row.1)) rows.now) }
{
    let mut values = Vec::new(alloc);
    for row in rows {
        values.push((Text::from_bytes(alloc, row.0.as_bytes())?, row.1))?;
    }
    Ok(values)
}

// The names as texts.
fn texts(alloc: Global, names: &[&str]) -> Result<Vec<Text>, NoMemory>
    ensures { IfOk result (λ texts. texts.items ≡ map (λ name. name.now) names.now) }
{
    let mut texts = Vec::new(alloc);
    for name in names {
        texts.push(Text::from_bytes(alloc, name.as_bytes())?)?;
    }
    Ok(texts)
}
