// The basis. Types are spelt by steps, each a letter that takes types from those before it: `i` int, `c` char, `s` string, `x` exn, `u` unit,
// `b` bool, `o` order, `k` kind, `l` list, `p` option, `f` frag, `r` ref, `t` ty, `h` cache, `A` to `C` variables, `E` one
// of types with equality, a digit a tuple, `>` a function.
ghost use Rattle.std.specs.Prelude.{◌≡◌, map, nat_eq, bytes_eq};
ghost use Rattle.std.specs.List.{list_any};
ghost use Rattle.basis_table.specs.BasisTable.{basis_types};
ghost use Rattle.hm_scheme.specs.Spellings.{type_row, value_rows, constant_rows, applied_rows};

use hm_types::Equality;

/// Types: name, how many arguments, and equality.
pub const TYPES: [(&str, u32, Equality); 14] = [
    ("int", 0, Equality::Parts),
    ("char", 0, Equality::Parts),
    ("string", 0, Equality::Parts),
    ("exn", 0, Equality::Never),
    ("unit", 0, Equality::Parts),
    ("bool", 0, Equality::Parts),
    ("list", 1, Equality::Parts),
    ("option", 1, Equality::Parts),
    ("order", 0, Equality::Parts),
    ("frag", 1, Equality::Parts),
    ("ref", 1, Equality::Always),
    ("Web.Cache.ty", 1, Equality::Never),
    ("Web.Cache.cache", 2, Equality::Never),
    ("Web.Cache.kind", 0, Equality::Never),
];

/// Constructors without argument, exceptions too.
pub const CONSTANTS: [(&str, &str); 15] = [
    ("false", "b"),
    ("true", "b"),
    ("nil", "Al"),
    ("NONE", "Ap"),
    ("LESS", "o"),
    ("EQUAL", "o"),
    ("GREATER", "o"),
    ("Match", "x"),
    ("Bind", "x"),
    ("Div", "x"),
    ("Overflow", "x"),
    ("Subscript", "x"),
    ("Chr", "x"),
    ("Empty", "x"),
    ("Option", "x"),
];

/// Constructors with an argument.
pub const APPLIED: [(&str, &str); 8] = [
    ("::", "AAl2Al>"),
    ("SOME", "AAp>"),
    ("QUOTE", "sAf>"),
    ("ANTIQUOTE", "AAf>"),
    ("Web.Cache.WhileUsed", "ipip2k>"),
    ("Web.Cache.TimeOut", "ipip2k>"),
    ("ref", "AAr>"),
    ("Fail", "sx>"),
];

/// Values. `ref` is a constructor too, and that is what the name stands for.
pub const VALUES: [(&str, &str); 46] = [
    ("+", "ii2i>"),
    ("-", "ii2i>"),
    ("*", "ii2i>"),
    ("div", "ii2i>"),
    ("mod", "ii2i>"),
    ("~", "ii>"),
    ("<", "ii2b>"),
    ("<=", "ii2b>"),
    (">", "ii2b>"),
    (">=", "ii2b>"),
    ("=", "EE2b>"),
    ("<>", "EE2b>"),
    ("^", "ss2s>"),
    ("ref", "AAr>"),
    ("!", "ArA>"),
    (":=", "ArA2u>"),
    ("ord", "ci>"),
    ("chr", "ic>"),
    ("size", "si>"),
    ("str", "cs>"),
    ("String.sub", "si2c>"),
    ("substring", "sii3s>"),
    ("concat", "sls>"),
    ("String.compare", "ss2o>"),
    ("Int.toString", "is>"),
    ("Int.fromString", "sip>"),
    ("Web.write", "su>"),
    ("Web.setType", "su>"),
    ("Web.setStatus", "iu>"),
    ("Web.formvar", "ssp>"),
    ("Web.formvars", "ssl>"),
    ("Web.Cache.Int", "it"),
    ("Web.Cache.Bool", "bt"),
    ("Web.Cache.Char", "ct"),
    ("Web.Cache.String", "st"),
    ("Web.Cache.Unit", "ut"),
    ("Web.Cache.Pair", "AtBtAB2t>>"),
    ("Web.Cache.Triple", "AtBtCtABC3t>>>"),
    ("Web.Cache.Option", "AtApt>"),
    ("Web.Cache.List", "AtAlt>"),
    ("Web.Cache.get", "AtBtsk4ABh>"),
    ("Web.Cache.lookup", "ABhABp>>"),
    ("Web.Cache.insert", "ABhAB3b>"),
    ("Web.Cache.flush", "ABhu>"),
    ("Web.Db.dml", "ssfl2u>"),
    ("Web.Db.rows", "ssfl2sll>"),
];

/// Long names that the prelude binds.
pub const PRELUDE_LONG: [&str; 6] = [
    "String.translate",
    "Web.quot",
    "Web.htmlencode",
    "Web.Db.qq",
    "Web.Db.qqq",
    "Web.Cache.memoize",
];

/// Names that no declaration binds.
pub const FIXED: [&str; 6] = ["true", "false", "nil", "::", "ref", "="];

/// The tables are those of the language, with their types spelt by steps.
pub fn tables_spell_the_basis()
    ensures types { map (λ row. type_row row.0.now row.1 row.2) TYPES ≡ basis_types }
    ensures constants { map (λ row. (row.0.now, row.1.now)) CONSTANTS ≡ constant_rows }
    ensures applied { map (λ row. (row.0.now, row.1.now)) APPLIED ≡ applied_rows }
    ensures values { map (λ row. (row.0.now, row.1.now)) VALUES ≡ value_rows }
{}

/// Whether a name is one of these.
pub fn is_among(name: &[u8], names: &[&str]) -> bool
    ensures { result ≡ list_any (λ other. bytes_eq other.now name.now) names.now }
{
    names.iter().any(|other| other.as_bytes() == name)
}

/// Whether a name has several parts.
pub fn is_long(name: &[u8]) -> bool
    ensures { result ≡ list_any (λ byte. nat_eq byte 46) name.now }
{
    name.contains(&b'.')
}

/// Whether `val` may bind the name.
pub fn may_declare(name: &[u8]) -> bool {
    !is_long(name) && !is_among(name, &FIXED)
}

/// Whether a declaration of constructors or exceptions may bind the name.
pub fn may_construct(name: &[u8]) -> bool {
    name != b"it".as_slice() && may_declare(name)
}

/// Whether a type that is spelt by steps has variables.
pub fn has_variables(steps: &[u8]) -> bool {
    steps
        .iter()
        .any(|step| matches!(step, b'A' | b'B' | b'C' | b'E'))
}
