//! The names of the basis values, and the text of the prelude.
#![tactic(auto)]

ghost use Rattle.std.specs.Prelude.{◌≡◌, ◌<◌, length, position, bytes_eq, option_map, IfOk, IfSome};
ghost use Rattle.sml_evaluation.specs.PreludeText.{prelude_text};
ghost use Rattle.basis_table.specs.BasisTable.{basis_values};

use sml_syntax::{NoMemory, Text};
use std::alloc::Global;

/// A name of the basis values.
#[derive(Clone, Copy, Debug, PartialEq, Eq)]
pub struct PrimType {
    /// Its place in the table, from 0.
    pub row: u32,
}

/// The names in the order of the table.
const NAMES: [&str; 46] = [
    "+",
    "-",
    "*",
    "div",
    "mod",
    "~",
    "<",
    "<=",
    ">",
    ">=",
    "=",
    "<>",
    "^",
    "ref",
    "!",
    ":=",
    "ord",
    "chr",
    "size",
    "str",
    "String.sub",
    "substring",
    "concat",
    "String.compare",
    "Int.toString",
    "Int.fromString",
    "Web.write",
    "Web.setType",
    "Web.setStatus",
    "Web.formvar",
    "Web.formvars",
    "Web.Cache.Int",
    "Web.Cache.Bool",
    "Web.Cache.Char",
    "Web.Cache.String",
    "Web.Cache.Unit",
    "Web.Cache.Pair",
    "Web.Cache.Triple",
    "Web.Cache.Option",
    "Web.Cache.List",
    "Web.Cache.get",
    "Web.Cache.lookup",
    "Web.Cache.insert",
    "Web.Cache.flush",
    "Web.Db.dml",
    "Web.Db.rows",
];

/// The prelude, each line ended by LF.
const PRELUDE: &str = "fun not true = false | not false = true
fun ignore _ = ()
fun op before (a, ()) = a
fun op o (f, g) = fn x => f (g x)
fun op @ (nil, ys) = ys | op @ (x :: xs, ys) = x :: (xs @ ys)
fun null nil = true | null _ = false
fun hd nil = raise Empty | hd (x :: _) = x
fun tl nil = raise Empty | tl (_ :: xs) = xs
fun length nil = 0 | length (_ :: xs) = 1 + length xs
fun map f nil = nil | map f (x :: xs) = let val y = f x in y :: map f xs end
fun app f nil = () | app f (x :: xs) = (f x; app f xs)
fun foldl f a nil = a | foldl f a (x :: xs) = foldl f (f (x, a)) xs
fun foldr f a nil = a | foldr f a (x :: xs) = f (x, foldr f a xs)
fun rev xs = foldl (fn (x, a) => x :: a) nil xs
fun isSome (SOME _) = true | isSome NONE = false
fun valOf (SOME x) = x | valOf NONE = raise Option
fun getOpt (SOME x, _) = x | getOpt (NONE, y) = y
fun explode s = let fun go n a = if n < 0 then a else go (n - 1) (String.sub (s, n) :: a)
  in go (size s - 1) nil end
fun implode cs = concat (map str cs)
fun String.translate f s = concat (map f (explode s))
fun Web.quot q = concat (map (fn QUOTE s => s | ANTIQUOTE s => s) q)
fun Web.htmlencode s = String.translate (fn #\"&\" => \"&amp;\" | #\"<\" => \"&lt;\"
  | #\">\" => \"&gt;\" | #\"\\\"\" => \"&quot;\" | c => str c) s
fun Web.Db.qq s = String.translate (fn #\"'\" => \"''\" | c => str c) s
fun Web.Db.qqq s = \"'\" ^ Web.Db.qq s ^ \"'\"
fun Web.Cache.memoize c f k = case Web.Cache.lookup c k of SOME v => v
  | NONE => let val v = f k val _ = Web.Cache.insert (c, k, v) in v end
";

/// The row of a name of the basis values, where it is one.
pub fn prim_type(name: &[u8]) -> Option<PrimType>
    ensures { option_map (λ p. p.row) result ≡ position (λ row. bytes_eq row.0 name.now) basis_values }
{
    match place_among(&NAMES, name) {
        None => None,
        Some(place) => Some(PrimType { row: place as u32 }),
    }
}

/// The text whose declarations come before those of every script.
pub fn prelude(alloc: Global) -> Result<Text, NoMemory>
    ensures { IfOk result (λ text. text ≡ prelude_text) }
{
    Text::from_bytes(alloc, PRELUDE.as_bytes())
}

// The place of the first of these names that is this one.
fn place_among(names: &[&str], name: &[u8]) -> Option<usize>
    ensures place { result ≡ position (λ w. bytes_eq w.now name.now) names.now }
    ensures below { IfSome result (λ i. i < length names.now) }
{
    names.iter().position(|w| w.as_bytes() == name)
}
