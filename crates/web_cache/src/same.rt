// Whether two caches are one.
ghost use Rattle.std.specs.Prelude.{◌≡◌, ◌↔◌, IsTrue};
ghost use Rattle.web_cache.specs.SameCache as same;

use sml_syntax::Text;
use web_data::{CacheId, Desc, Kind};

/// Whether the names, the descriptions and the kinds are equal.
pub(crate) fn same_cache(a: &CacheId, b: &CacheId) -> bool
    ensures { IsTrue result ↔ (a.now ≡ b.now) }
{
    if !same_name(&a.name, &b.name) || !same_kind(a.kind, b.kind) {
        return false;
    }
    same_data(a, b)
}

/// Whether the descriptions of keys and of values are equal.
fn same_data(a: &CacheId, b: &CacheId) -> bool
    ensures { IsTrue result ↔ (a.now.key ≡ b.now.key) × (a.now.value ≡ b.now.value) }
{
    if !same_desc(&a.key, &b.key) {
        return false;
    }
    same_desc(&a.value, &b.value)
}

fn same_name(a: &Text, b: &Text) -> bool
    ensures { IsTrue result ↔ (a.now ≡ b.now) }
{
    a == b
}

fn same_kind(a: Kind, b: Kind) -> bool
    ensures { IsTrue result ↔ (a ≡ b) }
{
    a == b
}

fn same_desc(a: &Desc, b: &Desc) -> bool
    ensures { result ≡ same.same_desc a.now b.now }
{
    match (a, b) {
        (Desc::Int, Desc::Int) => true,
        (Desc::Bool, Desc::Bool) => true,
        (Desc::Char, Desc::Char) => true,
        (Desc::Str, Desc::Str) => true,
        (Desc::Unit, Desc::Unit) => true,
        (Desc::Pair(a, b), Desc::Pair(x, y)) => same_desc(a.get(), x.get())
            && same_desc(b.get(), y.get()),
        (Desc::Triple(a, b, c), Desc::Triple(x, y, z)) => {
            same_desc(a.get(), x.get())
                && same_desc(b.get(), y.get())
                && same_desc(c.get(), z.get())
        }
        (Desc::Opt(a), Desc::Opt(x)) => same_desc(a.get(), x.get()),
        (Desc::List(a), Desc::List(x)) => same_desc(a.get(), x.get()),
        _ => false,
    }
}
