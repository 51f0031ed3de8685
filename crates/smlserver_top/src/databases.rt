// The databases that a command is given, against those that a project names.
ghost use Rattle.std.specs.Prelude.{◌≡◌};
ghost use Rattle.smlserver_top.specs.Databases.{is_among, are_among, same_names};

use sml_syntax::Text;

fn is_among(names: &[Text], name: &Text) -> bool
    ensures { result ≡ is_among names.now name.now }
{
    names.iter().any(|other| *name == *other)
}

fn are_among(others: &[Text], names: &[Text]) -> bool
    ensures { result ≡ are_among others.now names.now }
{
    names.iter().all(|name| is_among(others, name))
}

/// Whether two lists hold the same names.
pub(crate) fn same_names(given: &[Text], named: &[Text]) -> bool
    ensures { result ≡ same_names given.now named.now }
{
    are_among(named, given) && are_among(given, named)
}
