// The front of a text.
ghost use Rattle.std.specs.Prelude.{◌≡◌};
ghost use Rattle.std.specs.Option.{option_copied};
ghost use Rattle.smlserver_top.specs.Reading.{after};

/// What follows the token, where the bytes begin with it.
pub(crate) fn after<'a>(token: &[u8], bytes: &'a [u8]) -> Option<&'a [u8]>
    ensures { option_copied result ≡ after token.now bytes.now }
{
    bytes.strip_prefix(token)
}
