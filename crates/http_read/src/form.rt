// The pairs of a form.
ghost use Rattle.std.specs.Prelude.{◌≡◌, ◌++◌, IfOk, OnOk};
ghost use Rattle.http_read.specs.Form.{form_text, form_pairs};

use form_urlencoded::{decode, raw_pairs};
use sml_syntax::{Listed, NoMemory, Text};
use std::alloc::Global;
use web_messages::FormVars;

/// The pairs of a query or of a form's body, decoded, in order. What isn't UTF-8 is replaced by U+FFFD.
pub fn form_pairs(alloc: Global, text: &[u8]) -> Result<FormVars, NoMemory>
    ensures { IfOk result (λ form. form.pairs ≡ form_pairs text.now) }
{
    let mut pairs = Vec::new(alloc);
    push_pairs(alloc, &mut pairs, text)?;
    Ok(FormVars {
        pairs: Listed::of(pairs),
    })
}

/// Adds the pairs of a form.
pub fn push_pairs(alloc: Global, pairs: &mut Vec<(Text, Text)>, text: &[u8]) -> Result<(), NoMemory>
    ensures { OnOk result (pairs.new.items ≡ pairs.old.items ++ form_pairs text.now) }
{
    for (name, value) in raw_pairs(text) {
        let name = form_text(alloc, name)?;
        let value = form_text(alloc, value)?;
        pairs.push((name, value))?;
    }
    Ok(())
}

fn form_text(alloc: Global, bytes: &[u8]) -> Result<Text, NoMemory>
    ensures { IfOk result (λ text. text ≡ form_text bytes.now) }
{
    let text = decode(alloc, bytes)?;
    Ok(Text::from_bytes(alloc, text.as_bytes())?)
}
