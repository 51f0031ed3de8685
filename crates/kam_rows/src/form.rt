// The texts of a form under a name, and names in a list.
use sml_syntax::{NoMemory, Text};
use std::alloc::Global;
use web_messages::FormVars;

/// The first text under a name.
pub fn text_under<'a>(form: &'a FormVars, name: &[u8]) -> Option<&'a Text> {
    for pair in form.pairs.as_slice() {
        if pair.0.as_bytes() == name {
            return Some(&pair.1);
        }
    }
    None
}

/// The texts under a name, in order.
pub fn texts_under(alloc: Global, form: &FormVars, name: &[u8]) -> Result<Vec<Text>, NoMemory> {
    let mut texts = Vec::new(alloc);
    for pair in form.pairs.as_slice() {
        if pair.0.as_bytes() == name {
            texts.push(pair.1.try_copy(alloc)?)?;
        }
    }
    Ok(texts)
}

/// Whether a name is one of these.
pub fn is_listed(names: &[Text], name: &[u8]) -> bool {
    names.iter().any(|other| other.as_bytes() == name)
}
