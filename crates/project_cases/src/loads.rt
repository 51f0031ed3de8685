// Projects that are loaded: their scripts, or the refusal.
use crate::projects::show_words;
use outside_world::Files;
use script_loader::{FrontScript, LoadRefusal, load_front};
use sml_syntax::{NoMemory, Text};
use std::alloc::Global;
use web_prims::prelude;

// A script with the number of its declarations behind the prelude, that of its own, and the place of the first of these
// among the texts behind the prelude, where there is one.
fn show_script(alloc: Global, script: &FrontScript, out: &mut String) -> Result<(), NoMemory> {
    let items = script.typed.program.items.as_slice();
    let count = items.len() as u64;
    let all = count.saturating_sub(script.prelude);
    let own = count.saturating_sub(script.before);
    show_words(out, &[script.path.as_bytes(), script.file.as_bytes()])?;
    write!(out, "|{all}|{own}|")?;
    if let Some(dec) = items.get(script.before as usize) {
        let text = prelude(alloc)?;
        write!(out, "{}", dec.span.from.saturating_sub(text.len()))?;
    }
    out.push(' ')?;
    Ok(())
}

// The name of a refusal, its file and its place.
fn parts(refusal: &LoadRefusal) -> Option<(&'static str, &Text, u64)> {
    match refusal {
        LoadRefusal::ProjectLine { file, place } => Some(("ProjectLine", file, *place)),
        LoadRefusal::TwoPaths { file, place } => Some(("TwoPaths", file, *place)),
        LoadRefusal::TooLarge { file, place } => Some(("TooLarge", file, *place)),
        LoadRefusal::FileFault { file, place } => Some(("FileFault", file, *place)),
        LoadRefusal::BadByte { file, place } => Some(("BadByte", file, *place)),
        LoadRefusal::OpenComment { file, place } => Some(("OpenComment", file, *place)),
        LoadRefusal::OpenString { file, place } => Some(("OpenString", file, *place)),
        LoadRefusal::OpenQuote { file, place } => Some(("OpenQuote", file, *place)),
        LoadRefusal::WideNumber { file, place } => Some(("WideNumber", file, *place)),
        LoadRefusal::Unsupported { file, place, .. } => Some(("Unsupported", file, *place)),
        LoadRefusal::Unexpected { file, place } => Some(("Unexpected", file, *place)),
        LoadRefusal::TooDeep { file, place } => Some(("TooDeep", file, *place)),
        LoadRefusal::Unbound { file, place } => Some(("Unbound", file, *place)),
        LoadRefusal::Ill { file, place } => Some(("Ill", file, *place)),
        _ => None,
    }
}

/// What the load of the project `site` answers.
pub(crate) fn show_load<F: Files>(
    alloc: Global,
    files: &mut F,
    out: &mut String,
) -> Result<(), NoMemory> {
    match load_front(alloc, files, &Text::from_bytes(alloc, b"site")?) {
        Ok(front) => {
            for script in front.scripts.as_slice() {
                show_script(alloc, script, out)?;
            }
        }
        Err(refusal) => match parts(&refusal) {
            Some((name, file, place)) => {
                show_words(out, &[name.as_bytes(), file.as_bytes()])?;
                write!(out, "|{place}")?;
            }
            None => out.push_str("another refusal")?,
        },
    }
    Ok(())
}
