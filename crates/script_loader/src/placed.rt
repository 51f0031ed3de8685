// The texts of a project's files, and where each starts in the programs of scripts.
ghost use Rattle.std.specs.Prelude.{◌≡◌, ◌+◌, ◌<◌, ◌^◌, [], ◌∷◌, All, IfOk, length};
ghost use Rattle.script_loader.specs.Places.{of_libraries, placed_from, moved, place_in, prelude_source};
ghost use Rattle.script_loader.specs.Placing.{MayMove};
ghost use Rattle.script_loader.specs.Sources.{bytes_of};

use crate::source::Source;
use project_lines::ProjectFile;
use sml_syntax::{NoMemory, Span, Text, Token};
use std::alloc::Global;
use web_prims::prelude;

/// A file's text, and where it starts: the number of bytes of all texts that stand before it in a script's program.
#[derive(Drop)]
pub(crate) struct Placed {
    pub name: Text,
    pub text: Text,
    pub start: u64,
}

// How many bytes the libraries have.
fn library_bytes(files: &[ProjectFile], sources: &[Source]) -> u64
    requires fits { bytes_of (of_libraries files.now sources.now) < 2 ^ 64 }
    ensures { result ≡ bytes_of (of_libraries files.now sources.now) }
{
    let mut sum = 0;
    for i in 0..files.len().min(sources.len()) {
        match &files[i] {
            ProjectFile::Library(_) => sum += sources[i].text.len(),
            ProjectFile::Script(_, _) => {}
        }
    }
    sum
}

// A file's text at its start.
fn place_text(alloc: Global, source: &Source, start: u64) -> Result<Placed, NoMemory>
    ensures { IfOk result (λ text. text ≡ record { name = source.now.name; text = source.now.text; start = start }) }
{
    Ok(Placed {
        name: source.name.try_copy(alloc)?,
        text: source.text.try_copy(alloc)?,
        start,
    })
}

/// The texts of files with their starts, where texts of `prelude` bytes stand before them. They start behind one another
/// where they are libraries, and behind all libraries where they are scripts.
#[tactic(auto, using(crate::proofs::Places::library_bytes_less))]
pub(crate) fn place_texts(
    alloc: Global,
    prelude: u64,
    files: &[ProjectFile],
    sources: &[Source],
) -> Result<Vec<Placed>, NoMemory>
    requires fits { prelude + bytes_of sources.now < 2 ^ 64 }
    ensures { IfOk result (λ texts. texts.items ≡ placed_from prelude (prelude + bytes_of (of_libraries files.now sources.now)) files.now sources.now) }
{
    let script = prelude + library_bytes(files, sources);
    let mut library = prelude;
    let mut texts = Vec::new(alloc);
    for i in 0..files.len().min(sources.len()) {
        match &files[i] {
            ProjectFile::Library(_) => {
                texts.push(place_text(alloc, &sources[i], library)?)?;
                library += sources[i].text.len();
            }
            ProjectFile::Script(_, _) => {
                texts.push(place_text(alloc, &sources[i], script)?)?;
            }
        }
    }
    Ok(texts)
}

/// Tokens of a text that starts at `start`, at their places in the whole.
pub(crate) fn moved(alloc: Global, start: u64, tokens: Vec<Token>) -> Result<Vec<Token>, NoMemory>
    requires fits { All (MayMove start) tokens.items }
    ensures { IfOk result (λ all. all.items ≡ moved start tokens.items) }
{
    let mut all = Vec::new(alloc);
    for token in tokens {
        let Token { span, form } = token;
        let from = start + span.from;
        let to = start + span.to;
        let span = Span { from, to };
        all.push(Token { span, form })?;
    }
    Ok(all)
}

// Where a place stands among these libraries, or else in the last file, which stands behind them.
fn place_in_libraries(
    alloc: Global,
    files: &[ProjectFile],
    texts: &[Placed],
    last: &Text,
    place: u64,
) -> Result<(Text, u64), NoMemory>
    ensures { IfOk result (λ told. told ≡ place_in (of_libraries files.now texts.now) last.now place) }
{
    let mut rest = place;
    for i in 0..files.len().min(texts.len()) {
        match &files[i] {
            ProjectFile::Library(_) => {
                let size = texts[i].text.len();
                if rest < size {
                    return Ok((texts[i].name.try_copy(alloc)?, rest));
                }
                rest -= size;
            }
            ProjectFile::Script(_, _) => {}
        }
    }
    let name = last.try_copy(alloc)?;
    Ok((name, rest))
}

/// The file that holds a place of a whole, and the place in that file.
pub(crate) fn place_in(
    alloc: Global,
    files: &[ProjectFile],
    texts: &[Placed],
    last: &Text,
    place: u64,
) -> Result<(Text, u64), NoMemory>
    ensures { IfOk result (λ told. told ≡ place_in (prelude_source ∷ of_libraries files.now texts.now) last.now place) }
{
    let Placed { name, text, .. } = prelude_source(alloc)?;
    if place < text.len() {
        return Ok((name, place));
    }
    place_in_libraries(alloc, files, texts, last, place - text.len())
}

/// The prelude as a file.
#[tactic(auto, using(crate::proofs::Places::is_prelude_source))]
pub(crate) fn prelude_source(alloc: Global) -> Result<Placed, NoMemory>
    ensures { IfOk result (λ source. source ≡ prelude_source) }
{
    let text = prelude(alloc)?;
    let name = Text::from_vec(Vec::new(alloc));
    Ok(Placed {
        name,
        text,
        start: 0,
    })
}
