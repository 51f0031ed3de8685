// Names, long names, type variables and symbols.
ghost use Rattle.std.specs.Prelude.{◌≡◌, ◌≤◌, ◌<◌, ◌+◌, [], ◌∷◌, length, drop, slice_index, slice_range};
ghost use Rattle.grammar_rules.specs.Spelling as spell;
ghost use Rattle.sml_lex.specs.Coded as coded;

use crate::bytes::{Found, Run, is_letter, run_end};
use crate::refusal::LexRefusal;
use crate::words::{WordKind, is_plain, symbol_kind, word_kind};
use sml_syntax::{Text, TokenForm};
use std::alloc::Global;

/// The name, the reserved word or the lack at a letter.
pub(crate) fn name_piece(alloc: Global, bytes: &[u8], at: usize) -> Result<Found, LexRefusal>
    requires { at < length bytes.now }
    ensures { coded.GivesPiece (spell.names at [] (slice_index bytes.now at ∷ [])) (at + 1) (drop (at + 1) bytes.now) result }
{
    let mut word = at;
    let mut end = run_end(bytes, at + 1, Run::Names);
    while goes_on(bytes, word, end) {
        word = end + 1;
        end = run_end(bytes, end + 2, Run::Names);
    }
    named(alloc, bytes, at, word, end)
}

/// Behind this word a dot and a letter go on to a long name.
fn goes_on(bytes: &[u8], word: usize, end: usize) -> bool
    requires onward { word ≤ end }
    requires within { end ≤ length bytes.now }
    ensures { result ≡ coded.goes_on (slice_range bytes.now word end) (drop end bytes.now) }
{
    let [b, c, ..] = &bytes[end..] else {
        return false;
    };
    *b == b'.' && is_letter(*c) && is_plain(&bytes[word..end])
}

/// The piece that a name is whose last word begins at `word`.
fn named(
    alloc: Global,
    bytes: &[u8],
    at: usize,
    word: usize,
    end: usize,
) -> Result<Found, LexRefusal>
    requires first { at ≤ word }
    requires onward { word < end }
    requires within { end ≤ length bytes.now }
    ensures { coded.GivesReading (spell.named at (slice_range bytes.now at word) (slice_range bytes.now word end)) end result }
{
    if word == at {
        let kind = word_kind(&bytes[at..end]);
        return alone(alloc, &bytes[at..end], kind, at, end);
    }
    if !is_plain(&bytes[word..end]) {
        return Err(LexRefusal::BadByte((word - 1) as u64));
    }
    let name = Text::from_bytes(alloc, &bytes[at..end])?;
    Ok(Found {
        form: Some(TokenForm::Long(name)),
        to: end,
    })
}

/// The piece that a word or a run of symbols alone is.
fn alone(
    alloc: Global,
    word: &[u8],
    kind: WordKind,
    at: usize,
    to: usize,
) -> Result<Found, LexRefusal>
    ensures { coded.GivesReading (spell.alone at word.now (coded.word_as kind)) to result }
{
    match kind {
        WordKind::Lacks(lack) => Err(LexRefusal::Unsupported(at as u64, lack)),
        WordKind::Reserved => {
            let mark = Text::from_bytes(alloc, word)?;
            Ok(Found {
                form: Some(TokenForm::Mark(mark)),
                to,
            })
        }
        WordKind::Plain => {
            let name = Text::from_bytes(alloc, word)?;
            Ok(Found {
                form: Some(TokenForm::Name(name)),
                to,
            })
        }
    }
}

/// The type variable at a prime.
pub(crate) fn variable_piece(alloc: Global, bytes: &[u8], at: usize) -> Result<Found, LexRefusal>
    requires { at < length bytes.now }
    ensures { coded.GivesPiece (coded.variable (slice_index bytes.now at)) (at + 1) (drop (at + 1) bytes.now) result }
{
    let to = run_end(bytes, at + 1, Run::Names);
    let name = Text::from_bytes(alloc, &bytes[at..to])?;
    Ok(Found {
        form: Some(TokenForm::TyVar(name)),
        to,
    })
}

/// The name, the reserved symbol or the lack at a symbol byte.
pub(crate) fn symbol_piece(alloc: Global, bytes: &[u8], at: usize) -> Result<Found, LexRefusal>
    requires { at < length bytes.now }
    ensures { coded.GivesPiece (spell.symbols at (slice_index bytes.now at)) (at + 1) (drop (at + 1) bytes.now) result }
{
    let to = run_end(bytes, at + 1, Run::Symbols);
    let kind = symbol_kind(&bytes[at..to]);
    alone(alloc, &bytes[at..to], kind, at, to)
}
