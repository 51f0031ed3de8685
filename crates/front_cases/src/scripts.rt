// Scripts: their tokens, their trees, and the text that they are printed as.
use crate::trees::show_declarations;
use case_lines::show_text;
use sml_lex::{LexRefusal, lex};
use sml_parse::{ParseRefusal, parse};
use sml_print::print_program;
use sml_syntax::{Lack, NoMemory, Program, Text, Token, TokenForm};
use std::alloc::Global;

// The name of a copy of the lack, and its place.
fn show_lack(alloc: Global, out: &mut String, lack: Lack, place: u64) -> Result<(), NoMemory> {
    let copy = lack.try_copy(alloc)?;
    if copy == lack {
        write!(out, "{copy:?} {place}")?;
    }
    Ok(())
}

fn show_lex_refusal(alloc: Global, out: &mut String, refusal: LexRefusal) -> Result<(), NoMemory> {
    match refusal {
        LexRefusal::BadByte(place) => write!(out, "BadByte {place}")?,
        LexRefusal::OpenComment(place) => write!(out, "OpenComment {place}")?,
        LexRefusal::OpenString(place) => write!(out, "OpenString {place}")?,
        LexRefusal::OpenQuote(place) => write!(out, "OpenQuote {place}")?,
        LexRefusal::WideNumber(place) => write!(out, "WideNumber {place}")?,
        LexRefusal::Unsupported(place, lack) => show_lack(alloc, out, lack, place)?,
        LexRefusal::NoMemory => return Err(NoMemory),
    }
    Ok(())
}

fn show_parse_refusal(
    alloc: Global,
    out: &mut String,
    refusal: ParseRefusal,
) -> Result<(), NoMemory> {
    match refusal {
        ParseRefusal::Unexpected(place) => write!(out, "Unexpected {place}")?,
        ParseRefusal::Unsupported(place, lack) => show_lack(alloc, out, lack, place)?,
        ParseRefusal::TooDeep(place) => write!(out, "TooDeep {place}")?,
        ParseRefusal::NoMemory => return Err(NoMemory),
    }
    Ok(())
}

fn show_codes(out: &mut String, kind: &str, text: &Text) -> Result<(), NoMemory> {
    out.push_str(kind)?;
    for b in text.as_bytes() {
        write!(out, " {b}")?;
    }
    Ok(())
}

fn show_spelt(out: &mut String, kind: &str, text: &Text) -> Result<(), NoMemory> {
    out.push_str(kind)?;
    show_text(out, text.as_bytes(), b'\\')?;
    Ok(())
}

fn show_token(out: &mut String, token: &Token) -> Result<(), NoMemory> {
    write!(out, "{}-{} ", token.span.from, token.span.to)?;
    match &token.form {
        TokenForm::Int(n) => write!(out, "Int {n}")?,
        TokenForm::Char(c) => write!(out, "Char {c}")?,
        TokenForm::Str(text) => show_codes(out, "Str", text)?,
        TokenForm::Plain(text) => show_codes(out, "Plain", text)?,
        TokenForm::Name(text) => show_spelt(out, "Name ", text)?,
        TokenForm::Long(text) => show_spelt(out, "Long ", text)?,
        TokenForm::TyVar(text) => show_spelt(out, "TyVar ", text)?,
        TokenForm::Mark(text) => show_spelt(out, "Mark ", text)?,
        TokenForm::Anti(text) => show_spelt(out, "Anti ", text)?,
        TokenForm::QuoteFrom => out.push_str("QuoteFrom")?,
        TokenForm::QuoteTo => out.push_str("QuoteTo")?,
        TokenForm::AntiFrom => out.push_str("AntiFrom")?,
        TokenForm::AntiTo => out.push_str("AntiTo")?,
    }
    Ok(())
}

/// The tokens of a script, of which each one is a copy, or the refusal.
pub(crate) fn show_tokens(alloc: Global, script: &[u8], out: &mut String) -> Result<(), NoMemory> {
    match lex(alloc, script) {
        Ok(tokens) => {
            for (i, token) in tokens.iter().enumerate() {
                if 0 < i {
                    out.push_str("; ")?;
                }
                let copy = token.try_copy(alloc)?;
                if copy == *token {
                    show_token(out, &copy)?;
                }
            }
            Ok(())
        }
        Err(refusal) => show_lex_refusal(alloc, out, refusal),
    }
}

/// The tree of a script. Where it has none, the refusal is written.
pub(crate) fn tree_of(
    alloc: Global,
    script: &[u8],
    out: &mut String,
) -> Result<Option<Program>, NoMemory> {
    match lex(alloc, script) {
        Ok(tokens) => tree_of_tokens(alloc, &tokens, out),
        Err(refusal) => {
            show_lex_refusal(alloc, out, refusal)?;
            Ok(None)
        }
    }
}

/// The same of tokens.
pub(crate) fn tree_of_tokens(
    alloc: Global,
    tokens: &[Token],
    out: &mut String,
) -> Result<Option<Program>, NoMemory> {
    match parse(alloc, tokens) {
        Ok(program) => Ok(Some(program)),
        Err(refusal) => {
            show_parse_refusal(alloc, out, refusal)?;
            Ok(None)
        }
    }
}

/// The items of a copy of the tree, with their spans where they are asked for, or the refusal.
pub(crate) fn show_tree(
    alloc: Global,
    script: &[u8],
    spans: bool,
    out: &mut String,
) -> Result<(), NoMemory> {
    if let Some(program) = tree_of(alloc, script, out)? {
        let copy = program.try_copy(alloc)?;
        if copy == program {
            show_declarations(out, copy.items.as_slice(), spans)?;
        }
    }
    Ok(())
}

/// The refusal of a script, or `ok`.
pub(crate) fn show_refusal(alloc: Global, script: &[u8], out: &mut String) -> Result<(), NoMemory> {
    if tree_of(alloc, script, out)?.is_some() {
        out.push_str("ok")?;
    }
    Ok(())
}

/// The text that a script is printed as, or the refusal.
pub(crate) fn show_printed(alloc: Global, script: &[u8], out: &mut String) -> Result<(), NoMemory> {
    if let Some(program) = tree_of(alloc, script, out)? {
        let text = print_program(alloc, &program)?;
        show_text(out, text.as_bytes(), b'\\')?;
    }
    Ok(())
}

/// `same` where the text that a script is printed as has the script's tree, spans aside, and is printed as itself.
pub(crate) fn show_read_back(
    alloc: Global,
    script: &[u8],
    out: &mut String,
) -> Result<(), NoMemory> {
    let Some(program) = tree_of(alloc, script, out)? else {
        return Ok(());
    };
    let text = print_program(alloc, &program)?;
    let mut tree = String::new(alloc);
    show_declarations(&mut tree, program.items.as_slice(), false)?;
    let mut again = String::new(alloc);
    show_tree(alloc, text.as_bytes(), false, &mut again)?;
    if tree.as_str() != again.as_str() {
        out.push_str("another tree")?;
    } else if is_printed_as_itself(alloc, text.as_bytes())? {
        out.push_str("same")?;
    } else {
        out.push_str("another text")?;
    }
    Ok(())
}

fn is_printed_as_itself(alloc: Global, text: &[u8]) -> Result<bool, NoMemory> {
    let mut refusal = String::new(alloc);
    match tree_of(alloc, text, &mut refusal)? {
        Some(program) => Ok(print_program(alloc, &program)?.as_bytes() == text),
        None => Ok(false),
    }
}
