//! Answers cases of the front: tokens, trees, printed texts, names and types of scripts. docs/TESTING.md tells their
//! lines.
#![tactic(auto)]

mod scripts;
mod tables;
mod trees;
mod typing;

use case_lines::{Cases, Words, bytes_of, quoted_of, run_files};
use hm_scheme::{has_variables, is_among, is_long, may_construct, may_declare, widest};
use scripts::{
    show_printed, show_read_back, show_refusal, show_tokens, show_tree, tree_of, tree_of_tokens,
};
use sml_syntax::{NoMemory, Span, Text, Token, TokenForm};
use std::alloc::{AllocError, Global};
use std::io;
use tables::{Tables, show_basis};
use trees::show_declarations;
use typing::{show_typing, show_unbound};
use web_prims::{prelude, prim_type};

// A script of parts: what stands before, the part and how often, what stands between, what closes each, and the end.
fn read_long(alloc: Global, words: &mut Words) -> Result<Vec<u8>, NoMemory> {
    let mut script = quoted_of(alloc, words.next())?;
    let part = quoted_of(alloc, words.next())?;
    let count = words.number();
    let between = quoted_of(alloc, words.next())?;
    let closing = quoted_of(alloc, words.next())?;
    let end = quoted_of(alloc, words.next())?;
    for _ in 0..count {
        script.extend_from_slice(part.as_slice())?;
    }
    script.extend_from_slice(between.as_slice())?;
    for _ in 0..count {
        script.extend_from_slice(closing.as_slice())?;
    }
    script.extend_from_slice(end.as_slice())?;
    Ok(script)
}

fn read_form(alloc: Global, word: &str) -> Result<TokenForm, NoMemory> {
    let (kind, text) = word.split_once(':').unwrap_or((word, ""));
    let text = Text::from_vec(bytes_of(alloc, text)?);
    match kind {
        "Name" => Ok(TokenForm::Name(text)),
        "Mark" => Ok(TokenForm::Mark(text)),
        "Plain" => Ok(TokenForm::Plain(text)),
        "QuoteFrom" => Ok(TokenForm::QuoteFrom),
        _ => Ok(TokenForm::QuoteTo),
    }
}

// The tree of tokens of one byte each, which no script need have.
fn show_forms(alloc: Global, words: &str, out: &mut String) -> Result<(), NoMemory> {
    let mut tokens = Vec::new(alloc);
    let mut from: u64 = 0;
    for word in words.split(' ') {
        let form = read_form(alloc, word)?;
        let to = from.saturating_add(1);
        tokens.push(Token {
            span: Span { from, to },
            form,
        })?;
        from = to;
    }
    if let Some(program) = tree_of_tokens(alloc, &tokens, out)? {
        show_declarations(out, program.items.as_slice(), false)?;
    }
    Ok(())
}

// What is asked of a name.
fn answer_name(word: &str, name: &[u8], out: &mut String) -> Result<(), NoMemory> {
    match word {
        "prim" => match prim_type(name) {
            Some(prim) => write!(out, "{}", prim.row)?,
            None => out.push_str("none")?,
        },
        "declares" => write!(out, "{}", may_declare(name))?,
        "constructs" => write!(out, "{}", may_construct(name))?,
        "long_name" => write!(out, "{}", is_long(name))?,
        "fixed" => write!(out, "{}", is_among(name, &hm_scheme::FIXED))?,
        _ => write!(out, "{}", has_variables(name))?,
    }
    Ok(())
}

// The length of the prelude, and how what it is printed as reads back.
fn show_prelude(alloc: Global, out: &mut String) -> Result<(), NoMemory> {
    let text = prelude(alloc)?;
    write!(out, "{} ", text.len())?;
    show_read_back(alloc, text.as_bytes(), out)
}

fn show_widest(alloc: Global, script: &[u8], out: &mut String) -> Result<(), NoMemory> {
    if let Some(program) = tree_of(alloc, script, out)? {
        write!(out, "{}", widest(&program))?;
    }
    Ok(())
}

// What is asked of a script.
fn answer_script(
    alloc: Global,
    word: &str,
    script: &[u8],
    out: &mut String,
) -> Result<(), NoMemory> {
    match word {
        "tokens" | "long_tokens" => show_tokens(alloc, script, out),
        "tree" => show_tree(alloc, script, false, out),
        "spans" => show_tree(alloc, script, true, out),
        "print" => show_printed(alloc, script, out),
        "reads_back" => show_read_back(alloc, script, out),
        "unbound" => show_unbound(alloc, script, out),
        "types" => show_typing(alloc, script, out),
        "widest" => show_widest(alloc, script, out),
        _ => show_refusal(alloc, script, out),
    }
}

/// What earlier lines made.
#[derive(Drop)]
struct Front {
    tables: Option<Tables>,
}

impl Front {
    fn answer_line(&mut self, alloc: Global, line: &str, out: &mut String) -> Result<(), NoMemory> {
        let mut words = Words::of(line);
        let word = words.next();
        match word {
            "tokens" | "tree" | "spans" | "print" | "reads_back" | "unbound" | "types" | "widest" =>
                {
                    let script = bytes_of(alloc, words.rest())?;
                    answer_script(alloc, word, script.as_slice(), out)
                }
            "long" | "long_tokens" => {
                let script = read_long(alloc, &mut words)?;
                answer_script(alloc, word, script.as_slice(), out)
            }
            "forms" => show_forms(alloc, words.rest(), out),
            "prim" | "declares" | "constructs" | "long_name" | "fixed" | "variables" => {
                answer_name(word, words.next().as_bytes(), out)
            }
            "prelude" => show_prelude(alloc, out),
            "basis" => show_basis(alloc, out),
            "start" => {
                self.tables = Tables::start(alloc)?;
                Ok(out.push_str("start")?)
            }
            _ => match &mut self.tables {
                Some(tables) => tables.answer(alloc, word, &mut words, out),
                None => Ok(out.push_str("no such line")?),
            },
        }
    }
}

impl Cases for Front {
    fn answer(&mut self, alloc: Global, line: &str, out: &mut String) -> Result<(), AllocError> {
        match self.answer_line(alloc, line, out) {
            Ok(()) => Ok(()),
            Err(NoMemory) => Err(AllocError),
        }
    }
}

fn main(rt: HostRuntime) -> io::Result<()> {
    let mut front = Front { tables: None };
    run_files(&rt, &mut front)
}
