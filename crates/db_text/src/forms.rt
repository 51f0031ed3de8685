// The five statements, each as its parts.
ghost use Rattle.std.specs.Prelude.{◌≡◌, ◌<◌, [], ◌∷◌, ◌++◌, length, map, IfOk};
ghost use Rattle.web_data.specs.StatementReading.{run};
ghost use Rattle.db_text.specs.Reading.{left_of};
ghost use Rattle.db_text.specs.Answers.{Gives, form_left, HasTexts, command_of};

use crate::parts::{End, Part, read_part};
use sml_syntax::{NoMemory, Text};
use std::alloc::Global;
use web_data::DbCmd;

/// A form of statements.
#[derive(Clone, Copy)]
pub(crate) enum Form {
    Create,
    Insert,
    Delete,
    One,
    All,
}

pub(crate) const FORMS: [Form; 5] = [
    Form::Create,
    Form::Insert,
    Form::Delete,
    Form::One,
    Form::All,
];

const CREATE: [Part; 7] = [
    Part::Spaces,
    Part::Word("create"),
    Part::Gap,
    Part::Word("table"),
    Part::Gap,
    Part::Name,
    Part::Spaces,
];

const INSERT: [Part; 19] = [
    Part::Spaces,
    Part::Word("insert"),
    Part::Gap,
    Part::Word("into"),
    Part::Gap,
    Part::Name,
    Part::Gap,
    Part::Word("values"),
    Part::Spaces,
    Part::Word("("),
    Part::Spaces,
    Part::Quoted,
    Part::Spaces,
    Part::Word(","),
    Part::Spaces,
    Part::Quoted,
    Part::Spaces,
    Part::Word(")"),
    Part::Spaces,
];

const DELETE: [Part; 15] = [
    Part::Spaces,
    Part::Word("delete"),
    Part::Gap,
    Part::Word("from"),
    Part::Gap,
    Part::Name,
    Part::Gap,
    Part::Word("where"),
    Part::Gap,
    Part::Word("k"),
    Part::Spaces,
    Part::Word("="),
    Part::Spaces,
    Part::Quoted,
    Part::Spaces,
];

const ONE: [Part; 17] = [
    Part::Spaces,
    Part::Word("select"),
    Part::Gap,
    Part::Word("v"),
    Part::Gap,
    Part::Word("from"),
    Part::Gap,
    Part::Name,
    Part::Gap,
    Part::Word("where"),
    Part::Gap,
    Part::Word("k"),
    Part::Spaces,
    Part::Word("="),
    Part::Spaces,
    Part::Quoted,
    Part::Spaces,
];

const ALL: [Part; 19] = [
    Part::Spaces,
    Part::Word("select"),
    Part::Gap,
    Part::Word("k"),
    Part::Spaces,
    Part::Word(","),
    Part::Spaces,
    Part::Word("v"),
    Part::Gap,
    Part::Word("from"),
    Part::Gap,
    Part::Name,
    Part::Gap,
    Part::Word("order"),
    Part::Gap,
    Part::Word("by"),
    Part::Gap,
    Part::Word("k"),
    Part::Spaces,
];

/// What reading by a form came to.
#[derive(Drop)]
pub(crate) enum Reading {
    /// The texts of the statement, in their order.
    Whole(Vec<Text>),
    /// No statement of the form goes on here.
    Stops(usize),
}

/// Reads bytes by a form.
pub(crate) fn read_form(alloc: Global, bytes: &[u8], form: Form) -> Result<Reading, NoMemory>
    ensures { IfOk result (λ reading. Gives (run [] (form_left form) bytes.now 0) reading) }
{
    match form {
        Form::Create => read_parts(alloc, bytes, &CREATE),
        Form::Insert => read_parts(alloc, bytes, &INSERT),
        Form::Delete => read_parts(alloc, bytes, &DELETE),
        Form::One => read_parts(alloc, bytes, &ONE),
        Form::All => read_parts(alloc, bytes, &ALL),
    }
}

fn read_parts(alloc: Global, bytes: &[u8], parts: &[Part]) -> Result<Reading, NoMemory>
    ensures { IfOk result (λ reading. Gives (run [] (map left_of parts.now) bytes.now 0) reading) }
{
    let mut texts = Vec::new(alloc);
    let mut at = 0;
    for part in parts {
        match read_part(alloc, bytes, at, part, &mut texts)? {
            End::At(to) => at = to,
            End::Stops(place) => return Ok(Reading::Stops(place)),
        }
    }
    if at < bytes.len() {
        return Ok(Reading::Stops(at));
    }
    Ok(Reading::Whole(texts))
}

/// The command of a form with these texts.
pub(crate) fn command(form: Form, mut texts: Vec<Text>) -> DbCmd
    requires { HasTexts form texts.items }
    ensures { result ≡ command_of form texts.items }
{
    match form {
        Form::Create => {
            let table = last(&mut texts);
            DbCmd::Create(table)
        }
        Form::Insert => {
            let value = last(&mut texts);
            let key = last(&mut texts);
            DbCmd::Insert(last(&mut texts), key, value)
        }
        Form::Delete => {
            let key = last(&mut texts);
            DbCmd::Delete(last(&mut texts), key)
        }
        Form::One => {
            let key = last(&mut texts);
            DbCmd::One(last(&mut texts), key)
        }
        Form::All => DbCmd::All(last(&mut texts)),
    }
}

/// Takes the last text.
fn last(texts: &mut Vec<Text>) -> Text
    requires { 0 < length texts.old.items }
    ensures { texts.old.items ≡ texts.new.items ++ result ∷ [] }
{
    texts.pop().unwrap()
}
