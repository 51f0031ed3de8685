// Data, calls and answers out of words.
use case_lines::{Words, quoted_of};
use sml_syntax::{Boxed, Listed, NoMemory, Text};
use std::alloc::Global;
use web_data::{
    CacheAns, CacheCall, CacheId, CacheOp, Datum, DbAns, DbCmd, Desc, Kind, WebAns, WebCall,
};

/// The text of a word, which begins with `'`.
pub fn read_text(alloc: Global, word: &str) -> Result<Text, NoMemory> {
    Ok(Text::from_vec(quoted_of(alloc, word)?))
}

fn next_text(alloc: Global, words: &mut Words) -> Result<Text, NoMemory> {
    read_text(alloc, words.next())
}

// The datum that was read last, behind a pointer. Where there is none, it counts as the unit.
fn last_datum(alloc: Global, stack: &mut Vec<Datum>) -> Result<Boxed<Datum>, NoMemory> {
    Boxed::new(alloc, stack.pop().unwrap_or(Datum::Unit))
}

fn last_desc(alloc: Global, stack: &mut Vec<Desc>) -> Result<Boxed<Desc>, NoMemory> {
    Boxed::new(alloc, stack.pop().unwrap_or(Desc::Unit))
}

// The parts of a list, the first of which was read last.
fn last_data(alloc: Global, stack: &mut Vec<Datum>, count: &str) -> Result<Datum, NoMemory> {
    let mut items = Vec::new(alloc);
    for _ in 0..count.parse().unwrap_or(0u32) {
        items.push(stack.pop().unwrap_or(Datum::Unit))?;
    }
    Ok(Datum::List(Listed::of(items)))
}

fn read_atom(alloc: Global, part: &str) -> Result<Datum, NoMemory> {
    if part.starts_with('\'') {
        return Ok(Datum::Str(read_text(alloc, part)?));
    }
    match part.strip_prefix('c') {
        Some(code) => Ok(Datum::Char(code.parse().unwrap_or(0))),
        None => Ok(Datum::Int(part.parse().unwrap_or(0))),
    }
}

fn read_part(alloc: Global, stack: &mut Vec<Datum>, part: &str) -> Result<Datum, NoMemory> {
    if let Some(count) = part.strip_prefix("list:") {
        return last_data(alloc, stack, count);
    }
    match part {
        "unit" => Ok(Datum::Unit),
        "true" => Ok(Datum::Bool(true)),
        "false" => Ok(Datum::Bool(false)),
        "none" => Ok(Datum::Opt(None)),
        "some" => Ok(Datum::Opt(Some(last_datum(alloc, stack)?))),
        "pair" => {
            let first = last_datum(alloc, stack)?;
            Ok(Datum::Pair(first, last_datum(alloc, stack)?))
        }
        "triple" => {
            let first = last_datum(alloc, stack)?;
            let second = last_datum(alloc, stack)?;
            Ok(Datum::Triple(first, second, last_datum(alloc, stack)?))
        }
        part => read_atom(alloc, part),
    }
}

/// The datum of a word: its forms, each before its parts, with commas between them.
pub fn read_datum(alloc: Global, word: &str) -> Result<Datum, NoMemory> {
    let mut stack = Vec::new(alloc);
    for part in word.rsplit(',') {
        let datum = read_part(alloc, &mut stack, part)?;
        stack.push(datum)?;
    }
    Ok(stack.pop().unwrap_or(Datum::Unit))
}

fn read_desc_part(alloc: Global, stack: &mut Vec<Desc>, part: &str) -> Result<Desc, NoMemory> {
    match part {
        "int" => Ok(Desc::Int),
        "bool" => Ok(Desc::Bool),
        "char" => Ok(Desc::Char),
        "str" => Ok(Desc::Str),
        "opt" => Ok(Desc::Opt(last_desc(alloc, stack)?)),
        "list" => Ok(Desc::List(last_desc(alloc, stack)?)),
        "pair" => {
            let first = last_desc(alloc, stack)?;
            Ok(Desc::Pair(first, last_desc(alloc, stack)?))
        }
        "triple" => {
            let first = last_desc(alloc, stack)?;
            let second = last_desc(alloc, stack)?;
            Ok(Desc::Triple(first, second, last_desc(alloc, stack)?))
        }
        _ => Ok(Desc::Unit),
    }
}

/// The description of a word, which is spelt as a datum is.
pub fn read_desc(alloc: Global, word: &str) -> Result<Desc, NoMemory> {
    let mut stack = Vec::new(alloc);
    for part in word.rsplit(',') {
        let desc = read_desc_part(alloc, &mut stack, part)?;
        stack.push(desc)?;
    }
    Ok(stack.pop().unwrap_or(Desc::Unit))
}

/// The kind of a cache: `used` or `unused`, its time and its size, with commas between them; `-` stands for none.
pub fn read_kind(word: &str) -> Kind {
    let (used, limits) = word.split_once(',').unwrap_or((word, ""));
    let (time, size) = limits.split_once(',').unwrap_or((limits, ""));
    Kind {
        used: used == "used",
        time: time.parse().ok(),
        size: size.parse().ok(),
    }
}

fn read_op(alloc: Global, words: &mut Words) -> Result<CacheOp, NoMemory> {
    match words.next() {
        "look" => Ok(CacheOp::Look(read_datum(alloc, words.next())?)),
        "put" => {
            let key = read_datum(alloc, words.next())?;
            Ok(CacheOp::Put(key, read_datum(alloc, words.next())?))
        }
        _ => Ok(CacheOp::Flush),
    }
}

/// A call on a cache: its name, the descriptions of its keys and values, its kind, and the operation.
pub fn read_cache_call(alloc: Global, words: &mut Words) -> Result<CacheCall, NoMemory> {
    let name = next_text(alloc, words)?;
    let key = read_desc(alloc, words.next())?;
    let value = read_desc(alloc, words.next())?;
    let kind = read_kind(words.next());
    let op = read_op(alloc, words)?;
    let id = CacheId {
        name,
        key,
        value,
        kind,
    };
    Ok(CacheCall { id, op })
}

/// A command on a database: its word and its texts, the table first.
pub fn read_command(alloc: Global, words: &mut Words) -> Result<DbCmd, NoMemory> {
    let word = words.next();
    let table = next_text(alloc, words)?;
    match word {
        "create" => Ok(DbCmd::Create(table)),
        "insert" => {
            let key = next_text(alloc, words)?;
            Ok(DbCmd::Insert(table, key, next_text(alloc, words)?))
        }
        "delete" => Ok(DbCmd::Delete(table, next_text(alloc, words)?)),
        "one" => Ok(DbCmd::One(table, next_text(alloc, words)?)),
        _ => Ok(DbCmd::All(table)),
    }
}

/// A call of a script: `cache` and the call, or `db`, the database's name and the command.
pub fn read_call(alloc: Global, words: &mut Words) -> Result<WebCall, NoMemory> {
    match words.next() {
        "cache" => Ok(WebCall::Cache(read_cache_call(alloc, words)?)),
        _ => {
            let name = next_text(alloc, words)?;
            Ok(WebCall::Db(name, read_command(alloc, words)?))
        }
    }
}

// Rows: a `;` before each, and its texts.
fn read_rows(alloc: Global, rest: &str) -> Result<DbAns, NoMemory> {
    let mut rows = Vec::new(alloc);
    let mut row: Option<Vec<Text>> = None;
    for word in rest.split(' ') {
        if word == ";" {
            if let Some(texts) = row {
                rows.push(Listed::of(texts))?;
            }
            row = Some(Vec::new(alloc));
        } else if let Some(texts) = &mut row {
            texts.push(read_text(alloc, word)?)?;
        }
    }
    if let Some(texts) = row {
        rows.push(Listed::of(texts))?;
    }
    Ok(DbAns::Rows(Listed::of(rows)))
}

/// An answer to either kind of call.
pub fn read_answer(alloc: Global, words: &mut Words) -> Result<WebAns, NoMemory> {
    match words.next() {
        "found" => Ok(WebAns::Cache(CacheAns::Found(read_datum(alloc, words.next())?))),
        "absent" => Ok(WebAns::Cache(CacheAns::Absent)),
        "fresh" => Ok(WebAns::Cache(CacheAns::Fresh(words.next() == "true"))),
        "flushed" => Ok(WebAns::Cache(CacheAns::Flushed)),
        "full" => Ok(WebAns::Cache(CacheAns::Full)),
        "done" => Ok(WebAns::Db(DbAns::Done)),
        "no_table" => Ok(WebAns::Db(DbAns::NoTable)),
        "table_stands" => Ok(WebAns::Db(DbAns::TableStands)),
        "key_stands" => Ok(WebAns::Db(DbAns::KeyStands)),
        "fault" => Ok(WebAns::Db(DbAns::Fault(words.number()))),
        _ => Ok(WebAns::Db(read_rows(alloc, words.rest())?)),
    }
}
