// Data, commands and answers as words.
use case_lines::show_text;
use sml_syntax::{NoMemory, Text};
use web_data::{CacheAns, Datum, DbAns, DbCmd};

pub fn show_word(out: &mut String, text: &Text) -> Result<(), NoMemory> {
    out.push_str(" '")?;
    show_text(out, text.as_bytes(), b' ')?;
    Ok(())
}

/// Writes a datum, a form before its parts.
pub fn show_datum(out: &mut String, datum: &Datum) -> Result<(), NoMemory> {
    match datum {
        Datum::Int(n) => write!(out, "{n}")?,
        Datum::Bool(b) => write!(out, "{b}")?,
        Datum::Char(c) => write!(out, "c{c}")?,
        Datum::Str(text) => {
            out.push('\'')?;
            show_text(out, text.as_bytes(), b',')?;
        }
        Datum::Unit => out.push_str("unit")?,
        Datum::Pair(x, y) => {
            out.push_str("pair,")?;
            show_datum(out, x.get())?;
            out.push(',')?;
            show_datum(out, y.get())?;
        }
        Datum::Triple(x, y, z) => {
            out.push_str("triple,")?;
            show_datum(out, x.get())?;
            out.push(',')?;
            show_datum(out, y.get())?;
            out.push(',')?;
            show_datum(out, z.get())?;
        }
        Datum::Opt(None) => out.push_str("none")?,
        Datum::Opt(Some(x)) => {
            out.push_str("some,")?;
            show_datum(out, x.get())?;
        }
        Datum::List(items) => {
            write!(out, "list:{}", items.as_slice().len())?;
            for item in items.as_slice() {
                out.push(',')?;
                show_datum(out, item)?;
            }
        }
    }
    Ok(())
}

pub fn show_command(out: &mut String, command: &DbCmd) -> Result<(), NoMemory> {
    match command {
        DbCmd::Create(table) => {
            out.push_str("create")?;
            show_word(out, table)
        }
        DbCmd::Insert(table, key, value) => {
            out.push_str("insert")?;
            show_word(out, table)?;
            show_word(out, key)?;
            show_word(out, value)
        }
        DbCmd::Delete(table, key) => {
            out.push_str("delete")?;
            show_word(out, table)?;
            show_word(out, key)
        }
        DbCmd::One(table, key) => {
            out.push_str("one")?;
            show_word(out, table)?;
            show_word(out, key)
        }
        DbCmd::All(table) => {
            out.push_str("all")?;
            show_word(out, table)
        }
    }
}

pub fn show_cache_answer(out: &mut String, answer: &CacheAns) -> Result<(), NoMemory> {
    match answer {
        CacheAns::Found(value) => {
            out.push_str("found ")?;
            return show_datum(out, value);
        }
        CacheAns::Absent => out.push_str("absent")?,
        CacheAns::Fresh(fresh) => write!(out, "fresh {fresh}")?,
        CacheAns::Flushed => out.push_str("flushed")?,
        CacheAns::Full => out.push_str("full")?,
    }
    Ok(())
}

pub fn show_db_answer(out: &mut String, answer: &DbAns) -> Result<(), NoMemory> {
    match answer {
        DbAns::Done => out.push_str("done")?,
        DbAns::NoTable => out.push_str("no_table")?,
        DbAns::TableStands => out.push_str("table_stands")?,
        DbAns::KeyStands => out.push_str("key_stands")?,
        DbAns::Fault(count) => write!(out, "fault {count}")?,
        DbAns::Rows(rows) => {
            out.push_str("rows")?;
            for row in rows.as_slice() {
                out.push_str(" ;")?;
                for text in row.as_slice() {
                    show_word(out, text)?;
                }
            }
        }
    }
    Ok(())
}
