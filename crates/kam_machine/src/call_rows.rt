// Instructions that make caches and calls, and the answers to calls: a method each.
ghost use Rattle.std.specs.Prelude.{◌≡◌, ◌≤◌, ◌<◌, OnOk, IfOk, IsNone, vec_len};

use crate::Machine;
use db_text::{DbRefusal, read_cmd};
use kam_code::Instr;
use kam_rows::Ended;
use kam_rows::form::is_listed;
use kam_rows::laying::{lay_cells, lay_datum, lay_some, lay_texts};
use kam_rows::reading::{append_piece, below_two, cache_at, datum_at, list_at, option_at};
use kam_store::RegionStore;
use sml_syntax::{Listed, Text};
use web_data::{CacheAns, CacheCall, CacheId, CacheOp, Datum, DbAns, Desc, WebAns, WebCall};

// Caches.
impl<'a, R: RegionStore> Machine<'a, R> {
    pub(crate) fn cache_make(&mut self) -> Result<(), Ended>
        requires { 1 ≤ self.old.registers.left }
        ensures left { OnOk result (self.new.registers.left < self.old.registers.left) }
        ensures slots { vec_len self.new.stack ≡ vec_len self.old.stack }
    {
        let (name, kind, serial) = self.three()?;
        let size = self.text_of(name)?.len();
        if size < 1 || size > 64 {
            return self.fail(3, b"cache name");
        }
        let timed = below_two(self.store.get(kind, 0)?)?;
        let limits = self.store.get(kind, 1)?;
        let time = option_at(&self.store, self.store.get(limits, 0)?)?;
        let most = option_at(&self.store, self.store.get(limits, 1)?)?;
        if is_negative(time) || is_negative(most) {
            return self.fail(3, b"cache kind");
        }
        let (has_time, time) = limit_words(time);
        let (has_size, most) = limit_words(most);
        let used = !timed as u64;
        self.make(3, serial, &[name, used, has_time, time, has_size, most])
    }

    // The descriptions of these numbers.
    fn descriptions(&self, d: u32, e: u32) -> Result<(&'a Desc, &'a Desc), Ended> {
        let descs = self.code.descs.as_slice();
        let Some(key) = descs.get(d as usize) else {
            return Err(Ended::Stuck);
        };
        let Some(value) = descs.get(e as usize) else {
            return Err(Ended::Stuck);
        };
        Ok((key, value))
    }

    // The cache behind a pointer.
    fn cache_of(&self, key: &Desc, value: &Desc, c: u64) -> Result<CacheId, Ended> {
        cache_at(self.alloc, &self.store, key, value, c)
    }

    // The datum of a description that a word stands for.
    fn datum_of(&self, desc: &Desc, word: u64) -> Result<Datum, Ended> {
        datum_at(self.alloc, &self.store, self.charge(), desc, word)
    }

    pub(crate) fn cache_look(&self, d: u32, e: u32) -> Result<WebCall, Ended> {
        let (c, k, _) = self.three()?;
        let (key, value) = self.descriptions(d, e)?;
        let id = self.cache_of(key, value, c)?;
        let op = CacheOp::Look(self.datum_of(key, k)?);
        Ok(WebCall::Cache(CacheCall { id, op }))
    }

    pub(crate) fn cache_put(&self, d: u32, e: u32) -> Result<WebCall, Ended> {
        let (c, k, v) = self.three()?;
        let (key, value) = self.descriptions(d, e)?;
        let id = self.cache_of(key, value, c)?;
        let key = self.datum_of(key, k)?;
        let op = CacheOp::Put(key, self.datum_of(value, v)?);
        Ok(WebCall::Cache(CacheCall { id, op }))
    }

    pub(crate) fn cache_flush(&self, d: u32, e: u32) -> Result<WebCall, Ended> {
        let c = self.one()?;
        let (key, value) = self.descriptions(d, e)?;
        let id = self.cache_of(key, value, c)?;
        let op = CacheOp::Flush;
        Ok(WebCall::Cache(CacheCall { id, op }))
    }
}

// Databases.
impl<'a, R: RegionStore> Machine<'a, R> {
    // The text of a quotation's pieces.
    fn statement_of(&self, q: u64) -> Result<Vec<u8>, Ended> {
        let pieces = list_at(self.alloc, &self.store, self.charge(), q)?;
        let mut text = Vec::new(self.alloc);
        for piece in pieces.as_slice() {
            append_piece(&mut text, &self.store, *piece)?;
        }
        Ok(text)
    }

    // The call of a statement; `None` where the database isn't there, and `Fail` was raised.
    fn database_call(&mut self, count: usize, p: u64, q: u64) -> Result<Option<WebCall>, Ended>
        requires left { 1 ≤ self.old.registers.left }
        requires some { 1 ≤ count }
        requires top { count ≤ self.old.registers.top }
        ensures left { IfOk result (λ made. IsNone made → self.new.registers.left < self.old.registers.left) }
        ensures slots { vec_len self.new.stack ≡ vec_len self.old.stack }
    {
        let name = self.text_of(p)?;
        if !is_listed(self.databases, name.as_slice()) {
            self.fail(count, b"no database")?;
            return Ok(None);
        }
        let statement = self.statement_of(q)?;
        match read_cmd(self.alloc, statement.as_slice()) {
            Ok(command) => Ok(Some(WebCall::Db(Text::from_vec(name), command))),
            Err(DbRefusal::BadStatement(place)) => {
                self.take(count);
                Err(Ended::BadStatement(place))
            }
            Err(DbRefusal::NoMemory) => Err(Ended::NoMemory),
        }
    }

    pub(crate) fn db_dml(&mut self) -> Result<Option<WebCall>, Ended>
        requires { 1 ≤ self.old.registers.left }
        ensures left { IfOk result (λ made. IsNone made → self.new.registers.left < self.old.registers.left) }
        ensures slots { vec_len self.new.stack ≡ vec_len self.old.stack }
    {
        let (p, q) = self.two()?;
        self.database_call(2, p, q)
    }

    pub(crate) fn db_rows(&mut self) -> Result<Option<WebCall>, Ended>
        requires { 1 ≤ self.old.registers.left }
        ensures left { IfOk result (λ made. IsNone made → self.new.registers.left < self.old.registers.left) }
        ensures slots { vec_len self.new.stack ≡ vec_len self.old.stack }
    {
        let (p, q, _) = self.three()?;
        self.database_call(3, p, q)
    }
}

// Answers.
impl<'a, R: RegionStore> Machine<'a, R> {
    // The option of a value that was found.
    fn found(&mut self, value: &Datum) -> Result<(), Ended>
        requires { 1 ≤ self.old.registers.left }
        ensures left { OnOk result (self.new.registers.left < self.old.registers.left) }
        ensures slots { vec_len self.new.stack ≡ vec_len self.old.stack }
    {
        let (_, _, serial) = self.three()?;
        let at = self.end_of(serial)?;
        let mut words = Vec::new(self.alloc);
        let argument = lay_datum(self.alloc, &mut words, at, value)?;
        let word = lay_some(&mut words, at, argument)?;
        self.make_laid(3, serial, words.as_slice(), word)
    }

    // The list of the rows.
    fn rows(&mut self, rows: &[Listed<Text>]) -> Result<(), Ended>
        requires { 1 ≤ self.old.registers.left }
        ensures left { OnOk result (self.new.registers.left < self.old.registers.left) }
        ensures slots { vec_len self.new.stack ≡ vec_len self.old.stack }
    {
        let (_, _, serial) = self.three()?;
        if rows.is_empty() {
            self.put(3, 0);
            return Ok(());
        }
        let at = self.end_of(serial)?;
        let mut words = Vec::new(self.alloc);
        let mut items = Vec::new(self.alloc);
        for row in rows {
            items.push(lay_texts(self.alloc, &mut words, at, row.as_slice())?)?;
        }
        let word = lay_cells(&mut words, at, items.as_slice())?;
        self.make_laid(3, serial, words.as_slice(), word)
    }

    // A word in place of the three of a call.
    fn three_gone(&mut self, word: u64) -> Result<(), Ended>
        requires { 1 ≤ self.old.registers.left }
        ensures left { OnOk result (self.new.registers.left < self.old.registers.left) }
        ensures slots { vec_len self.new.stack ≡ vec_len self.old.stack }
    {
        let _ = self.three()?;
        self.put(3, word);
        Ok(())
    }

    fn flushed(&mut self) -> Result<(), Ended>
        requires { 1 ≤ self.old.registers.left }
        ensures left { OnOk result (self.new.registers.left < self.old.registers.left) }
        ensures slots { vec_len self.new.stack ≡ vec_len self.old.stack }
    {
        let _ = self.one()?;
        self.take(1);
        Ok(())
    }

    fn changed(&mut self, answer: &DbAns) -> Result<(), Ended>
        requires { 1 ≤ self.old.registers.left }
        ensures left { OnOk result (self.new.registers.left < self.old.registers.left) }
        ensures slots { vec_len self.new.stack ≡ vec_len self.old.stack }
    {
        let _ = self.two()?;
        match failure_of(answer) {
            Some(text) => self.fail(2, text),
            None => {
                self.take(2);
                Ok(())
            }
        }
    }

    fn selected(&mut self, answer: &DbAns) -> Result<(), Ended>
        requires { 1 ≤ self.old.registers.left }
        ensures left { OnOk result (self.new.registers.left < self.old.registers.left) }
        ensures slots { vec_len self.new.stack ≡ vec_len self.old.stack }
    {
        let _ = self.three()?;
        match (failure_of(answer), answer) {
            (Some(text), _) => self.fail(3, text),
            (None, DbAns::Rows(rows)) => self.rows(rows.as_slice()),
            (None, _) => self.three_gone(0),
        }
    }

    // The step of the call that waits, with its answer.
    pub(crate) fn answered(&mut self, instr: Instr, answer: &WebAns) -> Result<(), Ended>
        requires { 1 ≤ self.old.registers.left }
        ensures left { OnOk result (self.new.registers.left < self.old.registers.left) }
        ensures slots { vec_len self.new.stack ≡ vec_len self.old.stack }
    {
        match (instr, answer) {
            (Instr::CacheLook(_, _), WebAns::Cache(CacheAns::Found(value))) => self.found(value),
            (Instr::CacheLook(_, _), WebAns::Cache(CacheAns::Absent)) => self.three_gone(0),
            (Instr::CachePut(_, _), WebAns::Cache(CacheAns::Fresh(fresh))) => {
                self.three_gone(*fresh as u64)
            }
            (Instr::CacheFlush(_, _), WebAns::Cache(CacheAns::Flushed)) => self.flushed(),
            (Instr::DbDml, WebAns::Db(answer)) => self.changed(answer),
            (Instr::DbRows, WebAns::Db(answer)) => self.selected(answer),
            _ => Err(Ended::Stuck),
        }
    }
}

// A limit below 0.
fn is_negative(limit: Option<u64>) -> bool {
    match limit {
        Some(limit) => limit.cast_signed() < 0,
        None => false,
    }
}

// Whether there is a limit, and which.
fn limit_words(limit: Option<u64>) -> (u64, u64) {
    match limit {
        Some(limit) => (1, limit),
        None => (0, 0),
    }
}

// The text of `Fail` that an answer raises.
fn failure_of(answer: &DbAns) -> Option<&'static [u8]> {
    match answer {
        DbAns::NoTable => Some(b"no table"),
        DbAns::TableStands => Some(b"table stands"),
        DbAns::KeyStands => Some(b"key stands"),
        _ => None,
    }
}
