// Instructions on texts: a method each.
ghost use Rattle.std.specs.Prelude.{◌≡◌, ◌≤◌, ◌<◌, OnOk, vec_len};

use crate::Machine;
use crate::raises::{CHR, OVERFLOW, SUBSCRIPT};
use kam_rows::Ended;
use kam_rows::laying::lay_some;
use kam_rows::numbers::{Front, number_front, spelling};
use kam_rows::reading::{append_text, list_at, text_at, text_size};
use kam_store::RegionStore;
use std::cmp::Ordering;

impl<'a, R: RegionStore> Machine<'a, R> {
    // The text behind a pointer.
    pub(crate) fn text_of(&self, p: u64) -> Result<Vec<u8>, Ended> {
        text_at(self.alloc, &self.store, p)
    }

    pub(crate) fn text(&mut self, i: u64) -> Result<(), Ended>
        requires { 1 ≤ self.old.registers.left }
        ensures left { OnOk result (self.new.registers.left < self.old.registers.left) }
        ensures slots { vec_len self.new.stack ≡ vec_len self.old.stack }
    {
        let serial = self.one()?;
        let code = self.code;
        let Some(text) = code.texts.as_slice().get(i as usize) else {
            return Err(Ended::Stuck);
        };
        self.make_text(1, serial, text.as_bytes())
    }

    pub(crate) fn text_size(&mut self) -> Result<(), Ended>
        requires { 1 ≤ self.old.registers.left }
        ensures left { OnOk result (self.new.registers.left < self.old.registers.left) }
        ensures slots { vec_len self.new.stack ≡ vec_len self.old.stack }
    {
        let p = self.one()?;
        let size = text_size(&self.store, p)?;
        self.put(1, size);
        Ok(())
    }

    pub(crate) fn text_sub(&mut self) -> Result<(), Ended>
        requires { 1 ≤ self.old.registers.left }
        ensures left { OnOk result (self.new.registers.left < self.old.registers.left) }
        ensures slots { vec_len self.new.stack ≡ vec_len self.old.stack }
    {
        let (p, i) = self.two()?;
        let text = self.text_of(p)?;
        match text.get(i as usize) {
            Some(byte) => {
                let byte = *byte as u64;
                self.put(2, byte);
                Ok(())
            }
            None => self.throw(2, SUBSCRIPT),
        }
    }

    pub(crate) fn text_cut(&mut self) -> Result<(), Ended>
        requires { 1 ≤ self.old.registers.left }
        ensures left { OnOk result (self.new.registers.left < self.old.registers.left) }
        ensures slots { vec_len self.new.stack ≡ vec_len self.old.stack }
    {
        let (p, i, n, serial) = self.four()?;
        let text = self.text_of(p)?;
        match part_of(text.as_slice(), i.cast_signed(), n.cast_signed()) {
            Some(part) => self.make_text(4, serial, part),
            None => self.throw(4, SUBSCRIPT),
        }
    }

    pub(crate) fn text_cat(&mut self) -> Result<(), Ended>
        requires { 1 ≤ self.old.registers.left }
        ensures left { OnOk result (self.new.registers.left < self.old.registers.left) }
        ensures slots { vec_len self.new.stack ≡ vec_len self.old.stack }
    {
        let (p, q, serial) = self.three()?;
        let mut text = self.text_of(p)?;
        append_text(&mut text, &self.store, q)?;
        self.make_text(3, serial, text.as_slice())
    }

    pub(crate) fn text_concat(&mut self) -> Result<(), Ended>
        requires { 1 ≤ self.old.registers.left }
        ensures left { OnOk result (self.new.registers.left < self.old.registers.left) }
        ensures slots { vec_len self.new.stack ≡ vec_len self.old.stack }
    {
        let (p, serial) = self.two()?;
        let items = list_at(self.alloc, &self.store, self.charge(), p)?;
        let size = sizes_of(&self.store, items.as_slice())?;
        if size.div_ceil(8) >= self.registers.left {
            return Err(self.end_of(serial).err().unwrap_or(Ended::Budget));
        }
        let mut text = Vec::new(self.alloc);
        for item in items.as_slice() {
            append_text(&mut text, &self.store, *item)?;
        }
        self.make_text(2, serial, text.as_slice())
    }

    pub(crate) fn text_compare(&mut self) -> Result<(), Ended>
        requires { 1 ≤ self.old.registers.left }
        ensures left { OnOk result (self.new.registers.left < self.old.registers.left) }
        ensures slots { vec_len self.new.stack ≡ vec_len self.old.stack }
    {
        let (p, q) = self.two()?;
        let first = self.text_of(p)?;
        let second = self.text_of(q)?;
        let order = match first.as_slice().cmp(second.as_slice()) {
            Ordering::Less => 0,
            Ordering::Equal => 1,
            Ordering::Greater => 2,
        };
        self.put(2, order);
        Ok(())
    }

    pub(crate) fn text_from_int(&mut self) -> Result<(), Ended>
        requires { 1 ≤ self.old.registers.left }
        ensures left { OnOk result (self.new.registers.left < self.old.registers.left) }
        ensures slots { vec_len self.new.stack ≡ vec_len self.old.stack }
    {
        let (n, serial) = self.two()?;
        let text = spelling(self.alloc, n.cast_signed())?;
        self.make_text(2, serial, text.as_slice())
    }

    pub(crate) fn int_from_text(&mut self) -> Result<(), Ended>
        requires { 1 ≤ self.old.registers.left }
        ensures left { OnOk result (self.new.registers.left < self.old.registers.left) }
        ensures slots { vec_len self.new.stack ≡ vec_len self.old.stack }
    {
        let (p, serial) = self.two()?;
        let text = self.text_of(p)?;
        match number_front(text.as_slice()) {
            Front::Wide => self.throw(2, OVERFLOW),
            Front::None => {
                self.put(2, 0);
                Ok(())
            }
            Front::Number(number) => {
                let mut words = Vec::new(self.alloc);
                let word = lay_some(&mut words, 0, number.cast_unsigned())?;
                let _ = word;
                self.make(2, serial, words.as_slice())
            }
        }
    }

    pub(crate) fn text_from_char(&mut self) -> Result<(), Ended>
        requires { 1 ≤ self.old.registers.left }
        ensures left { OnOk result (self.new.registers.left < self.old.registers.left) }
        ensures slots { vec_len self.new.stack ≡ vec_len self.old.stack }
    {
        let (c, serial) = self.two()?;
        if c >= 256 {
            return Err(Ended::Stuck);
        }
        self.make_text(2, serial, &[c as u8])
    }

    pub(crate) fn char_from_int(&mut self) -> Result<(), Ended>
        requires { 1 ≤ self.old.registers.left }
        ensures left { OnOk result (self.new.registers.left < self.old.registers.left) }
        ensures slots { vec_len self.new.stack ≡ vec_len self.old.stack }
    {
        let n = self.one()?;
        if n >= 256 {
            return self.throw(1, CHR);
        }
        self.put(1, n);
        Ok(())
    }
}

// So many bytes from a place on.
fn part_of(text: &[u8], i: i64, n: i64) -> Option<&[u8]> {
    let start = usize::try_from(i).ok()?;
    let count = usize::try_from(n).ok()?;
    let end = start.checked_add(count)?;
    if end > text.len() {
        return None;
    }
    Some(&text[start..end])
}

// How many bytes texts have together, or the greatest number.
fn sizes_of<R: RegionStore>(store: &R, texts: &[u64]) -> Result<u64, Ended> {
    let mut size: u64 = 0;
    for text in texts {
        size = size.saturating_add(text_size(store, *text)?);
    }
    Ok(size)
}
