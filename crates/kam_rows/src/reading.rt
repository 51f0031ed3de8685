// Texts, lists and data that lie in a store.
use crate::ended::Ended;
use kam_store::RegionStore;
use sml_syntax::{Boxed, Listed, Text};
use std::alloc::Global;
use web_data::{CacheId, Datum, Desc, Kind};

/// How many bytes the text behind a pointer has. All its words are there.
pub fn text_size<R: RegionStore>(store: &R, p: u64) -> Result<u64, Ended> {
    let size = store.get(p, 0)?;
    let _last = store.get(p, size.div_ceil(8))?;
    Ok(size)
}

// Adds the bytes of so many words behind a pointer's first.
fn push_words<R: RegionStore>(
    bytes: &mut Vec<u8>,
    store: &R,
    p: u64,
    count: u64,
) -> Result<(), Ended> {
    for place in 0..count {
        bytes.extend_from_slice(&store.get(p, place + 1)?.to_le_bytes())?;
    }
    Ok(())
}

/// Adds the text behind a pointer, or nothing where it is refused.
pub fn append_text<R: RegionStore>(bytes: &mut Vec<u8>, store: &R, p: u64) -> Result<(), Ended> {
    let size = text_size(store, p)?;
    let start = bytes.len();
    match push_words(bytes, store, p, size.div_ceil(8)) {
        Ok(()) => {
            bytes.truncate(start.saturating_add(size as usize));
            Ok(())
        }
        Err(ended) => {
            bytes.truncate(start);
            Err(ended)
        }
    }
}

/// The text behind a pointer.
pub fn text_at<R: RegionStore>(alloc: Global, store: &R, p: u64) -> Result<Vec<u8>, Ended> {
    let mut bytes = Vec::new(alloc);
    append_text(&mut bytes, store, p)?;
    Ok(bytes)
}

// The argument of the constructor with this index.
fn argument<R: RegionStore>(store: &R, word: u64, index: u64) -> Result<u64, Ended> {
    if store.get(word, 0)? != index {
        return Err(Ended::Stuck);
    }
    Ok(store.get(word, 1)?)
}

/// The words of a list's items, of so many at the most.
pub fn list_at<R: RegionStore>(
    alloc: Global,
    store: &R,
    most: u64,
    word: u64,
) -> Result<Vec<u64>, Ended> {
    let mut items = Vec::new(alloc);
    let mut rest = word;
    for _ in 0..most {
        if rest == 0 {
            return Ok(items);
        }
        let pair = argument(store, rest, 1)?;
        items.push(store.get(pair, 0)?)?;
        rest = store.get(pair, 1)?;
    }
    if rest != 0 {
        return Err(Ended::Stuck);
    }
    Ok(items)
}

/// Adds the text of a piece of a quotation.
pub fn append_piece<R: RegionStore>(
    bytes: &mut Vec<u8>,
    store: &R,
    word: u64,
) -> Result<(), Ended> {
    let _index = below_two(store.get(word, 0)?)?;
    append_text(bytes, store, store.get(word, 1)?)
}

/// Whether it is 1; it is 0 or 1.
pub fn below_two(word: u64) -> Result<bool, Ended> {
    match word {
        0 => Ok(false),
        1 => Ok(true),
        _ => Err(Ended::Stuck),
    }
}

/// The argument of an option, if it has one.
pub fn option_at<R: RegionStore>(store: &R, word: u64) -> Result<Option<u64>, Ended> {
    if word == 0 {
        return Ok(None);
    }
    Ok(Some(argument(store, word, 1)?))
}

/// The datum of a description that a word stands for; its lists have so many items at the most.
#[cycle(data)]
pub fn datum_at<R: RegionStore>(
    alloc: Global,
    store: &R,
    most: u64,
    desc: &Desc,
    word: u64,
) -> Result<Datum, Ended> {
    match desc {
        Desc::Int => Ok(Datum::Int(word.cast_signed())),
        Desc::Bool => Ok(Datum::Bool(below_two(word)?)),
        Desc::Char if word < 256 => Ok(Datum::Char(word as u8)),
        Desc::Unit if word == 0 => Ok(Datum::Unit),
        Desc::Char | Desc::Unit => Err(Ended::Stuck),
        Desc::Str => Ok(Datum::Str(Text::from_vec(text_at(alloc, store, word)?))),
        Desc::Pair(a, b) => {
            let a = part_at(alloc, store, most, a, store.get(word, 0)?)?;
            Ok(Datum::Pair(a, part_at(alloc, store, most, b, store.get(word, 1)?)?))
        }
        Desc::Triple(a, b, c) => {
            let a = part_at(alloc, store, most, a, store.get(word, 0)?)?;
            let b = part_at(alloc, store, most, b, store.get(word, 1)?)?;
            let c = part_at(alloc, store, most, c, store.get(word, 2)?)?;
            Ok(Datum::Triple(a, b, c))
        }
        Desc::Opt(a) => match option_at(store, word)? {
            None => Ok(Datum::Opt(None)),
            Some(word) => Ok(Datum::Opt(Some(part_at(alloc, store, most, a, word)?))),
        },
        Desc::List(a) => items_at(alloc, store, most, a, word),
    }
}

#[cycle(data)]
fn part_at<R: RegionStore>(
    alloc: Global,
    store: &R,
    most: u64,
    desc: &Boxed<Desc>,
    word: u64,
) -> Result<Boxed<Datum>, Ended> {
    Ok(Boxed::new(alloc, datum_at(alloc, store, most, desc.get(), word)?)?)
}

#[cycle(data)]
fn items_at<R: RegionStore>(
    alloc: Global,
    store: &R,
    most: u64,
    desc: &Boxed<Desc>,
    word: u64,
) -> Result<Datum, Ended> {
    let words = list_at(alloc, store, most, word)?;
    let mut items = Vec::new(alloc);
    for word in words.as_slice() {
        items.push(datum_at(alloc, store, most, desc.get(), *word)?)?;
    }
    Ok(Datum::List(Listed::of(items)))
}

// A limit of a cache, by whether there is one and which.
fn limit_at<R: RegionStore>(store: &R, c: u64, field: u64) -> Result<Option<u64>, Ended> {
    let present = below_two(store.get(c, field)?)?;
    let limit = store.get(c, field.saturating_add(1))?;
    Ok(if present { Some(limit) } else { None })
}

/// The cache behind a pointer, with these descriptions of its key and value.
pub fn cache_at<R: RegionStore>(
    alloc: Global,
    store: &R,
    key: &Desc,
    value: &Desc,
    c: u64,
) -> Result<CacheId, Ended> {
    let name = text_at(alloc, store, store.get(c, 0)?)?;
    let kind = Kind {
        used: below_two(store.get(c, 1)?)?,
        time: limit_at(store, c, 2)?,
        size: limit_at(store, c, 4)?,
    };
    Ok(CacheId {
        name: Text::from_vec(name),
        key: key.try_copy(alloc)?,
        value: value.try_copy(alloc)?,
        kind,
    })
}
