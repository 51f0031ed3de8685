// Texts of parts.
use crate::text::bytes_of;
use std::alloc::{AllocError, Global};

/// The bytes of words with one blank between two: each is a text behind a `'`, and a number and a `*` before that repeat
/// it.
pub fn parts_of(alloc: Global, words: &str) -> Result<Vec<u8>, AllocError> {
    let mut bytes = Vec::new(alloc);
    for word in words.split(' ') {
        let (count, text) = word.split_once('\'').unwrap_or(("", ""));
        let part = bytes_of(alloc, text)?;
        let count = count.strip_suffix('*').unwrap_or("1");
        for _ in 0..count.parse().unwrap_or(0u32) {
            bytes.extend_from_slice(part.as_slice())?;
        }
    }
    Ok(bytes)
}

/// Numbers with commas between them; a part that is no number is left out.
pub fn numbers_of(alloc: Global, word: &str) -> Result<Vec<u64>, AllocError> {
    let mut numbers = Vec::new(alloc);
    for part in word.split(',') {
        if let Ok(number) = part.parse() {
            numbers.push(number)?;
        }
    }
    Ok(numbers)
}

/// The bytes of a word, which is a text behind a `'`.
pub fn quoted_of(alloc: Global, word: &str) -> Result<Vec<u8>, AllocError> {
    bytes_of(alloc, word.strip_prefix('\'').unwrap_or(word))
}
