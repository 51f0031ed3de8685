// Texts in words.
ghost use Rattle.std.specs.Prelude.{◌≡◌, ◌++◌, [], drop, take, IfOk, OnOk};
ghost use Rattle.std.specs.Option.{is_some, unwrap_or};
ghost use Rattle.std.specs.Int.{w64, to_le_bytes, from_le_bytes};
ghost use Rattle.std.specs.List.{flat_map};
ghost use Rattle.kam_code.specs.Layout.{eight, words, text_words, text_from};

use sml_syntax::NoMemory;

// The word of the first eight bytes.
fn first_word(bytes: &[u8]) -> u64
    ensures { result ≡ from_le_bytes w64 (eight (take 8 bytes.now)) }
{
    let n = bytes.len().min(8);
    let mut eight = [0u8; 8];
    eight[..n].copy_from_slice(&bytes[..n]);
    u64::from_le_bytes(eight)
}

// The bytes behind the first eight.
fn behind(bytes: &[u8]) -> &[u8]
    ensures { result.now ≡ drop 8 bytes.now }
{
    let n = bytes.len().min(8);
    &bytes[n..]
}

// Adds so many words of the bytes.
fn push_words(region: &mut Vec<u64>, bytes: &[u8], count: usize) -> Result<(), NoMemory>
    ensures { OnOk result (region.new.items ≡ region.old.items ++ words count bytes.now) }
{
    let mut rest = bytes;
    for turn in 0..count {
        region.push(first_word(rest))?;
        rest = behind(rest);
    }
    Ok(())
}

/// Lays a text out behind the words that are there. Nothing is said of them after `NoMemory`.
#[tactic(auto, unfolding(crate::specs::Layout::text_words))]
pub fn push_text(region: &mut Vec<u64>, text: &[u8]) -> Result<(), NoMemory>
    ensures { OnOk result (region.new.items ≡ region.old.items ++ text_words text.now) }
{
    region.push(text.len() as u64)?;
    push_words(region, text, text.len().div_ceil(8))
}

// Adds the bytes of the words.
fn push_bytes(bytes: &mut Vec<u8>, words: &[u64]) -> Result<(), NoMemory>
    ensures { OnOk result (bytes.new.items ≡ bytes.old.items ++ flat_map (to_le_bytes w64) words.now) }
{
    for word in words {
        bytes.extend_from_slice(&word.to_le_bytes())?;
    }
    Ok(())
}

/// Adds the text whose length is the first of the words, and answers whether it lies there whole.
/// Where it doesn't, nothing is added. Nothing is said of the bytes after `NoMemory`.
#[tactic(auto, unfolding(crate::specs::Layout::text_from))]
pub fn append_text(bytes: &mut Vec<u8>, words: &[u64]) -> Result<bool, NoMemory>
    ensures whole { IfOk result (λ whole. whole ≡ is_some (text_from words.now)) }
    ensures added { OnOk result (bytes.new.items ≡ bytes.old.items ++ unwrap_or (text_from words.now) []) }
{
    let [len, rest @ ..] = words else {
        return Ok(false);
    };
    let count = len.div_ceil(8);
    if count > rest.len() as u64 {
        return Ok(false);
    }
    let start = bytes.len();
    push_bytes(bytes, &rest[..count as usize])?;
    bytes.truncate(start + *len as usize);
    Ok(true)
}
