// Lines and columns of a text.
ghost use Rattle.std.specs.Prelude.{◌≡◌, ◌++◌, OnOk, length, ◌≤◌, take, drop};
ghost use Rattle.smlserver_top.specs.Places.{is_feed, feeds, last_line, first_line, later_lines, source_line, is_later, blank_of, blanks};

use sml_syntax::NoMemory;

fn is_feed(b: u8) -> bool
    ensures { result ≡ is_feed b }
{
    b == b'\n'
}

/// How many LFs a text has.
pub(crate) fn feeds(text: &[u8]) -> usize
    ensures number { result ≡ feeds text.now }
    ensures few { result ≤ length text.now }
{
    let mut count = 0;
    for b in text {
        if is_feed(*b) {
            count += 1;
        }
    }
    count
}

/// What stands behind the last LF, or all.
pub(crate) fn last_line(text: &[u8]) -> &[u8]
    ensures { result.now ≡ last_line text.now }
{
    let mut line = text;
    let mut rest = text;
    while let [b, more @ ..] = rest {
        if is_feed(*b) {
            line = more;
        }
        rest = more;
    }
    line
}

/// What stands before the first LF, or all.
pub(crate) fn first_line(text: &[u8]) -> &[u8]
    ensures { result.now ≡ first_line text.now }
{
    let mut n = 0;
    while n < text.len() {
        if is_feed(text[n]) {
            break;
        }
        n += 1;
    }
    &text[..n]
}

// What stands behind the first LF.
fn later_lines(text: &[u8]) -> &[u8]
    ensures { result.now ≡ later_lines text.now }
{
    let mut rest = text;
    while let [b, more @ ..] = rest {
        rest = more;
        if is_feed(*b) {
            break;
        }
    }
    rest
}

/// What stands before a place, and what stands there and behind it.
pub(crate) fn split_at(text: &[u8], place: u64) -> (&[u8], &[u8])
    ensures before { result.0.now ≡ take place text.now }
    ensures behind { result.1.now ≡ drop place text.now }
{
    if place >= text.len() as u64 {
        return (text, &[]);
    }
    text.split_at(place as usize)
}

/// The line of this number, from 1.
#[tactic(auto, using(crate::proofs::PlaceLaws::none_behind))]
pub(crate) fn source_line(number: u64, text: &[u8]) -> &[u8]
    ensures { result.now ≡ source_line number text.now }
{
    let mut rest = text;
    let mut left = number;
    while left > 1 && !rest.is_empty() {
        rest = later_lines(rest);
        left -= 1;
    }
    first_line(rest)
}

fn is_later(b: u8) -> bool
    ensures { result ≡ is_later b }
{
    b >= 128 && b <= 191
}

fn blank_of(b: u8) -> u8
    ensures { result ≡ blank_of b }
{
    if b == b'\t' { b } else { b' ' }
}

/// Adds blanks as wide as a text.
pub(crate) fn push_blanks(line: &mut Vec<u8>, text: &[u8]) -> Result<(), NoMemory>
    ensures { OnOk result (line.new.items ≡ line.old.items ++ blanks text.now) }
{
    for b in text {
        if !is_later(*b) {
            line.push(blank_of(*b))?;
        }
    }
    Ok(())
}
