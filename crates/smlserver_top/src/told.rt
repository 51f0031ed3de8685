// The reading of the line that tells a refusal.
ghost use Rattle.std.specs.Prelude.{◌≡◌, false, None};
ghost use Rattle.std.specs.Option.{option_copied, option_map};
ghost use Rattle.std.specs.List.{list_any};
ghost use Rattle.smlserver_top.specs.RefusedLine.{Tells};
ghost use Rattle.smlserver_top.specs.Told.{number_of, cut_last, without_feed, lacking, told_of};

use crate::spelling::after;

/// What a line tells of a refusal.
#[derive(Clone, Copy)]
pub(crate) struct Told<'a> {
    pub file: &'a [u8],
    pub place: u64,
    pub name: &'a [u8],
    pub lack: Option<&'a [u8]>,
}

// The number of digits, or the greatest one where it is none of 64 bits.
fn number(digits: &[u8]) -> Option<u64>
    ensures { result ≡ number_of digits.now }
{
    let mut value: u64 = 0;
    let mut rest = digits;
    while let [digit, more @ ..] = rest {
        if !digit.is_ascii_digit() {
            return None;
        }
        value = value
            .saturating_mul(10)
            .saturating_add(u64::from(*digit - b'0'));
        rest = more;
    }
    Some(value)
}

// What stands before the last blank, and behind it.
#[tactic(auto, using(crate::proofs::ToldLaws::cut_here))]
fn cut_last(text: &[u8]) -> Option<(&[u8], &[u8])>
    ensures { option_map (λ cut. (cut.0.now, cut.1.now)) result ≡ cut_last text.now }
{
    let mut n = text.len();
    while n > 0 {
        n -= 1;
        if text[n] == b' ' {
            return Some((&text[..n], &text[n + 1..]));
        }
    }
    None
}

// The text without an LF at its end.
fn without_feed(text: &[u8]) -> &[u8]
    ensures { result.now ≡ without_feed text.now }
{
    if text.is_empty() {
        return text;
    }
    let last = text.len() - 1;
    if text[last] == b'\n' {
        &text[..last]
    } else {
        text
    }
}

/// What the line of a refusal tells.
#[tactic(auto, unfolding(crate::specs::Told::told_of))]
pub(crate) fn read_told(line: &[u8]) -> Option<Told<'_>>
    ensures { option_map (λ told. (told.file.now, told.place, told.name.now, option_copied told.lack)) result ≡ told_of line.now }
{
    let body = after(b"refused ", line)?;
    let (rest, last) = cut_last(without_feed(body))?;
    let (front, word) = cut_last(rest)?;
    if let Some(place) = number(word) {
        return Some(Told {
            file: front,
            place,
            name: last,
            lack: None,
        });
    }
    let (file, digits) = cut_last(front)?;
    let place = number(digits)?;
    Some(Told {
        file,
        place,
        name: word,
        lack: Some(last),
    })
}
