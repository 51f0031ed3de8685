// Where a target's path and query lie.
ghost use Rattle.std.specs.Prelude.{◌≡◌, ◌≤◌, ◌||◌, true, false, length, IfSome, IfNone};
ghost use Rattle.std.specs.List.{position_or_len};
ghost use Rattle.http_read.specs.Head.{is_origin_form, is_absolute_form, is_known_target, authority_length, is_slash, is_question_mark};
ghost use Rattle.http_read.specs.Parts.{IsTarget};

use crate::text::{is_word, place_of};
use httparse::spans::Span;

/// By places in the target.
#[derive(Clone, Copy)]
pub struct Target {
    pub path: Span,
    pub query: Span,
}

fn is_origin_form(target: &[u8]) -> bool
    ensures { result ≡ is_origin_form target.now }
{
    match target {
        [first, ..] => *first == b'/',
        [] => false,
    }
}

fn is_absolute_form(target: &[u8]) -> bool
    ensures { result ≡ is_absolute_form target.now }
{
    is_word(&target[..target.len().min(7)], b"http://")
}

// How many bytes stand before the first `/` or `?`, all where there is none.
fn host_length(bytes: &[u8]) -> usize
    ensures place { result ≡ position_or_len (λ b. is_slash b || is_question_mark b) bytes.now }
    ensures within { result ≤ length bytes.now }
{
    bytes
        .iter()
        .take_while(|b| !(**b == b'/' || **b == b'?'))
        .count()
}

// How many bytes stand before the path: none, or those of `http://` and the host.
fn authority_length(target: &[u8]) -> Option<usize>
    ensures value { IfSome result (λ n. n ≡ authority_length target.now) }
    ensures within { IfSome result (λ n. n ≤ length target.now) }
    ensures known { IfSome result (λ _. is_known_target target.now ≡ true) }
    ensures none { IfNone result (is_known_target target.now ≡ false) }
{
    if is_origin_form(target) {
        return Some(0);
    }
    if target.len() < 7 || !is_absolute_form(target) {
        return None;
    }
    Some(7 + host_length(&target[7..]))
}

// The path and the query, where so many bytes stand before the path.
fn split_local(target: &[u8], start: usize) -> Target
    requires value { start ≡ authority_length target.now }
    requires within { start ≤ length target.now }
    ensures { IsTarget target.now result }
{
    let end = start + place_of(&target[start..], b'?');
    let query = if end == target.len() { end } else { end + 1 };
    Target {
        path: Span { start, end },
        query: Span {
            start: query,
            end: target.len(),
        },
    }
}

/// The path and the query of a target that begins with `/` or `http://`, none for another.
pub fn split_target(target: &[u8]) -> Option<Target>
    ensures some { IfSome result (λ t. IsTarget target.now t) }
    ensures known { IfSome result (λ _. is_known_target target.now ≡ true) }
    ensures none { IfNone result (is_known_target target.now ≡ false) }
{
    match authority_length(target) {
        None => None,
        Some(start) => Some(split_local(target, start)),
    }
}
