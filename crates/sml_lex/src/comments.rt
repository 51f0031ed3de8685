// Comments, which nest.
ghost use Rattle.std.specs.Prelude.{◌≡◌, ◌≤◌, ◌<◌, ◌+◌, ◌^◌, length, drop};
ghost use Rattle.grammar_rules.specs.Spelling as spell;
ghost use Rattle.sml_lex.specs.Coded as coded;

use crate::refusal::LexRefusal;

/// The byte before, in a comment.
#[derive(Clone, Copy, PartialEq, Eq)]
pub(crate) enum Before {
    Other,
    Paren,
    Star,
}

fn opens(before: Before, b: u8) -> bool
    ensures { result ≡ spell.opens (coded.before_as before) b }
{
    match before {
        Before::Paren => b == b'*',
        Before::Star => false,
        Before::Other => false,
    }
}

fn shuts(before: Before, b: u8) -> bool
    ensures { result ≡ spell.shuts (coded.before_as before) b }
{
    match before {
        Before::Star => b == b')',
        Before::Paren => false,
        Before::Other => false,
    }
}

fn before_behind(before: Before, b: u8) -> Before
    ensures { coded.before_as result ≡ spell.before_behind (coded.before_as before) b }
{
    if opens(before, b) || shuts(before, b) {
        return Before::Other;
    }
    if b == b'(' {
        return Before::Paren;
    }
    if b == b'*' {
        return Before::Star;
    }
    Before::Other
}

fn depth_behind(before: Before, depth: u64, b: u8) -> u64
    requires { depth + 1 < 2 ^ 64 }
    ensures { result ≡ spell.depth_behind (coded.before_as before) depth b }
{
    if opens(before, b) {
        return depth + 1;
    }
    if shuts(before, b) {
        return depth.saturating_sub(1);
    }
    depth
}

/// The comment at a place ends at this byte.
fn ends(before: Before, depth: u64, b: u8) -> bool
    ensures { result ≡ coded.comment_ends (coded.before_as before) depth b }
{
    shuts(before, b) && depth == 0
}

/// The end of the comment at a place.
pub(crate) fn comment_end(bytes: &[u8], start: usize) -> Result<usize, LexRefusal>
    requires { start + 2 ≤ length bytes.now }
    ensures { coded.GivesEnd (spell.comment start spell.Other_byte 0) (start + 2) (drop (start + 2) bytes.now) result }
{
    let mut depth = 0u64;
    let mut before = Before::Other;
    let mut at = start + 2;
    while at < bytes.len() {
        let b = bytes[at];
        if ends(before, depth, b) {
            return Ok(at + 1);
        }
        depth = depth_behind(before, depth, b);
        before = before_behind(before, b);
        at += 1;
    }
    Err(LexRefusal::OpenComment(start as u64))
}
