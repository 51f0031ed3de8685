// The search for the end of a head.
ghost use Rattle.std.specs.Prelude.{◌≡◌, ◌+◌, ◌≤◌, ◌<◌, length};
ghost use Rattle.http_read.specs.Messages.{ends_at, most_head};
ghost use Rattle.http_read.specs.Reader.{IsSearched, IsStep, IsFound};

const MOST_HEAD: usize = 16_384;

const MOST_LINES: usize = 66;

/// What a search comes to.
#[derive(Clone, Copy)]
pub enum Found {
    /// A head of so many bytes.
    Head(usize),
    /// No head within the limits.
    TooLong,
    /// No head yet, and so many LF.
    Nothing(usize),
}

// Whether CR LF CR LF stands before the place.
#[tactic(auto, unfolding(crate::specs::Messages::ends_at))]
fn ends_at(bytes: &[u8], place: usize) -> bool
    requires { place ≤ length bytes.now }
    ensures { result ≡ ends_at bytes.now place }
{
    if place < 4 {
        return false;
    }
    bytes[place - 4] == b'\r'
        && bytes[place - 3] == b'\n'
        && bytes[place - 2] == b'\r'
        && bytes[place - 1] == b'\n'
}

// Looks at one more byte.
#[tactic(auto, using(crate::proofs::Steps::other_byte, crate::proofs::Steps::line_feed, crate::proofs::Steps::head_here, crate::proofs::Steps::too_many))]
fn look_at(held: &[u8], at: usize, count: usize) -> Found
    requires searched { IsSearched held.now at count }
    requires within { at < length held.now }
    requires short { at < most_head }
    ensures { IsStep held.now (at + 1) result }
{
    if held[at] != b'\n' {
        return Found::Nothing(count);
    }
    if count == MOST_LINES {
        return Found::TooLong;
    }
    if ends_at(held, at + 1) {
        return Found::Head(at + 1);
    }
    Found::Nothing(count + 1)
}

/// Goes on from the first `seen` bytes, which have `count` LF and no end of a head.
#[tactic(auto, using(crate::proofs::Steps::too_far, crate::proofs::Steps::not_yet))]
pub fn search(held: &[u8], seen: usize, count: usize) -> Found
    requires { IsSearched held.now seen count }
    ensures { IsFound held.now result }
{
    let mut at = seen;
    let mut count = count;
    while at < held.len() {
        if at == MOST_HEAD {
            return Found::TooLong;
        }
        match look_at(held, at, count) {
            Found::Head(k) => return Found::Head(k),
            Found::TooLong => return Found::TooLong,
            Found::Nothing(n) => count = n,
        }
        at += 1;
    }
    if at == MOST_HEAD {
        return Found::TooLong;
    }
    Found::Nothing(count)
}
