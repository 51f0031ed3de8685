// Words and numbers in a head.
ghost use Rattle.std.specs.Prelude.{◌≡◌, ◌≤◌, ◌<◌, ◌==◌, ◌+◌, true, length, reverse, take, drop, IfSome, IfNone};
ghost use Rattle.std.specs.List.{list_all, before_first, position_or_len};
ghost use Rattle.std.specs.Char.{is_ascii_digit};
ghost use Rattle.std.specs.Str.{str_eq_ignore_ascii_case};
ghost use Rattle.httparse.specs.Grammar.{skip_ows, trim_ows};
ghost use Rattle.http_read.specs.Head.{is_number, without_zeros, is_length, number_after, most_body, is_close, lists_close, is_form_type};

/// The most bytes of a body.
pub const MOST_BODY: usize = 1_048_576;

/// Whether the bytes are this word, in any case of letters.
pub fn is_word(bytes: &[u8], word: &[u8]) -> bool
    ensures { result ≡ str_eq_ignore_ascii_case bytes.now word.now }
{
    bytes.eq_ignore_ascii_case(word)
}

fn trim_start(mut bytes: &[u8]) -> &[u8]
    ensures { result.now ≡ skip_ows bytes.now }
{
    while let [first, rest @ ..] = bytes
        && (*first == b' ' || *first == b'\t')
    {
        bytes = rest;
    }
    bytes
}

fn trim_end(mut bytes: &[u8]) -> &[u8]
    ensures { result.now ≡ reverse (skip_ows (reverse bytes.now)) }
{
    while let [rest @ .., last] = bytes
        && (*last == b' ' || *last == b'\t')
    {
        bytes = rest;
    }
    bytes
}

#[tactic(auto, unfolding(httparse::specs::Grammar::trim_ows))]
fn trim(bytes: &[u8]) -> &[u8]
    ensures { result.now ≡ trim_ows bytes.now }
{
    trim_end(trim_start(bytes))
}

/// How many bytes stand before the first one of this kind, all where there is none.
pub fn place_of(bytes: &[u8], kind: u8) -> usize
    ensures place { result ≡ position_or_len (λ b. b == kind) bytes.now }
    ensures within { result ≤ length bytes.now }
{
    bytes.iter().take_while(|b| **b != kind).count()
}

// Whether the first bytes, so many, are `close`.
fn is_close(bytes: &[u8], end: usize) -> bool
    requires { end ≤ length bytes.now }
    ensures { result ≡ is_close (take end bytes.now) }
{
    is_word(trim(&bytes[..end]), b"close")
}

// What follows the byte at a place, none at the end.
fn after(bytes: &[u8], end: usize) -> Option<&[u8]>
    requires { end ≤ length bytes.now }
    ensures some { IfSome result (λ more. (end < length bytes.now) × (more.now ≡ drop (end + 1) bytes.now)) }
    ensures none { IfNone result (end ≡ length bytes.now) }
{
    if end == bytes.len() {
        None
    } else {
        Some(&bytes[end + 1..])
    }
}

/// Whether the value lists `close` between its commas.
pub fn lists_close(value: &[u8]) -> bool
    ensures { result ≡ lists_close value.now }
{
    let mut rest = value;
    loop {
        let end = place_of(rest, b',');
        if is_close(rest, end) {
            return true;
        }
        match after(rest, end) {
            None => return false,
            Some(more) => rest = more,
        }
    }
}

/// Whether the value is the type of forms, up to a `;`.
pub fn is_form_type(value: &[u8]) -> bool
    ensures { result ≡ is_form_type value.now }
{
    let end = place_of(value, b';');
    is_word(trim(&value[..end]), b"application/x-www-form-urlencoded")
}

fn are_digits(bytes: &[u8]) -> bool
    ensures { result ≡ list_all is_ascii_digit bytes.now }
{
    bytes.iter().all(|b| b.is_ascii_digit())
}

fn is_number(bytes: &[u8]) -> bool
    ensures { result ≡ is_number bytes.now }
{
    !bytes.is_empty() && are_digits(bytes)
}

fn without_zeros(mut digits: &[u8]) -> &[u8]
    ensures { result.now ≡ without_zeros digits.now }
{
    while let [first, rest @ ..] = digits
        && *first == b'0'
    {
        digits = rest;
    }
    digits
}

/// Whether the value is a number, and the same one as the first value.
pub fn is_length(first: &[u8], value: &[u8]) -> bool
    ensures { result ≡ is_length first.now value.now }
{
    is_number(value) && without_zeros(first) == without_zeros(value)
}

/// The number that digits write, or none where it passes the most bytes of a body.
#[tactic(auto, using(crate::proofs::Lengths::number_grows))]
pub fn body_length(mut digits: &[u8]) -> Option<usize>
    requires { list_all is_ascii_digit digits.now ≡ true }
    ensures some { IfSome result (λ n. (n ≡ number_after 0 digits.now) × (n ≤ most_body)) }
    ensures none { IfNone result (most_body < number_after 0 digits.now) }
{
    let mut number = 0usize;
    while let [first, rest @ ..] = digits {
        number = number * 10 + (*first - b'0') as usize;
        if number > MOST_BODY {
            return None;
        }
        digits = rest;
    }
    Some(number)
}
