// The words of a project file.
ghost use Rattle.std.specs.Prelude.{◌≡◌, ◌<◌, ◌^◌, true, None, Some, nat_le, if◌then◌else◌};
ghost use Rattle.std.specs.Option.{option_copied};
ghost use Rattle.std.specs.List.{list_all};
ghost use Rattle.std.specs.Char.{is_ascii_digit};
ghost use Rattle.project_lines.specs.Names.{begins_with_slash, number_after, is_path_byte, is_path, is_file_byte, has_parent, is_file_name, is_database_byte, is_database_name};
ghost use Rattle.project_lines.specs.Reading.{after, parent_first, parent_later, path_split, count_of};

/// The greatest length of a path, and of a file's name.
const MOST: usize = 200;

/// What follows the token, where the bytes begin with it.
pub(crate) fn after<'a>(token: &[u8], bytes: &'a [u8]) -> Option<&'a [u8]>
    ensures { option_copied result ≡ after token.now bytes.now }
{
    bytes.strip_prefix(token)
}

fn begins_with_slash(text: &[u8]) -> bool
    ensures { result ≡ begins_with_slash text.now }
{
    match text {
        [] => false,
        [b, ..] => *b == b'/',
    }
}

pub(crate) fn is_path_byte(b: u8) -> bool
    ensures { result ≡ is_path_byte b }
{
    b >= 33 && b <= 126 && b != b'?' && b != b'#'
}

fn all_path_bytes(path: &[u8]) -> bool
    ensures { result ≡ list_all is_path_byte path.now }
{
    path.iter().all(|b| is_path_byte(*b))
}

pub(crate) fn is_path(path: &[u8]) -> bool
    ensures { result ≡ is_path path.now }
{
    if !begins_with_slash(path) {
        return false;
    }
    if path.len() > MOST {
        return false;
    }
    all_path_bytes(path)
}

fn is_file_byte(b: u8) -> bool
    ensures { result ≡ is_file_byte b }
{
    b.is_ascii_alphanumeric() || b == b'_' || b == b'-' || b == b'.' || b == b'/'
}

fn all_file_bytes(name: &[u8]) -> bool
    ensures { result ≡ list_all is_file_byte name.now }
{
    name.iter().all(|b| is_file_byte(*b))
}

// Whether the first part is `..`.
fn parent_first(name: &[u8]) -> bool
    ensures { result ≡ parent_first name.now }
{
    match after(b"..", name) {
        None => false,
        Some([]) => true,
        Some([b, ..]) => *b == b'/',
    }
}

// Whether a later part is `..`.
fn parent_later(name: &[u8]) -> bool
    ensures { result ≡ parent_later name.now }
{
    let mut rest = name;
    while let [b, more @ ..] = rest {
        if *b == b'/' && parent_first(more) {
            return true;
        }
        rest = more;
    }
    false
}

#[tactic(auto, using(crate::proofs::Parents::parent_parts))]
fn has_parent(name: &[u8]) -> bool
    ensures { result ≡ has_parent name.now }
{
    parent_first(name) || parent_later(name)
}

pub(crate) fn is_file_name(name: &[u8]) -> bool
    ensures { result ≡ is_file_name name.now }
{
    if name.is_empty() {
        return false;
    }
    if name.len() > MOST {
        return false;
    }
    if !all_file_bytes(name) {
        return false;
    }
    if begins_with_slash(name) {
        return false;
    }
    !has_parent(name)
}

fn is_database_byte(b: u8) -> bool
    ensures { result ≡ is_database_byte b }
{
    b.is_ascii_lowercase() || b.is_ascii_digit() || b == b'_'
}

fn all_database_bytes(name: &[u8]) -> bool
    ensures { result ≡ list_all is_database_byte name.now }
{
    name.iter().all(|b| is_database_byte(*b))
}

pub(crate) fn is_database_name(name: &[u8]) -> bool
    ensures { result ≡ is_database_name name.now }
{
    match name {
        [] => false,
        [b, more @ ..] => {
            if !b.is_ascii_lowercase() {
                return false;
            }
            if more.len() > 31 {
                return false;
            }
            all_database_bytes(more)
        }
    }
}

fn all_digits(digits: &[u8]) -> bool
    ensures { result ≡ list_all is_ascii_digit digits.now }
{
    digits.iter().all(|b| b.is_ascii_digit())
}

/// The bytes of a path at the front, and what follows.
pub(crate) fn path_split(text: &[u8]) -> (&[u8], &[u8])
    ensures { (result.0.now, result.1.now) ≡ path_split text.now }
{
    let mut n = 0;
    while n < text.len() {
        if !is_path_byte(text[n]) {
            break;
        }
        n += 1;
    }
    (&text[..n], &text[n..])
}

// The number of digits, unless it is greater than `most`.
#[tactic(auto, using(crate::proofs::Numbers::number_grows))]
fn number(digits: &[u8], most: u64) -> Option<u64>
    requires small { most < 2 ^ 32 }
    requires digits { list_all is_ascii_digit digits.now ≡ true }
    ensures { result ≡ (if nat_le (number_after 0 digits.now) most then Some (number_after 0 digits.now) else None) }
{
    let mut value = 0;
    let mut rest = digits;
    while let [digit, more @ ..] = rest {
        value = value * 10 + u64::from(*digit - b'0');
        if value > most {
            return None;
        }
        rest = more;
    }
    Some(value)
}

/// The number that digits write, where it is from 1 to `most`.
pub(crate) fn count(digits: &[u8], most: u64) -> Option<u64>
    requires { most < 2 ^ 32 }
    ensures { result ≡ count_of most digits.now }
{
    if digits.is_empty() {
        return None;
    }
    if digits.len() > 20 {
        return None;
    }
    if !all_digits(digits) {
        return None;
    }
    match number(digits, most) {
        Some(0) | None => None,
        Some(value) => Some(value),
    }
}
