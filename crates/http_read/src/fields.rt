// What the fields of a head say.
ghost use Rattle.std.specs.Prelude.{◌≡◌, ◌&&◌, ◌==◌, false, length, map, All, codes};
ghost use Rattle.std.specs.List.{list_any, list_all};
ghost use Rattle.std.specs.Option.{option_copied};
ghost use Rattle.httparse.specs.Spans.{IsHeaderWithin, header_bytes};
ghost use Rattle.http_read.specs.Fields.{is_lone_after};
ghost use Rattle.http_read.specs.Head.{has_field, count_fields, values_of, first_value, is_length, length_values, is_named, lists_close};

use crate::text::{is_length, is_word, lists_close};
use httparse::spans::HeaderSpan;

/// Whether a field has this name.
pub fn has_field(bytes: &[u8], fields: &[HeaderSpan], name: &[u8]) -> bool
    requires { All (IsHeaderWithin (length bytes.now)) fields.now }
    ensures { result ≡ has_field name.now (map (header_bytes bytes.now) fields.now) }
{
    let mut rest = fields;
    while let [field, more @ ..] = rest {
        if is_word(field.name.of(bytes), name) {
            return true;
        }
        rest = more;
    }
    false
}

// Whether exactly one field has this name.
fn is_lone(bytes: &[u8], fields: &[HeaderSpan], name: &[u8]) -> bool
    requires { All (IsHeaderWithin (length bytes.now)) fields.now }
    ensures { result ≡ is_lone_after name.now false (map (header_bytes bytes.now) fields.now) }
{
    let mut seen = false;
    let mut rest = fields;
    while let [field, more @ ..] = rest {
        if is_word(field.name.of(bytes), name) {
            if seen {
                return false;
            }
            seen = true;
        }
        rest = more;
    }
    seen
}

/// Whether exactly one field has this name.
pub fn has_one(bytes: &[u8], fields: &[HeaderSpan], name: &[u8]) -> bool
    requires { All (IsHeaderWithin (length bytes.now)) fields.now }
    ensures { result ≡ (count_fields name.now (map (header_bytes bytes.now) fields.now) == 1) }
{
    is_lone(bytes, fields, name)
}

/// The value of the first field with this name.
pub fn first_value<'b>(bytes: &'b [u8], fields: &[HeaderSpan], name: &[u8]) -> Option<&'b [u8]>
    requires { All (IsHeaderWithin (length bytes.now)) fields.now }
    ensures { option_copied result ≡ first_value (values_of name.now (map (header_bytes bytes.now) fields.now)) }
{
    let mut rest = fields;
    while let [field, more @ ..] = rest {
        if is_word(field.name.of(bytes), name) {
            return Some(field.value.of(bytes));
        }
        rest = more;
    }
    None
}

/// Whether each length is a number, and the same one as the first.
pub fn are_all_lengths(bytes: &[u8], fields: &[HeaderSpan], first: &[u8]) -> bool
    requires { All (IsHeaderWithin (length bytes.now)) fields.now }
    ensures { result ≡ list_all (is_length first.now) (length_values (map (header_bytes bytes.now) fields.now)) }
{
    let mut rest = fields;
    while let [field, more @ ..] = rest {
        if is_word(field.name.of(bytes), b"content-length")
            && !is_length(first, field.value.of(bytes))
        {
            return false;
        }
        rest = more;
    }
    true
}

/// Whether a `Connection` field lists `close`.
pub fn asks_close(bytes: &[u8], fields: &[HeaderSpan]) -> bool
    requires { All (IsHeaderWithin (length bytes.now)) fields.now }
    ensures { result ≡ list_any (λ field. is_named (codes "connection") field && lists_close field.1) (map (header_bytes bytes.now) fields.now) }
{
    let mut rest = fields;
    while let [field, more @ ..] = rest {
        if is_word(field.name.of(bytes), b"connection") && lists_close(field.value.of(bytes)) {
            return true;
        }
        rest = more;
    }
    false
}
