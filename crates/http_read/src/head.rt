// A whole head: what is kept of it, or the status with which it is refused.
ghost use Rattle.std.specs.Prelude.{◌≡◌, ◌+◌, ◌-◌, ◌≤◌, length, map, All, IfOk, IfErr, IfSome, IfNone};
ghost use Rattle.httparse.specs.Grammar.{RequestHead};
ghost use Rattle.httparse.specs.Spans.{IsHeaderWithin, IsWithin, IsRequestWithin, IsRequestOf, header_bytes, span_bytes};
ghost use Rattle.http_read.specs.Head.{judge, judge_length, judge_fields, Refuses, Takes, length_values, is_known_method, has_form_body, closes};
ghost use Rattle.http_read.specs.Messages.{IsHead, lines, most_lines};
ghost use Rattle.http_read.specs.Parts.{IsPartsOf, IsTarget, IsRead, AsJudged};

use crate::fields::{are_all_lengths, asks_close, first_value, has_field, has_one};
use crate::parts::Parts;
use crate::target::{Target, split_target};
use crate::text::{body_length, is_form_type};
use httparse::Status;
use httparse::spans::{EMPTY_HEADER_SPAN, HeaderSpan, RequestSpans, Span, parse_request};

// More than the fields of any head that is short enough.
const ROOM: usize = 66;

// The length of the body, or the status of the rule that refuses it.
#[tactic(auto, using(crate::proofs::Lengths::no_value, crate::proofs::Lengths::unlike_values, crate::proofs::Lengths::value_digits, crate::proofs::Lengths::large_value, crate::proofs::Lengths::fit_value))]
fn length_of(bytes: &[u8], fields: &[HeaderSpan]) -> Result<usize, u16>
    requires { All (IsHeaderWithin (length bytes.now)) fields.now }
    ensures { AsJudged result (judge_length (length_values (map (header_bytes bytes.now) fields.now))) }
{
    match first_value(bytes, fields, b"content-length") {
        None => Ok(0),
        Some(first) => {
            if !are_all_lengths(bytes, fields, first) {
                return Err(400);
            }
            match body_length(first) {
                None => Err(413),
                Some(n) => Ok(n),
            }
        }
    }
}

// The same after the rules on codings and hosts.
fn judge_fields(version: u8, bytes: &[u8], fields: &[HeaderSpan]) -> Result<usize, u16>
    requires { All (IsHeaderWithin (length bytes.now)) fields.now }
    ensures { AsJudged result (judge_fields version (map (header_bytes bytes.now) fields.now)) }
{
    if has_field(bytes, fields, b"transfer-encoding") {
        return Err(501);
    }
    if version == 1 && !has_one(bytes, fields, b"host") {
        return Err(400);
    }
    length_of(bytes, fields)
}

fn is_known_method(method: &[u8]) -> bool
    ensures { result ≡ is_known_method method.now }
{
    method == b"GET".as_slice() || method == b"POST".as_slice()
}

// Whether the body is a form.
fn is_form_post(method: &[u8], bytes: &[u8], fields: &[HeaderSpan]) -> bool
    requires { All (IsHeaderWithin (length bytes.now)) fields.now }
    ensures { result ≡ has_form_body method.now (map (header_bytes bytes.now) fields.now) }
{
    if method != b"POST".as_slice() {
        return false;
    }
    match first_value(bytes, fields, b"content-type") {
        None => false,
        Some(value) => is_form_type(value),
    }
}

// Whether the connection ends after the message.
fn is_closing(version: u8, bytes: &[u8], fields: &[HeaderSpan]) -> bool
    requires { All (IsHeaderWithin (length bytes.now)) fields.now }
    ensures { result ≡ closes version (map (header_bytes bytes.now) fields.now) }
{
    version == 0 || asks_close(bytes, fields)
}

// A part of a part.
fn inner(outer: Span, part: Span) -> Span
    requires order { outer.start ≤ outer.end }
    requires part { IsWithin (outer.end - outer.start) part }
    ensures start { result.start ≡ outer.start + part.start }
    ensures end { result.end ≡ outer.start + part.end }
{
    Span {
        start: outer.start + part.start,
        end: outer.start + part.end,
    }
}

// What is kept of a head that no rule refuses.
#[tactic(auto, using(crate::proofs::Spans::span_length))]
fn keep(
    bytes: &[u8],
    spans: &RequestSpans,
    fields: &[HeaderSpan],
    body: usize,
    target: Target,
) -> Parts
    requires all { All (IsHeaderWithin (length bytes.now)) fields.now }
    requires method { IsWithin (length bytes.now) spans.now.method }
    requires path { IsWithin (length bytes.now) spans.now.path }
    requires takes { judge spans.now.version (span_bytes bytes.now spans.now.method) (span_bytes bytes.now spans.now.path) (map (header_bytes bytes.now) fields.now) ≡ Takes body }
    requires target { IsTarget (span_bytes bytes.now spans.now.path) target }
    ensures { IsPartsOf bytes.now spans.now.version (span_bytes bytes.now spans.now.method) (span_bytes bytes.now spans.now.path) (map (header_bytes bytes.now) fields.now) result }
{
    let path = inner(spans.path, target.path);
    let query = inner(spans.path, target.query);
    let has_form = is_form_post(spans.method.of(bytes), bytes, fields);
    let closing = is_closing(spans.version, bytes, fields);
    Parts {
        head: bytes.len(),
        body,
        path,
        query,
        has_form,
        closing,
    }
}

// What is kept of a head whose spans are these, or the status of the rule that refuses it.
#[tactic(auto, using(crate::proofs::Heads::judged_fields, crate::proofs::Heads::judged_method, crate::proofs::Heads::judged_target, crate::proofs::Heads::judged))]
fn parts_of(bytes: &[u8], spans: &RequestSpans, fields: &[HeaderSpan]) -> Result<Parts, u16>
    requires all { All (IsHeaderWithin (length bytes.now)) fields.now }
    requires method { IsWithin (length bytes.now) spans.now.method }
    requires path { IsWithin (length bytes.now) spans.now.path }
    ensures ok { IfOk result (λ parts. IsPartsOf bytes.now spans.now.version (span_bytes bytes.now spans.now.method) (span_bytes bytes.now spans.now.path) (map (header_bytes bytes.now) fields.now) parts) }
    ensures err { IfErr result (λ status. judge spans.now.version (span_bytes bytes.now spans.now.method) (span_bytes bytes.now spans.now.path) (map (header_bytes bytes.now) fields.now) ≡ Refuses status) }
{
    match judge_fields(spans.version, bytes, fields) {
        Err(status) => Err(status),
        Ok(body) => {
            if !is_known_method(spans.method.of(bytes)) {
                return Err(405);
            }
            match split_target(spans.path.of(bytes)) {
                None => Err(400),
                Some(target) => Ok(keep(bytes, spans, fields, body, target)),
            }
        }
    }
}

// Where the parts of exactly one head are, or none where the bytes aren't exactly one head.
fn find_head(bytes: &[u8], headers: &mut [HeaderSpan]) -> Option<RequestSpans>
    requires { (head : RequestHead) → IsHead bytes.now head → length head.fields ≤ length headers.old }
    ensures within { IfSome result (λ spans. IsRequestWithin bytes.now headers.new spans) }
    ensures parts { IfSome result (λ spans. IsRequestOf bytes.now headers.new spans) }
    ensures whole { IfSome result (λ spans. spans.len ≡ length bytes.now) }
    ensures none { IfNone result ((head : RequestHead) → IsHead bytes.now head → ⊥) }
{
    match parse_request(bytes, headers) {
        Ok(Status::Complete(spans)) if spans.len == bytes.len() => Some(spans),
        _ => None,
    }
}

/// What is kept of these bytes as a head, or the status with which they are refused: 400 where they are no head.
#[tactic(auto, using(crate::proofs::Heads::few_enough))]
pub fn read_parts(bytes: &[u8]) -> Result<Parts, u16>
    requires { lines bytes.now ≤ most_lines }
    ensures { IsRead bytes.now result }
{
    let mut headers = [EMPTY_HEADER_SPAN; ROOM];
    match find_head(bytes, &mut headers) {
        None => Err(400),
        Some(spans) => match parts_of(bytes, &spans, &headers[..spans.headers]) {
            Ok(parts) => Ok(parts),
            Err(status) => Err(status),
        },
    }
}
