//! A head that `httparse` read is judged: its first refusal, or what it says. `read_head` calls
//! `judge`.
ghost use Rattle.std.specs.Prelude.{◌≡◌, ◌≤◌, ℕ, length, map};
ghost use Rattle.std.specs.List.{list_all, list_any};
ghost use Rattle.httparse.specs.Grammar.{RequestHead};
ghost use Rattle.httparse.specs.Spans.{header_bytes, span_bytes, IsRequestAt};
ghost use Rattle.lf_http.specs.Fields.{is_number, values};
ghost use Rattle.lf_http.specs.Judge.{method_of, target_of, judged, is_text, is_bad, needs_length, has_body, head_of, request_of, request_at, told_length};
ghost use Rattle.lf_http.specs.Reading.{count_after_head, most_lines};

use crate::field::{Values, bytes_of, values_of};
use crate::head::{Head, HeadErr, Method, Target};
use crate::number::{first_of, greatest_of, is_decimal};
use crate::word::one_lists;
use httparse::spans::{HeaderSpan, RequestSpans, Span};

/// The longest body in bytes.
const LONGEST_BODY: u64 = 67_108_864;

/// The front of a target that names a frame.
pub(crate) const FRAMES_PATH: &[u8] = b"/frames/";

// The method, which is compared with case.
#[tactic(auto, unfolding(crate::specs::Judge::method_of))]
fn read_method(name: &[u8]) -> Method
    ensures { result ≡ method_of name.now }
{
    if name == b"GET".as_slice() {
        Method::Get
    } else if name == b"PUT".as_slice() {
        Method::Put
    } else if name == b"DELETE".as_slice() {
        Method::Delete
    } else if name == b"POST".as_slice() {
        Method::Post
    } else if name == b"HEAD".as_slice() {
        Method::HeadOnly
    } else {
        Method::OtherMethod
    }
}

// What the target is about, byte for byte.
#[tactic(auto, unfolding(crate::specs::Judge::target_of))]
fn read_target(path: &[u8]) -> Target
    ensures { result ≡ target_of path.now }
{
    if path.starts_with(FRAMES_PATH) {
        Target::FrameAt
    } else if path == b"/patch".as_slice() {
        Target::PatchAt
    } else if path == b"/version".as_slice() {
        Target::VersionAt
    } else if path == b"/turn".as_slice() {
        Target::TurnAt
    } else {
        Target::NoTarget
    }
}

// Whether a value is 1 to 18 decimal digits.
fn is_decimal_at(buf: &[u8], span: Span) -> bool
    ensures { result ≡ is_number (span_bytes buf.now span) }
{
    is_decimal(bytes_of(buf, span))
}

// Whether each of the values is.
fn all_decimal(buf: &[u8], values: &Values) -> bool
    ensures { result ≡ list_all is_number (map (span_bytes buf.now) values.now.items) }
{
    values
        .as_slice()
        .iter()
        .all(|span| is_decimal_at(buf, *span))
}

// Whether a value is this text.
fn is_at(buf: &[u8], span: Span, text: &[u8]) -> bool
    ensures { result ≡ is_text (span_bytes buf.now span) text.now }
{
    bytes_of(buf, span) == text
}

// Whether each of the values is this text.
fn all_are(buf: &[u8], values: &Values, text: &[u8]) -> bool
    ensures { result ≡ list_all (λ value. is_text value text.now)
        (map (span_bytes buf.now) values.now.items) }
{
    values.as_slice().iter().all(|span| is_at(buf, *span, text))
}

// Whether one of the values is this text.
fn one_is(buf: &[u8], values: &Values, text: &[u8]) -> bool
    ensures { result ≡ list_any (λ value. is_text value text.now)
        (map (span_bytes buf.now) values.now.items) }
{
    values.as_slice().iter().any(|span| is_at(buf, *span, text))
}

// How many lines have the name.
fn count(buf: &[u8], lines: &[HeaderSpan], name: &[u8]) -> usize
    requires { length lines.now ≤ most_lines }
    ensures { result ≡ length (values name.now (map (header_bytes buf.now) lines.now)) }
{
    values_of(buf, lines, name).len()
}

// Whether the lines `Host` and `Content-Length` are refused.
fn is_bad(buf: &[u8], spans: &RequestSpans, lines: &[HeaderSpan]) -> bool
    requires { length lines.now ≤ most_lines }
    ensures { result ≡ is_bad (request_at buf.now spans.now lines.now) }
{
    (spans.version == 1 && count(buf, lines, b"host") != 1)
        || count(buf, lines, b"content-length") > 1
        || !all_decimal(buf, &values_of(buf, lines, b"content-length"))
}

// The length that the first `Content-Length` line tells.
fn told_length(buf: &[u8], spans: &RequestSpans, lines: &[HeaderSpan]) -> Option<u64>
    requires { length lines.now ≤ most_lines }
    ensures { result ≡ told_length (request_at buf.now spans.now lines.now) }
{
    first_of(buf, &values_of(buf, lines, b"content-length"))
}

// Whether a method has a body here: PUT, and POST of a patch.
fn has_body(method: Method, target: Target) -> bool
    ensures { result ≡ has_body method target }
{
    match method {
        Method::Put => true,
        Method::Post => match target {
            Target::PatchAt => true,
            Target::FrameAt => false,
            Target::VersionAt => false,
            Target::TurnAt => false,
            Target::NoTarget => false,
        },
        Method::Get => false,
        Method::Delete => false,
        Method::HeadOnly => false,
        Method::OtherMethod => false,
    }
}

// Whether there is a `Transfer-Encoding` line, or no length where one is needed.
fn needs_length(buf: &[u8], spans: &RequestSpans, lines: &[HeaderSpan], head: &Head) -> bool
    requires few { length lines.now ≤ most_lines }
    requires method { head.now.method ≡ method_of (span_bytes buf.now spans.now.method) }
    requires target { head.now.target ≡ target_of (span_bytes buf.now spans.now.path) }
    ensures { result ≡ needs_length (request_at buf.now spans.now lines.now) }
{
    count(buf, lines, b"transfer-encoding") > 0
        || (told_length(buf, spans, lines).is_none() && has_body(head.method, head.target))
}

// Whether each `Content-Encoding` line is `identity`.
fn is_plain(buf: &[u8], spans: &RequestSpans, lines: &[HeaderSpan]) -> bool
    requires { length lines.now ≤ most_lines }
    ensures { result ≡ (head_of (request_at buf.now spans.now lines.now)).plain }
{
    all_are(
        buf,
        &values_of(buf, lines, b"content-encoding"),
        b"identity",
    )
}

// Whether the stream ends after this request.
fn closes(buf: &[u8], spans: &RequestSpans, lines: &[HeaderSpan]) -> bool
    requires { length lines.now ≤ most_lines }
    ensures { result ≡ (head_of (request_at buf.now spans.now lines.now)).close }
{
    spans.version == 0 || one_lists(buf, &values_of(buf, lines, b"connection"), b"close")
}

// The greatest number of the `Ld-Seen` lines.
fn greatest_seen(buf: &[u8], spans: &RequestSpans, lines: &[HeaderSpan]) -> Option<u64>
    requires { length lines.now ≤ most_lines }
    ensures { result ≡ (head_of (request_at buf.now spans.now lines.now)).seen }
{
    greatest_of(buf, &values_of(buf, lines, b"ld-seen"))
}

// Whether an `Ld-Seen` line is no number.
fn is_bad_seen(buf: &[u8], spans: &RequestSpans, lines: &[HeaderSpan]) -> bool
    requires { length lines.now ≤ most_lines }
    ensures { result ≡ (head_of (request_at buf.now spans.now lines.now)).bad_seen }
{
    !all_decimal(buf, &values_of(buf, lines, b"ld-seen"))
}

// Whether an `Ld-Refresh` line is `now`.
fn is_now(buf: &[u8], spans: &RequestSpans, lines: &[HeaderSpan]) -> bool
    requires { length lines.now ≤ most_lines }
    ensures { result ≡ (head_of (request_at buf.now spans.now lines.now)).now }
{
    one_is(buf, &values_of(buf, lines, b"ld-refresh"), b"now")
}

// Whether an `Ld-Refresh` line is anything else.
fn is_bad_refresh(buf: &[u8], spans: &RequestSpans, lines: &[HeaderSpan]) -> bool
    requires { length lines.now ≤ most_lines }
    ensures { result ≡ (head_of (request_at buf.now spans.now lines.now)).bad_refresh }
{
    !all_are(buf, &values_of(buf, lines, b"ld-refresh"), b"now")
}

// What the head says, where it is accepted.
fn read_parts(buf: &[u8], spans: &RequestSpans, lines: &[HeaderSpan]) -> Head
    requires { length lines.now ≤ most_lines }
    ensures { result ≡ head_of (request_at buf.now spans.now lines.now) }
{
    Head {
        method: read_method(bytes_of(buf, spans.method)),
        target: read_target(bytes_of(buf, spans.path)),
        length: told_length(buf, spans, lines).unwrap_or(0),
        expects: false,
        plain: is_plain(buf, spans, lines),
        close: closes(buf, spans, lines),
        seen: greatest_seen(buf, spans, lines),
        bad_seen: is_bad_seen(buf, spans, lines),
        now: is_now(buf, spans, lines),
        bad_refresh: is_bad_refresh(buf, spans, lines),
    }
}

// The same of the lines that there are.
fn judge_lines(buf: &[u8], spans: &RequestSpans, lines: &[HeaderSpan]) -> Result<Head, HeadErr>
    requires { length lines.now ≤ most_lines }
    ensures value { result ≡ judged (request_at buf.now spans.now lines.now) }
    ensures unfailed { (faults : ℕ) → count_after_head faults result ≡ faults }
{
    let head = read_parts(buf, spans, lines);
    if is_bad(buf, spans, lines) {
        Err(HeadErr::BadHead)
    } else if needs_length(buf, spans, lines, &head) {
        Err(HeadErr::LengthNeeded)
    } else if head.length > LONGEST_BODY {
        Err(HeadErr::BodyTooLong)
    } else if count(buf, lines, b"expect") > 0 {
        Err(HeadErr::Expectation)
    } else {
        Ok(head)
    }
}

/// What the head says that the spans cover, or the first refusal that applies (RFC 9110, RFC 9112).
pub(crate) fn judge(buf: &[u8], spans: &RequestSpans, lines: &[HeaderSpan]) -> Result<Head, HeadErr>
    requires few { length lines.now ≤ most_lines }
    requires within { spans.now.headers ≤ length lines.now }
    ensures value { (h : RequestHead) → IsRequestAt buf.now lines.now spans.now h
        → result ≡ judged (request_of h) }
    ensures unfailed { (faults : ℕ) → count_after_head faults result ≡ faults }
{
    judge_lines(buf, spans, &lines[..spans.headers])
}
