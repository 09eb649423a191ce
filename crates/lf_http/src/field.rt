//! Header lines by their names (RFC 9110, section 5.1).
ghost use Rattle.std.specs.Prelude.{◌≡◌, ◌≤◌, length, map};
ghost use Rattle.httparse.specs.Spans.{header_bytes, span_bytes};
ghost use Rattle.lf_http.specs.Fields.{same_name, values};
ghost use Rattle.lf_http.specs.Reading.{most_lines};

use crate::buffers::MOST_LINES;
use arrayvec::ArrayVec;
use httparse::spans::{HeaderSpan, Span};

/// The values of the header lines of one name.
pub(crate) type Values = ArrayVec<Span, MOST_LINES>;

/// Whether the texts are one, compared without case.
pub(crate) fn is_same_name(written: &[u8], name: &[u8]) -> bool
    ensures { result ≡ same_name written.now name.now }
{
    written.eq_ignore_ascii_case(name)
}

/// What a span covers of a buffer.
pub(crate) fn bytes_of(buf: &[u8], span: Span) -> &[u8]
    ensures { result.now ≡ span_bytes buf.now span }
{
    let end = span.end.min(buf.len());
    let start = span.start.min(end);
    &buf[start..end]
}

/// The values of the lines of this name.
pub(crate) fn values_of(buf: &[u8], lines: &[HeaderSpan], name: &[u8]) -> Values
    requires { length lines.now ≤ most_lines }
    ensures { map (span_bytes buf.now) result.items
        ≡ values name.now (map (header_bytes buf.now) lines.now) }
{
    let mut found = ArrayVec::new();
    for line in lines {
        if is_same_name(bytes_of(buf, line.name), name) {
            found.push(line.value);
        }
    }
    found
}
