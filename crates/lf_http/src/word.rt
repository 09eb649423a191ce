//! Words in a list that commas part (RFC 9110, section 5.6.1).
ghost use Rattle.std.specs.Prelude.{◌≡◌, reverse, map};
ghost use Rattle.std.specs.List.{list_any};
ghost use Rattle.httparse.specs.Grammar.{is_ows, skip_ows, trim_ows};
ghost use Rattle.httparse.specs.Spans.{span_bytes};
ghost use Rattle.lf_http.specs.Fields.{has_word};

use crate::field::{Values, bytes_of, is_same_name};
use httparse::spans::Span;

// Whether a byte is a space or a tab (RFC 9110, section 5.6.3, OWS).
fn is_blank(byte: u8) -> bool
    ensures { result ≡ is_ows byte }
{
    byte == b' ' || byte == b'\t'
}

// The text from its first byte that is no blank.
fn skip_blanks(text: &[u8]) -> &[u8]
    ensures { result.now ≡ skip_ows text.now }
{
    for (place, byte) in text.iter().enumerate() {
        if !is_blank(*byte) {
            return &text[place..];
        }
    }
    &[]
}

// The text up to its last byte that is no blank.
fn drop_blanks(text: &[u8]) -> &[u8]
    ensures { result.now ≡ reverse (skip_ows (reverse text.now)) }
{
    let mut end = text.len();
    while end > 0 {
        if !is_blank(text[end - 1]) {
            return &text[..end];
        }
        end -= 1;
    }
    &[]
}

// The text without the blanks around it.
#[tactic(auto, unfolding(httparse::specs::Grammar::trim_ows))]
fn trim(text: &[u8]) -> &[u8]
    ensures { result.now ≡ trim_ows text.now }
{
    drop_blanks(skip_blanks(text))
}

// Whether a comma-separated list has the word.
fn is_in_list(value: &[u8], word: &[u8]) -> bool
    ensures { result ≡ has_word word.now value.now }
{
    value
        .split(|byte| *byte == b',')
        .any(|part| is_same_name(trim(part), word))
}

// The same of the bytes that a span covers.
fn is_in_list_at(buf: &[u8], span: Span, word: &[u8]) -> bool
    ensures { result ≡ has_word word.now (span_bytes buf.now span) }
{
    is_in_list(bytes_of(buf, span), word)
}

/// Whether one of the comma-separated lists has the word (RFC 9110, section 5.6.1).
pub(crate) fn one_lists(buf: &[u8], values: &Values, word: &[u8]) -> bool
    ensures { result ≡ list_any (has_word word.now) (map (span_bytes buf.now) values.now.items) }
{
    values
        .as_slice()
        .iter()
        .any(|span| is_in_list_at(buf, *span, word))
}
