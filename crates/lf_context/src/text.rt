//! What is asked of texts: whether they are keywords or absolute, and where their `:` stands.
ghost use Rattle.std.specs.Prelude.{◌≡◌, IfOk};
ghost use Rattle.std.specs.List.{list_all};
ghost use Rattle.def_contexts.specs.Texts.{is_letter, is_digit, is_scheme_byte, ends_scheme, is_absolute, has_byte, has_later_colon, has_inner_colon, ends_in_gen_delim, is_gen_delim, lower, without_last, before_colon, after_colon};
ghost use Rattle.def_contexts.specs.Keywords.{is_keyword, has_keyword_form};
ghost use Rattle.def_contexts.specs.Expansion.{split_of};
ghost use Rattle.lf_context.specs.Splits.{Splits, some_letters};

use lf_base::{Memory, Text};
use std::alloc::Global;

/// Whether a text is a keyword (JSON-LD 1.1, section 1.7; JSON-LD 1.1 Framing, section 4.1).
#[tactic(auto, unfolding(def_contexts::specs::Keywords::is_keyword, def_contexts::specs::Keywords::keywords))]
pub fn is_keyword(text: &str) -> bool
    ensures { result ≡ is_keyword text.now }
{
    match text {
        "@base"
        | "@container"
        | "@context"
        | "@default"
        | "@direction"
        | "@embed"
        | "@explicit"
        | "@graph"
        | "@id"
        | "@import"
        | "@included"
        | "@index"
        | "@json"
        | "@language"
        | "@list"
        | "@nest"
        | "@none"
        | "@null"
        | "@omitDefault"
        | "@prefix"
        | "@preserve"
        | "@propagate"
        | "@protected"
        | "@requireAll"
        | "@reverse"
        | "@set"
        | "@type"
        | "@value"
        | "@version"
        | "@vocab" => true,
        _ => false,
    }
}

/// Whether a text is `@` and one or more ASCII letters.
#[tactic(auto, using(crate::proofs::Texts::form_is))]
pub fn has_keyword_form(text: &str) -> bool
    ensures { result ≡ has_keyword_form text.now }
{
    match text.as_bytes() {
        [] => false,
        [first, rest @ ..] => *first == b'@' && are_some_letters(rest),
    }
}

fn are_some_letters(bytes: &[u8]) -> bool
    ensures { result ≡ some_letters bytes.now }
{
    !bytes.is_empty() && are_letters(bytes)
}

fn are_letters(bytes: &[u8]) -> bool
    ensures { result ≡ list_all is_letter bytes.now }
{
    for byte in bytes {
        if !is_letter(*byte) {
            return false;
        }
    }
    true
}

fn is_letter(byte: u8) -> bool
    ensures { result ≡ is_letter byte }
{
    (b'A' <= byte && byte <= b'Z') || (b'a' <= byte && byte <= b'z')
}

fn is_scheme_byte(byte: u8) -> bool
    ensures { result ≡ is_scheme_byte byte }
{
    is_letter(byte)
        || (b'0' <= byte && byte <= b'9')
        || byte == b'+'
        || byte == b'.'
        || byte == b'-'
}

fn ends_scheme(bytes: &[u8]) -> bool
    ensures { result ≡ ends_scheme bytes.now }
{
    for byte in bytes {
        if *byte == b':' {
            return true;
        }
        if !is_scheme_byte(*byte) {
            return false;
        }
    }
    false
}

/// Whether a text begins with a scheme and `:` (RFC 3986, section 3.1).
#[tactic(auto, unfolding(def_contexts::specs::Texts::is_absolute))]
pub fn is_absolute(text: &str) -> bool
    ensures { result ≡ is_absolute text.now }
{
    match text.as_bytes() {
        [] => false,
        [first, rest @ ..] => is_letter(*first) && ends_scheme(rest),
    }
}

/// Whether a byte stands in the bytes.
pub fn has_byte(byte: u8, bytes: &[u8]) -> bool
    ensures { result ≡ has_byte byte bytes.now }
{
    for other in bytes {
        if byte == *other {
            return true;
        }
    }
    false
}

/// Whether `:` stands behind the first byte.
pub fn has_later_colon(text: &str) -> bool
    ensures { result ≡ has_later_colon text.now }
{
    match text.as_bytes() {
        [] => false,
        [_, rest @ ..] => has_byte(b':', rest),
    }
}

/// Whether `:` stands between the first byte and the last.
#[tactic(auto, using(crate::proofs::Texts::inner_is))]
pub fn has_inner_colon(text: &str) -> bool
    ensures { result ≡ has_inner_colon text.now }
{
    match text.as_bytes() {
        [] => false,
        [_, rest @ ..] => has_byte_before_last(b':', rest),
    }
}

fn has_byte_before_last(byte: u8, bytes: &[u8]) -> bool
    ensures { result ≡ has_byte byte (without_last bytes.now) }
{
    match bytes {
        [] => false,
        [front @ .., _] => has_byte(byte, front),
    }
}

fn is_gen_delim(byte: u8) -> bool
    ensures { result ≡ is_gen_delim byte }
{
    byte == b':'
        || byte == b'/'
        || byte == b'?'
        || byte == b'#'
        || byte == b'['
        || byte == b']'
        || byte == b'@'
}

/// Whether a text ends in one of `: / ? # [ ] @` (RFC 3986, section 2.2).
pub fn ends_in_gen_delim(text: &str) -> bool
    ensures { result ≡ ends_in_gen_delim text.now }
{
    match text.as_bytes() {
        [.., last] => is_gen_delim(*last),
        [] => false,
    }
}

/// What stands before the first `:` of a text, and what stands after it; without a `:` all stands
/// before it.
pub fn cut_at_colon(text: &str) -> (&str, &str)
    ensures before { result.0.now ≡ before_colon text.now }
    ensures after { result.1.now ≡ after_colon text.now }
{
    match text.split_once(':') {
        Some((before, after)) => (before, after),
        None => (text, ""),
    }
}

/// How a text with `:` behind its first byte is read.
pub enum Split<'a> {
    /// It has no such `:`.
    Unsplit,
    /// It is a blank node identifier or `//` follows the first `:`.
    AsIs,
    /// What stands before the first `:`, and after it.
    Parts(&'a str, &'a str),
}

/// How a text is read (JSON-LD 1.1 Processing Algorithms and API, section 5.2.2, step 6).
pub fn split_of(text: &str) -> Split<'_>
    ensures { Splits result (split_of text.now) }
{
    if !has_later_colon(text) {
        return Split::Unsplit;
    }
    let (before, after) = cut_at_colon(text);
    if before == "_" || after.starts_with("//") {
        Split::AsIs
    } else {
        Split::Parts(before, after)
    }
}

/// A text with its ASCII capitals made small.
pub fn lower(alloc: Global, text: &str) -> Result<Text, Memory>
    ensures { IfOk result (λ small. small ≡ lower text.now) }
{
    Ok(Text::from_string(text.to_ascii_lowercase(alloc)?)?)
}
