//! Bodies of replies that take no memory, as JSON texts in compact form (RFC 8259).
ghost use Rattle.std.specs.Prelude.{◌≡◌, ◌+◌, ◌≤◌, ◌++◌, [], length, codes, decimal};
ghost use Rattle.lf_http.specs.ShortText.{short_room, number_room};
ghost use Rattle.lf_session.specs.Bodies.{text_room, error_body, frame_body, version_body, number_or_null, pending_body, bad_line_body, frame_too_long_body, too_many_body, history_full_body, limit_body, idle_body, published_body, home_body, superseded_body};

use def_patch_texts::LineKind;
use lf_http::{ShortText, put, put_number};
use lf_model::{Counted, Limit};
use lf_names::{counted_name, kind_name, limit_name, limit_number};

// Begins a body with a text.
fn begin(text: &[u8]) -> ShortText
    requires { length text.now ≤ short_room }
    ensures { result.items ≡ text.now }
{
    let mut body = ShortText::new();
    put(&mut body, text);
    body
}

/// An error without more.
#[tactic(auto, unfolding(crate::specs::Bodies::error_body))]
pub fn error_body(text: &[u8]) -> ShortText
    requires { length text.now ≤ text_room }
    ensures { result.items ≡ error_body text.now }
{
    let mut body = begin(b"{\"error\":\"");
    put(&mut body, text);
    put(&mut body, b"\"}");
    body
}

/// A frame's name.
#[tactic(auto, unfolding(crate::specs::Bodies::frame_body))]
pub fn frame_body(name: &[u8]) -> ShortText
    requires { length name.now ≤ text_room }
    ensures { result.items ≡ frame_body name.now }
{
    let mut body = begin(b"{\"frame\":\"");
    put(&mut body, name);
    put(&mut body, b"\"}");
    body
}

/// A version.
#[tactic(auto, unfolding(crate::specs::Bodies::version_body))]
pub fn version_body(version: u64) -> ShortText
    ensures { result.items ≡ version_body version }
{
    let mut body = begin(b"{\"version\":");
    put_number(&mut body, version);
    put(&mut body, b"}");
    body
}

// Appends a number, or null.
fn put_number_or_null(body: &mut ShortText, number: Option<u64>)
    requires { length body.old.items + number_room ≤ short_room }
    ensures items { body.new.items ≡ body.old.items ++ number_or_null number }
    ensures len { length body.new.items ≤ length body.old.items + number_room }
{
    match number {
        Some(number) => put_number(body, number),
        None => put(body, b"null"),
    }
}

/// What is published and what is needed.
#[tactic(auto, unfolding(crate::specs::Bodies::pending_body))]
pub fn pending_body(have: Option<u64>, need: u64) -> ShortText
    ensures { result.items ≡ pending_body have need }
{
    let mut body = begin(b"{\"have\":");
    put_number_or_null(&mut body, have);
    put(&mut body, b",\"need\":");
    put_number(&mut body, need);
    put(&mut body, b"}");
    body
}

/// The first bad line of a patch text, by its number.
#[tactic(auto, unfolding(crate::specs::Bodies::bad_line_body))]
pub fn bad_line_body(kind: LineKind, line: u64) -> ShortText
    ensures { result.items ≡ bad_line_body kind line }
{
    let mut body = begin(b"{\"error\":\"");
    put(&mut body, kind_name(kind).as_bytes());
    put(&mut body, b"\",\"line\":");
    put_number(&mut body, line);
    put(&mut body, b"}");
    body
}

/// A frame's text is too long.
#[tactic(auto, unfolding(crate::specs::Bodies::frame_too_long_body))]
pub fn frame_too_long_body(size: u64) -> ShortText
    ensures { result.items ≡ frame_too_long_body size }
{
    let mut body = begin(b"{\"error\":\"frame too long\",\"length\":");
    put_number(&mut body, size);
    put(&mut body, b"}");
    body
}

/// Something would be more than may be.
#[tactic(auto, unfolding(crate::specs::Bodies::too_many_body))]
pub fn too_many_body(what: &[u8], have: u64, would: u64) -> ShortText
    requires { length what.now ≤ text_room }
    ensures { result.items ≡ too_many_body what.now have would }
{
    let mut body = begin(b"{\"error\":\"too many ");
    put(&mut body, what);
    put(&mut body, b"\",\"have\":");
    put_number(&mut body, have);
    put(&mut body, b",\"would\":");
    put_number(&mut body, would);
    put(&mut body, b"}");
    body
}

/// A limit of the history is met.
#[tactic(auto, unfolding(crate::specs::Bodies::history_full_body))]
pub fn history_full_body(of: Counted, have: u64, most: u64) -> ShortText
    ensures { result.items ≡ history_full_body of have most }
{
    let mut body = begin(b"{\"error\":\"history full\",\"have\":");
    put_number(&mut body, have);
    put(&mut body, b",\"limit\":");
    put_number(&mut body, most);
    put(&mut body, b",\"of\":\"");
    put(&mut body, counted_name(of).as_bytes());
    put(&mut body, b"\"}");
    body
}

/// A document passes a limit.
#[tactic(auto, unfolding(crate::specs::Bodies::limit_body))]
pub fn limit_body(limit: Limit) -> ShortText
    ensures { result.items ≡ limit_body limit }
{
    let mut body = begin(b"{\"error\":\"document limit\",\"limit\":\"");
    put(&mut body, limit_name(limit).as_bytes());
    put(&mut body, b"\",\"number\":");
    put_number(&mut body, limit_number(limit));
    put(&mut body, b"}");
    body
}

/// A turn for which no frame waits.
#[tactic(auto, unfolding(crate::specs::Bodies::idle_body))]
pub fn idle_body() -> ShortText
    ensures { result.items ≡ idle_body }
{
    begin(b"{\"turn\":\"idle\"}")
}

/// A turn that published a version of a frame's document.
#[tactic(auto, unfolding(crate::specs::Bodies::published_body))]
pub fn published_body(name: &[u8], version: u64) -> ShortText
    requires { length name.now ≤ text_room }
    ensures { result.items ≡ published_body name.now version }
{
    let mut body = begin(b"{\"frame\":\"");
    put(&mut body, name);
    put(&mut body, b"\",\"turn\":\"published\",\"version\":");
    put_number(&mut body, version);
    put(&mut body, b"}");
    body
}

/// A turn whose board is at home again.
#[tactic(auto, unfolding(crate::specs::Bodies::home_body))]
pub fn home_body(name: &[u8]) -> ShortText
    requires { length name.now ≤ text_room }
    ensures { result.items ≡ home_body name.now }
{
    let mut body = begin(b"{\"frame\":\"");
    put(&mut body, name);
    put(&mut body, b"\",\"turn\":\"home\"}");
    body
}

/// A turn whose board's text isn't live any more: the numbers of that text and of the live one.
#[tactic(auto, unfolding(crate::specs::Bodies::superseded_body))]
pub fn superseded_body(name: &[u8], was: u64, now: Option<u64>) -> ShortText
    requires { length name.now ≤ text_room }
    ensures { result.items ≡ superseded_body name.now was now }
{
    let mut body = begin(b"{\"frame\":\"");
    put(&mut body, name);
    put(&mut body, b"\",\"now\":");
    put_number_or_null(&mut body, now);
    put(&mut body, b",\"then\":");
    put_number(&mut body, was);
    put(&mut body, b",\"turn\":\"superseded\"}");
    body
}
