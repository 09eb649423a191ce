//! Reply heads, written into the buffers (RFC 9112, section 4). `reply_head` calls `write_reply`.
ghost use Rattle.std.specs.Prelude.{◌≡◌, ◌+◌, ◌≤◌, ◌++◌, [], length, IsTrue, Some};
ghost use Rattle.lf_http.specs.Reply.{reason as reason_of, is_named, reply_text, status_text, media_text, allow_text, version_line, version_text, close_text, length_text, crlf};

use crate::short_text::{ShortText, put, put_number};

/// The header line `Allow` of a reply.
#[derive(Clone, Copy, Debug, PartialEq, Eq)]
pub enum Allow {
    /// There is no such line.
    NoAllow,
    Get,
    Post,
    GetPutDelete,
}

/// What the head of a reply says.
#[derive(Clone, Copy, Debug, PartialEq, Eq)]
pub struct ReplyHead {
    /// One of those that have a reason phrase here.
    pub status: u16,
    /// Whether the body is a document.
    pub ld_json: bool,
    /// The methods that the target has, where the one that was sent is none of them.
    pub allow: Allow,
    /// The number of `Ld-Version`.
    pub version: Option<u64>,
    /// Whether the stream ends after this reply.
    pub close: bool,
    /// The length of the body in bytes.
    pub length: u64,
}

// The reason phrase of a status that is sent.
#[tactic(auto, unfolding(crate::specs::Reply::reason))]
fn reason(status: u16) -> &'static [u8]
    requires { IsTrue (is_named status) }
    ensures reason { reason_of status ≡ Some result.now }
    ensures short { length result.now ≤ 40 }
{
    match status {
        200 => b"OK",
        201 => b"Created",
        202 => b"Accepted",
        400 => b"Bad Request",
        404 => b"Not Found",
        405 => b"Method Not Allowed",
        411 => b"Length Required",
        413 => b"Content Too Large",
        415 => b"Unsupported Media Type",
        417 => b"Expectation Failed",
        422 => b"Unprocessable Content",
        431 => b"Request Header Fields Too Large",
        503 => b"Service Unavailable",
        507 => b"Insufficient Storage",
        _ => unreachable!(),
    }
}

// The status line.
#[tactic(auto, unfolding(crate::specs::Reply::status_text, crate::specs::Reply::crlf))]
fn put_status(reply: &mut ShortText, status: u16)
    requires named { IsTrue (is_named status) }
    requires empty { reply.old.items ≡ [] }
    ensures items { reply.new.items ≡ status_text status }
    ensures len { length reply.new.items ≤ 80 }
{
    put(reply, b"HTTP/1.1 ");
    put_number(reply, u64::from(status));
    put(reply, b" ");
    put(reply, reason(status));
    put(reply, b"\r\n");
}

// `Content-Type`: a document is JSON-LD, all else is JSON.
#[tactic(auto, unfolding(crate::specs::Reply::media_text, crate::specs::Reply::crlf))]
fn put_media(reply: &mut ShortText, ld_json: bool)
    requires { length reply.old.items ≤ 80 }
    ensures items { reply.new.items ≡ reply.old.items ++ media_text ld_json }
    ensures len { length reply.new.items ≤ length reply.old.items + 40 }
{
    if ld_json {
        put(reply, b"Content-Type: application/ld+json\r\n");
    } else {
        put(reply, b"Content-Type: application/json\r\n");
    }
}

// `Allow`, where methods are told.
#[tactic(auto, unfolding(crate::specs::Reply::allow_text, crate::specs::Reply::crlf))]
fn put_allow(reply: &mut ShortText, allow: Allow)
    requires { length reply.old.items ≤ 120 }
    ensures items { reply.new.items ≡ reply.old.items ++ allow_text allow }
    ensures len { length reply.new.items ≤ length reply.old.items + 30 }
{
    match allow {
        Allow::NoAllow => (),
        Allow::Get => put(reply, b"Allow: GET\r\n"),
        Allow::Post => put(reply, b"Allow: POST\r\n"),
        Allow::GetPutDelete => put(reply, b"Allow: GET, PUT, DELETE\r\n"),
    }
}

// The line `Ld-Version`.
#[tactic(auto, unfolding(crate::specs::Reply::version_line, crate::specs::Reply::crlf))]
fn put_version_line(reply: &mut ShortText, number: u64)
    requires { length reply.old.items ≤ 150 }
    ensures items { reply.new.items ≡ reply.old.items ++ version_line number }
    ensures len { length reply.new.items ≤ length reply.old.items + 40 }
{
    put(reply, b"Ld-Version: ");
    put_number(reply, number);
    put(reply, b"\r\n");
}

// `Ld-Version`, where the body speaks of a version.
fn put_version(reply: &mut ShortText, version: Option<u64>)
    requires { length reply.old.items ≤ 150 }
    ensures items { reply.new.items ≡ reply.old.items ++ version_text version }
    ensures len { length reply.new.items ≤ length reply.old.items + 40 }
{
    match version {
        Some(number) => put_version_line(reply, number),
        None => (),
    }
}

// `Connection: close`, where the stream ends.
#[tactic(auto, unfolding(crate::specs::Reply::close_text, crate::specs::Reply::crlf))]
fn put_close(reply: &mut ShortText, close: bool)
    requires { length reply.old.items ≤ 190 }
    ensures items { reply.new.items ≡ reply.old.items ++ close_text close }
    ensures len { length reply.new.items ≤ length reply.old.items + 20 }
{
    if close {
        put(reply, b"Connection: close\r\n");
    }
}

// `Content-Length` and the empty line behind the head.
#[tactic(auto, unfolding(crate::specs::Reply::length_text, crate::specs::Reply::crlf))]
fn put_length(reply: &mut ShortText, count: u64)
    requires { length reply.old.items ≤ 210 }
    ensures { reply.new.items ≡ reply.old.items ++ length_text count ++ crlf }
{
    put(reply, b"Content-Length: ");
    put_number(reply, count);
    put(reply, b"\r\n\r\n");
}

/// Writes the whole head in place of what was there. The bounds on lengths in this file are those
/// of the lines so far.
pub(crate) fn write_reply(reply: &mut ShortText, head: &ReplyHead)
    requires { IsTrue (is_named head.now.status) }
    ensures { reply.new.items ≡ reply_text head.now }
{
    reply.clear();
    put_status(reply, head.status);
    put_media(reply, head.ld_json);
    put_allow(reply, head.allow);
    put_version(reply, head.version);
    put_close(reply, head.close);
    put_length(reply, head.length);
}
