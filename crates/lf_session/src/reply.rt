//! Replies (RFC 9110, section 15): their parts, and those to requests and heads that are refused by
//! their form. `documents`, `commits`, `registering` and `turning` make the others.
ghost use Rattle.std.specs.Prelude.{◌≡◌, ◌≤◌, length, IsTrue, IfSome};
ghost use Rattle.std.specs.Option.{option_map};
ghost use Rattle.lf_http.specs.Reply.{is_named};
ghost use Rattle.lf_session.specs.Bodies.{text_room, error_body};
ghost use Rattle.lf_session.specs.Replies.{plain, versioned, out_of_memory, unknown_frame, refusal};
ghost use Rattle.lf_session.specs.Requests.{refused_reply};
ghost use Rattle.lf_session.specs.Shown.{shown, body_of};
ghost use Rattle.lf_session.specs.declared.request.Refusal.TheVariants as refused;

use crate::bodies::error_body;
use crate::request::Refusal;
use lf_base::Text;
use lf_http::{Allow, HeadErr, ShortText};
use lf_model::Doc;
use std::sync::Arc;

/// The body of a reply.
#[derive(Drop)]
pub enum Body {
    /// A text that takes no memory.
    Short(ShortText),
    Long(Text),
    /// The text of a document that is shared.
    Document(Arc<Doc>),
}

/// What a request is answered.
#[derive(Drop)]
pub struct Reply {
    pub status: u16,
    /// Whether the body is a document.
    pub ld_json: bool,
    pub allow: Allow,
    /// The version that the body speaks of.
    pub version: Option<u64>,
    pub body: Body,
}

impl Body {
    /// The bytes of the body. A document that is an error or a limit has none.
    pub fn as_bytes(&self) -> &[u8]
        ensures { result.now ≡ body_of self.now }
    {
        match self {
            Body::Short(bytes) => bytes.as_slice(),
            Body::Long(text) => text.as_str().as_bytes(),
            Body::Document(document) => match &**document {
                Doc::Bytes(text) => text.as_str().as_bytes(),
                Doc::Refused(_) => b"",
                Doc::Over(_) => b"",
            },
        }
    }
}

/// A JSON text that speaks of no version.
pub fn plain(status: u16, body: ShortText) -> Reply
    requires { IsTrue (is_named status) }
    ensures shown { shown result ≡ plain status body.items }
    ensures named { IsTrue (is_named result.status) }
{
    Reply {
        status,
        ld_json: false,
        allow: Allow::NoAllow,
        version: None,
        body: Body::Short(body),
    }
}

/// A JSON text that speaks of a version.
pub fn versioned(status: u16, version: u64, body: ShortText) -> Reply
    requires { IsTrue (is_named status) }
    ensures shown { shown result ≡ versioned status version body.items }
    ensures named { IsTrue (is_named result.status) }
{
    Reply {
        status,
        ld_json: false,
        allow: Allow::NoAllow,
        version: Some(version),
        body: Body::Short(body),
    }
}

/// No memory was found, and nothing was made.
#[tactic(auto, unfolding(lf_http::specs::Reply::reason))]
pub fn out_of_memory() -> Reply
    ensures shown { shown result ≡ out_of_memory }
    ensures named { IsTrue (is_named result.status) }
{
    plain(503, error_body(b"out of memory"))
}

/// No frame has the name.
#[tactic(auto, unfolding(lf_http::specs::Reply::reason))]
pub fn unknown_frame() -> Reply
    ensures shown { shown result ≡ unknown_frame }
    ensures named { IsTrue (is_named result.status) }
{
    plain(404, error_body(b"unknown frame"))
}

#[tactic(auto, unfolding(lf_http::specs::Reply::reason))]
fn not_allowed(allow: Allow) -> Reply
    ensures shown { shown result ≡ refused_reply (refused.MethodNotAllowed allow) }
    ensures named { IsTrue (is_named result.status) }
{
    Reply {
        status: 405,
        ld_json: false,
        allow,
        version: None,
        body: Body::Short(error_body(b"method not allowed")),
    }
}

/// A request that is refused by its form, in words.
#[tactic(auto, unfolding(lf_http::specs::Reply::reason))]
pub fn bad_request(text: &[u8]) -> Reply
    requires { length text.now ≤ text_room }
    ensures shown { shown result ≡ plain 400 (error_body text.now) }
    ensures named { IsTrue (is_named result.status) }
{
    plain(400, error_body(text))
}

/// Why a request asks for nothing.
#[tactic(auto, unfolding(lf_http::specs::Reply::reason))]
pub fn refused_reply(why: Refusal) -> Reply
    ensures shown { shown result ≡ refused_reply why }
    ensures named { IsTrue (is_named result.status) }
{
    match why {
        Refusal::ContentEncoding => plain(415, error_body(b"content encoding")),
        Refusal::NoSuchPath => plain(404, error_body(b"no such path")),
        Refusal::MethodNotAllowed(allow) => not_allowed(allow),
        Refusal::BadSeen => bad_request(b"bad Ld-Seen"),
        Refusal::BadRefresh => bad_request(b"bad Ld-Refresh"),
    }
}

/// The reply to a refused head, after which the stream ends. None is sent where the input ended or
/// failed.
#[tactic(auto, unfolding(lf_http::specs::Reply::reason))]
pub fn refusal(why: HeadErr) -> Option<Reply>
    ensures shown { option_map shown result ≡ refusal why }
    ensures named { IfSome result (λ reply. IsTrue (is_named reply.status)) }
{
    match why {
        HeadErr::ReadFault => None,
        HeadErr::CutShort => None,
        HeadErr::TooLarge => Some(plain(431, error_body(b"head too large"))),
        HeadErr::BadHead => Some(bad_request(b"bad head")),
        HeadErr::LengthNeeded => Some(plain(411, error_body(b"length required"))),
        HeadErr::BodyTooLong => Some(plain(413, error_body(b"body too long"))),
        HeadErr::Expectation => Some(plain(417, error_body(b"expectation"))),
    }
}
