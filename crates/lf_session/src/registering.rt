//! The replies to a registration and to a retirement.
ghost use Rattle.std.specs.Prelude.{◌≡◌, ◌≤◌, ◌⊎◌, List, ℕ, length, IsTrue, IfOk, codes, Ok, Err};
ghost use Rattle.lf_http.specs.Reply.{is_named};
ghost use Rattle.lf_model.specs.ErrorName.{name_of};
ghost use Rattle.lf_session.specs.Bodies.{text_room, error_body, frame_body, frame_too_long_body, too_many_body, fractional_body};
ghost use Rattle.lf_session.specs.Replies.{plain, out_of_memory, register_reply};
ghost use Rattle.lf_session.specs.Answers.{no_text_answer};
ghost use Rattle.lf_session.specs.Shown.{shown};

use crate::bodies::{error_body, frame_body, frame_too_long_body, too_many_body};
use crate::commits::history_full_reply;
use crate::reply::{Body, Reply, bad_request, out_of_memory, plain};
use crate::texts::fractional_text;
use lf_base::{Memory, Text};
use lf_desk::{RegisterErr, is_frame_name};
use lf_frames::MOST_FRAME_BYTES;
use lf_http::Allow;
use lf_model::LdError;
use std::alloc::Global;

// A JSON text for which memory was taken, and which speaks of no version.
fn long_reply(status: u16, text: Text) -> Reply
    requires { IsTrue (is_named status) }
    ensures shown { shown result ≡ plain status text }
    ensures named { IsTrue (is_named result.status) }
{
    Reply {
        status,
        ld_json: false,
        allow: Allow::NoAllow,
        version: None,
        body: Body::Long(text),
    }
}

/// A frame that was retired, by the body of its name. It takes no memory.
#[tactic(auto, unfolding(lf_http::specs::Reply::reason))]
pub fn retired_reply(text: Text) -> Reply
    ensures shown { shown result ≡ plain 200 text }
    ensures named { IsTrue (is_named result.status) }
{
    long_reply(200, text)
}

// A number of the text is no whole number within range, by its path.
#[tactic(auto, unfolding(lf_http::specs::Reply::reason))]
fn fractional_reply(alloc: Global, path: &Text) -> Result<Reply, Memory>
    ensures shown { IfOk result (λ reply. shown reply ≡ plain 400 (fractional_body path.now)) }
    ensures named { IfOk result (λ reply. IsTrue (is_named reply.status)) }
{
    Ok(long_reply(400, fractional_text(alloc, path)?))
}

// The text has an error of its context or of its frame.
#[tactic(auto, unfolding(lf_http::specs::Reply::reason))]
fn bad_ld_reply(error: LdError) -> Reply
    ensures shown { shown result ≡ plain 422 (error_body (name_of error)) }
    ensures named { IsTrue (is_named result.status) }
{
    plain(422, error_body(error.name().as_bytes()))
}

// The text is too long.
#[tactic(auto, unfolding(lf_http::specs::Reply::reason))]
fn too_long_reply(size: u64) -> Reply
    ensures shown { shown result ≡ plain 413 (frame_too_long_body size) }
    ensures named { IsTrue (is_named result.status) }
{
    plain(413, frame_too_long_body(size))
}

// More frames would be live than may be.
#[tactic(auto, unfolding(lf_http::specs::Reply::reason))]
fn too_many_frames_reply(have: u64, would: u64) -> Reply
    ensures shown { shown result ≡ plain 413 (too_many_body (codes "frames") have would) }
    ensures named { IsTrue (is_named result.status) }
{
    plain(413, too_many_body(b"frames", have, would))
}

/// Why a frame was not registered.
pub fn register_refused(alloc: Global, error: RegisterErr) -> Result<Reply, Memory>
    ensures shown { (name : List ℕ) → IfOk result
        (λ reply. shown reply ≡ register_reply name (Err error)) }
    ensures named { IfOk result (λ reply. IsTrue (is_named reply.status)) }
{
    match error {
        RegisterErr::BadName => Ok(bad_request(b"bad name")),
        RegisterErr::FrameTooLong { length } => Ok(too_long_reply(length)),
        RegisterErr::NotJson => Ok(bad_request(b"not JSON")),
        RegisterErr::Fractional { path } => fractional_reply(alloc, &path),
        RegisterErr::Ld(error) => Ok(bad_ld_reply(error)),
        RegisterErr::TooManyFrames { have, would } => Ok(too_many_frames_reply(have, would)),
        RegisterErr::HistoryFull { of, have, limit } => Ok(history_full_reply(of, have, limit)),
        RegisterErr::Memory => Ok(out_of_memory()),
    }
}

// A text that was registered.
#[tactic(auto, unfolding(lf_http::specs::Reply::reason))]
fn new_frame_reply(name: &str) -> Reply
    requires { length name.now ≤ text_room }
    ensures shown { shown result ≡ plain 201 (frame_body name.now) }
    ensures named { IsTrue (is_named result.status) }
{
    plain(201, frame_body(name.as_bytes()))
}

// A text that was live already.
#[tactic(auto, unfolding(lf_http::specs::Reply::reason))]
fn same_frame_reply(name: &str) -> Reply
    requires { length name.now ≤ text_room }
    ensures shown { shown result ≡ plain 200 (frame_body name.now) }
    ensures named { IsTrue (is_named result.status) }
{
    plain(200, frame_body(name.as_bytes()))
}

/// A frame that was registered, or whose text was live already. It takes no memory.
pub fn registered_reply(name: &str, fresh: bool) -> Reply
    requires { length name.now ≤ text_room }
    ensures shown { shown result ≡ register_reply name.now (Ok fresh) }
    ensures named { IsTrue (is_named result.status) }
{
    if fresh {
        new_frame_reply(name)
    } else {
        same_frame_reply(name)
    }
}

/// What a registration is answered that was refused, or for which no memory is found.
pub fn register_failed(alloc: Global, error: RegisterErr) -> Reply
    ensures shown { (name : List ℕ) →
        (shown result ≡ register_reply name (Err error)) ⊎ (shown result ≡ out_of_memory) }
    ensures named { IsTrue (is_named result.status) }
{
    match register_refused(alloc, error) {
        Ok(reply) => reply,
        Err(Memory) => out_of_memory(),
    }
}

/// A frame's text that isn't UTF-8.
#[tactic(auto, unfolding(def_histories::specs::Legal::most_frame_bytes))]
pub fn no_text_reply(name: &str, body: &[u8]) -> Reply
    ensures shown { shown result ≡ register_reply name.now (no_text_answer name.now body.now) }
    ensures named { IsTrue (is_named result.status) }
{
    if !is_frame_name(name.as_bytes()) {
        bad_request(b"bad name")
    } else if body.len() > MOST_FRAME_BYTES {
        too_long_reply(body.len() as u64)
    } else {
        bad_request(b"not JSON")
    }
}
