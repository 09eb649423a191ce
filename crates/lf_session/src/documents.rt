//! Replies to `GET`: documents, what comes in their place, and what is still to come.
ghost use Rattle.std.specs.Prelude.{◌≡◌, IsTrue};
ghost use Rattle.std.specs.Arc.{arc_value};
ghost use Rattle.lf_http.specs.Reply.{is_named};
ghost use Rattle.lf_model.specs.ErrorName.{name_of};
ghost use Rattle.lf_session.specs.Bodies.{error_body, limit_body, pending_body};
ghost use Rattle.lf_session.specs.Replies.{plain, versioned, document_reply, look_reply, framed_reply};
ghost use Rattle.lf_session.specs.Shown.{shown};

use crate::bodies::{error_body, limit_body, pending_body};
use crate::reply::{Body, Reply, out_of_memory, plain, unknown_frame, versioned};
use lf_base::Memory;
use lf_http::{Allow, ShortText};
use lf_model::{Doc, FramedNow, LdError, Limit, Look};
use std::sync::Arc;

// What a frame's error is called.
fn ld_error_body(error: LdError) -> ShortText
    ensures { result.items ≡ error_body (name_of error) }
{
    error_body(error.name().as_bytes())
}

// An error that a frame has at a version.
#[tactic(auto, unfolding(lf_http::specs::Reply::reason))]
fn ld_error(version: u64, error: LdError) -> Reply
    ensures shown { shown result ≡ versioned 422 version (error_body (name_of error)) }
    ensures named { IsTrue (is_named result.status) }
{
    versioned(422, version, ld_error_body(error))
}

// A limit that a document passes at a version.
#[tactic(auto, unfolding(lf_http::specs::Reply::reason))]
fn over_reply(version: u64, limit: Limit) -> Reply
    ensures shown { shown result ≡ versioned 422 version (limit_body limit) }
    ensures named { IsTrue (is_named result.status) }
{
    versioned(422, version, limit_body(limit))
}

/// A document of a version that is shared: its text, or what comes in its place. It takes no
/// memory.
#[tactic(auto, unfolding(lf_http::specs::Reply::reason))]
pub fn document_reply(document: Arc<Doc>, version: u64) -> Reply
    ensures shown { shown result ≡ document_reply (arc_value document) version }
    ensures named { IsTrue (is_named result.status) }
{
    match &*document {
        Doc::Refused(error) => ld_error(version, *error),
        Doc::Over(limit) => over_reply(version, *limit),
        Doc::Bytes(_) => Reply {
            status: 200,
            ld_json: true,
            allow: Allow::NoAllow,
            version: Some(version),
            body: Body::Document(document),
        },
    }
}

// The same of a document that isn't shared.
#[tactic(auto, unfolding(lf_http::specs::Reply::reason))]
fn framed_document_reply(document: Doc, version: u64) -> Reply
    ensures shown { shown result ≡ document_reply document version }
    ensures named { IsTrue (is_named result.status) }
{
    match document {
        Doc::Refused(error) => ld_error(version, error),
        Doc::Over(limit) => over_reply(version, limit),
        Doc::Bytes(text) => Reply {
            status: 200,
            ld_json: true,
            allow: Allow::NoAllow,
            version: Some(version),
            body: Body::Long(text),
        },
    }
}

/// Nothing published is new enough.
#[tactic(auto, unfolding(lf_http::specs::Reply::reason))]
pub fn pending_reply(have: Option<u64>, need: u64) -> Reply
    ensures shown { shown result ≡ plain 202 (pending_body have need) }
    ensures named { IsTrue (is_named result.status) }
{
    plain(202, pending_body(have, need))
}

/// What is found at a frame's name.
pub fn look_reply(looked: Result<Look, Memory>) -> Reply
    ensures shown { shown result ≡ look_reply looked }
    ensures named { IsTrue (is_named result.status) }
{
    match looked {
        Ok(Look::Document { doc, version }) => document_reply(doc, version),
        Ok(Look::Pending { have, need }) => pending_reply(have, need),
        Ok(Look::Unknown) => unknown_frame(),
        Err(Memory) => out_of_memory(),
    }
}

/// The document of the newest version, where the name has a frame.
pub fn framed_reply(found: Result<Option<FramedNow>, Memory>) -> Reply
    ensures shown { shown result ≡ framed_reply found }
    ensures named { IsTrue (is_named result.status) }
{
    match found {
        Ok(Some(now)) => framed_document_reply(now.doc, now.version),
        Ok(None) => unknown_frame(),
        Err(Memory) => out_of_memory(),
    }
}
