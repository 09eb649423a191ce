//! Replies to patches and to questions for the version, and the limits of histories.
ghost use Rattle.std.specs.Prelude.{◌≡◌, IsTrue, codes};
ghost use Rattle.lf_http.specs.Reply.{is_named};
ghost use Rattle.lf_session.specs.Bodies.{history_full_body, too_many_body};
ghost use Rattle.lf_session.specs.Replies.{plain, bad_line_reply, version_reply, commit_reply};
ghost use Rattle.lf_session.specs.Shown.{shown};

use crate::bodies::{bad_line_body, history_full_body, too_many_body, version_body};
use crate::reply::{Reply, out_of_memory, plain, versioned};
use def_patch_texts::LineKind;
use lf_desk::CommitErr;
use lf_model::Counted;

/// The number of a version.
#[tactic(auto, unfolding(lf_http::specs::Reply::reason))]
pub fn version_reply(version: u64) -> Reply
    ensures shown { shown result ≡ version_reply version }
    ensures named { IsTrue (is_named result.status) }
{
    versioned(200, version, version_body(version))
}

/// A limit of the history is met.
#[tactic(auto, unfolding(lf_http::specs::Reply::reason))]
pub fn history_full_reply(of: Counted, have: u64, most: u64) -> Reply
    ensures shown { shown result ≡ plain 507 (history_full_body of have most) }
    ensures named { IsTrue (is_named result.status) }
{
    plain(507, history_full_body(of, have, most))
}

// The version would have more quads than may be.
#[tactic(auto, unfolding(lf_http::specs::Reply::reason))]
fn too_many_quads_reply(have: u64, would: u64) -> Reply
    ensures shown { shown result ≡ plain 413 (too_many_body (codes "quads") have would) }
    ensures named { IsTrue (is_named result.status) }
{
    plain(413, too_many_body(b"quads", have, would))
}

/// The first bad line of a patch text.
#[tactic(auto, unfolding(lf_http::specs::Reply::reason))]
pub fn bad_line_reply(kind: LineKind, line: u64) -> Reply
    ensures shown { shown result ≡ bad_line_reply kind line }
    ensures named { IsTrue (is_named result.status) }
{
    plain(400, bad_line_body(kind, line))
}

/// The version that a commit made, or why it was refused.
pub fn commit_reply(done: Result<u64, CommitErr>) -> Reply
    ensures shown { shown result ≡ commit_reply done }
    ensures named { IsTrue (is_named result.status) }
{
    match done {
        Ok(version) => version_reply(version),
        Err(CommitErr::HistoryFull { of, have, limit }) => history_full_reply(of, have, limit),
        Err(CommitErr::TooManyQuads { have, would }) => too_many_quads_reply(have, would),
        Err(CommitErr::Memory) => out_of_memory(),
    }
}
