//! Requests answered by a desk, one function a request.
ghost use Rattle.std.specs.Prelude.{◌≡◌, ◌≤◌, [], List, ℕ, Bool, IsTrue, IsUtf8, Ok, length};
ghost use Rattle.lf_http.specs.Judge.{longest_body};
ghost use Rattle.lf_http.specs.Reply.{is_named};
ghost use Rattle.lf_model.specs.declared.desk.Look.TheVariants.{Pending};
ghost use Rattle.def_histories.specs.declared.operation.Operation.{Operation};
ghost use Rattle.lf_desk.specs.Calls.{IsCall};
ghost use Rattle.lf_session.specs.Bodies.{frame_body};
ghost use Rattle.lf_session.specs.Boards.{KeepsBoards, StaysOut, boards_of};
ghost use Rattle.lf_session.specs.Moving.{Moves};
ghost use Rattle.lf_session.specs.Answers.{IsPatch, Refreshes};
ghost use Rattle.lf_session.specs.Shown.{shown};
ghost use Rattle.lf_session.specs.Steps.{IsStep};
ghost use Rattle.lf_session.specs.declared.request.Asked.TheVariants as asks;

use crate::commits::{bad_line_reply, commit_reply, version_reply};
use crate::documents::{document_reply, framed_reply, look_reply, pending_reply};
use crate::registering::{no_text_reply, register_failed, registered_reply, retired_reply};
use crate::reply::{Reply, out_of_memory, refused_reply, unknown_frame};
use crate::request::Asked;
use crate::texts::frame_text;
use crate::turning::answer_turn;
use lf_base::{Memory, Text};
use lf_desk::{Desk, Rota};
use lf_model::Look;
use lf_nquads::{LineErr, read_patch};
use lf_rdf::Patch;
use std::alloc::Global;

fn answer_version<D: Desk>(desk: &mut D) -> Reply
    ensures step { (need : ℕ) (name body : List ℕ)
        → IsStep (D.alone desk.old) (D.seat desk.old) need name body asks.Version
        (D.history desk.old) (D.history desk.new) (shown result) }
    ensures keeps { KeepsBoards (D.alone desk.old) (D.history desk.new)
        (boards_of (D.away desk.old) (D.taken desk.old))
        (boards_of (D.away desk.new) (D.taken desk.new)) }
    ensures same_seat { D.seat desk.new ≡ D.seat desk.old }
    ensures same_alone { D.alone desk.new ≡ D.alone desk.old }
    ensures named { IsTrue (is_named result.status) }
{
    version_reply(desk.newest())
}

fn answer_get<D: Desk>(alloc: Global, desk: &mut D, name: &str, need: u64) -> Reply
    ensures step { (body : List ℕ)
        → IsStep (D.alone desk.old) (D.seat desk.old) need name.now body asks.Get
        (D.history desk.old) (D.history desk.new) (shown result) }
    ensures keeps { KeepsBoards (D.alone desk.old) (D.history desk.new)
        (boards_of (D.away desk.old) (D.taken desk.old))
        (boards_of (D.away desk.new) (D.taken desk.new)) }
    ensures same_seat { D.seat desk.new ≡ D.seat desk.old }
    ensures same_alone { D.alone desk.new ≡ D.alone desk.old }
    ensures named { IsTrue (is_named result.status) }
{
    look_reply(desk.look(alloc, name, need))
}

// Registers a text.
fn register<D: Desk>(alloc: Global, desk: &mut D, name: &str, text: &str) -> Reply
    requires { IsUtf8 text.now }
    ensures step { (need : ℕ)
        → IsStep (D.alone desk.old) (D.seat desk.old) need name.now text.now asks.Put
        (D.history desk.old) (D.history desk.new) (shown result) }
    ensures keeps { KeepsBoards (D.alone desk.old) (D.history desk.new)
        (boards_of (D.away desk.old) (D.taken desk.old))
        (boards_of (D.away desk.new) (D.taken desk.new)) }
    ensures same_seat { D.seat desk.new ≡ D.seat desk.old }
    ensures same_alone { D.alone desk.new ≡ D.alone desk.old }
    ensures named { IsTrue (is_named result.status) }
{
    match desk.register(alloc, name, text) {
        Ok(fresh) => registered_reply(name, fresh),
        Err(error) => register_failed(alloc, error),
    }
}

fn answer_put<D: Desk>(alloc: Global, desk: &mut D, name: &str, body: &[u8]) -> Reply
    ensures step { (need : ℕ)
        → IsStep (D.alone desk.old) (D.seat desk.old) need name.now body.now asks.Put
        (D.history desk.old) (D.history desk.new) (shown result) }
    ensures keeps { KeepsBoards (D.alone desk.old) (D.history desk.new)
        (boards_of (D.away desk.old) (D.taken desk.old))
        (boards_of (D.away desk.new) (D.taken desk.new)) }
    ensures same_seat { D.seat desk.new ≡ D.seat desk.old }
    ensures same_alone { D.alone desk.new ≡ D.alone desk.old }
    ensures named { IsTrue (is_named result.status) }
{
    match str::from_utf8(body) {
        Ok(text) => register(alloc, desk, name, text),
        Err(_) => no_text_reply(name, body),
    }
}

// Retires a name whose body was made, so that no memory is taken after it.
fn retire<D: Desk>(alloc: Global, desk: &mut D, name: &str, text: Text) -> Reply
    requires { text ≡ frame_body name.now }
    ensures step { (need : ℕ) (body : List ℕ)
        → IsStep (D.alone desk.old) (D.seat desk.old) need name.now body asks.Delete
        (D.history desk.old) (D.history desk.new) (shown result) }
    ensures keeps { KeepsBoards (D.alone desk.old) (D.history desk.new)
        (boards_of (D.away desk.old) (D.taken desk.old))
        (boards_of (D.away desk.new) (D.taken desk.new)) }
    ensures same_seat { D.seat desk.new ≡ D.seat desk.old }
    ensures same_alone { D.alone desk.new ≡ D.alone desk.old }
    ensures named { IsTrue (is_named result.status) }
{
    match desk.retire(alloc, name) {
        Ok(true) => retired_reply(text),
        Ok(false) => unknown_frame(),
        Err(Memory) => out_of_memory(),
    }
}

fn answer_delete<D: Desk>(alloc: Global, desk: &mut D, name: &str) -> Reply
    ensures step { (need : ℕ) (body : List ℕ)
        → IsStep (D.alone desk.old) (D.seat desk.old) need name.now body asks.Delete
        (D.history desk.old) (D.history desk.new) (shown result) }
    ensures keeps { KeepsBoards (D.alone desk.old) (D.history desk.new)
        (boards_of (D.away desk.old) (D.taken desk.old))
        (boards_of (D.away desk.new) (D.taken desk.new)) }
    ensures same_seat { D.seat desk.new ≡ D.seat desk.old }
    ensures same_alone { D.alone desk.new ≡ D.alone desk.old }
    ensures named { IsTrue (is_named result.status) }
{
    match frame_text(alloc, name) {
        Ok(text) => retire(alloc, desk, name, text),
        Err(Memory) => out_of_memory(),
    }
}

// Frames the newest version, where it is new enough.
fn refresh<D: Desk>(
    alloc: Global,
    desk: &mut D,
    name: &str,
    need: u64,
    have: Option<u64>,
    needed: u64,
) -> Reply
    ensures call { IsCall (D.alone desk.old) (D.seat desk.old)
        (D.history desk.old) (D.history desk.new) []
        (λ later. Refreshes name.now need [] later (Ok (Pending have needed)) (shown result)) }
    ensures keeps { KeepsBoards (D.alone desk.old) (D.history desk.new)
        (boards_of (D.away desk.old) (D.taken desk.old))
        (boards_of (D.away desk.new) (D.taken desk.new)) }
    ensures same_seat { D.seat desk.new ≡ D.seat desk.old }
    ensures same_alone { D.alone desk.new ≡ D.alone desk.old }
    ensures named { IsTrue (is_named result.status) }
{
    if need <= desk.newest() {
        framed_reply(desk.frame_now(alloc, name))
    } else {
        pending_reply(have, needed)
    }
}

fn answer_now<D: Desk>(alloc: Global, desk: &mut D, name: &str, need: u64) -> Reply
    ensures step { (body : List ℕ)
        → IsStep (D.alone desk.old) (D.seat desk.old) need name.now body asks.GetNow
        (D.history desk.old) (D.history desk.new) (shown result) }
    ensures keeps { KeepsBoards (D.alone desk.old) (D.history desk.new)
        (boards_of (D.away desk.old) (D.taken desk.old))
        (boards_of (D.away desk.new) (D.taken desk.new)) }
    ensures same_seat { D.seat desk.new ≡ D.seat desk.old }
    ensures same_alone { D.alone desk.new ≡ D.alone desk.old }
    ensures named { IsTrue (is_named result.status) }
{
    match desk.look(alloc, name, need) {
        Ok(Look::Pending { have, need: needed }) => refresh(alloc, desk, name, need, have, needed),
        Ok(Look::Document { doc, version }) => document_reply(doc, version),
        Ok(Look::Unknown) => unknown_frame(),
        Err(Memory) => out_of_memory(),
    }
}

// Commits a patch that was read.
fn commit<D: Desk>(alloc: Global, desk: &mut D, patch: Patch) -> Reply
    ensures step { (need : ℕ) (name body : List ℕ) → IsPatch body patch
        → IsStep (D.alone desk.old) (D.seat desk.old) need name body asks.Commit
        (D.history desk.old) (D.history desk.new) (shown result) }
    ensures keeps { KeepsBoards (D.alone desk.old) (D.history desk.new)
        (boards_of (D.away desk.old) (D.taken desk.old))
        (boards_of (D.away desk.new) (D.taken desk.new)) }
    ensures same_seat { D.seat desk.new ≡ D.seat desk.old }
    ensures same_alone { D.alone desk.new ≡ D.alone desk.old }
    ensures named { IsTrue (is_named result.status) }
{
    commit_reply(desk.commit(alloc, patch))
}

fn answer_commit<D: Desk>(alloc: Global, desk: &mut D, body: &[u8]) -> Reply
    requires short { length body.now ≤ longest_body }
    ensures step { (need : ℕ) (name : List ℕ) → IsStep (D.alone desk.old) (D.seat desk.old) need
        name body.now asks.Commit
        (D.history desk.old) (D.history desk.new) (shown result) }
    ensures keeps { KeepsBoards (D.alone desk.old) (D.history desk.new)
        (boards_of (D.away desk.old) (D.taken desk.old))
        (boards_of (D.away desk.new) (D.taken desk.new)) }
    ensures same_seat { D.seat desk.new ≡ D.seat desk.old }
    ensures same_alone { D.alone desk.new ≡ D.alone desk.old }
    ensures named { IsTrue (is_named result.status) }
{
    match read_patch(alloc, body) {
        Ok(patch) => commit(alloc, desk, patch),
        Err(LineErr::Bad { line, kind }) => bad_line_reply(kind, line),
        Err(LineErr::Memory) => out_of_memory(),
    }
}

/// Answers a request by the desk. Its body has at most 67,108,864 bytes.
pub fn answer<D: Rota>(
    alloc: Global,
    desk: &mut D,
    asked: Asked,
    name: &str,
    body: &[u8],
    need: u64,
) -> Reply
    requires short { length body.now ≤ longest_body }
    ensures step { IsStep (D.alone desk.old) (D.seat desk.old) need name.now body.now asked
        (D.history desk.old) (D.history desk.new) (shown result) }
    ensures moved { Moves (D.alone desk.old) (boards_of (D.away desk.old) (D.taken desk.old))
        (boards_of (D.away desk.new) (D.taken desk.new))
        (D.seat desk.old) asked (D.history desk.old) (D.history desk.new) (shown result) }
    ensures out { StaysOut (D.alone desk.old) (D.history desk.new)
        (boards_of (D.away desk.old) (D.taken desk.old))
        (boards_of (D.away desk.new) (D.taken desk.new)) }
    ensures same_seat { D.seat desk.new ≡ D.seat desk.old }
    ensures same_alone { D.alone desk.new ≡ D.alone desk.old }
    ensures named { IsTrue (is_named result.status) }
{
    match asked {
        Asked::Refused(why) => refused_reply(why),
        Asked::Put => answer_put(alloc, desk, name, body),
        Asked::Delete => answer_delete(alloc, desk, name),
        Asked::Get => answer_get(alloc, desk, name, need),
        Asked::GetNow => answer_now(alloc, desk, name, need),
        Asked::Commit => answer_commit(alloc, desk, body),
        Asked::Version => answer_version(desk),
        Asked::Turn => answer_turn(alloc, desk),
    }
}
