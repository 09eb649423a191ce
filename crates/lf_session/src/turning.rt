//! Turns: one for each request, and the replies to them.
ghost use Rattle.std.specs.Prelude.{◌≡◌, ◌≤◌, ◌<◌, List, ℕ, length, IsTrue, Ok};
ghost use Rattle.lf_http.specs.Reply.{is_named};
ghost use Rattle.def_turns.specs.declared.turned.Turned.TheVariants as t;
ghost use Rattle.lf_pool.specs.OneTurn.{IsTurn};
ghost use Rattle.lf_session.specs.Boards.{StaysOut, boards_of};
ghost use Rattle.lf_session.specs.Bodies.{home_body, published_body, superseded_body};
ghost use Rattle.lf_session.specs.Moving.{Moves};
ghost use Rattle.lf_session.specs.Replies.{plain, turn_reply};
ghost use Rattle.lf_session.specs.Shown.{shown};
ghost use Rattle.lf_session.specs.Steps.{HasShortName, IsStep};
ghost use Rattle.lf_session.specs.declared.request.Asked.TheVariants as asks;

use crate::bodies::{home_body, idle_body, published_body, superseded_body};
use crate::reply::{Reply, out_of_memory, plain};
use def_turns::Turned;
use lf_base::{Memory, Steps};
use lf_desk::Rota;
use lf_http::ShortText;
use lf_pool::one_turn;
use std::alloc::Global;
use std::marker::Brand;
use std::sync::ledger::{Blank, Ledger};

// A body that says what came of a turn.
#[tactic(auto, unfolding(lf_http::specs::Reply::reason))]
fn ok_reply(body: ShortText) -> Reply
    ensures shown { shown result ≡ plain 200 body.items }
    ensures named { IsTrue (is_named result.status) }
{
    plain(200, body)
}

// What came of a turn, by a frame's name. It takes no memory.
fn turn_reply(done: Result<Turned, Memory>) -> Reply
    requires short { HasShortName done }
    ensures shown { shown result ≡ turn_reply done }
    ensures named { IsTrue (is_named result.status) }
{
    match done {
        Ok(Turned::Idle) => ok_reply(idle_body()),
        Ok(Turned::Published { frame, version }) => {
            ok_reply(published_body(frame.as_str().as_bytes(), version))
        }
        Ok(Turned::Home { frame, .. }) => ok_reply(home_body(frame.as_str().as_bytes())),
        Ok(Turned::Superseded { frame, then, now }) => {
            ok_reply(superseded_body(frame.as_str().as_bytes(), then, now))
        }
        Err(Memory) => out_of_memory(),
    }
}

// Makes a turn, whose questions are counted from 0.
fn count_turn<D: Rota, L: Ledger>(alloc: Global, desk: &mut D, blank: Blank) -> Reply
    requires name { blank.name ≡ L.name }
    requires parts { blank.parts ≡ L.parts }
    requires one { 0 < blank.parts }
    ensures step { (need : ℕ) (name body : List ℕ)
        → IsStep (D.alone desk.old) (D.seat desk.old) need name body asks.Turn
        (D.history desk.old) (D.history desk.new) (shown result) }
    ensures moved { Moves (D.alone desk.old) (boards_of (D.away desk.old) (D.taken desk.old))
        (boards_of (D.away desk.new) (D.taken desk.new))
        (D.seat desk.old) asks.Turn (D.history desk.old) (D.history desk.new) (shown result) }
    ensures out { StaysOut (D.alone desk.old) (D.history desk.new)
        (boards_of (D.away desk.old) (D.taken desk.old))
        (boards_of (D.away desk.new) (D.taken desk.new)) }
    ensures same_seat { D.seat desk.new ≡ D.seat desk.old }
    ensures same_alone { D.alone desk.new ≡ D.alone desk.old }
    ensures named { IsTrue (is_named result.status) }
{
    let mut steps: Steps<L> = Steps::of(blank);
    turn_reply(one_turn(alloc, desk, &mut steps))
}

/// Makes a turn: takes a board, brings it to the newest version and gives it back.
pub fn answer_turn<D: Rota>(alloc: Global, desk: &mut D) -> Reply
    ensures step { (need : ℕ) (name body : List ℕ)
        → IsStep (D.alone desk.old) (D.seat desk.old) need name body asks.Turn
        (D.history desk.old) (D.history desk.new) (shown result) }
    ensures moved { Moves (D.alone desk.old) (boards_of (D.away desk.old) (D.taken desk.old))
        (boards_of (D.away desk.new) (D.taken desk.new))
        (D.seat desk.old) asks.Turn (D.history desk.old) (D.history desk.new) (shown result) }
    ensures out { StaysOut (D.alone desk.old) (D.history desk.new)
        (boards_of (D.away desk.old) (D.taken desk.old))
        (boards_of (D.away desk.new) (D.taken desk.new)) }
    ensures same_seat { D.seat desk.new ≡ D.seat desk.old }
    ensures same_alone { D.alone desk.new ≡ D.alone desk.old }
    ensures named { IsTrue (is_named result.status) }
{
    count_turn::<D, Brand>(alloc, desk, Blank::new(1))
}
