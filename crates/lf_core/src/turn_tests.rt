//! Boards that go out and come home: a board is turned and published, and one whose text was
//! registered anew is dropped. States, jobs and what is ready may move to another thread.
ghost use Rattle.std.specs.Prelude.{◌≡◌, ◌<◌, ◌≤◌, ◌++◌, List};
ghost use Rattle.def_histories.specs.declared.operation.Operation.{Operation};
ghost use Rattle.lf_core.specs.Taken.{FitsHistory};

use crate::job::Job;
use crate::ready::{Lent, Ready};
use crate::state::State;
use def_turns::Turned;
use lf_base::{Memory, Steps};
use lf_model::{Doc, Look};
use lf_rdf::{Patch, SignedList};
use std::alloc::Global;
use std::marker::Brand;
use std::sync::ledger::{Blank, Ledger};
use std::test::Fail;

const ALL: &str = "{}";

const TYPED: &str = "{\"@type\":\"http://e/T\"}";

// What is of this type may move to another thread.
fn may_move<T: Send>(_: &T) {}

fn ready_moves(ready: &Ready) {
    may_move(ready);
}

fn job_moves(job: &Job) {
    may_move(job);
}

fn state_moves(state: &State) {
    may_move(state);
}

// Makes a commit ready, puts it, and says whether it lent the operation of this seat.
fn lends_and_puts(
    alloc: Global,
    state: &mut State,
    seat: u64,
    patch: Patch,
) -> Result<bool, Memory> {
    match state.ready_commit(alloc, seat, patch) {
        Ok(ready) => {
            ready_moves(&ready);
            let lent = match ready.operation() {
                Lent::Commit(commit) => commit.seat == seat,
                Lent::Register { .. } => false,
            };
            state.put(ready);
            Ok(lent)
        }
        Err(_) => Err(Memory),
    }
}

// Turns a job's board and gives it back.
fn turn_and_give<L: Ledger>(
    alloc: Global,
    state: &mut State,
    job: Job,
    steps: &mut Steps<L>,
) -> Result<Turned, Memory>
    requires fits { FitsHistory state.old.history job }
    requires place { 1 ≤ state.old.places }
{
    let mut job = job;
    job_moves(&job);
    match job.work(alloc, steps) {
        Ok(()) => Ok(state.give_back(job)),
        Err(Memory) => {
            drop(job);
            Err(Memory)
        }
    }
}

// Registers a text under `a`. False where that is refused.
fn is_registered(alloc: Global, state: &mut State, text: &str) -> bool
    ensures history { (later : List Operation) × (state.new.history ≡ state.old.history ++ later) }
    ensures places { state.old.places ≤ state.new.places }
{
    let registered = state.register(alloc, 1, "a", text);
    let is_ok = registered.is_ok();
    drop(registered);
    is_ok
}

// Takes the board of the frame whose turn is next, and registers a text under `a` before the board
// is turned and given back.
fn late_turn<L: Ledger>(
    alloc: Global,
    state: &mut State,
    text: &str,
    steps: &mut Steps<L>,
) -> Result<Turned, Memory> {
    match state.take_board(alloc)? {
        Some(job) => {
            if is_registered(alloc, state, text) {
                turn_and_give(alloc, state, job, steps)
            } else {
                drop(job);
                Err(Memory)
            }
        }
        None => Ok(Turned::Idle),
    }
}

// A state with the frame `{}` under `a`, and a commit without lines.
fn prepare(alloc: Global, state: &mut State) -> bool {
    let empty = Patch {
        lines: SignedList::new(alloc),
        bytes: 0,
    };
    let committed = state.commit(alloc, 1, empty).is_ok();
    is_registered(alloc, state, ALL) && committed
}

// A look gives the document of version 1 with this text.
fn is_document(look: &Look, text: &str) -> bool {
    match look {
        Look::Document { doc, version } => match &**doc {
            Doc::Bytes(bytes) => *version == 1 && bytes.as_str() == text,
            Doc::Refused(_) => false,
            Doc::Over(_) => false,
        },
        Look::Pending { .. } => false,
        Look::Unknown => false,
    }
}

// No frame waits for a turn.
fn has_none(alloc: Global, state: &mut State) -> bool {
    match state.take_board(alloc) {
        Ok(Some(job)) => {
            drop(job);
            false
        }
        Ok(None) => true,
        Err(Memory) => false,
    }
}

// With the same text again the turned board is published, and then no frame waits.
fn publishes(
    state: &mut State,
    alloc: Global,
    turned: &Result<Turned, Memory>,
) -> Result<bool, Memory> {
    let look = state.look("a", 1)?;
    let shown = is_document(&look, ALL);
    drop(look);
    Ok(
        matches!(turned, Ok(Turned::Published { version: 1, .. }))
            && shown
            && has_none(alloc, state),
    )
}

// With another text the turned board is superseded, and nothing is published.
fn supersedes(state: &State, turned: &Result<Turned, Memory>) -> Result<bool, Memory> {
    let look = state.look("a", 1)?;
    let pending = matches!(
        look,
        Look::Pending {
            have: None,
            need: 1
        }
    );
    drop(look);
    Ok(
        matches!(
            turned,
            Ok(Turned::Superseded {
                then: 1,
                now: Some(2),
                ..
            })
        ) && pending,
    )
}

// Both rows, each with a state of its own.
fn row<L: Ledger>(alloc: Global, again: bool, blank: Blank) -> Result<bool, Memory>
    requires name { blank.name ≡ L.name }
    requires parts { blank.parts ≡ L.parts }
    requires one { 0 < blank.parts }
{
    let mut steps = Steps::<L>::of(blank);
    let mut state = State::new(alloc)?;
    let ready = prepare(alloc, &mut state);
    let text = if again { ALL } else { TYPED };
    let turned = late_turn(alloc, &mut state, text, &mut steps);
    let held = if again {
        publishes(&mut state, alloc, &turned)
    } else {
        supersedes(&state, &turned)
    };
    drop(turned);
    drop(state);
    Ok(ready && held?)
}

#[test]
fn a_turned_board_is_published(rt: HostRuntime) -> Result<(), Fail> {
    let held = row::<Brand>(rt.alloc(), true, Blank::new(1));
    assert!(rt; held?);
    Ok(())
}

#[test]
fn superseded(rt: HostRuntime) -> Result<(), Fail> {
    let held = row::<Brand>(rt.alloc(), false, Blank::new(1));
    assert!(rt; held?);
    Ok(())
}

#[test]
fn what_is_ready_is_put(rt: HostRuntime) -> Result<(), Fail> {
    let alloc = rt.alloc();
    let mut state = State::new(alloc)?;
    state_moves(&state);
    let idle = Patch {
        lines: SignedList::new(alloc),
        bytes: 0,
    };
    let held = lends_and_puts(alloc, &mut state, 7, idle);
    let version = state.newest().number();
    drop(state);
    assert!(rt; held? && version == 1);
    Ok(())
}
