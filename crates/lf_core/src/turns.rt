//! Boards that go out and come home.
ghost use Rattle.std.specs.Prelude.{◌≡◌, ◌≤◌, ◌+◌, ◌++◌, length, IfOk, Some};
ghost use Rattle.std.specs.Arc.{arc_value};
ghost use Rattle.std.specs.Option.{option_copied, option_map};
ghost use Rattle.def_turns.specs.declared.turned.Given.TheVariants.{IsSuperseded, Publishes};
ghost use Rattle.def_turns.specs.declared.turned.Turned.TheVariants as t;
ghost use Rattle.def_turns.specs.Turns.{entry_of, given_to, is_before, kind_of};
ghost use Rattle.lf_board.specs.Boards.{number};
ghost use Rattle.lf_core.specs.Held.{OnReady};
ghost use Rattle.lf_core.specs.Kept.{HandlesBoard, better_kept, find_kept, next_kept, number_of, waits_home};
ghost use Rattle.lf_core.specs.Taken.{FitsHistory, HasBack, HasHome, IsStillLive, IsTakenFrom, NeedsPlace, given_job};

use crate::entries::{Entry, add_place, enter};
use crate::frames::{Kept, find_kept, put_document, put_home, take_home};
use crate::job::Job;
use crate::state::State;
use def_turns::{Given, Turned};
use lf_base::{Memory, Text, TryCopy};
use lf_board::{Board, HomeBoard};
use lf_model::Doc;
use lf_versions::Version;
use std::alloc::Global;
use std::sync::Arc;

// Whether a frame's board is at home and its document is older than a version.
fn waits(kept: &Kept, newest: u64) -> bool
    ensures { result ≡ waits_home newest kept.now }
{
    if kept.board.is_none() {
        return false;
    }
    match kept.live.published {
        Some(version) => version < newest,
        None => true,
    }
}

// Whether a frame's turn comes before another's.
fn is_before(one: &Kept, two: &Kept) -> bool
    ensures { result ≡ is_before one.now.live two.now.live }
{
    one.live
        .published
        .cmp(&two.live.published)
        .then_with(|| one.live.name.cmp(&two.live.name))
        .is_lt()
}

// The first so far of the frames that wait, and one more frame.
fn better<'a>(best: Option<&'a Kept>, kept: &'a Kept, newest: u64) -> Option<&'a Kept>
    ensures { option_copied result ≡ better_kept newest (option_copied best.entry) kept.now }
{
    if !waits(kept, newest) {
        return best;
    }
    match best {
        None => Some(kept),
        Some(other) => {
            if is_before(kept, other) {
                Some(kept)
            } else {
                Some(other)
            }
        }
    }
}

// The frame whose turn is next.
fn next_kept(frames: &[Kept], newest: u64) -> Option<&Kept>
    ensures { option_copied result ≡ next_kept newest frames.now }
{
    let mut best = None;
    for kept in frames {
        best = better(best, kept, newest);
    }
    best
}

// What a job takes beside the board: two handles of the frame's name, its text number, a handle of
// the board's document, and the version that it is to reach.
#[derive(Drop)]
struct Parts {
    frame: Text,
    name: Text,
    text_number: u64,
    handle: Option<Arc<Doc>>,
    to: Version,
}

// One handle more of a board's document, where there is a board.
fn handle_of(board: &Option<HomeBoard>) -> Result<Option<Arc<Doc>>, Memory>
    ensures { IfOk result (λ handle. HandlesBoard board.now (option_map arc_value handle)) }
{
    match board {
        Some(home) => home.handle(),
        None => Ok(None),
    }
}

// Makes what a frame's job takes beside the board.
fn parts_of(alloc: Global, kept: &Kept, newest: &Version) -> Result<Parts, Memory>
    ensures frame { IfOk result (λ parts. parts.frame ≡ kept.now.live.name) }
    ensures name { IfOk result (λ parts. parts.name ≡ kept.now.live.name) }
    ensures text_number { IfOk result (λ parts. parts.text_number ≡ kept.now.live.number) }
    ensures handle { IfOk result (λ parts.
        HandlesBoard kept.now.board (option_map arc_value parts.handle)) }
    ensures to { IfOk result (λ parts. parts.to ≡ newest.now) }
{
    let frame = kept.live.name.copy(alloc)?;
    let name = kept.live.name.copy(alloc)?;
    let to = newest.share(alloc)?;
    let handle = handle_of(&kept.board)?;
    Ok(Parts {
        frame,
        name,
        text_number: kept.live.number,
        handle,
        to,
    })
}

impl State {
    /// Takes the board of the frame whose turn is next, to be brought to the newest version: of
    /// those that are behind and have their board at home the one with the least published version,
    /// none before all, then the least name. `None` comes exactly where there is none. It leaves
    /// one place more, for the publication.
    pub fn take_board(&mut self, alloc: Global) -> Result<Option<Job>, Memory>
        ensures answer { IsTakenFrom self.old self.new.boards result }
        ensures history { self.new.history ≡ self.old.history }
        ensures places { self.old.places ≤ self.new.places }
        ensures place { OnReady result (self.old.places + 1 ≤ self.new.places) }
    {
        let parts = match next_kept(self.frames.as_slice(), self.newest.number()) {
            Some(kept) => parts_of(alloc, kept, &self.newest)?,
            None => return Ok(None),
        };
        match add_place(&mut self.history, self.places, self.frames.len()) {
            Ok(places) => {
                self.places = places;
                let Parts {
                    frame,
                    name,
                    text_number,
                    handle,
                    to,
                } = parts;
                match take_home(&mut self.frames, frame.as_str()) {
                    Some(home) => Ok(Some(Job {
                        frame,
                        name,
                        text_number,
                        board: Board::wake(home, handle),
                        to,
                    })),
                    None => unreachable!(),
                }
            }
            Err(Memory) => {
                drop(parts);
                Err(Memory)
            }
        }
    }

    /// Gives a job back. `Superseded` comes exactly where its text isn't live under its name any
    /// more; then the board is dropped. `Published` comes exactly where otherwise the board's
    /// version is above the published one, and the document is published under the board's own
    /// version. Else the board is at home again. It takes no memory, and of places at most the one
    /// of the entry that it makes.
    pub fn give_back(&mut self, job: Job) -> Turned
        requires fits { FitsHistory self.old.history job }
        requires place { NeedsPlace self.old job }
        ensures answer { result ≡ given_job self.old.history job }
        ensures entry { self.new.history ≡ self.old.history ++ entry_of result }
        ensures boards { HasBack self.old job result self.new.boards }
        ensures places { self.old.places ≤ self.new.places + length (entry_of result) }
    {
        match self.would_give(&job) {
            Given::Publishes => self.publish(job),
            Given::GoesHome => self.bring_home(job),
            Given::IsSuperseded => self.supersede(job),
        }
    }

    /// Puts a job's board at home as it is, and publishes nothing. It takes no memory.
    pub fn take_home(&mut self, job: Job)
        requires fits { FitsHistory self.old.history job }
        requires live { IsStillLive self.old.history job }
        ensures history { self.new.history ≡ self.old.history }
        ensures boards { HasHome self.old.boards job self.new.boards }
        ensures places { self.new.places ≡ self.old.places }
    {
        drop(self.bring_home(job));
    }

    /// What giving a job back would answer now. It takes no memory.
    pub fn would_give(&self, job: &Job) -> Given
        ensures { result ≡ kind_of (given_job self.now.history job.now) }
    {
        match find_kept(self.frames.as_slice(), job.frame.as_str()) {
            Some(kept) => kind_given(kept, job),
            None => Given::IsSuperseded,
        }
    }

    // The job's board is at home as it is.
    fn bring_home(&mut self, job: Job) -> Turned
        requires fits { FitsHistory self.old.history job }
        requires live { IsStillLive self.old.history job }
        ensures answer { result ≡ t.Home job.name (number job.board) }
        ensures no_entry { length (entry_of result) ≡ 0 }
        ensures history { self.new.history ≡ self.old.history }
        ensures boards { HasHome self.old.boards job self.new.boards }
        ensures places { self.new.places ≡ self.old.places }
    {
        let Job {
            frame,
            name,
            text_number: _,
            board,
            to,
        } = job;
        drop(to);
        drop(name);
        let version = board.version();
        let (home, handle) = board.rest();
        drop(handle);
        put_home(&mut self.frames, frame.as_str(), home);
        Turned::Home { frame, version }
    }

    // The document of the job's board is published under the board's version, and the board is at
    // home as it is.
    fn publish(&mut self, job: Job) -> Turned
        requires fits { FitsHistory self.old.history job }
        requires newer { kind_of (given_job self.old.history job) ≡ Publishes }
        requires place { 1 ≤ self.old.places }
        ensures answer { result ≡ given_job self.old.history job }
        ensures entry { self.new.history ≡ self.old.history ++ entry_of result }
        ensures boards { HasBack self.old job result self.new.boards }
        ensures places { self.old.places ≤ self.new.places + length (entry_of result) }
    {
        let Job {
            frame,
            name,
            text_number: _,
            board,
            to,
        } = job;
        drop(to);
        match board.version() {
            Some(version) => {
                let (home, handle) = board.rest();
                put_document(&mut self.frames, frame.as_str(), version, handle, home);
                enter(&mut self.history, Entry::Publish { name, version });
                self.places -= 1;
                Turned::Published { frame, version }
            }
            None => unreachable!(),
        }
    }

    // The job's board is dropped.
    fn supersede(&self, job: Job) -> Turned
        requires superseded { kind_of (given_job self.now.history job) ≡ IsSuperseded }
        ensures answer { result ≡ given_job self.now.history job }
        ensures no_entry { length (entry_of result) ≡ 0 }
        ensures boards { HasBack self.now job result self.now.boards }
    {
        let Job {
            frame,
            name,
            text_number,
            board,
            to,
        } = job;
        drop(board);
        drop(name);
        drop(to);
        let now = number_of(self.frames.as_slice(), frame.as_str());
        Turned::Superseded {
            frame,
            then: text_number,
            now,
        }
    }
}

// The number of the text that is live under a name.
fn number_of(frames: &[Kept], name: &str) -> Option<u64>
    ensures { result ≡ option_map number_of (find_kept name.now frames.now) }
{
    match find_kept(frames, name) {
        Some(kept) => Some(kept.live.number),
        None => None,
    }
}

// What giving a job back to a live frame would answer.
fn kind_given(kept: &Kept, job: &Job) -> Given
    ensures { result
        ≡ kind_of
        (given_to (Some kept.now.live) job.now.name job.now.number (number job.now.board)) }
{
    if kept.live.number != job.text_number {
        return Given::IsSuperseded;
    }
    match job.board.version() {
        None => Given::GoesHome,
        Some(version) => match kept.live.published {
            Some(published) => {
                if published < version {
                    Given::Publishes
                } else {
                    Given::GoesHome
                }
            }
            None => Given::Publishes,
        },
    }
}
