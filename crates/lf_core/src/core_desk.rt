//! The desk of a program that serves one stream: one seat alone at a state.
ghost use Rattle.std.proofs.Common.{sym};
ghost use Rattle.std.specs.Prelude.{◌≡◌, true, None};
ghost use Rattle.def_histories.specs.Legal.{IsLegal};
ghost use Rattle.def_histories.specs.LegalProp.{is_legal-prop};
ghost use Rattle.lf_frames.specs.FrameTexts.{is_frame};
ghost use Rattle.lf_core.specs.AwayLaws.{live_away};
ghost use Rattle.lf_core.specs.Held.{away};
ghost use Rattle.lf_core.specs.Taken.{job_data, job_meaning};

use crate::job::Job;
use crate::state::State;
use def_turns::{Given, Turned, given_back_is_allowed};
use lf_base::{Memory, Steps};
use lf_desk::{CommitErr, Desk, RegisterErr, Rota};
use lf_model::{FramedNow, Look};
use lf_rdf::Patch;
use std::alloc::Global;
use std::sync::ledger::Ledger;

/// One seat alone at a state. Contracts see the seat's number and the state's history, which is
/// legal.
#[derive(Drop)]
pub struct CoreDesk {
    state: State,
    seat: u64,
    ghost legal: { IsLegal is_frame state.history } by { is_legal-prop is_frame state.history },
}

impl CoreDesk {
    ghost use Rattle.lf_core.specs.Held.{away};
    ghost use Rattle.lf_core.specs.Seat.{away_of, history_of, seat_of, state_of};

    /// A seat at a state. It takes no memory.
    pub fn new(state: State, seat: u64) -> CoreDesk
        ensures state { state_of result ≡ state }
        ensures legal { IsLegal is_frame (history_of result) }
        ensures away { away_of result ≡ away state }
        ensures seat { seat_of result ≡ seat }
    {
        state.history_is_legal();
        CoreDesk { state, seat }
    }

    /// The state as the seat leaves it.
    pub fn into_state(self) -> State
        ensures { result ≡ state_of self }
    {
        let CoreDesk { state, seat: _ } = self;
        state
    }
}

impl Desk for CoreDesk {
    ghost alone = { λ _. true };

    ghost seat = { λ desk. desk.seat };

    ghost history = { λ desk. desk.state.history };

    ghost away = { λ desk. away desk.state };

    ghost taken = { λ _. None };

    fn commit(&mut self, alloc: Global, patch: Patch) -> Result<u64, CommitErr> {
        self.state.commit(alloc, self.seat, patch)
    }

    fn register(&mut self, alloc: Global, name: &str, text: &str) -> Result<bool, RegisterErr> {
        self.state.boards_are_of_live();
        self.state.register(alloc, self.seat, name, text)
    }

    fn retire(&mut self, _alloc: Global, name: &str) -> Result<bool, Memory> {
        self.state.boards_are_of_live();
        Ok(self.state.retire(self.seat, name))
    }

    fn newest(&mut self) -> u64 {
        self.state.versions()
    }

    fn look(&mut self, _alloc: Global, name: &str, need: u64) -> Result<Look, Memory> {
        self.state.look(name, need)
    }

    fn frame_now(&mut self, alloc: Global, name: &str) -> Result<Option<FramedNow>, Memory> {
        self.state.frame_now(alloc, name)
    }

    ghost legal = { λ desk. desk.legal };

    ghost tells_taken = { λ _ e. sym e };

    ghost away_are_live = { λ desk. live_away desk.state.history desk.state.boards };
}

impl Rota for CoreDesk {
    type Job = Job;

    ghost told = { job_data };

    ghost meaning = { job_meaning };

    fn take(&mut self, alloc: Global) -> Result<Option<Job>, Memory> {
        self.state.take_board(alloc)
    }

    fn work<L: Ledger>(
        &mut self,
        alloc: Global,
        job: &mut Job,
        steps: &mut Steps<L>,
    ) -> Result<(), Memory> {
        job.work(alloc, steps)
    }

    fn give(&mut self, _alloc: Global, job: Job) -> Result<Turned, Memory> {
        given_back_is_allowed();
        match self.state.would_give(&job) {
            Given::Publishes => match self.state.make_place() {
                Ok(()) => Ok(self.state.give_back(job)),
                Err(Memory) => {
                    self.state.take_home(job);
                    Err(Memory)
                }
            },
            Given::GoesHome => Ok(self.state.give_back(job)),
            Given::IsSuperseded => Ok(self.state.give_back(job)),
        }
    }
}
