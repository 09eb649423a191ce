//! The trait by which turns are made: a board is taken, worked on and given back.
ghost use Rattle.std.specs.Prelude.{◌≡◌, [], IfOk, OnOk, OnErr};
ghost use Rattle.def_contexts.specs.Frames.{FrameMeaning};
ghost use Rattle.def_histories.specs.Jobs.{Job};
ghost use Rattle.lf_desk.specs.Calls.{IsCall};
ghost use Rattle.lf_desk.specs.Rotas.{ComesBack, Gives, IsOwn, IsOwnIfSome, TakesBy, given_entry, worked};

use crate::desk::Desk;
use def_turns::Turned;
use lf_base::{Memory, Steps};
use std::alloc::Global;
use std::sync::ledger::Ledger;

/// A desk that makes turns. A frame waits where it is live, its published version is none or older
/// than the newest, and its board isn't away. A job is the rota's own where it fits the history:
/// then it may be worked on and given back.
pub trait Rota: Desk {
    /// A board that was taken, to be brought to a version.
    type Job: Drop;

    /// What a job tells.
    ghost told: { Self.Job → Job };

    /// What the frame of a job's board means.
    ghost meaning: { Self.Job → FrameMeaning };

    /// Takes a board. `None` comes exactly where no frame waits after the call. The job is that of
    /// the frame with the least published version, none before all, then the least name, among
    /// those that would wait if it hadn't been taken. It has the live text number, and is to reach
    /// the newest version.
    fn take(&mut self, alloc: Global) -> Result<Option<Self::Job>, Memory>
        ensures call { IsCall (Self.alone self.old) (Self.seat self.old) (Self.history self.old)
            (Self.history self.new) []
            (λ seen. TakesBy told (Self.alone self.old) seen (Self.away self.old)
            (Self.away self.new) (Self.taken self.old) (Self.taken self.new) result) }
        ensures own { IfOk result (IsOwnIfSome meaning told (Self.history self.new)) }
        ensures same_seat { Self.seat self.new ≡ Self.seat self.old }
        ensures same_alone { Self.alone self.new ≡ Self.alone self.old };

    /// Brings a job's board to the version that it is to reach, and leaves the rest of the job. On
    /// `Memory` the job is as it was.
    fn work<L: Ledger>(
        &mut self,
        alloc: Global,
        job: &mut Self::Job,
        steps: &mut Steps<L>,
    ) -> Result<(), Memory>
        requires own { IsOwn (Self.history self.old) (meaning job.old) (told job.old) }
        ensures same { self.new ≡ self.old }
        ensures own { IsOwn (Self.history self.new) (meaning job.new) (told job.new) }
        ensures worked { OnOk result (told job.new ≡ worked (told job.old)) }
        ensures kept { OnErr result (job.new ≡ job.old) };

    /// Gives a job back. Its board is published under its own version where its text is live and
    /// nothing as new is published, and is at home where its text is live. On `Memory` nothing was
    /// published and the board is at home.
    fn give(&mut self, alloc: Global, job: Self::Job) -> Result<Turned, Memory>
        requires own { IsOwn (Self.history self.old) (meaning job) (told job) }
        ensures call { IsCall (Self.alone self.old) (Self.seat self.old) (Self.history self.old)
            (Self.history self.new) (given_entry result) (λ seen. Gives seen (told job) result) }
        ensures same_seat { Self.seat self.new ≡ Self.seat self.old }
        ensures same_alone { Self.alone self.new ≡ Self.alone self.old }
        ensures same_taken { Self.taken self.new ≡ Self.taken self.old }
        ensures away { ComesBack (Self.alone self.old) (told job).number
            (Self.away self.old) (Self.away self.new) };
}
