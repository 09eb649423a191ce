//! The trait by which a session reads and changes one history.
ghost use Rattle.std.specs.Prelude.{◌≡◌, ◌≤◌, [], ℕ, Bool, false, List, Option, IsSome};
ghost use Rattle.def_histories.specs.declared.operation.Operation.{Operation};
ghost use Rattle.def_histories.specs.History.{commits};
ghost use Rattle.def_histories.specs.Legal.{IsLegal};
ghost use Rattle.def_turns.specs.Turns.{still_live};
ghost use Rattle.lf_frames.specs.FrameTexts.{is_frame};
ghost use Rattle.lf_desk.specs.RegisterAnswer.{register_answer, RegisterAnswers, registered_by};
ghost use Rattle.lf_desk.specs.CommitAnswer.{commit_answer, CommitAnswers, committed_by};
ghost use Rattle.lf_desk.specs.Looks.{Looks, Frames};
ghost use Rattle.lf_desk.specs.Calls.{IsCall, Retires, StaysAway, retired_by};

use crate::refusals::{CommitErr, RegisterErr};
use lf_base::Memory;
use lf_model::{FramedNow, Look};
use lf_rdf::Patch;
use std::alloc::Global;

/// A caller's place at a history, which is legal at all times, before the first call too. After
/// each call it goes on from the one before. What is new in it with the seat's number is the
/// operation that the call made, as its last entry. Each answer is a function of the history
/// without that entry. A refusal makes no operation, and `Memory` may be answered at any time. With
/// a seat that is alone no board goes out or comes home in these calls.
pub trait Desk {
    /// No other seat makes operations, and nothing is published by others.
    ghost alone: { Self → Bool };

    /// The number of the seat.
    ghost seat: { Self → ℕ };

    /// The history that the seat has seen.
    ghost history: { Self → List Operation };

    /// The live texts whose boards are away, by their numbers, as far as the seat has seen.
    ghost away: { Self → List ℕ };

    /// The texts whose boards the seat has taken, where it tells them.
    ghost taken: { Self → Option (List ℕ) };

    /// Commits a patch as the next version, also where it changes nothing, and gives the version's
    /// number. The refusals in their order: `HistoryFull` of commits (65,536) or of bytes
    /// (268,435,456); `TooManyQuads` (400,000).
    fn commit(&mut self, alloc: Global, patch: Patch) -> Result<u64, CommitErr>
        ensures call { IsCall (alone self.old) (seat self.old) (history self.old) (history self.new)
            (committed_by (seat self.old) patch result)
            (λ seen. CommitAnswers result (commit_answer seen patch)) }
        ensures same_seat { seat self.new ≡ seat self.old }
        ensures same_alone { alone self.new ≡ alone self.old }
        ensures same_taken { taken self.new ≡ taken self.old }
        ensures away { StaysAway (alone self.old) (history self.new)
            (away self.old) (away self.new) };

    /// Registers a frame's text under a name. Answers false where the text is live there already,
    /// and then makes no operation. `BadName` and `FrameTooLong` (65,536 bytes) come before that
    /// answer, and the other refusals behind it, in this order: `NotJson`, `Fractional` and `Ld`,
    /// where the text is no frame; `TooManyFrames` (16 others); `HistoryFull` of registrations
    /// (65,536) or of bytes (268,435,456).
    fn register(&mut self, alloc: Global, name: &str, text: &str) -> Result<bool, RegisterErr>
        ensures call { IsCall (alone self.old) (seat self.old) (history self.old) (history self.new)
            (registered_by (seat self.old) name.now text.now result)
            (λ seen. RegisterAnswers result (register_answer seen name.now text.now)) }
        ensures same_seat { seat self.new ≡ seat self.old }
        ensures same_alone { alone self.new ≡ alone self.old }
        ensures same_taken { taken self.new ≡ taken self.old }
        ensures away { StaysAway (alone self.old) (history self.new)
            (away self.old) (away self.new) };

    /// Ends a frame. Answers false exactly where no frame is live under the name, and then makes no
    /// operation.
    fn retire(&mut self, alloc: Global, name: &str) -> Result<bool, Memory>
        ensures call { IsCall (alone self.old) (seat self.old) (history self.old) (history self.new)
            (retired_by (seat self.old) name.now result) (λ seen. Retires seen name.now result) }
        ensures same_seat { seat self.new ≡ seat self.old }
        ensures same_alone { alone self.new ≡ alone self.old }
        ensures same_taken { taken self.new ≡ taken self.old }
        ensures away { StaysAway (alone self.old) (history self.new)
            (away self.old) (away self.new) };

    /// The number of the newest version.
    fn newest(&mut self) -> u64
        ensures call { IsCall (alone self.old) (seat self.old) (history self.old) (history self.new) []
            (λ seen. result ≡ commits seen) }
        ensures same_seat { seat self.new ≡ seat self.old }
        ensures same_alone { alone self.new ≡ alone self.old }
        ensures same_taken { taken self.new ≡ taken self.old }
        ensures away { StaysAway (alone self.old) (history self.new)
            (away self.old) (away self.new) };

    /// What a caller finds at a name who needs a version: `Unknown` exactly where no frame is
    /// live under it, `Pending` exactly where its published version is none or below the needed
    /// one, else the published document. `Memory` comes only in place of a document.
    fn look(&mut self, alloc: Global, name: &str, need: u64) -> Result<Look, Memory>
        ensures call { IsCall (alone self.old) (seat self.old) (history self.old) (history self.new) []
            (λ seen. Looks seen name.now need result) }
        ensures same_seat { seat self.new ≡ seat self.old }
        ensures same_alone { alone self.new ≡ alone self.old }
        ensures same_taken { taken self.new ≡ taken self.old }
        ensures away { StaysAway (alone self.old) (history self.new)
            (away self.old) (away self.new) };

    /// Frames the newest version from scratch and publishes nothing. `None` comes exactly where the
    /// name isn't live.
    fn frame_now(&mut self, alloc: Global, name: &str) -> Result<Option<FramedNow>, Memory>
        ensures call { IsCall (alone self.old) (seat self.old) (history self.old) (history self.new) []
            (λ seen. Frames seen name.now result) }
        ensures same_seat { seat self.new ≡ seat self.old }
        ensures same_alone { alone self.new ≡ alone self.old }
        ensures same_taken { taken self.new ≡ taken self.old }
        ensures away { StaysAway (alone self.old) (history self.new)
            (away self.old) (away self.new) };

    /// The history is legal.
    ghost legal: { (desk : Self) → IsLegal is_frame (history desk) };

    /// A seat that isn't alone tells the texts that it has taken.
    ghost tells_taken: { (desk : Self) → alone desk ≡ false → IsSome (taken desk) };

    /// The texts away are live.
    ghost away_are_live: { (desk : Self) → still_live (history desk) (away desk) ≡ away desk };
}
