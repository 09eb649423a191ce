//! Registrations: what they come to by the name, the text and the limits, in the order of
//! `Desk::register`; made ready.
ghost use Rattle.std.specs.Prelude.{◌≡◌, ◌≤◌, ◌+◌, ◌++◌, length, IfOk, OnOk};
ghost use Rattle.lf_frames.specs.FrameTexts.{frame_text};
ghost use Rattle.def_histories.specs.Legal.{most_frame_bytes};
ghost use Rattle.lf_desk.specs.RegisterAnswer.{RegisterAnswers, text_answer, limits_answer, register_answer, registered_by};
ghost use Rattle.lf_core.specs.Checks.{Reads, Tries};
ghost use Rattle.lf_core.specs.Held.{OnReady, RegistersBoard};
ghost use Rattle.lf_core.specs.Prepared.{ReadiesRegister};

use crate::limits::check_registration;
use crate::ready::{Prepared, Ready, new_frame};
use crate::state::State;
use lf_desk::{RegisterErr, is_frame_name};
use lf_frames::{FrameTextErr, MOST_FRAME_BYTES, read_frame};
use lf_model::Frame;
use std::alloc::Global;

// The frame of a text, or why it is refused.
fn frame_of(alloc: Global, text: &str) -> Result<Frame, RegisterErr>
    ensures { Reads (frame_text text.now) result }
{
    match read_frame(alloc, text.as_bytes()) {
        Ok(frame) => Ok(frame),
        Err(FrameTextErr::NotJson) => Err(RegisterErr::NotJson),
        Err(FrameTextErr::Fractional { path }) => Err(RegisterErr::Fractional { path }),
        Err(FrameTextErr::Ld(error)) => Err(RegisterErr::Ld(error)),
        Err(FrameTextErr::Memory) => Err(RegisterErr::Memory),
    }
}

// The frame of a text that isn't live under its name and isn't too long.
fn tried_frame(
    alloc: Global,
    state: &State,
    name: &str,
    text: &str,
) -> Result<Option<Frame>, RegisterErr>
    requires short { length text.now ≤ most_frame_bytes }
    ensures { Tries (frame_text text.now)
        (text_answer (frame_text text.now) (limits_answer state.now.history name.now text.now))
        result }
{
    let frame = match frame_of(alloc, text) {
        Ok(frame) => frame,
        Err(error) => return Err(error),
    };
    match check_registration(state, name, text) {
        Ok(_) => Ok(Some(frame)),
        Err(error) => {
            drop(frame);
            Err(error)
        }
    }
}

/// The frame of a text that may be registered under a name, none where the text is live there
/// already, or why it is refused.
#[tactic(auto, unfolding(def_histories::specs::Legal::most_frame_bytes))]
pub fn try_registration(
    alloc: Global,
    state: &State,
    name: &str,
    text: &str,
) -> Result<Option<Frame>, RegisterErr>
    ensures { Tries (frame_text text.now)
        (register_answer state.now.history name.now text.now) result }
{
    if !is_frame_name(name.as_bytes()) {
        return Err(RegisterErr::BadName);
    }
    if text.len() > MOST_FRAME_BYTES {
        return Err(RegisterErr::FrameTooLong {
            length: text.len() as u64,
        });
    }
    if state.is_live_text(name, text) {
        return Ok(None);
    }
    tried_frame(alloc, state, name, text)
}

impl State {
    /// Makes a registration ready. It refuses as `register` does, and changes nothing that
    /// contracts see but places. `None` is the same text again.
    pub fn ready_register(
        &mut self,
        alloc: Global,
        seat: u64,
        name: &str,
        text: &str,
    ) -> Result<Option<Ready>, RegisterErr>
        ensures answer { ReadiesRegister self.old.history seat name.now text.now result }
        ensures history { self.new.history ≡ self.old.history }
        ensures boards { self.new.boards ≡ self.old.boards }
        ensures places { self.old.places ≤ self.new.places }
        ensures place { OnReady result (self.old.places + 1 ≤ self.new.places) }
    {
        self.history_is_legal();
        match try_registration(alloc, self, name, text) {
            Ok(Some(frame)) => {
                let new = new_frame(alloc, seat, name, text, frame)?;
                self.more_places()?;
                Ok(Some(Ready {
                    prepared: Prepared::Register(new),
                }))
            }
            Ok(None) => Ok(None),
            Err(error) => Err(error),
        }
    }

    /// Registers a frame's text under a name, with a new board and no published document, and takes
    /// the place of the entry that its retirement will make. Answers false where the text is live
    /// there already. The refusals are those of `Desk::register`, in its order; they and `Memory`
    /// leave the state as it was.
    pub fn register(
        &mut self,
        alloc: Global,
        seat: u64,
        name: &str,
        text: &str,
    ) -> Result<bool, RegisterErr>
        ensures answer { RegisterAnswers result
            (register_answer self.old.history name.now text.now) }
        ensures entry { self.new.history
            ≡ self.old.history ++ registered_by seat name.now text.now result }
        ensures boards { RegistersBoard self.old name.now text.now result self.new.boards }
        ensures places { self.old.places ≤ self.new.places }
    {
        match self.ready_register(alloc, seat, name, text) {
            Ok(Some(ready)) => {
                self.put(ready);
                Ok(true)
            }
            Ok(None) => Ok(false),
            Err(error) => Err(error),
        }
    }
}
