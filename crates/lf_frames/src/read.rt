//! A frame read from its text, as `register`, `frame` and `check` take it.
ghost use Rattle.std.specs.Prelude.{◌≡◌, IfOk};
ghost use Rattle.lf_model.specs.JsonBridge.{json_data};
ghost use Rattle.def_contexts.specs.Frames.{frame_of};
ghost use Rattle.lf_expand.specs.Numbers.{NamesLargerNumbers};
ghost use Rattle.lf_frames.specs.FrameTexts.{of_meaning, frame_text};
ghost use Rattle.lf_frames.specs.Answers.{Tells};

use crate::error::FrameTextErr;
use lf_expand::{FrameErr, expand_frame};
use lf_json::{JsonErr, read_json};
use lf_model::{Frame, Json};
use std::alloc::Global;

/// The most bytes of a frame's text. Who takes a text tests its length before it is read.
pub const MOST_FRAME_BYTES: usize = 65_536;

// The frame that a value states.
fn frame_from(alloc: Global, json: &Json) -> Result<Frame, FrameTextErr>
    ensures told { Tells (of_meaning (frame_of (json_data json.now))) result }
    ensures numbers { IfOk result (λ frame. NamesLargerNumbers frame.nodes) }
{
    match expand_frame(alloc, json) {
        Ok(frame) => Ok(frame),
        Err(FrameErr::Ld(error)) => Err(FrameTextErr::Ld(error)),
        Err(FrameErr::Memory) => Err(FrameTextErr::Memory),
    }
}

/// The frame that a text means, or the first condition by which it is none. Its maps name
/// sub-frames by larger numbers than their own. The cost grows with the length of the text as that
/// of `read_json` and of `expand_frame` do.
#[tactic(auto, using(crate::proofs::Told::told_not_json, crate::proofs::Told::told_fractional, crate::proofs::Told::told_value))]
pub fn read_frame(alloc: Global, bytes: &[u8]) -> Result<Frame, FrameTextErr>
    ensures told { Tells (frame_text bytes.now) result }
    ensures numbers { IfOk result (λ frame. NamesLargerNumbers frame.nodes) }
{
    match read_json(alloc, bytes) {
        Ok(json) => {
            let read = frame_from(alloc, &json);
            drop(json);
            read
        }
        Err(JsonErr::NotJson) => Err(FrameTextErr::NotJson),
        Err(JsonErr::Fractional { path }) => Err(FrameTextErr::Fractional { path }),
        Err(JsonErr::Memory) => Err(FrameTextErr::Memory),
    }
}
