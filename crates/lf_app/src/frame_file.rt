//! Frame files. `frame` and `check` read them.
ghost use Rattle.std.specs.Prelude.{◌≡◌, IfOk};
ghost use Rattle.std.specs.Result.{IfErr};
ghost use Rattle.def_contexts.specs.FrameValues.{frame_meaning};
ghost use Rattle.lf_io.specs.Files.{is_there};
ghost use Rattle.lf_frames.specs.FrameTexts.{accepted, frame_text};
ghost use Rattle.lf_app.specs.Answers.{RefusesText, RefusesFrame};
ghost use Rattle.lf_app.specs.Counting.{answer_said, faults_by, refusals_by};
ghost use Rattle.lf_app.specs.FrameFiles.{ReadsFrame};

use crate::answer::{Fault, Passed, Said};
use lf_frames::{FrameTextErr, MOST_FRAME_BYTES, read_frame};
use lf_io::{Shelf, ShelfErr};
use lf_model::Frame;
use std::alloc::Global;

// The frame that a file's text means.
fn frame_in<'a>(alloc: Global, file: &'a str, text: &[u8]) -> Result<Frame, Said<'a>>
    ensures read { IfOk result (λ frame. frame_text text.now ≡ accepted (frame_meaning frame)) }
    ensures refused { IfErr result (λ said. RefusesText file.now text.now (answer_said said)) }
{
    match read_frame(alloc, text) {
        Ok(frame) => Ok(frame),
        Err(FrameTextErr::NotJson) => Err(Said::BadFrame {
            file,
            why: Fault::NotJson,
        }),
        Err(FrameTextErr::Fractional { path }) => {
            drop(path);
            Err(Said::BadFrame {
                file,
                why: Fault::Fractional,
            })
        }
        Err(FrameTextErr::Ld(error)) => Err(Said::BadFrame {
            file,
            why: Fault::Ld(error),
        }),
        Err(FrameTextErr::Memory) => Err(Said::NoMemory),
    }
}

/// The frame that a file holds, or why it holds none.
#[tactic(auto, unfolding(def_histories::specs::Legal::most_frame_bytes))]
pub fn read_frame_file<'a, F: Shelf>(
    alloc: Global,
    shelf: &mut F,
    file: &'a str,
) -> Result<Frame, Said<'a>>
    ensures read { IfOk result (ReadsFrame (F.files shelf.old) file.now) }
    ensures refused { IfErr result
        (λ said. RefusesFrame (F.files shelf.old) file.now (answer_said said)) }
    ensures files { F.files shelf.new ≡ F.files shelf.old }
    ensures faults { F.faults shelf.new ≡ faults_by (F.faults shelf.old) result }
    ensures refusals { F.refusals shelf.new
        ≡ refusals_by (F.files shelf.old) (F.refusals shelf.old) result }
{
    match shelf.take(alloc, file, MOST_FRAME_BYTES as u64) {
        Ok(text) => frame_in(alloc, file, text.as_slice()),
        Err(ShelfErr::Failed) => Err(Said::CannotRead(file)),
        Err(ShelfErr::TooLong) => Err(Said::Over(Passed::FrameText)),
        Err(ShelfErr::Memory) => Err(Said::NoMemory),
    }
}
