//! The words `frame` and `check`: a frame file, data files, and the document. `run_words` calls
//! them.
ghost use Rattle.std.specs.Prelude.{◌≡◌, ◌∷◌, [], map, string_bytes, Some};
ghost use Rattle.def_contexts.specs.FrameValues.{frame_meaning};
ghost use Rattle.def_histories.specs.Replay.{newest_dataset};
ghost use Rattle.def_scratch.specs.Scratch.{scratch_frame};
ghost use Rattle.lf_app.specs.Words.{frame, check};
ghost use Rattle.lf_app.specs.Answers.{AnswersTo, IsOr, answer_by};
ghost use Rattle.lf_app.specs.Counting.{answer_said, faults_after, refusals_after};
ghost use Rattle.lf_app.specs.Framing.{FramesOver};

use crate::answer::{Fault, Passed, Said};
use crate::data_files::commit_files;
use crate::frame_file::read_frame_file;
use lf_base::Memory;
use lf_core::State;
use lf_io::Shelf;
use lf_model::{Doc, Frame};
use std::alloc::Global;

// The document of a frame over the newest version, or what comes in its place.
fn document_said<'a>(alloc: Global, file: &'a str, frame: &Frame, state: &State) -> Said<'a>
    ensures { IsOr (answer_by file.now (scratch_frame frame.now (newest_dataset state.now.history)))
        (answer_said result) }
{
    match state.document(alloc, frame) {
        Ok(Doc::Bytes(text)) => Said::Document(text),
        Ok(Doc::Refused(error)) => Said::BadFrame {
            file,
            why: Fault::Ld(error),
        },
        Ok(Doc::Over(limit)) => Said::Over(Passed::Document(limit)),
        Err(Memory) => Said::NoMemory,
    }
}

// Commits data files to a state, and frames them.
fn frame_data<'a, F: Shelf>(
    alloc: Global,
    shelf: &mut F,
    file: &'a str,
    files: &'a [String],
    frame: &Frame,
    state: &mut State,
) -> Said<'a>
    ensures frames { FramesOver (F.files shelf.old) file.now (map string_bytes files.now) frame.now
        state.old.history (answer_said result) }
    ensures files { F.files shelf.new ≡ F.files shelf.old }
    ensures faults { F.faults shelf.new ≡ faults_after (F.faults shelf.old) (answer_said result) }
    ensures refusals { F.refusals shelf.new
        ≡ refusals_after (F.files shelf.old) (F.refusals shelf.old) (answer_said result) }
{
    match commit_files(alloc, shelf, files, state) {
        Ok(()) => document_said(alloc, file, frame, state),
        Err(said) => said,
    }
}

// Frames data files, which are committed to the empty history.
fn frame_from_nothing<'a, F: Shelf>(
    alloc: Global,
    shelf: &mut F,
    file: &'a str,
    files: &'a [String],
    frame: &Frame,
) -> Said<'a>
    ensures frames { FramesOver (F.files shelf.old) file.now (map string_bytes files.now) frame.now
        [] (answer_said result) }
    ensures files { F.files shelf.new ≡ F.files shelf.old }
    ensures faults { F.faults shelf.new ≡ faults_after (F.faults shelf.old) (answer_said result) }
    ensures refusals { F.refusals shelf.new
        ≡ refusals_after (F.files shelf.old) (F.refusals shelf.old) (answer_said result) }
{
    match State::new(alloc) {
        Ok(mut state) => {
            let said = frame_data(alloc, shelf, file, files, frame, &mut state);
            drop(state);
            said
        }
        Err(Memory) => Said::NoMemory,
    }
}

/// What `frame` has to say: the document of the frame file over the data files, applied in order to
/// the empty dataset, or what comes in its place. The files are read one after another, the frame
/// file first.
pub fn frame_files<'a, F: Shelf>(
    alloc: Global,
    shelf: &mut F,
    file: &'a str,
    files: &'a [String],
) -> Said<'a>
    ensures answers { AnswersTo (F.files shelf.old)
        (Some (frame file.now (map string_bytes files.now))) (answer_said result) }
    ensures files { F.files shelf.new ≡ F.files shelf.old }
    ensures faults { F.faults shelf.new ≡ faults_after (F.faults shelf.old) (answer_said result) }
    ensures refusals { F.refusals shelf.new
        ≡ refusals_after (F.files shelf.old) (F.refusals shelf.old) (answer_said result) }
{
    match read_frame_file(alloc, shelf, file) {
        Ok(frame) => {
            let said = frame_from_nothing(alloc, shelf, file, files, &frame);
            drop(frame);
            said
        }
        Err(said) => said,
    }
}

/// What `check` has to say: the frame is accepted, or what is wrong with it.
pub fn check_file<'a, F: Shelf>(alloc: Global, shelf: &mut F, file: &'a str) -> Said<'a>
    ensures answers { AnswersTo (F.files shelf.old) (Some (check file.now)) (answer_said result) }
    ensures files { F.files shelf.new ≡ F.files shelf.old }
    ensures faults { F.faults shelf.new ≡ faults_after (F.faults shelf.old) (answer_said result) }
    ensures refusals { F.refusals shelf.new
        ≡ refusals_after (F.files shelf.old) (F.refusals shelf.old) (answer_said result) }
{
    match read_frame_file(alloc, shelf, file) {
        Ok(frame) => {
            drop(frame);
            Said::Accepted
        }
        Err(said) => said,
    }
}
