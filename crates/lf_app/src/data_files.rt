//! Data files: patches that are committed in order. `frame` commits them.
ghost use Rattle.std.specs.Prelude.{◌≡◌, ◌∷◌, [], ◌++◌, ◌≤◌, ℕ, length, map, string_bytes, IfOk, OnOk, Ok};
ghost use Rattle.std.specs.Result.{IfErr};
ghost use Rattle.def_patch_texts.specs.PatchText.{IsPatchText};
ghost use Rattle.def_histories.specs.declared.operation.Operation.TheVariants.{Commit};
ghost use Rattle.lf_nquads.specs.Patches.{text_limit};
ghost use Rattle.lf_desk.specs.CommitAnswer.{commit_answer};
ghost use Rattle.lf_app.specs.Holding.{session_seat, HoldsPatch, IsCommitted, AreCommitted};
ghost use Rattle.lf_app.specs.Answers.{RefusesData, RefusesPatch, RefusesFile, RefusesOne};
ghost use Rattle.lf_app.specs.Counting.{answer_said, faults_by, refusals_by};
ghost use Rattle.lf_app.specs.DataFiles.{StatesPatch, RefusesLines};

use crate::answer::{Passed, Said};
use crate::session::SEAT;
use lf_core::State;
use lf_desk::CommitErr;
use lf_io::{Shelf, ShelfErr};
use lf_model::Counted;
use lf_nquads::{LineErr, read_patch};
use lf_rdf::Patch;
use std::alloc::Global;

/// The most bytes of a data file.
pub const PATCH_LIMIT: u64 = 67_108_864;

// The patch that a file's text states.
fn patch_in<'a>(alloc: Global, file: &'a str, text: &[u8]) -> Result<Patch, Said<'a>>
    requires { length text.now ≤ text_limit }
    ensures read { IfOk result (StatesPatch text.now) }
    ensures refused { IfErr result (λ said. RefusesLines file.now text.now (answer_said said)) }
{
    match read_patch(alloc, text) {
        Ok(patch) => Ok(patch),
        Err(LineErr::Bad { line, kind }) => Err(Said::BadLine { file, line, kind }),
        Err(LineErr::Memory) => Err(Said::NoMemory),
    }
}

// The patch that a file holds, or why it holds none.
fn read_data_file<'a, F: Shelf>(
    alloc: Global,
    shelf: &mut F,
    file: &'a str,
) -> Result<Patch, Said<'a>>
    ensures read { IfOk result (HoldsPatch (F.files shelf.old) file.now) }
    ensures refused { IfErr result
        (λ said. RefusesData (F.files shelf.old) file.now (answer_said said)) }
    ensures files { F.files shelf.new ≡ F.files shelf.old }
    ensures faults { F.faults shelf.new ≡ faults_by (F.faults shelf.old) result }
    ensures refusals { F.refusals shelf.new
        ≡ refusals_by (F.files shelf.old) (F.refusals shelf.old) result }
{
    match shelf.take(alloc, file, PATCH_LIMIT) {
        Ok(text) => patch_in(alloc, file, text.as_slice()),
        Err(ShelfErr::Failed) => Err(Said::CannotRead(file)),
        Err(ShelfErr::TooLong) => Err(Said::Over(Passed::PatchText)),
        Err(ShelfErr::Memory) => Err(Said::NoMemory),
    }
}

// Commits a patch, or says which limit of histories it would pass.
fn commit_patch<'a>(alloc: Global, state: &mut State, patch: Patch) -> Result<(), Said<'a>>
    ensures accepted { OnOk result
        ((version : ℕ) × (commit_answer state.old.history patch ≡ Ok version)
        × (state.new.history ≡ state.old.history ++ Commit session_seat patch ∷ [])) }
    ensures refused { IfErr result
        (λ said. RefusesPatch state.old.history patch (answer_said said)) }
{
    match state.commit(alloc, SEAT, patch) {
        Ok(_) => Ok(()),
        Err(CommitErr::HistoryFull { of, .. }) => match of {
            Counted::Commits => Err(Said::Over(Passed::Commits)),
            Counted::Bytes => Err(Said::Over(Passed::HistoryBytes)),
            Counted::Registrations => unreachable!(),
        },
        Err(CommitErr::TooManyQuads { .. }) => Err(Said::Over(Passed::Quads)),
        Err(CommitErr::Memory) => Err(Said::NoMemory),
    }
}

// Commits a data file as the next version, or says why it can't be.
fn commit_file<'a, F: Shelf>(
    alloc: Global,
    shelf: &mut F,
    file: &'a str,
    state: &mut State,
) -> Result<(), Said<'a>>
    ensures committed { OnOk result
        (IsCommitted (F.files shelf.old) file.now state.old.history state.new.history) }
    ensures refused { IfErr result
        (λ said. RefusesFile (F.files shelf.old) file.now state.old.history (answer_said said)) }
    ensures files { F.files shelf.new ≡ F.files shelf.old }
    ensures faults { F.faults shelf.new ≡ faults_by (F.faults shelf.old) result }
    ensures refusals { F.refusals shelf.new
        ≡ refusals_by (F.files shelf.old) (F.refusals shelf.old) result }
{
    match read_data_file(alloc, shelf, file) {
        Ok(patch) => commit_patch(alloc, state, patch),
        Err(said) => Err(said),
    }
}

/// Commits data files in order, or says why the first that can't be committed isn't.
pub fn commit_files<'a, F: Shelf>(
    alloc: Global,
    shelf: &mut F,
    files: &'a [String],
    state: &mut State,
) -> Result<(), Said<'a>>
    ensures committed { OnOk result
        (AreCommitted (F.files shelf.old) (map string_bytes files.now) state.old.history
        state.new.history) }
    ensures refused { IfErr result (λ said.
        RefusesOne (F.files shelf.old) (map string_bytes files.now) state.old.history
        (answer_said said)) }
    ensures files { F.files shelf.new ≡ F.files shelf.old }
    ensures faults { F.faults shelf.new ≡ faults_by (F.faults shelf.old) result }
    ensures refusals { F.refusals shelf.new
        ≡ refusals_by (F.files shelf.old) (F.refusals shelf.old) result }
{
    for file in files {
        match commit_file(alloc, shelf, file.as_str(), state) {
            Ok(()) => {}
            Err(said) => return Err(said),
        }
    }
    Ok(())
}
