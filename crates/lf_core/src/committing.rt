//! Commits: made ready, and put.
ghost use Rattle.std.specs.Prelude.{◌≡◌, ◌≤◌, ◌+◌, ◌++◌, IfOk, OnOk, IfErr};
ghost use Rattle.std.specs.Arc.{arc_value};
ghost use Rattle.lf_versions.specs.Commits.{version_after, with_commit};
ghost use Rattle.lf_desk.specs.CommitAnswer.{CommitAnswers, CommitFails, commit_answer, committed_by};
ghost use Rattle.lf_core.specs.Checks.{AfterCommit};
ghost use Rattle.lf_core.specs.Entries.{commits_in};
ghost use Rattle.lf_core.specs.Prepared.{FitsOn, ReadiesCommit};

use crate::limits::check_commit;
use crate::ready::{Prepared, Ready};
use crate::sharing::shared_patch;
use crate::state::State;
use lf_base::Memory;
use lf_desk::CommitErr;
use lf_rdf::Patch;
use lf_versions::{Commit, Version, VersionErr};
use std::alloc::Global;
use std::sync::Arc;

// The version after a commit, or why there is none.
fn version_after(alloc: Global, newest: &Version, commit: Arc<Commit>) -> Result<Version, CommitErr>
    ensures { AfterCommit (version_after newest.now (arc_value commit)) result }
{
    match newest.after(alloc, commit) {
        Ok(version) => Ok(version),
        Err(VersionErr::HistoryFull { of, have, limit }) => {
            Err(CommitErr::HistoryFull { of, have, limit })
        }
        Err(VersionErr::TooManyQuads { have, would }) => {
            Err(CommitErr::TooManyQuads { have, would })
        }
        Err(VersionErr::Memory) => Err(CommitErr::Memory),
    }
}

// Two handles of a commit, in which texts that come again are stored once.
fn two_handles(alloc: Global, seat: u64, patch: Patch) -> Result<(Arc<Commit>, Arc<Commit>), Memory>
    ensures one { IfOk result (λ made. arc_value made.0 ≡ record { seat = seat; patch = patch }) }
    ensures two { IfOk result (λ made. arc_value made.1 ≡ record { seat = seat; patch = patch }) }
{
    let patch = shared_patch(alloc, patch)?;
    let commit = Arc::new(alloc, Commit { seat, patch })?;
    let other = Arc::try_clone(&commit)?;
    Ok((commit, other))
}

impl State {
    /// Makes a commit ready. It refuses as `commit` does, and changes nothing that contracts see
    /// but places.
    pub fn ready_commit(
        &mut self,
        alloc: Global,
        seat: u64,
        patch: Patch,
    ) -> Result<Ready, CommitErr>
        ensures answer { ReadiesCommit self.old.history seat patch result }
        ensures history { self.new.history ≡ self.old.history }
        ensures boards { self.new.boards ≡ self.old.boards }
        ensures places { self.old.places ≤ self.new.places }
        ensures place { OnOk result (self.old.places + 1 ≤ self.new.places) }
    {
        self.history_is_legal();
        check_commit(self, patch.bytes)?;
        self.more_places()?;
        let (commit, other) = two_handles(alloc, seat, patch)?;
        match version_after(alloc, self.newest(), other) {
            Ok(version) => Ok(Ready {
                prepared: Prepared::Commit { commit, version },
            }),
            Err(error) => {
                drop(commit);
                Err(error)
            }
        }
    }

    /// Commits a patch as the next version, also where it changes nothing, and gives the version's
    /// number. The refusals are those of `Desk::commit`, in its order; they and `Memory` leave the
    /// state as it was. Its time grows with the lines of the patch, and as the logarithm of the
    /// version's quads.
    pub fn commit(&mut self, alloc: Global, seat: u64, patch: Patch) -> Result<u64, CommitErr>
        ensures answer { CommitAnswers result (commit_answer self.old.history patch) }
        ensures entry { self.new.history ≡ self.old.history ++ committed_by seat patch result }
        ensures boards { self.new.boards ≡ self.old.boards }
        ensures places { self.old.places ≤ self.new.places }
    {
        let ready = self.ready_commit(alloc, seat, patch)?;
        self.put(ready);
        Ok(self.versions())
    }
}
