//! A version: the commits that made it and the index of its quads, which it shares with the
//! versions around it.
ghost use Rattle.std.specs.Prelude.{◌≡◌, ◌<◌, ◌≤◌, ◌∷◌, ◌++◌, [], length, IfOk};
ghost use Rattle.std.specs.Arc.{arc_value};
ghost use Rattle.def_histories.specs.Legal.{most_commits, most_quads};
ghost use Rattle.lf_index.specs.Applied.{IsApplied};
ghost use Rattle.lf_versions.specs.Commits.{Makes, dataset, version_after};

use crate::commit::Commit;
use crate::error::VersionErr;
use lf_base::Memory;
use lf_index::{ApplyErr, Index};
use lf_model::Counted;
use lf_ptree::PMap;
use lf_rdf::Patch;
use std::alloc::Global;
use std::marker::Model;
use std::sync::Arc;

/// The most commits that a version may have.
const MOST_COMMITS: u64 = 65_536;

/// A version of the dataset. Contracts see the commits that made it, in order; version 0 has none.
///
/// A version doesn't change: `commit` gives another one, which shares with this one what both have.
/// A version costs what its patch touches, and the roots of four orders.
#[derive(Drop)]
pub struct Version {
    /// Its quads.
    index: Arc<Index>,
    /// Its commits under their numbers, counted from 0.
    pub(crate) commits: PMap<u64, Arc<Commit>>,
    /// How many commits there are.
    number: u64,
}

impl Model for Version {
    ghost use Rattle.std.specs.Prelude.{List};
    ghost use Rattle.std.specs.Arc.{arc_value};
    ghost use Rattle.lf_versions.specs.declared.commit.Commit.{Commit};
    ghost use Rattle.lf_versions.specs.Numbered.{IsVersion, commits_of};

    ghost Value = { List Commit };

    ghost view = { λ v. commits_of v.commits };

    ghost invariant = { λ v. IsVersion v.commits (arc_value v.index) v.number };
}

impl Version {
    /// Version 0, which has no commits and no quads.
    pub fn first(alloc: Global) -> Result<Version, Memory>
        ensures { IfOk result (λ version. version ≡ []) }
    {
        let index = Index::new(alloc)?;
        Ok(Version {
            index: Arc::new(alloc, index)?,
            commits: PMap::new(alloc),
            number: 0,
        })
    }

    /// How many commits made it.
    pub fn number(&self) -> u64
        ensures { result ≡ length self.now }
    {
        self.number
    }

    /// Its quads.
    pub fn index(&self) -> &Index
        ensures quads { result.now ≡ dataset self.now }
        ensures few { length result.now ≤ most_quads }
    {
        &self.index
    }

    /// The same version, by one handle more of what is shared.
    pub fn share(&self, alloc: Global) -> Result<Version, Memory>
        ensures { IfOk result (λ version. version ≡ self.now) }
    {
        Ok(Version {
            index: Arc::try_clone(&self.index)?,
            commits: self.commits.share(alloc)?,
            number: self.number,
        })
    }

    /// The version after a patch, also where the patch changes nothing. This one stays.
    /// `HistoryFull` comes exactly where there are 65,536 commits, and then `TooManyQuads` exactly
    /// where the version would have more than 400,000 quads.
    pub fn commit(&self, alloc: Global, seat: u64, patch: Patch) -> Result<Version, VersionErr>
        ensures { Makes (version_after self.now (record { seat = seat; patch = patch })) result }
    {
        let commit = shared(alloc, seat, patch)?;
        self.after(alloc, commit)
    }

    /// The same of a commit that a history holds too.
    #[tactic(auto, unfolding(def_histories::specs::Legal::most_commits))]
    pub fn after(&self, alloc: Global, commit: Arc<Commit>) -> Result<Version, VersionErr>
        ensures { Makes (version_after self.now (arc_value commit)) result }
    {
        if self.number >= MOST_COMMITS {
            return Err(VersionErr::HistoryFull {
                of: Counted::Commits,
                have: self.number,
                limit: MOST_COMMITS,
            });
        }
        match self.index.apply(alloc, &commit.patch) {
            Ok(index) => Ok(self.with(alloc, commit, index)?),
            Err(ApplyErr::TooManyQuads { have, would }) => {
                Err(VersionErr::TooManyQuads { have, would })
            }
            Err(ApplyErr::Memory) => Err(VersionErr::Memory),
        }
    }

    // The version with a commit that may follow it, and the quads after that.
    fn with(&self, alloc: Global, commit: Arc<Commit>, index: Index) -> Result<Version, Memory>
        requires few { length self.now < most_commits }
        requires applied { IsApplied (dataset self.now) (arc_value commit).patch.lines index }
        ensures { IfOk result (λ version. version ≡ self.now ++ arc_value commit ∷ []) }
    {
        let index = Arc::new(alloc, index)?;
        Ok(Version {
            index,
            commits: self.commits.insert(alloc, self.number, commit)?,
            number: self.number + 1,
        })
    }
}

// A commit that may be shared.
fn shared(alloc: Global, seat: u64, patch: Patch) -> Result<Arc<Commit>, Memory>
    ensures { IfOk result (λ commit. arc_value commit ≡ record { seat = seat; patch = patch }) }
{
    Ok(Arc::new(alloc, Commit { seat, patch })?)
}
