//! Patches that are applied: the next version's index.
ghost use Rattle.std.specs.Prelude.{◌≡◌, ◌∷◌, [], IfErr, IfOk, if◌then◌else◌};
ghost use Rattle.lf_rdf.specs.Equality.{quad_eq};
ghost use Rattle.def_datasets.specs.Sorted.{put_all, without};
ghost use Rattle.def_datasets.specs.Order.{quad_cmp};
ghost use Rattle.def_datasets.specs.Dataset.{additions, after, deletions, with_quad};
ghost use Rattle.lf_index.specs.Applied.{IsApplied, IsRefused, latest};

use crate::bulk::index_of_added;
use crate::error::ApplyErr;
use crate::index::Index;
use lf_base::Memory;
use lf_rdf::{Patch, Signed};
use std::alloc::Global;

/// The most quads that a version may have.
const MOST_QUADS: u64 = 400_000;

impl Index {
    /// The quads after a patch. This index stays.
    ///
    /// Each line that changes something costs some log n comparisons in each of three orders for n
    /// quads, and copies three pages there. Where there are no quads yet, the orders are sorted and
    /// built at once.
    #[tactic(auto, unfolding(def_histories::specs::Legal::most_quads))]
    pub fn apply(&self, alloc: Global, patch: &Patch) -> Result<Index, ApplyErr>
        ensures applied { IfOk result (IsApplied self.now patch.now.lines) }
        ensures refused { IfErr result (IsRefused self.now patch.now.lines) }
    {
        let made = self.changed(alloc, patch.lines.as_slice())?;
        if made.len() > MOST_QUADS {
            return Err(ApplyErr::TooManyQuads {
                have: self.len(),
                would: made.len(),
            });
        }
        Ok(made)
    }

    // The quads after some lines.
    fn changed(&self, alloc: Global, lines: &[Signed]) -> Result<Index, Memory>
        ensures { IfOk result (λ index. index ≡ after self.now lines.now) }
    {
        if self.len() == 0 {
            return index_of_added(alloc, lines);
        }
        let fewer = self.without_deleted(alloc, lines)?;
        match self.with_added(alloc, fewer, lines)? {
            Some(made) => Ok(made),
            None => self.share(alloc),
        }
    }

    // What was made last, or this index while nothing is.
    fn latest<'a>(&'a self, made: &'a Option<Index>) -> &'a Index
        ensures { result.now ≡ latest made.now self.now }
    {
        match made {
            Some(index) => index,
            None => self,
        }
    }

    // The quads without those that lines delete; none where no line deletes a quad that is there.
    fn without_deleted(&self, alloc: Global, lines: &[Signed]) -> Result<Option<Index>, Memory>
        ensures { IfOk result
            (λ made. latest made self.now ≡ without quad_eq self.now (deletions lines.now)) }
    {
        let mut made = None;
        for line in lines {
            made = self.without_line(alloc, made, line)?;
        }
        Ok(made)
    }

    // What was made last without the quad of a line, if the line deletes it.
    fn without_line(
        &self,
        alloc: Global,
        made: Option<Index>,
        line: &Signed,
    ) -> Result<Option<Index>, Memory>
        ensures { IfOk result (λ next.
            latest next self.now
            ≡ (if line.now.add then latest made self.now
            else without quad_eq (latest made self.now) (line.now.quad ∷ []))) }
    {
        if line.add {
            return Ok(made);
        }
        match self.latest(&made).without(alloc, &line.quad)? {
            Some(next) => Ok(Some(next)),
            None => Ok(made),
        }
    }

    // What was made last with the quads that lines add.
    fn with_added(
        &self,
        alloc: Global,
        fewer: Option<Index>,
        lines: &[Signed],
    ) -> Result<Option<Index>, Memory>
        ensures { IfOk result (λ made.
            latest made self.now
            ≡ put_all quad_cmp (latest fewer self.now) (additions lines.now)) }
    {
        let mut made = fewer;
        for line in lines {
            made = self.with_line(alloc, made, line)?;
        }
        Ok(made)
    }

    // What was made last with the quad of a line, if the line adds it.
    fn with_line(
        &self,
        alloc: Global,
        made: Option<Index>,
        line: &Signed,
    ) -> Result<Option<Index>, Memory>
        ensures { IfOk result (λ next.
            latest next self.now
            ≡ (if line.now.add then with_quad line.now.quad (latest made self.now)
            else latest made self.now)) }
    {
        if !line.add {
            return Ok(made);
        }
        match self.latest(&made).with(alloc, &line.quad)? {
            Some(next) => Ok(Some(next)),
            None => Ok(made),
        }
    }
}
