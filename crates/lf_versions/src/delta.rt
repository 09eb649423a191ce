//! What changed between two versions.
ghost use Rattle.std.specs.Prelude.{◌≡◌, ◌≤◌, [], ◌∷◌, true, length, IfOk, IsTrue, OnOk};
ghost use Rattle.lf_rdf.specs.declared.quad.Quad.{Quad};
ghost use Rattle.def_datasets.specs.Dataset.{holds};
ghost use Rattle.def_histories.specs.Jobs.{IsPrefix};
ghost use Rattle.def_histories.specs.Legal.{most_quads};
ghost use Rattle.lf_versions.specs.Commits.{dataset, lines_of};
ghost use Rattle.std.specs.Ordering.{nat_cmp};
ghost use Rattle.lf_ptree.specs.Pairs.{pairs_from};
ghost use Rattle.lf_versions.specs.Changes.{changes_behind, differs, is_once, named, named_in, put_once, quads_of};
ghost use Rattle.lf_versions.specs.Numbered.{commits_of};

use crate::change::Change;
use crate::commit::Commit;
use crate::version::Version;
use indexmap::IndexSet;
use lf_base::{Memory, TryCopy};
use lf_index::{ApplyErr, Index};
use lf_ptree::PMap;
use lf_rdf::{Patch, Quad, QuadList, Signed, SignedList};
use std::alloc::Global;
use std::sync::Arc;

// The patch that adds one quad.
fn addition(alloc: Global, quad: &Quad) -> Result<Patch, Memory>
    ensures { IfOk result (λ patch. patch.lines ≡ record { add = true; quad = quad.now } ∷ []) }
{
    let quad = quad.copy(alloc)?;
    let mut lines = SignedList::new(alloc);
    lines.push(Signed { add: true, quad })?;
    Ok(Patch { lines, bytes: 0 })
}

// Whether an index has a quad: with it, there aren't more quads than without.
#[tactic(auto, using(crate::proofs::Membership::told_by_length, crate::proofs::Membership::out_of_full))]
fn has(alloc: Global, index: &Index, quad: &Quad) -> Result<bool, Memory>
    requires few { length index.now ≤ most_quads }
    ensures { IfOk result (λ found. found ≡ holds index.now quad.now) }
{
    index.is_dataset();
    let patch = addition(alloc, quad)?;
    match index.apply(alloc, &patch) {
        Ok(made) => Ok(made.len() == index.len()),
        Err(ApplyErr::TooManyQuads { .. }) => Ok(false),
        Err(ApplyErr::Memory) => Err(Memory),
    }
}

// Whether a quad is in exactly one of two indexes.
fn differs(alloc: Global, one: &Index, two: &Index, quad: &Quad) -> Result<bool, Memory>
    requires one { length one.now ≤ most_quads }
    requires two { length two.now ≤ most_quads }
    ensures { IfOk result (λ found. found ≡ differs one.now two.now quad.now) }
{
    Ok(has(alloc, one, quad)? != has(alloc, two, quad)?)
}

// Puts a quad that changed, unless it is there.
fn put(alloc: Global, changes: &mut IndexSet<Change>, quad: &Quad) -> Result<(), Memory>
    ensures { OnOk result (quads_of changes.new.keys
        ≡ put_once quad.now (quads_of changes.old.keys)) }
{
    let quad = quad.copy(alloc)?;
    changes.insert(Change { quad })?;
    Ok(())
}

// Puts what changed of the quads that lines name.
fn put_lines(
    alloc: Global,
    changes: &mut IndexSet<Change>,
    one: &Index,
    two: &Index,
    lines: &[Signed],
) -> Result<(), Memory>
    requires one { length one.now ≤ most_quads }
    requires two { length two.now ≤ most_quads }
    ensures { OnOk result (quads_of changes.new.keys
        ≡ changes_behind (differs one.now two.now) (quads_of changes.old.keys)
        (named_in lines.now)) }
{
    for line in lines {
        if differs(alloc, one, two, &line.quad)? {
            put(alloc, changes, &line.quad)?;
        }
    }
    Ok(())
}

// The quads of some changes.
fn quads(alloc: Global, changes: &[Change]) -> Result<QuadList, Memory>
    ensures { IfOk result (λ made. made ≡ quads_of changes.now) }
{
    let mut made = QuadList::new(alloc);
    for change in changes {
        made.push(change.quad.copy(alloc)?)?;
    }
    Ok(made)
}

// What changed of the quads that the patches name from a number on.
fn changes_since(
    alloc: Global,
    commits: &PMap<u64, Arc<Commit>>,
    from: u64,
    one: &Index,
    two: &Index,
) -> Result<IndexSet<Change>, Memory>
    requires one { length one.now ≤ most_quads }
    requires two { length two.now ≤ most_quads }
    ensures { IfOk result (λ changes.
        quads_of changes.keys
        ≡ changes_behind (differs one.now two.now) []
        (named (lines_of (commits_of (pairs_from nat_cmp from commits.now))))) }
{
    let mut changes = IndexSet::new(alloc);
    for pair in commits.from(&from) {
        put_lines(alloc, &mut changes, one, two, pair.1.patch.lines.as_slice())?;
    }
    Ok(changes)
}

impl Version {
    /// The quads that are in exactly one of this version and an older one, whose commits begin this
    /// one's. Each is there once, in the order in which the later patches name them. It takes some
    /// log n comparisons a line for n quads.
    pub fn delta_since(&self, alloc: Global, older: &Version) -> Result<QuadList, Memory>
        requires begun { IsPrefix (lines_of older.now) (lines_of self.now) }
        ensures differ { IfOk result (λ changed.
            (q : Quad) → holds changed q ≡ differs (dataset older.now) (dataset self.now) q) }
        ensures once { IfOk result (λ changed. IsTrue (is_once changed)) }
    {
        let changes = changes_since(
            alloc,
            &self.commits,
            older.number(),
            older.index(),
            self.index(),
        )?;
        quads(alloc, changes.as_slice())
    }
}
