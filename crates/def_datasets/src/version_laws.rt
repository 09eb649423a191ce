//! Laws of versions: what a patch adds and deletes, in any order of its lines.
ghost use Rattle.def_datasets.specs.VersionLaws.{QuadsDecide, PatchKeepsOrder, PatchDecidesQuads, LinesInAnyOrder, IdlePatchChangesNothing, VersionsAreDatasets, NextVersion, VersionsStay};

/// Two datasets with the same quads are one.
#[tactic(auto, using(crate::proofs::VersionProofs::quads_decide))]
pub fn quads_decide()
    ensures { QuadsDecide }
{}

/// A patch leaves a dataset in order and without repeats.
#[tactic(auto, using(crate::proofs::VersionProofs::patch_keeps_order))]
pub fn patch_keeps_order()
    ensures { PatchKeepsOrder }
{}

/// A quad is there after a patch where the patch adds it, or where it was there and the patch
/// doesn't delete it.
#[tactic(auto, using(crate::proofs::VersionProofs::patch_decides_quads))]
pub fn patch_decides_quads()
    ensures { PatchDecidesQuads }
{}

/// Two patches with the same lines, in whatever order and however often, make the same dataset.
#[tactic(auto, using(crate::proofs::VersionProofs::lines_in_any_order))]
pub fn lines_in_any_order()
    ensures { LinesInAnyOrder }
{}

/// A patch that adds only what is there, and all that it deletes of it, changes nothing.
#[tactic(auto, using(crate::proofs::VersionProofs::idle_patch_changes_nothing))]
pub fn idle_patch_changes_nothing()
    ensures { IdlePatchChangesNothing }
{}

/// Each version is a dataset.
#[tactic(auto, using(crate::proofs::VersionProofs::versions_are_datasets))]
pub fn versions_are_datasets()
    ensures { VersionsAreDatasets }
{}

/// The next version is that before, after the next patch.
#[tactic(auto, using(crate::proofs::VersionProofs::next_version))]
pub fn next_version()
    ensures { NextVersion }
{}

/// What follows a version doesn't change it.
#[tactic(auto, using(crate::proofs::VersionProofs::versions_stay))]
pub fn versions_stay()
    ensures { VersionsStay }
{}
