//! What a frame gives over a version: one outcome for each term, and the document of these.
ghost use Rattle.std.specs.Prelude.{◌≡◌, IfOk, map};
ghost use Rattle.std.specs.Arc.{arc_value};
ghost use Rattle.def_datasets.specs.Terms.{terms};
ghost use Rattle.def_framing.specs.Outcome.{outcome};
ghost use Rattle.def_framing.specs.OutcomeBridge.{outcome_data};
ghost use Rattle.def_framing.specs.Views.{of_dataset};
ghost use Rattle.def_scratch.specs.Scratch.{scratch_frame};
ghost use Rattle.lf_versions.specs.Commits.{dataset};
ghost use Rattle.lf_board.specs.Boards.{IsOf};

use lf_base::{Memory, Steps};
use lf_doc::assemble;
use lf_embed::outcomes_of;
use lf_index::Index;
use lf_kept::KeptNodes;
use lf_model::{Doc, Frame, OutcomeList};
use lf_rdf::TermList;
use lf_versions::Version;
use std::alloc::Global;
use std::sync::Arc;
use std::sync::ledger::Ledger;

/// What a frame came to over a version.
#[derive(Drop)]
pub struct Evaluated {
    pub version: Version,
    /// One for each term of the version's dataset, in order of the ids.
    pub outcomes: OutcomeList,
    pub doc: Arc<Doc>,
}

// What a frame gives for each of some terms of an index, in their order.
fn outcomes_over<L: Ledger>(
    alloc: Global,
    index: &Index,
    frame: &Frame,
    terms: &TermList,
    steps: &mut Steps<L>,
) -> Result<OutcomeList, Memory>
    ensures { IfOk result (λ outcomes.
        map outcome_data outcomes ≡ map (outcome (of_dataset index.now) frame.now) terms.now) }
{
    let mut nodes = KeptNodes::new(alloc, index.asker());
    outcomes_of(alloc, &mut nodes, frame, terms, steps)
}

/// What a frame comes to over a version whose terms these are: each is evaluated.
#[tactic(auto, using(crate::proofs::Documents::is_of))]
pub fn evaluate<L: Ledger>(
    alloc: Global,
    frame: &Frame,
    to: &Version,
    all: &TermList,
    steps: &mut Steps<L>,
) -> Result<Evaluated, Memory>
    requires all { all.now ≡ terms (dataset to.now) }
    ensures is { IfOk result (λ made. IsOf frame.now made) }
    ensures version { IfOk result (λ made. made.version ≡ to.now) }
{
    let outcomes = outcomes_over(alloc, to.index(), frame, all, steps)?;
    let doc = assemble(alloc, frame, &outcomes)?;
    Ok(Evaluated {
        version: to.share(alloc)?,
        outcomes,
        doc: Arc::new(alloc, doc)?,
    })
}
