//! The document of all terms of an index.
ghost use Rattle.std.specs.Prelude.{◌≡◌, ◌<◌, IfOk, map};
ghost use Rattle.def_datasets.specs.Terms.{terms};
ghost use Rattle.def_datasets.specs.Views.{keys};
ghost use Rattle.def_documents.specs.Document.{gathered};
ghost use Rattle.def_framing.specs.Outcome.{framed_graph, outcome};
ghost use Rattle.def_framing.specs.OutcomeBridge.{outcome_data};
ghost use Rattle.def_framing.specs.Views.{of_dataset};
ghost use Rattle.def_scratch.specs.Scratch.{scratch_frame};

use def_documents::item_limit;
use lf_base::{Memory, Steps};
use lf_doc::{assemble, room_left};
use lf_embed::{FramedKeys, framed_keys, outcome_among};
use lf_index::Index;
use lf_kept::KeptNodes;
use lf_model::{Doc, Frame, OutcomeList};
use lf_oracle::Nodes;
use lf_rdf::Term;
use std::alloc::Global;
use std::marker::Brand;
use std::sync::ledger::{Blank, Ledger};

// What a frame gives for each of some terms in order, up to the first that decides the document.
fn outcomes_until<N: Nodes, L: Ledger>(
    alloc: Global,
    nodes: &mut N,
    frame: &Frame,
    known: &FramedKeys,
    terms: &[Term],
    steps: &mut Steps<L>,
) -> Result<OutcomeList, Memory>
    requires keys { known.now ≡ keys (N.quads nodes.old) (framed_graph frame.now.top_graph) }
    ensures { IfOk result (λ made.
        gathered 0 (map outcome_data made)
        ≡ gathered 0 (map (outcome (of_dataset (N.quads nodes.old)) frame.now) terms.now)) }
{
    let mut made = OutcomeList::new(alloc);
    let mut room = item_limit();
    for term in terms {
        let outcome = outcome_among(alloc, nodes, frame, known, term, steps)?;
        let left = room_left(&outcome, room);
        made.push(outcome)?;
        match left {
            Some(more) => room = more,
            None => return Ok(made),
        }
    }
    Ok(made)
}

// What a frame gives for the terms of an index, in order of the ids, up to the first that decides
// the document.
fn deciding_outcomes<L: Ledger>(
    alloc: Global,
    index: &Index,
    frame: &Frame,
    blank: Blank,
) -> Result<OutcomeList, Memory>
    requires name { blank.name ≡ L.name }
    requires parts { blank.parts ≡ L.parts }
    requires one { 0 < blank.parts }
    ensures { IfOk result (λ made.
        gathered 0 (map outcome_data made)
        ≡ gathered 0 (map (outcome (of_dataset index.now) frame.now) (terms index.now))) }
{
    let mut steps: Steps<L> = Steps::of(blank);
    let terms = index.terms(alloc)?;
    let mut nodes = KeptNodes::new(alloc, index.asker());
    let known = framed_keys(alloc, &mut nodes, frame, &mut steps)?;
    outcomes_until(
        alloc,
        &mut nodes,
        frame,
        &known,
        terms.as_slice(),
        &mut steps,
    )
}

/// The document of a frame over the quads of an index: that of what the frame gives for each term,
/// in order of the ids (JSON-LD 1.1 Framing, section 4.1). It keeps nothing for a later version.
///
/// A view that took more than one question is kept, so the uses of a node are asked for once,
/// whatever refers to it. No tree is made behind the first that decides, by a limit of its own or
/// as the one with which the items are more than 262,144: so at most so many items and those of one
/// more tree are made and held, besides the views, also where the document is over a limit.
pub fn frame_dataset(alloc: Global, index: &Index, frame: &Frame) -> Result<Doc, Memory>
    ensures { IfOk result (λ doc. doc ≡ scratch_frame frame.now index.now) }
{
    let outcomes = deciding_outcomes::<Brand>(alloc, index, frame, Blank::new(1))?;
    assemble(alloc, frame, &outcomes)
}
