//! Cells: the nodes that are shown as parts of a list and not as nodes.
ghost use Rattle.std.specs.Prelude.{◌≡◌, ◌+◌, ◌*◌, ◌≤◌, length, IfOk, IsTrue, OnOk};
ghost use Rattle.def_datasets.specs.Questions.{answers_of};
ghost use Rattle.def_datasets.specs.Cells.{is_cell, is_proper, subject_of, user_of};
ghost use Rattle.lf_oracle.specs.Asking.{Learns, is_one_graph};
ghost use Rattle.lf_lists.specs.Hearing.{Hears};
ghost use Rattle.lf_lists.specs.Learning.{NearTo};
ghost use Rattle.lf_lists.specs.Marks.{AllMarked, IsFew};
ghost use Rattle.lf_lists.specs.Climbing.{Climbs};

use crate::asking::quads_using;
use crate::marks::{Marks, is_marked, mark};
use crate::proper::is_proper_node;
use def_datasets::is_blank;
use lf_base::{Memory, Steps, TryCopy};
use lf_oracle::Oracle;
use lf_rdf::{GraphRef, Quad, Term};
use std::alloc::Global;
use std::collections::BTreeSet;
use std::sync::ledger::Ledger;

/// Whether a node is a cell of a graph: a list node that is shown as a part of a list and not as a
/// node (JSON-LD 1.1 Processing Algorithms and API, section 8.1). The graph isn't the merged one.
/// Only of blank nodes is anything asked. Over q quads the steps rise by at most `8 * (q + 1)`,
/// also where the data is a ring.
pub fn is_cell<O: Oracle, L: Ledger>(
    alloc: Global,
    oracle: &mut O,
    graph: &GraphRef,
    node: &Term,
    steps: &mut Steps<L>,
) -> Result<bool, Memory>
    requires graph { IsTrue (is_one_graph graph.now) }
    ensures cell { IfOk result (λ found.
        Learns (NearTo (O.quads oracle.old) node.now) (O.quads oracle.old) (O.told oracle.old)
        (O.told oracle.new) steps.old steps.new
        (λ dataset. is_cell dataset graph.now node.now) found) }
    ensures bound { OnOk result (steps.new ≤ steps.old + 8 * (length (O.quads oracle.old) + 1)) }
    ensures quads_stay { O.quads oracle.new ≡ O.quads oracle.old }
{
    let mut proper: Marks = BTreeSet::new(alloc);
    let ends = is_proper_node(alloc, oracle, graph, node, &mut proper, steps)?;
    if ends {
        let found = climbs_out(alloc, oracle, graph, node, &mut proper, steps)?;
        return Ok(found);
    }
    Ok(false)
}

// Whether going back from a proper node, again and again to the subject of its one use, reaches a
// node that isn't proper. One question is asked of each node that is passed, beside those of the
// walks.
fn climbs_out<O: Oracle, L: Ledger>(
    alloc: Global,
    oracle: &mut O,
    graph: &GraphRef,
    start: &Term,
    proper: &mut Marks,
    steps: &mut Steps<L>,
) -> Result<bool, Memory>
    requires graph { IsTrue (is_one_graph graph.now) }
    requires start { IsTrue (is_proper (O.quads oracle.old) graph.now start.now) }
    requires proper { AllMarked (is_proper (O.quads oracle.old) graph.now) proper.old.keys }
    requires few { IsFew proper.old.keys }
    ensures climbs { IfOk result (λ found.
        Hears (NearTo (O.quads oracle.old) start.now) (O.quads oracle.old) (O.told oracle.old)
        (O.told oracle.new) steps.old steps.new
        (λ dataset. Climbs dataset graph.now proper.old.keys start.now found)) }
    ensures bound { OnOk result (steps.new + 3 * length proper.old.keys
        ≤ steps.old + 4 * length (O.quads oracle.old) + 4) }
    ensures quads_stay { O.quads oracle.new ≡ O.quads oracle.old }
{
    let mut climbed: Marks = BTreeSet::new(alloc);
    let mut node = start.copy(alloc)?;
    'climb: loop {
        if is_marked(&climbed, &node) {
            return Ok(false);
        }
        mark(alloc, &mut climbed, &node)?;
        let next = user(alloc, oracle, &node, steps)?;
        match next {
            Some(above) => {
                let ends = is_proper_node(alloc, oracle, graph, &above, proper, steps)?;
                if ends {
                    node = above;
                } else {
                    return Ok(true);
                }
            }
            None => return Ok(false),
        }
    }
}

/// The node that uses another, by one question: the subject of its first use.
pub(crate) fn user<O: Oracle, L: Ledger>(
    alloc: Global,
    oracle: &mut O,
    node: &Term,
    steps: &mut Steps<L>,
) -> Result<Option<Term>, Memory>
    ensures user { IfOk result (λ found.
        Learns (NearTo (O.quads oracle.old) node.now) (O.quads oracle.old) (O.told oracle.old)
        (O.told oracle.new) steps.old steps.new
        (λ dataset. user_of (answers_of dataset) node.now) found) }
    ensures counts { OnOk result (steps.new ≡ steps.old + 1) }
    ensures quads_stay { O.quads oracle.new ≡ O.quads oracle.old }
{
    let uses = quads_using(alloc, oracle, node, steps)?;
    let subject = first_subject(alloc, uses.as_slice())?;
    Ok(subject)
}

// The subject of the first of some quads.
fn first_subject(alloc: Global, quads: &[Quad]) -> Result<Option<Term>, Memory>
    ensures { IfOk result (λ subject. subject ≡ subject_of quads.now) }
{
    match quads {
        [first, ..] => Ok(Some(first.subject.copy(alloc)?)),
        [] => Ok(None),
    }
}
