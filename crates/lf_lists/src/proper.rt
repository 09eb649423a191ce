//! The walk along `rdf:rest`: whether a node is the beginning of a list that ends.
ghost use Rattle.std.specs.Prelude.{◌≡◌, ◌+◌, ◌*◌, ◌≤◌, length, if◌then◌else◌, IfOk, IsTrue, OnOk};
ghost use Rattle.lf_oracle.specs.Asking.{is_one_graph};
ghost use Rattle.lf_lists.specs.Hearing.{Hears};
ghost use Rattle.lf_lists.specs.Learning.{NearTo};
ghost use Rattle.lf_lists.specs.Marks.{IsFew};
ghost use Rattle.lf_lists.specs.Walking.{Examined, Walked};

use crate::marks::{Marks, is_marked, mark};
use crate::shape::{is_nil, shaped_rest};
use def_datasets::is_blank;
use lf_base::{Memory, Steps, TryCopy};
use lf_oracle::Oracle;
use lf_rdf::{GraphRef, Term};
use std::alloc::Global;
use std::collections::BTreeSet;
use std::sync::ledger::Ledger;

/// Whether a term ends a list well: it is `rdf:nil`, or following `rdf:rest` from it through list
/// nodes reaches `rdf:nil` (RDF Schema 1.1, section 5.2). `proper` marks nodes of which this is
/// known; the nodes that were walked are marked too. Three questions are asked of each of these,
/// and three more where the walk fails.
pub(crate) fn ends_well<O: Oracle, L: Ledger>(
    alloc: Global,
    oracle: &mut O,
    graph: &GraphRef,
    start: &Term,
    proper: &mut Marks,
    steps: &mut Steps<L>,
) -> Result<bool, Memory>
    requires graph { IsTrue (is_one_graph graph.now) }
    ensures walks { IfOk result (λ ends.
        Hears (NearTo (O.quads oracle.old) start.now) (O.quads oracle.old) (O.told oracle.old)
        (O.told oracle.new) steps.old steps.new
        (λ dataset. Walked dataset graph.now proper.old.keys proper.new.keys start.now ends)) }
    ensures bound { IfOk result (λ ends.
        steps.new + 3 * length proper.old.keys
        ≤ steps.old + 3 * length proper.new.keys + (if ends then 0 else 3)) }
    ensures few { OnOk result (IsFew proper.old.keys → IsFew proper.new.keys) }
    ensures quads_stay { O.quads oracle.new ≡ O.quads oracle.old }
{
    let mut walked: Marks = BTreeSet::new(alloc);
    let mut node = start.copy(alloc)?;
    'walk: loop {
        if is_nil(&node) {
            return Ok(true);
        }
        if is_marked(&walked, &node) {
            return Ok(false);
        }
        if is_marked(proper, &node) {
            return Ok(true);
        }
        let rest = shaped_rest(alloc, oracle, graph, &node, steps)?;
        match rest {
            Some(next) => {
                mark(alloc, &mut walked, &node)?;
                mark(alloc, proper, &node)?;
                node = next;
            }
            None => return Ok(false),
        }
    }
}

/// Whether a node is proper: a list node from which following `rdf:rest` through list nodes reaches
/// `rdf:nil`. Marks and questions are as for the walk; of an IRI and a literal nothing is asked.
pub(crate) fn is_proper_node<O: Oracle, L: Ledger>(
    alloc: Global,
    oracle: &mut O,
    graph: &GraphRef,
    node: &Term,
    proper: &mut Marks,
    steps: &mut Steps<L>,
) -> Result<bool, Memory>
    requires graph { IsTrue (is_one_graph graph.now) }
    ensures walks { IfOk result (λ found.
        Hears (NearTo (O.quads oracle.old) node.now) (O.quads oracle.old) (O.told oracle.old)
        (O.told oracle.new) steps.old steps.new (λ dataset.
        Examined dataset graph.now proper.old.keys proper.new.keys node.now found)) }
    ensures bound { IfOk result (λ found.
        steps.new + 3 * length proper.old.keys
        ≤ steps.old + 3 * length proper.new.keys + (if found then 0 else 3)) }
    ensures few { OnOk result (IsFew proper.old.keys → IsFew proper.new.keys) }
    ensures quads_stay { O.quads oracle.new ≡ O.quads oracle.old }
{
    let blank = is_blank(node);
    if blank {
        let found = ends_well(alloc, oracle, graph, node, proper, steps)?;
        return Ok(found);
    }
    Ok(false)
}
