//! Cells of one graph for many nodes: what was found of one isn't asked again for another.
ghost use Rattle.std.specs.Prelude.{◌≡◌, [], List, IfOk, IsTrue, OnOk};
ghost use Rattle.lf_rdf.specs.declared.quad.Quad.{Quad};
ghost use Rattle.lf_rdf.specs.declared.question.GraphRef.{GraphRef as TheGraph};
ghost use Rattle.def_datasets.specs.Terms.{is_blank};
ghost use Rattle.def_datasets.specs.Cells.{is_proper};
ghost use Rattle.lf_oracle.specs.Asking.{is_one_graph};
ghost use Rattle.lf_lists.specs.Hearing.{Hears};
ghost use Rattle.lf_lists.specs.Learning.{NearTo};
ghost use Rattle.lf_lists.specs.Known.{ClimbTells, IsExamined, IsFound, Knows, WalkTells};

use crate::cell::user;
use crate::marks::{Marks, is_marked, mark, mark_all};
use crate::shape::{is_nil, shaped_rest};
use def_datasets::is_blank;
use lf_base::{Memory, Steps, TryCopy};
use lf_oracle::Oracle;
use lf_rdf::{GraphRef, Term};
use std::alloc::Global;
use std::collections::BTreeSet;
use std::sync::ledger::Ledger;

/// What is known of the nodes of one graph: which of them are cells. However many nodes are asked
/// of, one after the other, each list node is walked once and climbed once; of a node that isn't
/// one, up to three questions are asked each time.
#[derive(Drop)]
pub struct KnownCells {
    pub(crate) proper: Marks,
    pub(crate) broken: Marks,
    pub(crate) cells: Marks,
    pub(crate) others: Marks,
}

impl KnownCells {
    /// Nothing is known yet. It takes no memory.
    pub fn new(alloc: Global) -> KnownCells
        ensures { (dataset : List Quad) (g : TheGraph) → Knows dataset g result }
    {
        KnownCells {
            proper: BTreeSet::new(alloc),
            broken: BTreeSet::new(alloc),
            cells: BTreeSet::new(alloc),
            others: BTreeSet::new(alloc),
        }
    }

    /// Whether a node is a cell of the graph, as [`is_cell`](crate::is_cell) tells, with what is
    /// known already. The graph isn't the merged one, and is that of all calls before.
    pub fn is_cell<O: Oracle, L: Ledger>(
        &mut self,
        alloc: Global,
        oracle: &mut O,
        graph: &GraphRef,
        node: &Term,
        steps: &mut Steps<L>,
    ) -> Result<bool, Memory>
        requires graph { IsTrue (is_one_graph graph.now) }
        requires knows { Knows (O.quads oracle.old) graph.now self.old }
        ensures cell { IfOk result (λ found.
            Hears (NearTo (O.quads oracle.old) node.now) (O.quads oracle.old)
            (O.told oracle.old) (O.told oracle.new) steps.old steps.new
            (λ dataset.
            Knows dataset graph.now self.old →
            IsFound dataset graph.now self.new node.now found)) }
        ensures quads_stay { O.quads oracle.new ≡ O.quads oracle.old }
    {
        let listed = is_marked(&self.cells, node);
        if listed {
            return Ok(true);
        }
        let apart = is_marked(&self.others, node);
        if apart {
            return Ok(false);
        }
        let ends = examine(alloc, oracle, graph, node, self, steps)?;
        if ends {
            let found = climb(alloc, oracle, graph, node, self, steps)?;
            return Ok(found);
        }
        Ok(false)
    }
}

// Whether a proper node is a cell. The nodes that are climbed are marked as it is.
fn climb<O: Oracle, L: Ledger>(
    alloc: Global,
    oracle: &mut O,
    graph: &GraphRef,
    start: &Term,
    known: &mut KnownCells,
    steps: &mut Steps<L>,
) -> Result<bool, Memory>
    requires graph { IsTrue (is_one_graph graph.now) }
    requires start { IsTrue (is_proper (O.quads oracle.old) graph.now start.now) }
    requires knows { Knows (O.quads oracle.old) graph.now known.old }
    ensures climbs { IfOk result (λ found.
        Hears (NearTo (O.quads oracle.old) start.now) (O.quads oracle.old) (O.told oracle.old)
        (O.told oracle.new) steps.old steps.new (λ dataset.
        IsTrue (is_proper dataset graph.now start.now) → Knows dataset graph.now known.old →
        IsFound dataset graph.now known.new start.now found)) }
    ensures quads_stay { O.quads oracle.new ≡ O.quads oracle.old }
{
    let mut climbed: Marks = BTreeSet::new(alloc);
    let found = climb_marking(alloc, oracle, graph, start, known, &mut climbed, steps)?;
    if found {
        mark_all(&mut known.cells, &mut climbed)?;
        return Ok(true);
    }
    mark_all(&mut known.others, &mut climbed)?;
    Ok(false)
}

// Whether going back from a proper node, again and again to the subject of its one use, reaches a
// node that isn't proper. It ends at a node that is known, too.
fn climb_marking<O: Oracle, L: Ledger>(
    alloc: Global,
    oracle: &mut O,
    graph: &GraphRef,
    start: &Term,
    known: &mut KnownCells,
    climbed: &mut Marks,
    steps: &mut Steps<L>,
) -> Result<bool, Memory>
    requires graph { IsTrue (is_one_graph graph.now) }
    requires start { IsTrue (is_proper (O.quads oracle.old) graph.now start.now) }
    requires knows { Knows (O.quads oracle.old) graph.now known.old }
    requires empty { climbed.old.keys ≡ [] }
    ensures climbs { IfOk result (λ found.
        Hears (NearTo (O.quads oracle.old) start.now) (O.quads oracle.old) (O.told oracle.old)
        (O.told oracle.new) steps.old steps.new (λ dataset.
        IsTrue (is_proper dataset graph.now start.now) → Knows dataset graph.now known.old →
        ClimbTells dataset graph.now known.new climbed.new.keys start.now found)) }
    ensures quads_stay { O.quads oracle.new ≡ O.quads oracle.old }
{
    let mut node = start.copy(alloc)?;
    'climb: loop {
        let listed = is_marked(&known.cells, &node);
        if listed {
            return Ok(true);
        }
        let apart = is_marked(&known.others, &node);
        if apart {
            return Ok(false);
        }
        let ring = is_marked(climbed, &node);
        if ring {
            return Ok(false);
        }
        mark(alloc, climbed, &node)?;
        let next = user(alloc, oracle, &node, steps)?;
        match next {
            Some(above) => {
                let ends = examine(alloc, oracle, graph, &above, known, steps)?;
                if ends {
                    node = above;
                } else {
                    return Ok(true);
                }
            }
            None => return Ok(false),
        }
    }
}

// Whether a node is proper. The nodes that are walked are marked as it is.
fn examine<O: Oracle, L: Ledger>(
    alloc: Global,
    oracle: &mut O,
    graph: &GraphRef,
    node: &Term,
    known: &mut KnownCells,
    steps: &mut Steps<L>,
) -> Result<bool, Memory>
    requires graph { IsTrue (is_one_graph graph.now) }
    ensures examines { IfOk result (λ found.
        Hears (NearTo (O.quads oracle.old) node.now) (O.quads oracle.old) (O.told oracle.old)
        (O.told oracle.new) steps.old steps.new (λ dataset.
        Knows dataset graph.now known.old →
        IsExamined dataset graph.now known.new node.now found)) }
    ensures quads_stay { O.quads oracle.new ≡ O.quads oracle.old }
{
    let blank = is_blank(node);
    if blank {
        let found = examine_blank(alloc, oracle, graph, node, known, steps)?;
        return Ok(found);
    }
    Ok(false)
}

fn examine_blank<O: Oracle, L: Ledger>(
    alloc: Global,
    oracle: &mut O,
    graph: &GraphRef,
    node: &Term,
    known: &mut KnownCells,
    steps: &mut Steps<L>,
) -> Result<bool, Memory>
    requires graph { IsTrue (is_one_graph graph.now) }
    requires blank { IsTrue (is_blank node.now) }
    ensures examines { IfOk result (λ found.
        Hears (NearTo (O.quads oracle.old) node.now) (O.quads oracle.old) (O.told oracle.old)
        (O.told oracle.new) steps.old steps.new (λ dataset.
        Knows dataset graph.now known.old →
        IsExamined dataset graph.now known.new node.now found)) }
    ensures quads_stay { O.quads oracle.new ≡ O.quads oracle.old }
{
    let mut walked: Marks = BTreeSet::new(alloc);
    let ends = walk(alloc, oracle, graph, node, known, &mut walked, steps)?;
    if ends {
        mark_all(&mut known.proper, &mut walked)?;
        return Ok(true);
    }
    mark_all(&mut known.broken, &mut walked)?;
    Ok(false)
}

// Whether a term ends a list well: following `rdf:rest` from it through list nodes reaches
// `rdf:nil`, or a node that is known to be proper.
fn walk<O: Oracle, L: Ledger>(
    alloc: Global,
    oracle: &mut O,
    graph: &GraphRef,
    start: &Term,
    known: &KnownCells,
    walked: &mut Marks,
    steps: &mut Steps<L>,
) -> Result<bool, Memory>
    requires graph { IsTrue (is_one_graph graph.now) }
    requires empty { walked.old.keys ≡ [] }
    ensures walks { IfOk result (λ ends.
        Hears (NearTo (O.quads oracle.old) start.now) (O.quads oracle.old) (O.told oracle.old)
        (O.told oracle.new) steps.old steps.new (λ dataset.
        Knows dataset graph.now known.now →
        WalkTells dataset graph.now walked.new.keys start.now ends)) }
    ensures quads_stay { O.quads oracle.new ≡ O.quads oracle.old }
{
    let mut node = start.copy(alloc)?;
    'walk: loop {
        if is_nil(&node) {
            return Ok(true);
        }
        let ending = is_marked(&known.proper, &node);
        if ending {
            return Ok(true);
        }
        let broken = is_marked(&known.broken, &node);
        if broken {
            return Ok(false);
        }
        let ring = is_marked(walked, &node);
        if ring {
            return Ok(false);
        }
        let rest = shaped_rest(alloc, oracle, graph, &node, steps)?;
        match rest {
            Some(next) => {
                mark(alloc, walked, &node)?;
                node = next;
            }
            None => return Ok(false),
        }
    }
}
