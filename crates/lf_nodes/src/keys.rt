//! The keys of one graph, and the quads of a key.
ghost use Rattle.std.specs.Prelude.{◌≡◌, ◌||◌, ◌&&◌, not, IfOk, IsTrue};
ghost use Rattle.std.specs.List.{list_any};
ghost use Rattle.def_datasets.specs.Terms.{lies_in};
ghost use Rattle.def_datasets.specs.Views.{is_default, is_some_quad};
ghost use Rattle.lf_oracle.specs.Asking.{Learns, is_one_graph};
ghost use Rattle.lf_lists.specs.Learning.{NearTo};
ghost use Rattle.lf_nodes.specs.Keys.{key_quads, names_in, used_in};

use def_datasets::{is_node, lies_in};
use lf_base::{Memory, Steps};
use lf_lists::{is_cell, is_named, is_nil, quads_out, quads_using};
use lf_oracle::Oracle;
use lf_rdf::{GraphRef, Quad, QuadList, Term};
use std::alloc::Global;
use std::sync::ledger::Ledger;

/// Whether there is a quad.
pub(crate) fn has_quad(quads: &[Quad]) -> bool
    ensures { result ≡ is_some_quad quads.now }
{
    match quads {
        [] => false,
        [_, ..] => true,
    }
}

// Whether a graph is the default graph.
fn is_default(graph: &GraphRef) -> bool
    ensures { result ≡ is_default graph.now }
{
    match graph {
        GraphRef::Default => true,
        GraphRef::Named(_) => false,
        GraphRef::Merged => false,
    }
}

// Whether a quad of a list lies in a graph.
fn any_lies_in(graph: &GraphRef, quads: &[Quad]) -> bool
    ensures { result ≡ list_any (lies_in graph.now) quads.now }
{
    quads.iter().any(|quad| lies_in(graph, quad))
}

// Whether a node is the object of a quad of a graph that tells no type, and isn't `rdf:nil`, by up
// to one question.
fn is_used_in<O: Oracle, L: Ledger>(
    alloc: Global,
    oracle: &mut O,
    graph: &GraphRef,
    node: &Term,
    steps: &mut Steps<L>,
) -> Result<bool, Memory>
    ensures used { IfOk result (λ found.
        Learns (NearTo (O.quads oracle.old) node.now) (O.quads oracle.old) (O.told oracle.old)
        (O.told oracle.new) steps.old steps.new
        (λ dataset. used_in dataset graph.now node.now) found) }
    ensures quads_stay { O.quads oracle.new ≡ O.quads oracle.old }
{
    if is_nil(node) {
        return Ok(false);
    }
    let uses = quads_using(alloc, oracle, node, steps)?;
    Ok(any_lies_in(graph, uses.as_slice()))
}

// Whether a node names a graph, for the default graph; by up to one question.
fn is_name_in<O: Oracle, L: Ledger>(
    alloc: Global,
    oracle: &mut O,
    graph: &GraphRef,
    node: &Term,
    steps: &mut Steps<L>,
) -> Result<bool, Memory>
    ensures names { IfOk result (λ found.
        Learns (NearTo (O.quads oracle.old) node.now) (O.quads oracle.old) (O.told oracle.old)
        (O.told oracle.new) steps.old steps.new
        (λ dataset. names_in dataset graph.now node.now) found) }
    ensures quads_stay { O.quads oracle.new ≡ O.quads oracle.old }
{
    if !is_default(graph) {
        return Ok(false);
    }
    is_named(alloc, oracle, node, steps)
}

/// Whether a node that has no quads of its own in a graph, and isn't a cell there, is a key of it,
/// by up to two questions.
pub(crate) fn is_key_by_others<O: Oracle, L: Ledger>(
    alloc: Global,
    oracle: &mut O,
    graph: &GraphRef,
    node: &Term,
    steps: &mut Steps<L>,
) -> Result<bool, Memory>
    ensures key { IfOk result (λ found.
        Learns (NearTo (O.quads oracle.old) node.now) (O.quads oracle.old) (O.told oracle.old)
        (O.told oracle.new) steps.old steps.new
        (λ dataset. used_in dataset graph.now node.now || names_in dataset graph.now node.now)
        found) }
    ensures quads_stay { O.quads oracle.new ≡ O.quads oracle.old }
{
    let used = is_used_in(alloc, oracle, graph, node, steps)?;
    if used {
        return Ok(true);
    }
    let names = is_name_in(alloc, oracle, graph, node, steps)?;
    Ok(names)
}

/// The quads of a key of one graph, and none where the node is no key there. The graph isn't the
/// merged one. Up to three questions are asked, beside those for a cell.
pub(crate) fn quads_of_key<O: Oracle, L: Ledger>(
    alloc: Global,
    oracle: &mut O,
    graph: &GraphRef,
    node: &Term,
    steps: &mut Steps<L>,
) -> Result<Option<QuadList>, Memory>
    requires graph { IsTrue (is_one_graph graph.now) }
    ensures quads { IfOk result (λ found.
        Learns (NearTo (O.quads oracle.old) node.now) (O.quads oracle.old) (O.told oracle.old)
        (O.told oracle.new) steps.old steps.new
        (λ dataset. key_quads dataset graph.now node.now) found) }
    ensures quads_stay { O.quads oracle.new ≡ O.quads oracle.old }
{
    if !is_node(node) {
        return Ok(None);
    }
    let cell = is_cell(alloc, oracle, graph, node, steps)?;
    if cell {
        return Ok(None);
    }
    let told = quads_out(alloc, oracle, graph, node, steps)?;
    if has_quad(told.as_slice()) {
        return Ok(Some(told));
    }
    let seen = is_key_by_others(alloc, oracle, graph, node, steps)?;
    if seen {
        return Ok(Some(told));
    }
    Ok(None)
}
