//! The one graph in which a node is a cell.
ghost use Rattle.std.specs.Prelude.{◌≡◌, [], ◌∷◌, IfOk};
ghost use Rattle.std.specs.Option.{option_copied};
ghost use Rattle.def_datasets.specs.Terms.{graph_of, uses};
ghost use Rattle.lf_lists.specs.Hearing.{Hears};
ghost use Rattle.lf_lists.specs.Learning.{NearTo};
ghost use Rattle.lf_nodes.specs.Keys.{IsHome, at_home, only_quad};

use def_datasets::{is_blank, lies_in};
use lf_base::{Memory, Steps, TryCopy};
use lf_lists::{is_cell, quads_using};
use lf_oracle::Oracle;
use lf_rdf::{GraphRef, Quad, Term};
use std::alloc::Global;
use std::sync::ledger::Ledger;

/// The graph that a quad lies in.
pub(crate) fn graph_of(alloc: Global, quad: &Quad) -> Result<GraphRef, Memory>
    ensures { IfOk result (λ graph. graph ≡ graph_of quad.now) }
{
    match &quad.graph {
        Some(name) => Ok(GraphRef::Named(name.copy(alloc)?)),
        None => Ok(GraphRef::Default),
    }
}

/// Whether a quad lies in the graph in which a node is a cell.
pub(crate) fn at_home(home: &Option<GraphRef>, quad: &Quad) -> bool
    ensures { result ≡ at_home home.now quad.now }
{
    match home {
        Some(graph) => lies_in(graph, quad),
        None => false,
    }
}

// The one quad of a list.
fn only_quad(quads: &[Quad]) -> Option<&Quad>
    ensures { option_copied result ≡ only_quad quads.now }
{
    match quads {
        [one] => Some(one),
        _ => None,
    }
}

/// The graph in which a node is a cell, if there is one. A cell is used once in all graphs, so no
/// other graph comes into question. Of an IRI nothing is asked; of a blank node its uses, and where
/// there is just one, whether the node is a cell of that graph.
pub(crate) fn home_of<O: Oracle, L: Ledger>(
    alloc: Global,
    oracle: &mut O,
    node: &Term,
    steps: &mut Steps<L>,
) -> Result<Option<GraphRef>, Memory>
    ensures home { IfOk result (λ found.
        Hears (NearTo (O.quads oracle.old) node.now) (O.quads oracle.old) (O.told oracle.old)
        (O.told oracle.new) steps.old steps.new (λ dataset. IsHome dataset node.now found)) }
    ensures quads_stay { O.quads oracle.new ≡ O.quads oracle.old }
{
    if !is_blank(node) {
        return Ok(None);
    }
    let uses = quads_using(alloc, oracle, node, steps)?;
    match only_quad(uses.as_slice()) {
        Some(one) => {
            let home = home_by(alloc, oracle, node, one, steps)?;
            Ok(home)
        }
        None => Ok(None),
    }
}

// The graph of a node's only use, where the node is a cell of it.
fn home_by<O: Oracle, L: Ledger>(
    alloc: Global,
    oracle: &mut O,
    node: &Term,
    one: &Quad,
    steps: &mut Steps<L>,
) -> Result<Option<GraphRef>, Memory>
    ensures home { IfOk result (λ found.
        Hears (NearTo (O.quads oracle.old) node.now) (O.quads oracle.old) (O.told oracle.old)
        (O.told oracle.new) steps.old steps.new
        (λ dataset. uses dataset node.now ≡ one.now ∷ [] → IsHome dataset node.now found)) }
    ensures quads_stay { O.quads oracle.new ≡ O.quads oracle.old }
{
    let graph = graph_of(alloc, one)?;
    let cell = is_cell(alloc, oracle, &graph, node, steps)?;
    if cell {
        return Ok(Some(graph));
    }
    Ok(None)
}
