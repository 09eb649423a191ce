//! The keys of a graph, in order of their ids.
ghost use Rattle.std.specs.Prelude.{◌≡◌, ◌++◌, is_some, IfOk, IsTrue, OnOk};
ghost use Rattle.std.specs.List.{flat_map};
ghost use Rattle.lf_rdf.specs.declared.question.GraphRef.TheVariants.{Default, Merged, Named};
ghost use Rattle.def_datasets.specs.Questions.{members};
ghost use Rattle.def_datasets.specs.Views.{is_key, keys};
ghost use Rattle.lf_oracle.specs.Asking.{Learns, is_one_graph};
ghost use Rattle.lf_oracle.specs.Nearby.{IsNearMembers};
ghost use Rattle.lf_lists.specs.Hearing.{Hears};
ghost use Rattle.lf_lists.specs.Known.{Knows};
ghost use Rattle.lf_lists.specs.Learning.{NearTo};
ghost use Rattle.lf_nodes.specs.Among.{IsAmong, IsPut};
ghost use Rattle.lf_nodes.specs.Pointing.{named_keys};

use crate::asking::nodes_in;
use crate::keys::quads_of_key;
use def_datasets::is_node;
use lf_base::{Memory, Steps, TryCopy};
use lf_lists::{KnownCells, is_named, is_nil};
use lf_oracle::Oracle;
use lf_order::{ById, in_id_order};
use lf_rdf::{GraphRef, QuadList, Term, TermList};
use std::alloc::Global;
use std::sync::ledger::Ledger;

// Whether the quads of a key were found.
fn is_found(told: &Option<QuadList>) -> bool
    ensures { result ≡ is_some told.now }
{
    match told {
        Some(_) => true,
        None => false,
    }
}

// Whether `rdf:nil`, or another node, is a key of a graph, by all that makes a key.
fn has_key_quads<O: Oracle, L: Ledger>(
    alloc: Global,
    oracle: &mut O,
    graph: &GraphRef,
    node: &Term,
    steps: &mut Steps<L>,
) -> Result<bool, Memory>
    requires graph { IsTrue (is_one_graph graph.now) }
    ensures key { IfOk result (λ found.
        Learns (NearTo (O.quads oracle.old) node.now) (O.quads oracle.old) (O.told oracle.old)
        (O.told oracle.new) steps.old steps.new (λ dataset. is_key dataset graph.now node.now)
        found) }
    ensures quads_stay { O.quads oracle.new ≡ O.quads oracle.old }
{
    let told = quads_of_key(alloc, oracle, graph, node, steps)?;
    Ok(is_found(&told))
}

// Whether a node of a graph is a key of it. Of an IRI other than `rdf:nil` nothing is asked.
fn is_key_among<O: Oracle, L: Ledger>(
    alloc: Global,
    oracle: &mut O,
    graph: &GraphRef,
    node: &Term,
    known: &mut KnownCells,
    steps: &mut Steps<L>,
) -> Result<bool, Memory>
    requires graph { IsTrue (is_one_graph graph.now) }
    requires knows { Knows (O.quads oracle.old) graph.now known.old }
    ensures key { IfOk result (λ found.
        Hears (NearTo (O.quads oracle.old) node.now) (O.quads oracle.old) (O.told oracle.old)
        (O.told oracle.new) steps.old steps.new (λ dataset.
        Knows dataset graph.now known.old →
        IsAmong dataset graph.now known.new node.now found)) }
    ensures quads_stay { O.quads oracle.new ≡ O.quads oracle.old }
{
    if !is_node(node) {
        return Ok(false);
    }
    if is_nil(node) {
        let found = has_key_quads(alloc, oracle, graph, node, steps)?;
        return Ok(found);
    }
    let cell = known.is_cell(alloc, oracle, graph, node, steps)?;
    Ok(!cell)
}

// A node of a graph more, where it is a key.
fn put_key<O: Oracle, L: Ledger>(
    alloc: Global,
    oracle: &mut O,
    graph: &GraphRef,
    node: &Term,
    known: &mut KnownCells,
    found: &mut TermList,
    steps: &mut Steps<L>,
) -> Result<(), Memory>
    requires graph { IsTrue (is_one_graph graph.now) }
    requires knows { Knows (O.quads oracle.old) graph.now known.old }
    ensures put { OnOk result (Hears (NearTo (O.quads oracle.old) node.now) (O.quads oracle.old)
        (O.told oracle.old) (O.told oracle.new) steps.old steps.new
        (λ dataset.
        Knows dataset graph.now known.old →
        IsPut dataset graph.now known.new node.now found.old found.new)) }
    ensures quads_stay { O.quads oracle.new ≡ O.quads oracle.old }
{
    let key = is_key_among(alloc, oracle, graph, node, known, steps)?;
    if !key {
        return Ok(());
    }
    found.push(node.copy(alloc)?)?;
    Ok(())
}

// The keys among the nodes of a graph, behind others.
fn put_keys<O: Oracle, L: Ledger>(
    alloc: Global,
    oracle: &mut O,
    graph: &GraphRef,
    nodes: &[Term],
    found: &mut TermList,
    steps: &mut Steps<L>,
) -> Result<(), Memory>
    requires graph { IsTrue (is_one_graph graph.now) }
    requires nodes { nodes.now ≡ members (O.quads oracle.old) graph.now }
    ensures put { OnOk result (Hears (IsNearMembers (O.quads oracle.old) graph.now) (O.quads oracle.old)
        (O.told oracle.old) (O.told oracle.new) steps.old steps.new
        (λ dataset.
        nodes.now ≡ members dataset graph.now →
        found.new ≡ found.old ++ keys dataset graph.now)) }
    ensures quads_stay { O.quads oracle.new ≡ O.quads oracle.old }
{
    let mut known = KnownCells::new(alloc);
    for node in nodes {
        put_key(alloc, oracle, graph, node, &mut known, found, steps)?;
    }
    Ok(())
}

// The keys of one graph, behind others.
fn put_keys_of<O: Oracle, L: Ledger>(
    alloc: Global,
    oracle: &mut O,
    graph: &GraphRef,
    found: &mut TermList,
    steps: &mut Steps<L>,
) -> Result<(), Memory>
    requires graph { IsTrue (is_one_graph graph.now) }
    ensures put { OnOk result (Hears (IsNearMembers (O.quads oracle.old) graph.now) (O.quads oracle.old)
        (O.told oracle.old) (O.told oracle.new) steps.old steps.new
        (λ dataset. found.new ≡ found.old ++ keys dataset graph.now)) }
    ensures quads_stay { O.quads oracle.new ≡ O.quads oracle.old }
{
    let nodes = nodes_in(alloc, oracle, graph, steps)?;
    put_keys(alloc, oracle, graph, nodes.as_slice(), found, steps)?;
    Ok(())
}

// The keys of one graph.
fn keys_of<O: Oracle, L: Ledger>(
    alloc: Global,
    oracle: &mut O,
    graph: &GraphRef,
    steps: &mut Steps<L>,
) -> Result<TermList, Memory>
    requires graph { IsTrue (is_one_graph graph.now) }
    ensures keys { IfOk result (λ found.
        Learns (IsNearMembers (O.quads oracle.old) graph.now) (O.quads oracle.old)
        (O.told oracle.old) (O.told oracle.new) steps.old steps.new
        (λ dataset. keys dataset graph.now) found) }
    ensures quads_stay { O.quads oracle.new ≡ O.quads oracle.old }
{
    let mut found = TermList::new(alloc);
    put_keys_of(alloc, oracle, graph, &mut found, steps)?;
    Ok(found)
}

// The keys of the graph of a name, behind others, where the name has one.
fn put_named_keys<O: Oracle, L: Ledger>(
    alloc: Global,
    oracle: &mut O,
    name: &Term,
    found: &mut TermList,
    steps: &mut Steps<L>,
) -> Result<(), Memory>
    ensures put { OnOk result (Hears (IsNearMembers (O.quads oracle.old) Merged) (O.quads oracle.old)
        (O.told oracle.old) (O.told oracle.new) steps.old steps.new
        (λ dataset. found.new ≡ found.old ++ named_keys dataset name.now)) }
    ensures quads_stay { O.quads oracle.new ≡ O.quads oracle.old }
{
    let is = is_named(alloc, oracle, name, steps)?;
    if !is {
        return Ok(());
    }
    let graph = GraphRef::Named(name.copy(alloc)?);
    put_keys_of(alloc, oracle, &graph, found, steps)?;
    Ok(())
}

// The keys of the graphs of some names.
fn all_named_keys<O: Oracle, L: Ledger>(
    alloc: Global,
    oracle: &mut O,
    names: &[Term],
    found: &mut TermList,
    steps: &mut Steps<L>,
) -> Result<(), Memory>
    ensures put { OnOk result (Hears (IsNearMembers (O.quads oracle.old) Merged) (O.quads oracle.old)
        (O.told oracle.old) (O.told oracle.new) steps.old steps.new
        (λ dataset. found.new ≡ found.old ++ flat_map (named_keys dataset) names.now)) }
    ensures quads_stay { O.quads oracle.new ≡ O.quads oracle.old }
{
    for name in names {
        put_named_keys(alloc, oracle, name, found, steps)?;
    }
    Ok(())
}

// The terms with their ids.
fn by_ids(alloc: Global, terms: &[Term]) -> Result<Vec<ById>, Memory>
    ensures { IfOk result (λ found. found.items ≡ terms.now) }
{
    let mut found = Vec::with_capacity(alloc, terms.len())?;
    for term in terms {
        found.push(ById::of(alloc, term)?)?;
    }
    Ok(found)
}

// The keys of all graphs, one graph after the other.
fn keys_of_all<O: Oracle, L: Ledger>(
    alloc: Global,
    oracle: &mut O,
    steps: &mut Steps<L>,
) -> Result<TermList, Memory>
    ensures keys { IfOk result (λ found.
        Hears (IsNearMembers (O.quads oracle.old) Merged) (O.quads oracle.old)
        (O.told oracle.old) (O.told oracle.new) steps.old steps.new
        (λ dataset.
        found
        ≡ keys dataset Default ++ flat_map (named_keys dataset) (members dataset Default))) }
    ensures quads_stay { O.quads oracle.new ≡ O.quads oracle.old }
{
    let nodes = nodes_in(alloc, oracle, &GraphRef::Default, steps)?;
    let mut found = TermList::new(alloc);
    put_keys(
        alloc,
        oracle,
        &GraphRef::Default,
        nodes.as_slice(),
        &mut found,
        steps,
    )?;
    all_named_keys(alloc, oracle, nodes.as_slice(), &mut found, steps)?;
    Ok(found)
}

// The keys of the merged graph: those of all graphs.
fn merged_keys<O: Oracle, L: Ledger>(
    alloc: Global,
    oracle: &mut O,
    steps: &mut Steps<L>,
) -> Result<TermList, Memory>
    ensures keys { IfOk result (λ found.
        Learns (IsNearMembers (O.quads oracle.old) Merged) (O.quads oracle.old)
        (O.told oracle.old) (O.told oracle.new) steps.old steps.new
        (λ dataset. keys dataset Merged) found) }
    ensures quads_stay { O.quads oracle.new ≡ O.quads oracle.old }
{
    let all = keys_of_all(alloc, oracle, steps)?;
    let by_id = by_ids(alloc, all.as_slice())?;
    let found = in_id_order(alloc, by_id)?;
    Ok(found)
}

/// The keys of a graph, in order of their ids. One question gives its nodes; of a blank node a few
/// more tell whether it is a cell. For the merged graph each node of the default graph is asked
/// whether it names a graph.
pub fn members_of<O: Oracle, L: Ledger>(
    alloc: Global,
    oracle: &mut O,
    graph: &GraphRef,
    steps: &mut Steps<L>,
) -> Result<TermList, Memory>
    ensures keys { IfOk result (λ found.
        Learns (IsNearMembers (O.quads oracle.old) graph.now) (O.quads oracle.old)
        (O.told oracle.old) (O.told oracle.new) steps.old steps.new
        (λ dataset. keys dataset graph.now) found) }
    ensures quads_stay { O.quads oracle.new ≡ O.quads oracle.old }
{
    match graph {
        GraphRef::Default => keys_of(alloc, oracle, graph, steps),
        GraphRef::Named(_) => keys_of(alloc, oracle, graph, steps),
        GraphRef::Merged => merged_keys(alloc, oracle, steps),
    }
}
