//! The keys of the merged graph, and the quads of a key.
ghost use Rattle.std.specs.Prelude.{◌≡◌, ◌||◌, not, IfOk, IsTrue};
ghost use Rattle.std.specs.List.{filter, list_any};
ghost use Rattle.lf_rdf.specs.declared.question.GraphRef.TheVariants.{Merged};
ghost use Rattle.def_datasets.specs.Questions.{named, out_any};
ghost use Rattle.def_datasets.specs.Terms.{is_node};
ghost use Rattle.lf_oracle.specs.Asking.{Learns};
ghost use Rattle.lf_lists.specs.Hearing.{Hears};
ghost use Rattle.lf_lists.specs.Learning.{NearTo};
ghost use Rattle.lf_nodes.specs.Keys.{IsHome, away, key_quads, used_away};

use crate::asking::quads_of_subject;
use crate::home::{at_home, home_of};
use crate::keys::has_quad;
use def_datasets::is_node;
use lf_base::{Memory, Steps};
use lf_lists::{is_named, is_nil, quads_using};
use lf_oracle::Oracle;
use lf_rdf::{GraphRef, Quad, QuadList, Term};
use std::alloc::Global;
use std::sync::ledger::Ledger;

// Whether a quad lies elsewhere than in the graph in which a node is a cell.
fn is_away(home: &Option<GraphRef>, quad: &Quad) -> bool
    ensures { result ≡ away home.now quad.now }
{
    !at_home(home, quad)
}

// The quads that lie elsewhere than in the graph in which a node is a cell.
fn quads_away(home: &Option<GraphRef>, quads: QuadList) -> QuadList
    ensures { result ≡ filter (away home.now) quads }
{
    let mut kept = quads.into_vec();
    kept.retain(|quad| is_away(home, quad));
    QuadList::from_vec(kept)
}

// Whether one of the quads does.
fn any_away(home: &Option<GraphRef>, quads: &[Quad]) -> bool
    ensures { result ≡ list_any (away home.now) quads.now }
{
    quads.iter().any(|quad| is_away(home, quad))
}

// Whether a node is used elsewhere than where it is a cell, and isn't `rdf:nil`; by up to one
// question.
fn is_used_away<O: Oracle, L: Ledger>(
    alloc: Global,
    oracle: &mut O,
    home: &Option<GraphRef>,
    node: &Term,
    steps: &mut Steps<L>,
) -> Result<bool, Memory>
    ensures used { IfOk result (λ found.
        Learns (NearTo (O.quads oracle.old) node.now) (O.quads oracle.old) (O.told oracle.old)
        (O.told oracle.new) steps.old steps.new
        (λ dataset. used_away dataset home.now node.now) found) }
    ensures quads_stay { O.quads oracle.new ≡ O.quads oracle.old }
{
    if is_nil(node) {
        return Ok(false);
    }
    let uses = quads_using(alloc, oracle, node, steps)?;
    Ok(any_away(home, uses.as_slice()))
}

// Whether a node that has no quads of its own, but where it is a cell, is a key of the merged
// graph; by up to two questions.
fn is_key_by_others<O: Oracle, L: Ledger>(
    alloc: Global,
    oracle: &mut O,
    home: &Option<GraphRef>,
    node: &Term,
    steps: &mut Steps<L>,
) -> Result<bool, Memory>
    ensures key { IfOk result (λ found.
        Learns (NearTo (O.quads oracle.old) node.now) (O.quads oracle.old) (O.told oracle.old)
        (O.told oracle.new) steps.old steps.new
        (λ dataset. named dataset node.now || used_away dataset home.now node.now) found) }
    ensures quads_stay { O.quads oracle.new ≡ O.quads oracle.old }
{
    let names = is_named(alloc, oracle, node, steps)?;
    if names {
        return Ok(true);
    }
    let used = is_used_away(alloc, oracle, home, node, steps)?;
    Ok(used)
}

/// The quads of a key of the merged graph, and none where the node is no key. Up to four questions
/// are asked, beside those for a cell.
pub(crate) fn merged_quads<O: Oracle, L: Ledger>(
    alloc: Global,
    oracle: &mut O,
    node: &Term,
    steps: &mut Steps<L>,
) -> Result<Option<QuadList>, Memory>
    ensures quads { IfOk result (λ found.
        Learns (NearTo (O.quads oracle.old) node.now) (O.quads oracle.old) (O.told oracle.old)
        (O.told oracle.new) steps.old steps.new (λ dataset. key_quads dataset Merged node.now)
        found) }
    ensures quads_stay { O.quads oracle.new ≡ O.quads oracle.old }
{
    if !is_node(node) {
        return Ok(None);
    }
    let told = quads_of_subject(alloc, oracle, node, steps)?;
    let found = merged_among(alloc, oracle, node, told, steps)?;
    Ok(found)
}

// The quads of a key of the merged graph among all quads of a node.
fn merged_among<O: Oracle, L: Ledger>(
    alloc: Global,
    oracle: &mut O,
    node: &Term,
    told: QuadList,
    steps: &mut Steps<L>,
) -> Result<Option<QuadList>, Memory>
    requires node { IsTrue (is_node node.now) }
    ensures quads { IfOk result (λ found.
        Hears (NearTo (O.quads oracle.old) node.now) (O.quads oracle.old) (O.told oracle.old)
        (O.told oracle.new) steps.old steps.new (λ dataset.
        told ≡ out_any dataset node.now → found ≡ key_quads dataset Merged node.now)) }
    ensures quads_stay { O.quads oracle.new ≡ O.quads oracle.old }
{
    let home = home_of(alloc, oracle, node, steps)?;
    let kept = quads_away(&home, told);
    if has_quad(kept.as_slice()) {
        return Ok(Some(kept));
    }
    let seen = is_key_by_others(alloc, oracle, &home, node, steps)?;
    if seen {
        return Ok(Some(kept));
    }
    Ok(None)
}
