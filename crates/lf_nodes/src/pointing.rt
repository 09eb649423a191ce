//! The keys that point at a node under a property.
ghost use Rattle.std.specs.Prelude.{◌≡◌, List, ℕ, ◌∷◌, [], ◌++◌, map, Some, IfOk, IsTrue, OnOk};
ghost use Rattle.std.specs.List.{filter};
ghost use Rattle.std.specs.Option.{option_copied};
ghost use Rattle.lf_rdf.specs.declared.question.GraphRef.{GraphRef as TheGraph};
ghost use Rattle.lf_rdf.specs.declared.term.Term.TheVariants.{Iri};
ghost use Rattle.lf_rdf.specs.Equality.{term_eq};
ghost use Rattle.lf_rdf.specs.Canonical.{id_of};
ghost use Rattle.def_datasets.specs.Sorted.{set_of};
ghost use Rattle.def_datasets.specs.Order.{id_cmp};
ghost use Rattle.def_datasets.specs.Terms.{graph_of, is_node};
ghost use Rattle.def_datasets.specs.Views.{pointing};
ghost use Rattle.lf_oracle.specs.Asking.{Learns};
ghost use Rattle.lf_oracle.specs.Nearby.{IsNearOne, IsPointing};
ghost use Rattle.lf_oracle.specs.NodeViews.{pointing_at};
ghost use Rattle.lf_lists.specs.Hearing.{Hears};
ghost use Rattle.lf_lists.specs.Learning.{NearTo};
ghost use Rattle.lf_nodes.specs.Pointing.{AnyLinkNear, LinkNear, NodeOrLinkNear, arrows, begins_plainly, first_quad, is_arrow, is_link, is_plain, is_referred, subject_test};

use crate::asking::quads_inward;
use crate::entries::is_type_quad;
use crate::home::graph_of;
use def_datasets::{is_node, lies_in};
use lf_base::{Memory, Same, Steps, Text, TryCopy};
use lf_lists::{is_cell, is_nil, quads_using, tells_item, tells_rest};
use lf_oracle::Oracle;
use lf_order::{ById, id_text, in_id_order};
use lf_rdf::{GraphRef, Quad, QuadList, Term, TermList, is_rdf_type};
use std::alloc::Global;
use std::sync::ledger::Ledger;

// Whether a quad tells the item or the rest of a list node.
fn is_link(quad: &Quad) -> bool
    ensures { result ≡ is_link quad.now }
{
    tells_item(quad) || tells_rest(quad)
}

// Whether a text begins as no id of a blank node does, and isn't empty.
fn begins_plainly(property: &[u8]) -> bool
    ensures { result ≡ begins_plainly property.now }
{
    match property {
        [] => false,
        [first, ..] => *first != b'_',
    }
}

// Whether only an IRI has this id, and another one than `rdf:type`.
fn is_plain(property: &Text) -> bool
    ensures { result ≡ is_plain property.now }
{
    begins_plainly(property.as_str().as_bytes()) && !is_rdf_type(property.as_str())
}

// Whether a quad of a list is one that may point.
fn is_arrow(graph: &GraphRef, property: &Text, id: &Text, node: &Term, quad: &Quad) -> bool
    requires id { id.now ≡ id_of quad.now.predicate }
    ensures { result ≡ is_arrow graph.now property.now node.now quad.now }
{
    lies_in(graph, quad) && !is_type_quad(quad) && property.is(id) && quad.object.is(node)
}

// A quad more, where it may point.
fn put_arrow(
    alloc: Global,
    found: &mut Vec<Quad>,
    graph: &GraphRef,
    property: &Text,
    node: &Term,
    quad: Quad,
) -> Result<(), Memory>
    ensures { OnOk result (found.new.items
        ≡ found.old.items ++ filter (is_arrow graph.now property.now node.now) (quad ∷ [])) }
{
    let id = id_text(alloc, &quad.predicate)?;
    if !is_arrow(graph, property, &id, node, &quad) {
        return Ok(());
    }
    found.push(quad)?;
    Ok(())
}

// The quads of a list that may point.
fn arrows_among(
    alloc: Global,
    graph: &GraphRef,
    property: &Text,
    node: &Term,
    quads: QuadList,
) -> Result<QuadList, Memory>
    ensures { IfOk result (λ found. found ≡ filter (is_arrow graph.now property.now node.now) quads) }
{
    let mut found = Vec::new(alloc);
    for quad in quads.into_vec() {
        put_arrow(alloc, &mut found, graph, property, node, quad)?;
    }
    Ok(QuadList::from_vec(found))
}

// The quads that may point at a node under a property, by one question.
fn arrows_to<O: Oracle, L: Ledger>(
    alloc: Global,
    oracle: &mut O,
    graph: &GraphRef,
    property: &Text,
    node: &Term,
    steps: &mut Steps<L>,
) -> Result<QuadList, Memory>
    requires node { IsTrue (is_node node.now) }
    ensures arrows { IfOk result (λ found.
        Learns (NearTo (O.quads oracle.old) node.now) (O.quads oracle.old) (O.told oracle.old)
        (O.told oracle.new) steps.old steps.new
        (λ dataset. arrows dataset graph.now property.now node.now) found) }
    ensures quads_stay { O.quads oracle.new ≡ O.quads oracle.old }
{
    if is_plain(property) {
        let predicate = Term::Iri(property.copy(alloc)?);
        let told = quads_inward(alloc, oracle, graph, &predicate, node, steps)?;
        return Ok(told);
    }
    let uses = quads_using(alloc, oracle, node, steps)?;
    let found = arrows_among(alloc, graph, property, node, uses)?;
    Ok(found)
}

// Whether a node's value in a graph is the reference to it.
fn is_referred<O: Oracle, L: Ledger>(
    alloc: Global,
    oracle: &mut O,
    quad: &Quad,
    node: &Term,
    steps: &mut Steps<L>,
) -> Result<bool, Memory>
    ensures refers { IfOk result (λ found.
        Learns (NearTo (O.quads oracle.old) node.now) (O.quads oracle.old) (O.told oracle.old)
        (O.told oracle.new) steps.old steps.new
        (λ dataset. is_referred dataset (graph_of quad.now) node.now) found) }
    ensures quads_stay { O.quads oracle.new ≡ O.quads oracle.old }
{
    if is_nil(node) {
        return Ok(false);
    }
    let graph = graph_of(alloc, quad)?;
    let cell = is_cell(alloc, oracle, &graph, node, steps)?;
    Ok(!cell)
}

// Whether the subject of a quad that tells no type is a key of the quad's graph. Only where the
// quad tells the item or the rest of a list node is anything asked.
fn subject_is_key<O: Oracle, L: Ledger>(
    alloc: Global,
    oracle: &mut O,
    quad: &Quad,
    steps: &mut Steps<L>,
) -> Result<bool, Memory>
    ensures key { IfOk result (λ found.
        Learns (LinkNear (O.quads oracle.old) quad.now) (O.quads oracle.old)
        (O.told oracle.old) (O.told oracle.new) steps.old steps.new
        (λ dataset. subject_test dataset quad.now) found) }
    ensures quads_stay { O.quads oracle.new ≡ O.quads oracle.old }
{
    if !is_node(&quad.subject) {
        return Ok(false);
    }
    if !is_link(quad) {
        return Ok(true);
    }
    let graph = graph_of(alloc, quad)?;
    let cell = is_cell(alloc, oracle, &graph, &quad.subject, steps)?;
    Ok(!cell)
}

// The subject of a quad more, where it is a key.
fn put_subject<O: Oracle, L: Ledger>(
    alloc: Global,
    oracle: &mut O,
    found: &mut Vec<ById>,
    quad: &Quad,
    steps: &mut Steps<L>,
) -> Result<(), Memory>
    ensures put { OnOk result (Hears (LinkNear (O.quads oracle.old) quad.now) (O.quads oracle.old)
        (O.told oracle.old) (O.told oracle.new) steps.old steps.new
        (λ dataset.
        found.new.items
        ≡ found.old.items
        ++ map (λ q. q.subject) (filter (subject_test dataset) (quad.now ∷ [])))) }
    ensures quads_stay { O.quads oracle.new ≡ O.quads oracle.old }
{
    let key = subject_is_key(alloc, oracle, quad, steps)?;
    if !key {
        return Ok(());
    }
    found.push(ById::of(alloc, &quad.subject)?)?;
    Ok(())
}

// The subjects of some quads that are keys, each once, in order of their ids.
fn subjects_of<O: Oracle, L: Ledger>(
    alloc: Global,
    oracle: &mut O,
    quads: &[Quad],
    steps: &mut Steps<L>,
) -> Result<TermList, Memory>
    ensures subjects { IfOk result (λ found.
        Hears (AnyLinkNear (O.quads oracle.old) quads.now) (O.quads oracle.old)
        (O.told oracle.old) (O.told oracle.new) steps.old steps.new
        (λ dataset.
        found
        ≡ set_of id_cmp (map (λ q. q.subject) (filter (subject_test dataset) quads.now)))) }
    ensures quads_stay { O.quads oracle.new ≡ O.quads oracle.old }
{
    let mut found = Vec::new(alloc);
    for quad in quads {
        put_subject(alloc, oracle, &mut found, quad, steps)?;
    }
    let subjects = in_id_order(alloc, found)?;
    Ok(subjects)
}

// The first of some quads.
fn first_quad(quads: &[Quad]) -> Option<&Quad>
    ensures { option_copied result ≡ first_quad quads.now }
{
    match quads {
        [first, ..] => Some(first),
        [] => None,
    }
}

// The keys that point at a node, by the quads that may point, of which this is the first.
fn pointing_from<O: Oracle, L: Ledger>(
    alloc: Global,
    oracle: &mut O,
    node: &Term,
    told: &[Quad],
    first: &Quad,
    steps: &mut Steps<L>,
) -> Result<TermList, Memory>
    requires node { IsTrue (is_node node.now) }
    requires first { Some first.now ≡ first_quad told.now }
    ensures keys { IfOk result (λ found.
        Hears (NodeOrLinkNear (O.quads oracle.old) node.now told.now) (O.quads oracle.old)
        (O.told oracle.old) (O.told oracle.new) steps.old steps.new
        (λ dataset.
        (g : TheGraph) (p : List ℕ) → told.now ≡ arrows dataset g p node.now →
        found ≡ pointing dataset g p node.now)) }
    ensures quads_stay { O.quads oracle.new ≡ O.quads oracle.old }
{
    let referred = is_referred(alloc, oracle, first, node, steps)?;
    if referred {
        let found = subjects_of(alloc, oracle, told, steps)?;
        return Ok(found);
    }
    Ok(TermList::new(alloc))
}

// The keys that point at a node, by the quads that may point.
fn pointing_among<O: Oracle, L: Ledger>(
    alloc: Global,
    oracle: &mut O,
    node: &Term,
    told: &[Quad],
    steps: &mut Steps<L>,
) -> Result<TermList, Memory>
    requires node { IsTrue (is_node node.now) }
    ensures keys { IfOk result (λ found.
        Hears (NodeOrLinkNear (O.quads oracle.old) node.now told.now) (O.quads oracle.old)
        (O.told oracle.old) (O.told oracle.new) steps.old steps.new
        (λ dataset.
        (g : TheGraph) (p : List ℕ) → told.now ≡ arrows dataset g p node.now →
        found ≡ pointing dataset g p node.now)) }
    ensures quads_stay { O.quads oracle.new ≡ O.quads oracle.old }
{
    match first_quad(told) {
        Some(first) => {
            let found = pointing_from(alloc, oracle, node, told, first, steps)?;
            Ok(found)
        }
        None => Ok(TermList::new(alloc)),
    }
}

/// The keys whose view in a graph has the reference to a node under a property, in order of their
/// ids. One question gives the quads that may point, another few tell whether the node is a cell,
/// and the subjects are tested only under `rdf:first` and `rdf:rest`.
fn pointing_to<O: Oracle, L: Ledger>(
    alloc: Global,
    oracle: &mut O,
    graph: &GraphRef,
    property: &Text,
    node: &Term,
    steps: &mut Steps<L>,
) -> Result<TermList, Memory>
    ensures keys { IfOk result (λ found.
        Learns (IsNearOne (O.quads oracle.old)
        (IsPointing (O.quads oracle.old) graph.now (Iri property.now) node.now))
        (O.quads oracle.old) (O.told oracle.old) (O.told oracle.new) steps.old steps.new
        (λ dataset. pointing dataset graph.now property.now node.now) found) }
    ensures quads_stay { O.quads oracle.new ≡ O.quads oracle.old }
{
    if !is_node(node) {
        return Ok(TermList::new(alloc));
    }
    let told = arrows_to(alloc, oracle, graph, property, node, steps)?;
    let found = pointing_among(alloc, oracle, node, told.as_slice(), steps)?;
    Ok(found)
}

/// The keys that point at a node under a property, which is an IRI.
pub fn pointing_by<O: Oracle, L: Ledger>(
    alloc: Global,
    oracle: &mut O,
    graph: &GraphRef,
    property: &Term,
    node: &Term,
    steps: &mut Steps<L>,
) -> Result<TermList, Memory>
    ensures keys { IfOk result (λ found.
        Learns (IsNearOne (O.quads oracle.old)
        (IsPointing (O.quads oracle.old) graph.now property.now node.now))
        (O.quads oracle.old) (O.told oracle.old) (O.told oracle.new) steps.old steps.new
        (λ dataset. pointing_at dataset graph.now property.now node.now) found) }
    ensures quads_stay { O.quads oracle.new ≡ O.quads oracle.old }
{
    match property {
        Term::Iri(iri) => {
            let found = pointing_to(alloc, oracle, graph, iri, node, steps)?;
            Ok(found)
        }
        Term::Blank(_) => Ok(TermList::new(alloc)),
        Term::Literal { .. } => Ok(TermList::new(alloc)),
    }
}
