//! The members of a graph, in order of their ids.
ghost use Rattle.std.specs.Prelude.{◌≡◌, ◌∷◌, [], IfOk, OnOk};
ghost use Rattle.std.specs.List.{filter, flat_map};
ghost use Rattle.def_datasets.specs.Sorted.{put_all};
ghost use Rattle.def_datasets.specs.Order.{id_cmp};
ghost use Rattle.def_datasets.specs.Terms.{is_node, label_terms, names, triples};
ghost use Rattle.def_datasets.specs.Questions.{members, names_in, nodes_in};

use crate::order::put_term;
use def_datasets::{is_node, lies_in, tells_type};
use lf_base::Memory;
use lf_rdf::{GraphRef, Quad, Term, TermList};
use std::alloc::Global;

/// The nodes of the quads of a graph and the names that belong to it, each once.
pub(crate) fn members(alloc: Global, quads: &[Quad], graph: &GraphRef) -> Result<TermList, Memory>
    ensures { IfOk result (λ found. found ≡ members quads.now graph.now) }
{
    let mut found = Vec::new(alloc);
    put_nodes(alloc, &mut found, quads, graph)?;
    put_names(alloc, &mut found, quads, graph)?;
    Ok(TermList::from_vec(found))
}

// The nodes of the quads of a graph.
fn put_nodes(
    alloc: Global,
    found: &mut Vec<Term>,
    quads: &[Quad],
    graph: &GraphRef,
) -> Result<(), Memory>
    ensures { OnOk result (found.new.items
        ≡ put_all id_cmp found.old.items (flat_map nodes_in (triples quads.now graph.now))) }
{
    for quad in quads {
        if lies_in(graph, quad) {
            put_nodes_of(alloc, found, quad)?;
        }
    }
    Ok(())
}

// The nodes that a quad puts into its graph.
fn put_nodes_of(alloc: Global, found: &mut Vec<Term>, quad: &Quad) -> Result<(), Memory>
    ensures { OnOk result (found.new.items ≡ put_all id_cmp found.old.items (nodes_in quad.now)) }
{
    put_node(alloc, found, &quad.subject)?;
    if tells_type(quad) {
        return Ok(());
    }
    put_node(alloc, found, &quad.object)
}

// A term, where it is a node.
fn put_node(alloc: Global, found: &mut Vec<Term>, term: &Term) -> Result<(), Memory>
    ensures { OnOk result
        (found.new.items ≡ put_all id_cmp found.old.items (filter is_node (term.now ∷ []))) }
{
    if is_node(term) {
        return put_term(alloc, found, term);
    }
    Ok(())
}

// The names that belong to a graph.
fn put_names(
    alloc: Global,
    found: &mut Vec<Term>,
    quads: &[Quad],
    graph: &GraphRef,
) -> Result<(), Memory>
    ensures { OnOk result
        (found.new.items ≡ put_all id_cmp found.old.items (names_in quads.now graph.now)) }
{
    match graph {
        GraphRef::Default => put_terms(alloc, found, names(alloc, quads)?.as_slice()),
        GraphRef::Named(_) => Ok(()),
        GraphRef::Merged => put_terms(alloc, found, names(alloc, quads)?.as_slice()),
    }
}

// The names of all graphs, each once.
fn names(alloc: Global, quads: &[Quad]) -> Result<TermList, Memory>
    ensures { IfOk result (λ found. found ≡ names quads.now) }
{
    let mut found = Vec::new(alloc);
    put_labels(alloc, &mut found, quads)?;
    Ok(TermList::from_vec(found))
}

// The graph labels of some quads.
fn put_labels(alloc: Global, found: &mut Vec<Term>, quads: &[Quad]) -> Result<(), Memory>
    ensures { OnOk result (found.new.items
        ≡ put_all id_cmp found.old.items (flat_map (λ q. label_terms q.graph) quads.now)) }
{
    for quad in quads {
        if let Some(name) = &quad.graph {
            put_term(alloc, found, name)?;
        }
    }
    Ok(())
}

// Several terms, one after the other.
fn put_terms(alloc: Global, found: &mut Vec<Term>, terms: &[Term]) -> Result<(), Memory>
    ensures { OnOk result (found.new.items ≡ put_all id_cmp found.old.items terms.now) }
{
    for term in terms {
        put_term(alloc, found, term)?;
    }
    Ok(())
}
