//! The terms of the quads.
ghost use Rattle.std.specs.Prelude.{◌≡◌, ◌∷◌, ◌++◌, IfOk, OnOk};
ghost use Rattle.std.specs.List.{filter, flat_map};
ghost use Rattle.def_datasets.specs.Terms.{is_node, label_terms, terms};
ghost use Rattle.lf_ptree.specs.Pairs.{keys};

use crate::by_subject::BySubject;
use crate::index::Index;
use crate::nodes::{each_in_id_order, put_node};
use crate::row::Row;
use crate::scan::Keyed;
use crate::shared::Shared;
use lf_base::Memory;
use lf_ptree::PMap;
use lf_rdf::TermList;
use std::alloc::Global;

impl Index {
    /// The IRIs and blank nodes that are subject, object or graph label of a quad, in order of
    /// their ids. It asks no question, and takes n log n comparisons of ids for n quads.
    pub fn terms(&self, alloc: Global) -> Result<TermList, Memory>
        ensures { IfOk result (λ found. found ≡ terms self.now) }
    {
        each_in_id_order(alloc, nodes_of(alloc, &self.by_subject)?)
    }
}

// The nodes of each quad.
fn nodes_of(alloc: Global, by_subject: &PMap<BySubject, ()>) -> Result<Vec<Shared>, Memory>
    ensures { IfOk result (λ found.
        found.items
        ≡ filter is_node
        (flat_map (λ q. q.subject ∷ q.object ∷ label_terms q.graph) (keys by_subject.now))) }
{
    let mut found = Vec::new(alloc);
    for pair in by_subject.iter() {
        put_terms(&mut found, pair.0.row())?;
    }
    Ok(found)
}

// The nodes of a quad.
fn put_terms(found: &mut Vec<Shared>, row: &Row) -> Result<(), Memory>
    ensures { OnOk result (found.new.items
        ≡ found.old.items
        ++ filter is_node (row.now.subject ∷ row.now.object ∷ label_terms row.now.graph)) }
{
    put_node(found, &row.subject)?;
    put_node(found, &row.object)?;
    match &row.graph {
        Some(name) => put_node(found, name),
        None => Ok(()),
    }
}
