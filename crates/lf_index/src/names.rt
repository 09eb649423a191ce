//! The labels of the graphs that have quads.
ghost use Rattle.std.specs.Prelude.{◌≡◌, ◌++◌, IfOk, OnOk};
ghost use Rattle.lf_rdf.specs.declared.question.GraphRef.TheVariants.{Named};
ghost use Rattle.def_datasets.specs.Terms.{lies_in};
ghost use Rattle.def_datasets.specs.Questions.{named};
ghost use Rattle.lf_ptree.specs.Pairs.{keys};
ghost use Rattle.lf_index.specs.Indexed.{names_for, with_label, without_label};

use crate::by_graph::ByGraph;
use crate::low::lowest_graph;
use crate::row::Row;
use crate::scan::Keyed;
use crate::shared::Shared;
use lf_base::{Memory, Same};
use lf_ptree::PMap;
use lf_rdf::{GraphRef, Term};
use std::alloc::Global;

/// The names with the label of a row.
pub fn with_name(
    alloc: Global,
    names: &PMap<Shared, ()>,
    row: &Row,
) -> Result<PMap<Shared, ()>, Memory>
    ensures { IfOk result (λ made. made ≡ with_label row.now.graph names.now) }
{
    match &row.graph {
        Some(name) => names.insert(alloc, name.share()?, ()),
        None => names.share(alloc),
    }
}

/// The names without the label of a row, unless a quad still has it.
pub fn without_name(
    alloc: Global,
    names: &PMap<Shared, ()>,
    by_graph: &PMap<ByGraph, ()>,
    row: &Row,
) -> Result<PMap<Shared, ()>, Memory>
    ensures { IfOk result (λ made. made ≡ without_label row.now.graph (keys by_graph.now) names.now) }
{
    match &row.graph {
        Some(name) => {
            if is_named(alloc, by_graph, name.term())? {
                names.share(alloc)
            } else {
                names.remove(alloc, name)
            }
        }
        None => names.share(alloc),
    }
}

// Whether a row lies in the graph of a name: the first row of that graph or behind it tells.
fn is_named(alloc: Global, by_graph: &PMap<ByGraph, ()>, name: &Term) -> Result<bool, Memory>
    ensures { IfOk result (λ is. is ≡ named (keys by_graph.now) name.now) }
{
    by_graph.ascends();
    let low = lowest_graph(alloc, Some(name))?;
    match by_graph.from(&low).next() {
        Some(pair) => Ok(has_label(pair.0.row(), name)),
        None => Ok(false),
    }
}

// Whether a row has a label.
fn has_label(row: &Row, name: &Term) -> bool
    ensures { result ≡ lies_in (Named name.now) row.now }
{
    match &row.graph {
        Some(label) => name.is(label.term()),
        None => false,
    }
}

/// The names that belong to a graph, behind other terms.
pub fn put_names(
    found: &mut Vec<Shared>,
    names: &PMap<Shared, ()>,
    graph: &GraphRef,
) -> Result<(), Memory>
    ensures { OnOk result (found.new.items ≡ found.old.items ++ names_for graph.now (keys names.now)) }
{
    match graph {
        GraphRef::Default => put_all_names(found, names),
        GraphRef::Named(_) => Ok(()),
        GraphRef::Merged => put_all_names(found, names),
    }
}

fn put_all_names(found: &mut Vec<Shared>, names: &PMap<Shared, ()>) -> Result<(), Memory>
    ensures { OnOk result (found.new.items ≡ found.old.items ++ keys names.now) }
{
    for pair in names.iter() {
        found.push(pair.0.share()?)?;
    }
    Ok(())
}
