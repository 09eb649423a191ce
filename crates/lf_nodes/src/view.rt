//! The view of a node: its types, and its properties with their values.
ghost use Rattle.std.specs.Prelude.{◌≡◌, ◌∷◌, [], ◌++◌, map, IfOk, OnOk};
ghost use Rattle.std.specs.List.{filter};
ghost use Rattle.std.specs.Option.{option_map};
ghost use Rattle.def_datasets.specs.Questions.{answers_of};
ghost use Rattle.def_datasets.specs.Cells.{enough};
ghost use Rattle.def_datasets.specs.Views.{is_type_quad, types_in, view_from, view_of};
ghost use Rattle.lf_oracle.specs.Asking.{Learns};
ghost use Rattle.lf_oracle.specs.NodeViews.{view_data};
ghost use Rattle.lf_lists.specs.Hearing.{Hears};
ghost use Rattle.lf_lists.specs.Learning.{NearTo};
ghost use Rattle.lf_nodes.specs.Keys.{key_quads};
ghost use Rattle.lf_nodes.specs.Properties.{AreNear, AreHeld};

use crate::entries::{in_property_order, is_type_quad};
use crate::keys::quads_of_key;
use crate::merged::merged_quads;
use crate::values::props_of;
use lf_base::{Memory, Steps, TryCopy};
use lf_model::NodeView;
use lf_oracle::Oracle;
use lf_order::{ById, in_id_order};
use lf_rdf::{GraphRef, Quad, QuadList, Term, TermList};
use std::alloc::Global;
use std::sync::ledger::Ledger;

// The object of a quad more, where it tells a type.
fn put_type(alloc: Global, types: &mut Vec<ById>, quad: &Quad) -> Result<(), Memory>
    ensures { OnOk result (types.new.items
        ≡ types.old.items ++ map (λ q. q.object) (filter is_type_quad (quad.now ∷ []))) }
{
    if !is_type_quad(quad) {
        return Ok(());
    }
    types.push(ById::of(alloc, &quad.object)?)?;
    Ok(())
}

// The objects of the quads that tell a type.
fn told_types(alloc: Global, quads: &[Quad]) -> Result<Vec<ById>, Memory>
    ensures { IfOk result (λ types. types.items ≡ map (λ q. q.object) (filter is_type_quad quads.now)) }
{
    let mut types = Vec::new(alloc);
    for quad in quads {
        put_type(alloc, &mut types, quad)?;
    }
    Ok(types)
}

// The types that some quads tell, each once, in order of their ids.
fn types_in(alloc: Global, quads: &[Quad]) -> Result<TermList, Memory>
    ensures { IfOk result (λ types. types ≡ types_in quads.now) }
{
    in_id_order(alloc, told_types(alloc, quads)?)
}

// What some quads tell of their subject.
fn view_from<O: Oracle, L: Ledger>(
    alloc: Global,
    oracle: &mut O,
    node: &Term,
    quads: QuadList,
    steps: &mut Steps<L>,
) -> Result<NodeView, Memory>
    requires near { AreNear (O.quads oracle.old) node.now quads }
    ensures view { IfOk result (λ found.
        Hears (NearTo (O.quads oracle.old) node.now) (O.quads oracle.old) (O.told oracle.old)
        (O.told oracle.new) steps.old steps.new (λ dataset.
        AreHeld dataset quads →
        view_data found ≡ view_from (answers_of dataset) (enough dataset) node.now quads)) }
    ensures quads_stay { O.quads oracle.new ≡ O.quads oracle.old }
{
    let id = node.copy(alloc)?;
    let types = types_in(alloc, quads.as_slice())?;
    let entries = in_property_order(alloc, quads)?;
    let props = props_of(alloc, oracle, node, entries.as_slice(), steps)?;
    Ok(NodeView { id, types, props })
}

// The quads of a key that count in a graph, and none where the node is no key.
fn quads_of<O: Oracle, L: Ledger>(
    alloc: Global,
    oracle: &mut O,
    graph: &GraphRef,
    node: &Term,
    steps: &mut Steps<L>,
) -> Result<Option<QuadList>, Memory>
    ensures quads { IfOk result (λ found.
        Learns (NearTo (O.quads oracle.old) node.now) (O.quads oracle.old) (O.told oracle.old)
        (O.told oracle.new) steps.old steps.new
        (λ dataset. key_quads dataset graph.now node.now) found) }
    ensures quads_stay { O.quads oracle.new ≡ O.quads oracle.old }
{
    match graph {
        GraphRef::Default => quads_of_key(alloc, oracle, graph, node, steps),
        GraphRef::Named(_) => quads_of_key(alloc, oracle, graph, node, steps),
        GraphRef::Merged => merged_quads(alloc, oracle, node, steps),
    }
}

/// The view of a node, or none where it is no key of the graph.
pub fn view_of<O: Oracle, L: Ledger>(
    alloc: Global,
    oracle: &mut O,
    graph: &GraphRef,
    node: &Term,
    steps: &mut Steps<L>,
) -> Result<Option<NodeView>, Memory>
    ensures view { IfOk result (λ found.
        Learns (NearTo (O.quads oracle.old) node.now) (O.quads oracle.old) (O.told oracle.old)
        (O.told oracle.new) steps.old steps.new
        (λ dataset. view_of dataset graph.now node.now) (option_map view_data found)) }
    ensures quads_stay { O.quads oracle.new ≡ O.quads oracle.old }
{
    let told = quads_of(alloc, oracle, graph, node, steps)?;
    match told {
        Some(quads) => {
            let view = view_from(alloc, oracle, node, quads, steps)?;
            Ok(Some(view))
        }
        None => Ok(None),
    }
}
