//! The values of a view, asked for one after the other.
ghost use Rattle.std.specs.Prelude.{◌≡◌, map, IfOk, IsTrue};
ghost use Rattle.lf_model.specs.ValueBridge.{value_data};
ghost use Rattle.lf_oracle.specs.Asking.{Learns};
ghost use Rattle.lf_oracle.specs.NodeViews.{property_data};
ghost use Rattle.def_datasets.specs.Sorted.{ascends};
ghost use Rattle.lf_lists.specs.Hearing.{Hears};
ghost use Rattle.lf_lists.specs.Learning.{NearTo};
ghost use Rattle.lf_nodes.specs.Properties.{AreNear, entry_cmp, gathered, quad_value, valued};

use crate::entries::{Entry, split_property};
use crate::home::graph_of;
use lf_base::{Memory, Steps, Text, TryCopy};
use lf_lists::value_at;
use lf_model::{Prop, PropList, Value, ValueList};
use lf_oracle::Oracle;
use lf_rdf::{Quad, Term};
use std::alloc::Global;
use std::sync::ledger::Ledger;

// The value of a quad's object in the quad's graph.
fn value_of<O: Oracle, L: Ledger>(
    alloc: Global,
    oracle: &mut O,
    quad: &Quad,
    steps: &mut Steps<L>,
) -> Result<Value, Memory>
    ensures value { IfOk result (λ found.
        Learns (NearTo (O.quads oracle.old) quad.now.object) (O.quads oracle.old)
        (O.told oracle.old) (O.told oracle.new) steps.old steps.new
        (λ dataset. quad_value dataset quad.now) (value_data found)) }
    ensures quads_stay { O.quads oracle.new ≡ O.quads oracle.old }
{
    let graph = graph_of(alloc, quad)?;
    let value = value_at(alloc, oracle, &graph, &quad.object, steps);
    drop(graph);
    value
}

// The values of some quads' objects, in the same order.
fn values_of<O: Oracle, L: Ledger>(
    alloc: Global,
    oracle: &mut O,
    node: &Term,
    entries: &[Entry],
    steps: &mut Steps<L>,
) -> Result<ValueList, Memory>
    requires near { AreNear (O.quads oracle.old) node.now entries.now }
    ensures values { IfOk result (λ found.
        Hears (NearTo (O.quads oracle.old) node.now) (O.quads oracle.old) (O.told oracle.old)
        (O.told oracle.new) steps.old steps.new
        (λ dataset. map value_data found ≡ map (quad_value dataset) entries.now)) }
    ensures quads_stay { O.quads oracle.new ≡ O.quads oracle.old }
{
    let mut values = ValueList::new(alloc);
    for entry in entries {
        let value = value_of(alloc, oracle, entry.quad(), steps)?;
        values.push(value)?;
    }
    Ok(values)
}

// A property with the values of its quads.
fn prop_of<O: Oracle, L: Ledger>(
    alloc: Global,
    oracle: &mut O,
    node: &Term,
    property: &Text,
    entries: &[Entry],
    steps: &mut Steps<L>,
) -> Result<Prop, Memory>
    requires near { AreNear (O.quads oracle.old) node.now entries.now }
    ensures prop { IfOk result (λ found.
        Hears (NearTo (O.quads oracle.old) node.now) (O.quads oracle.old) (O.told oracle.old)
        (O.told oracle.new) steps.old steps.new
        (λ dataset. property_data found ≡ valued dataset property.now entries.now)) }
    ensures quads_stay { O.quads oracle.new ≡ O.quads oracle.old }
{
    let property = property.copy(alloc)?;
    let values = values_of(alloc, oracle, node, entries, steps)?;
    Ok(Prop { property, values })
}

/// The properties of a node with their values, from its quads in order of properties and objects.
pub(crate) fn props_of<O: Oracle, L: Ledger>(
    alloc: Global,
    oracle: &mut O,
    node: &Term,
    entries: &[Entry],
    steps: &mut Steps<L>,
) -> Result<PropList, Memory>
    requires near { AreNear (O.quads oracle.old) node.now entries.now }
    requires in_order { IsTrue (ascends entry_cmp entries.now) }
    ensures props { IfOk result (λ found.
        Hears (NearTo (O.quads oracle.old) node.now) (O.quads oracle.old) (O.told oracle.old)
        (O.told oracle.new) steps.old steps.new
        (λ dataset. map property_data found ≡ gathered (quad_value dataset) entries.now)) }
    ensures quads_stay { O.quads oracle.new ≡ O.quads oracle.old }
{
    let mut props = PropList::new(alloc);
    let mut rest = entries;
    while let Some(first) = rest.first() {
        let own = first.property();
        let (run, others) = split_property(rest, own);
        let prop = prop_of(alloc, oracle, node, own, run, steps)?;
        props.push(prop)?;
        rest = others;
    }
    Ok(props)
}
