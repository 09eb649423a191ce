//! Matching of nodes and values over any `Nodes`. Each call asks some questions, and says what
//! every dataset gives that answers them alike.
ghost use Rattle.std.specs.Prelude.{◌≡◌, IfOk, List, map};
ghost use Rattle.std.specs.List.{list_any};
ghost use Rattle.lf_model.specs.ValueBridge.{value_data};
ghost use Rattle.lf_oracle.specs.Asking.{Learns};
ghost use Rattle.lf_oracle.specs.Nearby.{IsOfNode};
ghost use Rattle.lf_oracle.specs.NodeViews.{view_data};
ghost use Rattle.def_nested.specs.Unfolding.{above, build_props, nested, sub_frame};
ghost use Rattle.def_framing.specs.Matching.{accepts, matches, prop_allows, prop_matches};
ghost use Rattle.def_framing.specs.Nearness.{in_kind, in_props};
ghost use Rattle.def_framing.specs.Views.{of_dataset};
ghost use Rattle.lf_match.specs.NearNodes.{IsNearOneBy, IsNearOneFor, IsOfValue, IsOfValues, IsOfView};
ghost use Rattle.lf_match.specs.Rows.{all_props, any_prop, list_accepted, list_kind, prop_test};
ghost use Rattle.lf_match.specs.Viewed.{matches_viewed};

use crate::pattern::pattern_accepts;
use crate::rows::{later_row, row_is_wild};
use crate::verdict::{Verdict, has_property, lacks, row_verdict};
use crate::view::values_under;
use lf_base::{Memory, Steps};
use lf_model::{Frame, FrameKind, FrameProp, FramePropList, NodeView, Value, ValueList};
use lf_oracle::Nodes;
use lf_rdf::{GraphRef, Term};
use std::alloc::Global;
use std::sync::ledger::Ledger;

/// Whether the map `at` of a frame matches a node of a graph (JSON-LD 1.1 Framing, section 4.2.2).
/// What is no key of the graph isn't matched.
#[cycle(matching)]
pub fn matches<N: Nodes, L: Ledger>(
    alloc: Global,
    nodes: &mut N,
    graph: &GraphRef,
    s: &Term,
    frame: &Frame,
    at: u32,
    steps: &mut Steps<L>,
) -> Result<bool, Memory>
    ensures matched { IfOk result (λ found.
        Learns (IsNearOneFor (N.quads nodes.old) (nested frame.now.nodes at)
        (IsOfNode graph.now s.now)) (N.quads nodes.old) (N.told nodes.old)
        (N.told nodes.new) steps.old steps.new
        (λ dataset. matches (of_dataset dataset) graph.now (nested frame.now.nodes at) s.now)
        found) }
    ensures quads_stay { N.quads nodes.new ≡ N.quads nodes.old }
{
    match nodes.node(alloc, graph, s, steps)? {
        None => Ok(false),
        Some(view) => view_matches(alloc, nodes, graph, s, &view, frame, at, steps),
    }
}

/// The same by a view of the node that is known already.
#[cycle(matching)]
pub fn view_matches<N: Nodes, L: Ledger>(
    alloc: Global,
    nodes: &mut N,
    graph: &GraphRef,
    s: &Term,
    view: &NodeView,
    frame: &Frame,
    at: u32,
    steps: &mut Steps<L>,
) -> Result<bool, Memory>
    ensures matched { IfOk result (λ found.
        Learns (IsNearOneFor (N.quads nodes.old) (nested frame.now.nodes at)
        (IsOfView graph.now (view_data view.now))) (N.quads nodes.old) (N.told nodes.old)
        (N.told nodes.new) steps.old steps.new (λ dataset.
        matches_viewed (of_dataset dataset) graph.now (nested frame.now.nodes at) s.now
        (view_data view.now)) found) }
    ensures quads_stay { N.quads nodes.new ≡ N.quads nodes.old }
{
    match frame.nodes.at(at as u64) {
        None => Ok(false),
        Some(row) => match row_verdict(frame, at, row, s, view) {
            Verdict::Refused => Ok(false),
            Verdict::Matched => Ok(true),
            Verdict::AllProps => all_allow(alloc, nodes, graph, view, frame, at, &row.props, steps),
            Verdict::AnyProp => any_matches(
                alloc, nodes, graph, view, frame, at, &row.props, steps,
            ),
        },
    }
}

// Whether each of these properties of the map `at` matches, or the node may lack it.
#[cycle(matching)]
fn all_allow<N: Nodes, L: Ledger>(
    alloc: Global,
    nodes: &mut N,
    graph: &GraphRef,
    view: &NodeView,
    frame: &Frame,
    at: u32,
    props: &FramePropList,
    steps: &mut Steps<L>,
) -> Result<bool, Memory>
    ensures allow { IfOk result (λ found.
        Learns (IsNearOneBy (N.quads nodes.old)
        (in_props (build_props (above at (nested frame.now.nodes)) props.now))
        (IsOfView graph.now (view_data view.now))) (N.quads nodes.old) (N.told nodes.old)
        (N.told nodes.new) steps.old steps.new (λ dataset.
        all_props (of_dataset dataset) graph.now (above at (nested frame.now.nodes))
        (view_data view.now) props.now) found) }
    ensures quads_stay { N.quads nodes.new ≡ N.quads nodes.old }
{
    for prop in props.as_slice() {
        if !prop_allows(alloc, nodes, graph, view, frame, at, prop, steps)? {
            return Ok(false);
        }
    }
    Ok(true)
}

// Whether one of these properties of the map `at` matches.
#[cycle(matching)]
fn any_matches<N: Nodes, L: Ledger>(
    alloc: Global,
    nodes: &mut N,
    graph: &GraphRef,
    view: &NodeView,
    frame: &Frame,
    at: u32,
    props: &FramePropList,
    steps: &mut Steps<L>,
) -> Result<bool, Memory>
    ensures matched { IfOk result (λ found.
        Learns (IsNearOneBy (N.quads nodes.old)
        (in_props (build_props (above at (nested frame.now.nodes)) props.now))
        (IsOfView graph.now (view_data view.now))) (N.quads nodes.old) (N.told nodes.old)
        (N.told nodes.new) steps.old steps.new (λ dataset.
        any_prop (of_dataset dataset) graph.now (above at (nested frame.now.nodes))
        (view_data view.now) props.now) found) }
    ensures quads_stay { N.quads nodes.new ≡ N.quads nodes.old }
{
    for prop in props.as_slice() {
        if prop_matches(alloc, nodes, graph, view, frame, at, prop, steps)? {
            return Ok(true);
        }
    }
    Ok(false)
}

// Whether a property of the map `at` matches, or the node may lack it.
#[cycle(matching)]
fn prop_allows<N: Nodes, L: Ledger>(
    alloc: Global,
    nodes: &mut N,
    graph: &GraphRef,
    view: &NodeView,
    frame: &Frame,
    at: u32,
    prop: &FrameProp,
    steps: &mut Steps<L>,
) -> Result<bool, Memory>
    ensures allows { IfOk result (λ found.
        Learns (IsNearOneFor (N.quads nodes.old)
        (sub_frame (above at (nested frame.now.nodes)) prop.now.frame)
        (IsOfView graph.now (view_data view.now))) (N.quads nodes.old) (N.told nodes.old)
        (N.told nodes.new) steps.old steps.new (λ dataset.
        prop_allows (view_data view.now) (prop_test (of_dataset dataset) graph.now
        (above at (nested frame.now.nodes)) prop.now)) found) }
    ensures quads_stay { N.quads nodes.new ≡ N.quads nodes.old }
{
    if lacks(frame, at, prop, view) {
        return Ok(true);
    }
    prop_matches(alloc, nodes, graph, view, frame, at, prop, steps)
}

// Whether a property of the map `at` matches: match-none where the node lacks it, another where its
// sub-frame accepts a value.
#[cycle(matching)]
fn prop_matches<N: Nodes, L: Ledger>(
    alloc: Global,
    nodes: &mut N,
    graph: &GraphRef,
    view: &NodeView,
    frame: &Frame,
    at: u32,
    prop: &FrameProp,
    steps: &mut Steps<L>,
) -> Result<bool, Memory>
    ensures matched { IfOk result (λ found.
        Learns (IsNearOneFor (N.quads nodes.old)
        (sub_frame (above at (nested frame.now.nodes)) prop.now.frame)
        (IsOfView graph.now (view_data view.now))) (N.quads nodes.old) (N.told nodes.old)
        (N.told nodes.new) steps.old steps.new (λ dataset.
        prop_matches (view_data view.now) (prop_test (of_dataset dataset) graph.now
        (above at (nested frame.now.nodes)) prop.now)) found) }
    ensures quads_stay { N.quads nodes.new ≡ N.quads nodes.old }
{
    match later_row(frame, at, prop.frame) {
        None => Ok(!has_property(view, prop)),
        Some(sub) => {
            let values = values_under(view, &prop.property);
            any_accepted(alloc, nodes, graph, values, frame, sub, steps)
        }
    }
}

// Whether the map `at` accepts one of these values.
#[cycle(matching)]
fn any_accepted<N: Nodes, L: Ledger>(
    alloc: Global,
    nodes: &mut N,
    graph: &GraphRef,
    values: &[Value],
    frame: &Frame,
    at: u32,
    steps: &mut Steps<L>,
) -> Result<bool, Memory>
    ensures accepted { IfOk result (λ found.
        Learns (IsNearOneFor (N.quads nodes.old) (nested frame.now.nodes at)
        (IsOfValues graph.now (map value_data values.now))) (N.quads nodes.old)
        (N.told nodes.old) (N.told nodes.new) steps.old steps.new
        (λ dataset.
        list_any (λ v.
        accepts (of_dataset dataset) graph.now (nested frame.now.nodes at) (value_data v))
        values.now) found) }
    ensures quads_stay { N.quads nodes.new ≡ N.quads nodes.old }
{
    for value in values {
        if accepts(alloc, nodes, graph, value, frame, at, steps)? {
            return Ok(true);
        }
    }
    Ok(false)
}

/// Whether the map `at` of a frame accepts a value in a graph (JSON-LD 1.1 Framing, section 4.2.2).
#[cycle(matching)]
pub fn accepts<N: Nodes, L: Ledger>(
    alloc: Global,
    nodes: &mut N,
    graph: &GraphRef,
    value: &Value,
    frame: &Frame,
    at: u32,
    steps: &mut Steps<L>,
) -> Result<bool, Memory>
    ensures accepted { IfOk result (λ found.
        Learns (IsNearOneFor (N.quads nodes.old) (nested frame.now.nodes at)
        (IsOfValue graph.now (value_data value.now))) (N.quads nodes.old) (N.told nodes.old)
        (N.told nodes.new) steps.old steps.new (λ dataset.
        accepts (of_dataset dataset) graph.now (nested frame.now.nodes at)
        (value_data value.now)) found) }
    ensures quads_stay { N.quads nodes.new ≡ N.quads nodes.old }
{
    match frame.nodes.at(at as u64) {
        None => Ok(false),
        Some(row) => match &row.kind {
            FrameKind::Wild => Ok(true),
            FrameKind::Node => match value {
                Value::Ref(id) => matches(alloc, nodes, graph, id, frame, at, steps),
                Value::Literal(_) => Ok(false),
                Value::List(_) => Ok(false),
            },
            FrameKind::Value(pattern) => match value {
                Value::Literal(term) => Ok(pattern_accepts(pattern, term)),
                Value::Ref(_) => Ok(false),
                Value::List(_) => Ok(false),
            },
            FrameKind::List(item) => match value {
                Value::List(items) => item_accepted(
                    alloc, nodes, graph, items, frame, at, *item, steps,
                ),
                Value::Literal(_) => Ok(false),
                Value::Ref(_) => Ok(false),
            },
        },
    }
}

// Whether a list pattern with this item pattern accepts a list of these items.
#[cycle(matching)]
fn item_accepted<N: Nodes, L: Ledger>(
    alloc: Global,
    nodes: &mut N,
    graph: &GraphRef,
    items: &ValueList,
    frame: &Frame,
    at: u32,
    item: Option<u32>,
    steps: &mut Steps<L>,
) -> Result<bool, Memory>
    ensures accepted { IfOk result (λ found.
        Learns (IsNearOneBy (N.quads nodes.old)
        (in_kind (list_kind (above at (nested frame.now.nodes)) item))
        (IsOfValues graph.now (map value_data items.now))) (N.quads nodes.old)
        (N.told nodes.old) (N.told nodes.new) steps.old steps.new
        (λ dataset.
        list_accepted (of_dataset dataset) graph.now (above at (nested frame.now.nodes))
        item items.now) found) }
    ensures quads_stay { N.quads nodes.new ≡ N.quads nodes.old }
{
    match item {
        None => Ok(true),
        Some(_) => match later_row(frame, at, item) {
            None => Ok(false),
            Some(sub) => {
                if row_is_wild(frame, sub) {
                    Ok(true)
                } else {
                    any_accepted(alloc, nodes, graph, items.as_slice(), frame, sub, steps)
                }
            }
        },
    }
}
