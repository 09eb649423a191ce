//! Embedding of a node by a frame, over any `Nodes` (JSON-LD 1.1 Framing, section 4.2.3). `tree`
//! calls it. The functions call each other on what a node holds; each node and each list is counted
//! before that, so the count of items bounds the recursion.
ghost use Rattle.std.specs.Prelude.{◌≡◌, ◌≤◌, [], ◌∷◌, OnOk, false, map};
ghost use Rattle.std.specs.Option.{option_map};
ghost use Rattle.lf_model.specs.ValueBridge.{value_data};
ghost use Rattle.lf_model.specs.ValueData.{reference, values_of};
ghost use Rattle.lf_model.specs.TreeBridge.{entry_data, property_data, reverse_data, tree_data};
ghost use Rattle.lf_oracle.specs.Nearby.{IsNamed, IsOfNode};
ghost use Rattle.lf_oracle.specs.NodeViews.{view_data};
ghost use Rattle.lf_match.specs.NearNodes.{IsOfValue, IsOfValues};
ghost use Rattle.def_nested.specs.Unfolding.{above, build_reverses, nested};
ghost use Rattle.def_framing.specs.Embedding.{contents, embed};
ghost use Rattle.def_framing.specs.Nearness.{in_reverses, reversed_in};
ghost use Rattle.def_framing.specs.Parts.{emit_all, graph_part, reverse_part, value_part};
ghost use Rattle.lf_embed.specs.Cycle.{arriving_part, descend, embed_viewed, emit_accepted, emit_list, keys_part, matched, named_part, property_values, reverses_part, view_property};
ghost use Rattle.lf_embed.specs.Embeds.{Embeds, IsOfKeys, IsOfNodeOrView, IsOfProps};
ghost use Rattle.lf_embed.specs.Forms.{form_of};
ghost use Rattle.lf_embed.specs.Runs.{run_of};
ghost use Rattle.lf_embed.specs.Walks.{path_of, state_of};

use crate::choices::{ReferenceRule, entering, is_left, reference_rule, seen_view, types_for};
use crate::defaults::default_part;
use crate::entries::{emit_literal, refer};
use crate::fitting::{form_accepts, form_matches};
use crate::form::{Form, is_output, item_form, numbered, sub_form};
use crate::parts::{add_property, add_reverse, assemble, node_value, push_entry, push_tree};
use crate::walk::{Stop, Walk};
use lf_base::{Steps, TryCopy};
use lf_model::{
    Frame, FrameReverse, FrameReverseList, Limit, NodeView, Prop, PropList, Tree, TreeList,
    TreePropList, TreeReverseList, TreeValue, TreeValueList, Value, ValueList,
};
use lf_oracle::Nodes;
use lf_rdf::{GraphRef, Term, TermList};
use std::alloc::Global;
use std::sync::ledger::Ledger;

// A node that isn't embedded free.
#[cycle(embedding)]
fn embed<N: Nodes, L: Ledger>(
    alloc: Global,
    nodes: &mut N,
    graph: &GraphRef,
    id: &Term,
    frame: &Frame,
    form: Form,
    room: u32,
    walk: &mut Walk,
    steps: &mut Steps<L>,
) -> Result<Tree, Stop>
    ensures run { Embeds (N.quads nodes.old) (N.told nodes.old) (N.told nodes.new) steps.old steps.new
        (reversed_in (form_of frame.now.nodes form)) (IsOfNode graph.now id.now)
        (λ views.
        embed views room graph.now id.now (form_of frame.now.nodes form) false
        (path_of walk.old) (state_of walk.old)) (run_of tree_data result (state_of walk.new)) }
    ensures quads_stay { N.quads nodes.new ≡ N.quads nodes.old }
    ensures path_stays { OnOk result (path_of walk.new ≡ path_of walk.old) }
    ensures grows { OnOk result ((state_of walk.old).count ≤ (state_of walk.new).count) }
{
    if is_left(alloc, false, frame, form, graph, id, walk)? {
        return refer(alloc, id, walk);
    }
    let found = nodes.node(alloc, graph, id, steps)?;
    let view = seen_view(alloc, id, found)?;
    descend(
        alloc, nodes, graph, id, &view, frame, form, room, walk, steps,
    )
}

/// The same as `embed`, by a view of the node that is known already, embedded free or not.
#[cycle(embedding)]
pub fn embed_viewed<N: Nodes, L: Ledger>(
    alloc: Global,
    nodes: &mut N,
    graph: &GraphRef,
    id: &Term,
    view: &NodeView,
    frame: &Frame,
    form: Form,
    free: bool,
    room: u32,
    walk: &mut Walk,
    steps: &mut Steps<L>,
) -> Result<Tree, Stop>
    ensures run { Embeds (N.quads nodes.old) (N.told nodes.old) (N.told nodes.new) steps.old steps.new
        (reversed_in (form_of frame.now.nodes form))
        (IsOfNodeOrView graph.now id.now (view_data view.now)) (λ views.
        embed_viewed views room graph.now id.now (form_of frame.now.nodes form) free
        (view_data view.now) (path_of walk.old) (state_of walk.old))
        (run_of tree_data result (state_of walk.new)) }
    ensures quads_stay { N.quads nodes.new ≡ N.quads nodes.old }
    ensures path_stays { OnOk result (path_of walk.new ≡ path_of walk.old) }
    ensures grows { OnOk result ((state_of walk.old).count ≤ (state_of walk.new).count) }
{
    if is_left(alloc, free, frame, form, graph, id, walk)? {
        return refer(alloc, id, walk);
    }
    descend(
        alloc, nodes, graph, id, view, frame, form, room, walk, steps,
    )
}

// The node is counted and joins the path and the embedded nodes; it leaves the path with its
// contents.
#[cycle(embedding)]
fn descend<N: Nodes, L: Ledger>(
    alloc: Global,
    nodes: &mut N,
    graph: &GraphRef,
    id: &Term,
    view: &NodeView,
    frame: &Frame,
    form: Form,
    room: u32,
    walk: &mut Walk,
    steps: &mut Steps<L>,
) -> Result<Tree, Stop>
    ensures run { Embeds (N.quads nodes.old) (N.told nodes.old) (N.told nodes.new) steps.old steps.new
        (reversed_in (form_of frame.now.nodes form))
        (IsOfNodeOrView graph.now id.now (view_data view.now)) (λ views.
        descend views room graph.now id.now (form_of frame.now.nodes form)
        (view_data view.now) (path_of walk.old) (state_of walk.old))
        (run_of tree_data result (state_of walk.new)) }
    ensures quads_stay { N.quads nodes.new ≡ N.quads nodes.old }
    ensures path_stays { OnOk result (path_of walk.new ≡ path_of walk.old) }
    ensures grows { OnOk result ((state_of walk.old).count ≤ (state_of walk.new).count) }
{
    if room == 0 {
        return Err(Stop::Over(Limit::Depth));
    }
    match walk.count_item() {
        Err(stop) => return Err(stop),
        Ok(()) => {}
    }
    walk.enter(alloc, graph, id)?;
    match contents(
        alloc,
        nodes,
        graph,
        id,
        view,
        frame,
        form,
        room - 1,
        walk,
        steps,
    ) {
        Err(stop) => Err(stop),
        Ok(tree) => {
            walk.leave();
            Ok(tree)
        }
    }
}

// The named graph, the properties, the defaults and the reverse properties, in that order.
#[cycle(embedding)]
fn contents<N: Nodes, L: Ledger>(
    alloc: Global,
    nodes: &mut N,
    graph: &GraphRef,
    id: &Term,
    view: &NodeView,
    frame: &Frame,
    form: Form,
    room: u32,
    walk: &mut Walk,
    steps: &mut Steps<L>,
) -> Result<Tree, Stop>
    ensures run { Embeds (N.quads nodes.old) (N.told nodes.old) (N.told nodes.new) steps.old steps.new
        (reversed_in (form_of frame.now.nodes form))
        (IsOfNodeOrView graph.now id.now (view_data view.now)) (λ views.
        contents views (embed views room) graph.now id.now (form_of frame.now.nodes form)
        (view_data view.now) (path_of walk.old) (state_of walk.old))
        (run_of tree_data result (state_of walk.new)) }
    ensures quads_stay { N.quads nodes.new ≡ N.quads nodes.old }
    ensures path_stays { OnOk result (path_of walk.new ≡ path_of walk.old) }
    ensures grows { OnOk result ((state_of walk.old).count ≤ (state_of walk.new).count) }
{
    match graph_part(alloc, nodes, graph, id, frame, form, room, walk, steps) {
        Err(stop) => Err(stop),
        Ok(inner) => {
            match value_part(
                alloc,
                nodes,
                graph,
                &view.props,
                frame,
                form,
                room,
                walk,
                steps,
            ) {
                Err(stop) => Err(stop),
                Ok(values) => match default_part(alloc, frame, form, &values, walk) {
                    Err(stop) => Err(stop),
                    Ok(defaults) => {
                        match reverse_part(
                            alloc, nodes, graph, id, frame, form, room, walk, steps,
                        ) {
                            Err(stop) => Err(stop),
                            Ok(reverse) => {
                                let types = types_for(alloc, frame, form, &view.types)?;
                                Ok(assemble(alloc, id, types, inner, values, defaults, reverse)?)
                            }
                        }
                    }
                },
            }
        }
    }
}

// The nodes of the graph that the node names, where it is entered.
#[cycle(embedding)]
fn graph_part<N: Nodes, L: Ledger>(
    alloc: Global,
    nodes: &mut N,
    graph: &GraphRef,
    id: &Term,
    frame: &Frame,
    form: Form,
    room: u32,
    walk: &mut Walk,
    steps: &mut Steps<L>,
) -> Result<TreeList, Stop>
    ensures run { Embeds (N.quads nodes.old) (N.told nodes.old) (N.told nodes.new) steps.old steps.new
        (reversed_in (form_of frame.now.nodes form)) (IsOfNode graph.now id.now)
        (λ views.
        graph_part views (embed views room) graph.now id.now (form_of frame.now.nodes form)
        (path_of walk.old) (state_of walk.old))
        (run_of (map tree_data) result (state_of walk.new)) }
    ensures quads_stay { N.quads nodes.new ≡ N.quads nodes.old }
    ensures path_stays { OnOk result (path_of walk.new ≡ path_of walk.old) }
    ensures grows { OnOk result ((state_of walk.old).count ≤ (state_of walk.new).count) }
{
    match entering(graph, id, frame, form, walk) {
        None => Ok(TreeList::new(alloc)),
        Some(sub) => {
            if nodes.names_graph(alloc, id, steps)? {
                named_part(alloc, nodes, id, frame, sub, room, walk, steps)
            } else {
                Ok(TreeList::new(alloc))
            }
        }
    }
}

// The keys of the graph of this name that match a sub-frame are embedded free in it.
#[cycle(embedding)]
fn named_part<N: Nodes, L: Ledger>(
    alloc: Global,
    nodes: &mut N,
    name: &Term,
    frame: &Frame,
    form: Form,
    room: u32,
    walk: &mut Walk,
    steps: &mut Steps<L>,
) -> Result<TreeList, Stop>
    ensures run { Embeds (N.quads nodes.old) (N.told nodes.old) (N.told nodes.new) steps.old steps.new
        (reversed_in (form_of frame.now.nodes form)) (IsNamed name.now)
        (λ views.
        named_part views (embed views room) name.now (form_of frame.now.nodes form)
        (path_of walk.old) (state_of walk.old))
        (run_of (map tree_data) result (state_of walk.new)) }
    ensures quads_stay { N.quads nodes.new ≡ N.quads nodes.old }
    ensures path_stays { OnOk result (path_of walk.new ≡ path_of walk.old) }
    ensures grows { OnOk result ((state_of walk.old).count ≤ (state_of walk.new).count) }
{
    let graph = GraphRef::Named(name.copy(alloc)?);
    let keys = nodes.members(alloc, &graph, steps)?;
    keys_part(
        alloc, nodes, &graph, &keys, frame, form, true, room, walk, steps,
    )
}

// Those of these keys that match a sub-frame are embedded by it, in order.
#[cycle(embedding)]
fn keys_part<N: Nodes, L: Ledger>(
    alloc: Global,
    nodes: &mut N,
    graph: &GraphRef,
    keys: &TermList,
    frame: &Frame,
    form: Form,
    free: bool,
    room: u32,
    walk: &mut Walk,
    steps: &mut Steps<L>,
) -> Result<TreeList, Stop>
    ensures run { Embeds (N.quads nodes.old) (N.told nodes.old) (N.told nodes.new) steps.old steps.new
        (reversed_in (form_of frame.now.nodes form)) (IsOfKeys graph.now keys.now)
        (λ views.
        keys_part views (embed views room) graph.now (form_of frame.now.nodes form) free
        (path_of walk.old) keys.now (state_of walk.old))
        (run_of (map tree_data) result (state_of walk.new)) }
    ensures quads_stay { N.quads nodes.new ≡ N.quads nodes.old }
    ensures path_stays { OnOk result (path_of walk.new ≡ path_of walk.old) }
    ensures grows { OnOk result ((state_of walk.old).count ≤ (state_of walk.new).count) }
{
    let mut trees = TreeList::new(alloc);
    for id in keys.as_slice() {
        match matched(
            alloc, nodes, graph, id, frame, form, free, room, walk, steps,
        ) {
            Err(stop) => return Err(stop),
            Ok(made) => push_tree(made, &mut trees)?,
        }
    }
    Ok(trees)
}

// A node that matches a sub-frame is embedded by it. It is viewed once.
#[cycle(embedding)]
fn matched<N: Nodes, L: Ledger>(
    alloc: Global,
    nodes: &mut N,
    graph: &GraphRef,
    id: &Term,
    frame: &Frame,
    form: Form,
    free: bool,
    room: u32,
    walk: &mut Walk,
    steps: &mut Steps<L>,
) -> Result<Option<Tree>, Stop>
    ensures run { Embeds (N.quads nodes.old) (N.told nodes.old) (N.told nodes.new) steps.old steps.new
        (reversed_in (form_of frame.now.nodes form)) (IsOfNode graph.now id.now)
        (λ views.
        matched views (embed views room) graph.now (form_of frame.now.nodes form) free
        (path_of walk.old) id.now (state_of walk.old))
        (run_of (option_map tree_data) result (state_of walk.new)) }
    ensures quads_stay { N.quads nodes.new ≡ N.quads nodes.old }
    ensures path_stays { OnOk result (path_of walk.new ≡ path_of walk.old) }
    ensures grows { OnOk result ((state_of walk.old).count ≤ (state_of walk.new).count) }
{
    match nodes.node(alloc, graph, id, steps)? {
        None => Ok(None),
        Some(view) => {
            if form_matches(alloc, nodes, graph, id, &view, frame, form, steps)? {
                match embed_viewed(
                    alloc, nodes, graph, id, &view, frame, form, free, room, walk, steps,
                ) {
                    Err(stop) => Err(stop),
                    Ok(tree) => Ok(Some(tree)),
                }
            } else {
                Ok(None)
            }
        }
    }
}

// Each property of the node that isn't skipped, with the values that its sub-frame accepts.
#[cycle(embedding)]
fn value_part<N: Nodes, L: Ledger>(
    alloc: Global,
    nodes: &mut N,
    graph: &GraphRef,
    props: &PropList,
    frame: &Frame,
    form: Form,
    room: u32,
    walk: &mut Walk,
    steps: &mut Steps<L>,
) -> Result<TreePropList, Stop>
    ensures run { Embeds (N.quads nodes.old) (N.told nodes.old) (N.told nodes.new) steps.old steps.new
        (reversed_in (form_of frame.now.nodes form))
        (IsOfProps graph.now (map view_property props.now)) (λ views.
        value_part views (embed views room) graph.now (form_of frame.now.nodes form)
        (path_of walk.old) (map view_property props.now) (state_of walk.old))
        (run_of (map property_data) result (state_of walk.new)) }
    ensures quads_stay { N.quads nodes.new ≡ N.quads nodes.old }
    ensures path_stays { OnOk result (path_of walk.new ≡ path_of walk.old) }
    ensures grows { OnOk result ((state_of walk.old).count ≤ (state_of walk.new).count) }
{
    let mut made = TreePropList::new(alloc);
    for held in props.as_slice() {
        match property_values(alloc, nodes, graph, held, frame, form, room, walk, steps) {
            Err(stop) => return Err(stop),
            Ok(entries) => add_property(alloc, &held.property, entries, &mut made)?,
        }
    }
    Ok(made)
}

// The values of one property, or none where it is skipped.
#[cycle(embedding)]
fn property_values<N: Nodes, L: Ledger>(
    alloc: Global,
    nodes: &mut N,
    graph: &GraphRef,
    held: &Prop,
    frame: &Frame,
    form: Form,
    room: u32,
    walk: &mut Walk,
    steps: &mut Steps<L>,
) -> Result<TreeValueList, Stop>
    ensures run { Embeds (N.quads nodes.old) (N.told nodes.old) (N.told nodes.new) steps.old steps.new
        (reversed_in (form_of frame.now.nodes form))
        (IsOfValues graph.now (map value_data held.now.values)) (λ views.
        property_values views (embed views room) graph.now (form_of frame.now.nodes form)
        (path_of walk.old) (view_property held.now) (state_of walk.old))
        (run_of (map entry_data) result (state_of walk.new)) }
    ensures quads_stay { N.quads nodes.new ≡ N.quads nodes.old }
    ensures path_stays { OnOk result (path_of walk.new ≡ path_of walk.old) }
    ensures grows { OnOk result ((state_of walk.old).count ≤ (state_of walk.new).count) }
{
    if is_output(frame, form, &held.property) {
        let sub = sub_form(frame, form, &held.property);
        emit_all(
            alloc,
            nodes,
            graph,
            held.values.as_slice(),
            frame,
            sub,
            room,
            walk,
            steps,
        )
    } else {
        Ok(TreeValueList::new(alloc))
    }
}

// The values that a sub-frame accepts are output one after another.
#[cycle(embedding)]
fn emit_all<N: Nodes, L: Ledger>(
    alloc: Global,
    nodes: &mut N,
    graph: &GraphRef,
    values: &[Value],
    frame: &Frame,
    form: Form,
    room: u32,
    walk: &mut Walk,
    steps: &mut Steps<L>,
) -> Result<TreeValueList, Stop>
    ensures run { Embeds (N.quads nodes.old) (N.told nodes.old) (N.told nodes.new) steps.old steps.new
        (reversed_in (form_of frame.now.nodes form))
        (IsOfValues graph.now (map value_data values.now)) (λ views.
        emit_all views (embed views room) graph.now (path_of walk.old)
        (form_of frame.now.nodes form) [] (values_of (map value_data values.now))
        (state_of walk.old)) (run_of (map entry_data) result (state_of walk.new)) }
    ensures quads_stay { N.quads nodes.new ≡ N.quads nodes.old }
    ensures path_stays { OnOk result (path_of walk.new ≡ path_of walk.old) }
    ensures grows { OnOk result ((state_of walk.old).count ≤ (state_of walk.new).count) }
{
    let mut entries = TreeValueList::new(alloc);
    for value in values {
        match emit_accepted(alloc, nodes, graph, value, frame, form, room, walk, steps) {
            Err(stop) => return Err(stop),
            Ok(made) => push_entry(made, &mut entries)?,
        }
    }
    Ok(entries)
}

// A value that a sub-frame accepts.
#[cycle(embedding)]
fn emit_accepted<N: Nodes, L: Ledger>(
    alloc: Global,
    nodes: &mut N,
    graph: &GraphRef,
    value: &Value,
    frame: &Frame,
    form: Form,
    room: u32,
    walk: &mut Walk,
    steps: &mut Steps<L>,
) -> Result<Option<TreeValue>, Stop>
    ensures run { Embeds (N.quads nodes.old) (N.told nodes.old) (N.told nodes.new) steps.old steps.new
        (reversed_in (form_of frame.now.nodes form))
        (IsOfValue graph.now (value_data value.now)) (λ views.
        emit_accepted views (embed views room) graph.now (path_of walk.old)
        (form_of frame.now.nodes form) (value_data value.now) (state_of walk.old))
        (run_of (option_map entry_data) result (state_of walk.new)) }
    ensures quads_stay { N.quads nodes.new ≡ N.quads nodes.old }
    ensures path_stays { OnOk result (path_of walk.new ≡ path_of walk.old) }
    ensures grows { OnOk result ((state_of walk.old).count ≤ (state_of walk.new).count) }
{
    match value {
        Value::Ref(id) => emit_reference(alloc, nodes, graph, id, frame, form, room, walk, steps),
        Value::Literal(literal) => {
            if form_accepts(alloc, nodes, graph, value, frame, form, steps)? {
                emit_literal(alloc, literal, walk)
            } else {
                Ok(None)
            }
        }
        Value::List(items) => {
            if form_accepts(alloc, nodes, graph, value, frame, form, steps)? {
                emit_list(alloc, nodes, graph, items, frame, form, room, walk, steps)
            } else {
                Ok(None)
            }
        }
    }
}

// A list is counted, and its accepted items are output.
#[cycle(embedding)]
fn emit_list<N: Nodes, L: Ledger>(
    alloc: Global,
    nodes: &mut N,
    graph: &GraphRef,
    items: &ValueList,
    frame: &Frame,
    form: Form,
    room: u32,
    walk: &mut Walk,
    steps: &mut Steps<L>,
) -> Result<Option<TreeValue>, Stop>
    ensures run { Embeds (N.quads nodes.old) (N.told nodes.old) (N.told nodes.new) steps.old steps.new
        (reversed_in (form_of frame.now.nodes form))
        (IsOfValues graph.now (map value_data items.now)) (λ views.
        emit_list views (embed views room) graph.now (path_of walk.old)
        (form_of frame.now.nodes form) (map value_data items.now) (state_of walk.old))
        (run_of (option_map entry_data) result (state_of walk.new)) }
    ensures quads_stay { N.quads nodes.new ≡ N.quads nodes.old }
    ensures path_stays { OnOk result (path_of walk.new ≡ path_of walk.old) }
    ensures grows { OnOk result ((state_of walk.old).count ≤ (state_of walk.new).count) }
{
    match walk.count_item() {
        Err(stop) => return Err(stop),
        Ok(()) => {}
    }
    let inner = item_form(frame, form);
    match emit_all(
        alloc,
        nodes,
        graph,
        items.as_slice(),
        frame,
        inner,
        room,
        walk,
        steps,
    ) {
        Err(stop) => Err(stop),
        Ok(entries) => Ok(Some(TreeValue::List(entries))),
    }
}

// A wildcard takes each reference, a node frame those to nodes that match it, another sub-frame
// none.
#[cycle(embedding)]
fn emit_reference<N: Nodes, L: Ledger>(
    alloc: Global,
    nodes: &mut N,
    graph: &GraphRef,
    id: &Term,
    frame: &Frame,
    form: Form,
    room: u32,
    walk: &mut Walk,
    steps: &mut Steps<L>,
) -> Result<Option<TreeValue>, Stop>
    ensures run { Embeds (N.quads nodes.old) (N.told nodes.old) (N.told nodes.new) steps.old steps.new
        (reversed_in (form_of frame.now.nodes form)) (IsOfNode graph.now id.now)
        (λ views.
        emit_accepted views (embed views room) graph.now (path_of walk.old)
        (form_of frame.now.nodes form) (reference id.now) (state_of walk.old))
        (run_of (option_map entry_data) result (state_of walk.new)) }
    ensures quads_stay { N.quads nodes.new ≡ N.quads nodes.old }
    ensures path_stays { OnOk result (path_of walk.new ≡ path_of walk.old) }
    ensures grows { OnOk result ((state_of walk.old).count ≤ (state_of walk.new).count) }
{
    match reference_rule(frame, form) {
        ReferenceRule::Never => Ok(None),
        ReferenceRule::Always => {
            match embed(alloc, nodes, graph, id, frame, form, room, walk, steps) {
                Err(stop) => Err(stop),
                Ok(tree) => Ok(Some(TreeValue::Node(tree))),
            }
        }
        ReferenceRule::Matching => {
            match matched(
                alloc, nodes, graph, id, frame, form, false, room, walk, steps,
            ) {
                Err(stop) => Err(stop),
                Ok(made) => Ok(node_value(made)),
            }
        }
    }
}

// The reverse properties of a sub-frame.
#[cycle(embedding)]
fn reverse_part<N: Nodes, L: Ledger>(
    alloc: Global,
    nodes: &mut N,
    graph: &GraphRef,
    id: &Term,
    frame: &Frame,
    form: Form,
    room: u32,
    walk: &mut Walk,
    steps: &mut Steps<L>,
) -> Result<TreeReverseList, Stop>
    ensures run { Embeds (N.quads nodes.old) (N.told nodes.old) (N.told nodes.new) steps.old steps.new
        (reversed_in (form_of frame.now.nodes form)) (IsOfNode graph.now id.now)
        (λ views.
        reverse_part views (embed views room) graph.now id.now (form_of frame.now.nodes form)
        (path_of walk.old) (state_of walk.old))
        (run_of (map reverse_data) result (state_of walk.new)) }
    ensures quads_stay { N.quads nodes.new ≡ N.quads nodes.old }
    ensures path_stays { OnOk result (path_of walk.new ≡ path_of walk.old) }
    ensures grows { OnOk result ((state_of walk.old).count ≤ (state_of walk.new).count) }
{
    match form {
        Form::Absent => Ok(TreeReverseList::new(alloc)),
        Form::Wild(_) => Ok(TreeReverseList::new(alloc)),
        Form::Row(at) => match frame.nodes.at(at as u64) {
            None => Ok(TreeReverseList::new(alloc)),
            Some(row) => reverses_part(
                alloc,
                nodes,
                graph,
                id,
                &row.reverse,
                frame,
                at,
                room,
                walk,
                steps,
            ),
        },
    }
}

// One reverse property after another.
#[cycle(embedding)]
fn reverses_part<N: Nodes, L: Ledger>(
    alloc: Global,
    nodes: &mut N,
    graph: &GraphRef,
    id: &Term,
    props: &FrameReverseList,
    frame: &Frame,
    at: u32,
    room: u32,
    walk: &mut Walk,
    steps: &mut Steps<L>,
) -> Result<TreeReverseList, Stop>
    ensures run { Embeds (N.quads nodes.old) (N.told nodes.old) (N.told nodes.new) steps.old steps.new
        (in_reverses (build_reverses (above at (nested frame.now.nodes)) props.now))
        (IsOfNode graph.now id.now) (λ views.
        reverses_part views (embed views room) graph.now id.now (path_of walk.old)
        (above at (nested frame.now.nodes)) props.now (state_of walk.old))
        (run_of (map reverse_data) result (state_of walk.new)) }
    ensures quads_stay { N.quads nodes.new ≡ N.quads nodes.old }
    ensures path_stays { OnOk result (path_of walk.new ≡ path_of walk.old) }
    ensures grows { OnOk result ((state_of walk.old).count ≤ (state_of walk.new).count) }
{
    let mut made = TreeReverseList::new(alloc);
    for held in props.as_slice() {
        match arriving_part(alloc, nodes, graph, id, held, frame, at, room, walk, steps) {
            Err(stop) => return Err(stop),
            Ok(trees) => add_reverse(alloc, &held.property, trees, &mut made)?,
        }
    }
    Ok(made)
}

// The keys that point here by a reverse property and match its sub-frame are embedded by it.
#[cycle(embedding)]
fn arriving_part<N: Nodes, L: Ledger>(
    alloc: Global,
    nodes: &mut N,
    graph: &GraphRef,
    id: &Term,
    held: &FrameReverse,
    frame: &Frame,
    at: u32,
    room: u32,
    walk: &mut Walk,
    steps: &mut Steps<L>,
) -> Result<TreeList, Stop>
    ensures run { Embeds (N.quads nodes.old) (N.told nodes.old) (N.told nodes.new) steps.old steps.new
        (held.now.property ∷ reversed_in (above at (nested frame.now.nodes) held.now.frame))
        (IsOfNode graph.now id.now) (λ views.
        arriving_part views (embed views room) graph.now id.now (path_of walk.old)
        (held.now.property, above at (nested frame.now.nodes) held.now.frame)
        (state_of walk.old)) (run_of (map tree_data) result (state_of walk.new)) }
    ensures quads_stay { N.quads nodes.new ≡ N.quads nodes.old }
    ensures path_stays { OnOk result (path_of walk.new ≡ path_of walk.old) }
    ensures grows { OnOk result ((state_of walk.old).count ≤ (state_of walk.new).count) }
{
    let property = Term::Iri(held.property.copy(alloc)?);
    let keys = nodes.pointing(alloc, graph, &property, id, steps)?;
    let sub = numbered(frame, at, Some(held.frame));
    keys_part(
        alloc, nodes, graph, &keys, frame, sub, false, room, walk, steps,
    )
}
