//! Views that are asked for twice, over the plain oracle.
ghost use Rattle.std.specs.Prelude.{◌≡◌, ◌<◌};

use crate::KeptNodes;
use lf_base::{Memory, Steps, Text};
use lf_model::NodeView;
use lf_oracle::Nodes;
use lf_order::id_text;
use lf_plain::{PlainQuads, term_of};
use lf_rdf::{GraphRef, QuadList, TermList};
use std::alloc::Global;
use std::marker::Brand;
use std::sync::ledger::{Blank, Ledger};
use std::test::Fail;

fn put_text(shown: &mut String, text: &Text) -> Result<(), Memory> {
    shown.push_str(text.as_str())?;
    shown.push_str(" ")?;
    Ok(())
}

// The properties of a view.
fn put_view(shown: &mut String, view: &NodeView) -> Result<(), Memory> {
    for prop in view.props.as_slice() {
        put_text(shown, &prop.property)?;
    }
    Ok(())
}

// Whether a node has a view of these properties in the default graph or the merged one; `none`
// stands for no key.
fn view_is<L: Ledger>(
    alloc: Global,
    nodes: &mut KeptNodes<PlainQuads>,
    merged: bool,
    node: &str,
    wanted: &str,
    steps: &mut Steps<L>,
) -> Result<bool, Memory> {
    let graph = if merged {
        GraphRef::Merged
    } else {
        GraphRef::Default
    };
    let id = term_of(alloc, node)?;
    let mut shown = String::new(alloc);
    match nodes.node(alloc, &graph, &id, steps)? {
        Some(view) => put_view(&mut shown, &view)?,
        None => shown.push_str("none")?,
    }
    Ok(shown.as_str() == wanted)
}

// Whether these are the terms of some ids.
fn terms_are(alloc: Global, terms: &TermList, wanted: &str) -> Result<bool, Memory> {
    let mut shown = String::new(alloc);
    for term in terms.as_slice() {
        let id = id_text(alloc, term)?;
        put_text(&mut shown, &id)?;
    }
    Ok(shown.as_str() == wanted)
}

// Whether the keys of the default graph, and those that point at a node there, are these.
fn keys_are<L: Ledger>(
    alloc: Global,
    nodes: &mut KeptNodes<PlainQuads>,
    steps: &mut Steps<L>,
) -> Result<bool, Memory> {
    let property = term_of(alloc, "x:p")?;
    let node = term_of(alloc, "x:c")?;
    let members = nodes.members(alloc, &GraphRef::Default, steps)?;
    let pointing = nodes.pointing(alloc, &GraphRef::Default, &property, &node, steps)?;
    let listed = terms_are(alloc, &members, "x:a x:b x:c x:g ")?;
    let pointed = terms_are(alloc, &pointing, "x:a x:b ")?;
    Ok(listed && pointed)
}

// Whether a graph has this name and none has that of a node.
fn names_are<L: Ledger>(
    alloc: Global,
    nodes: &mut KeptNodes<PlainQuads>,
    steps: &mut Steps<L>,
) -> Result<bool, Memory> {
    let name = term_of(alloc, "x:g")?;
    let node = term_of(alloc, "x:a")?;
    let named = nodes.names_graph(alloc, &name, steps)?;
    let unnamed = nodes.names_graph(alloc, &node, steps)?;
    Ok(named && !unnamed)
}

// How many questions the oracle was asked.
fn questions(nodes: &KeptNodes<PlainQuads>) -> u64 {
    nodes.telling.oracle.asked.len()
}

// A node with a property in the default graph and another one in a named graph, and a node that
// only refers.
fn nodes_of(alloc: Global) -> Result<KeptNodes<PlainQuads>, Memory> {
    let mut quads = PlainQuads::of(alloc, QuadList::new(alloc));
    quads.put(alloc, "x:a", "x:p", "x:c", "")?;
    quads.put(alloc, "x:b", "x:p", "x:c", "")?;
    quads.put(alloc, "x:a", "x:q", "x:c", "x:g")?;
    Ok(KeptNodes::new(alloc, quads))
}

fn asked_once<L: Ledger>(alloc: Global, blank: Blank) -> Result<bool, Memory>
    requires name { blank.name ≡ L.name }
    requires parts { blank.parts ≡ L.parts }
    requires one { 0 < blank.parts }
{
    let mut steps = Steps::<L>::of(blank);
    let mut nodes = nodes_of(alloc)?;
    let first = view_is(alloc, &mut nodes, false, "x:c", "", &mut steps)?;
    let asked = questions(&nodes);
    let again = view_is(alloc, &mut nodes, false, "x:c", "", &mut steps)?;
    Ok(first && again && asked > 0 && questions(&nodes) == asked)
}

fn told_apart<L: Ledger>(alloc: Global, blank: Blank) -> Result<bool, Memory>
    requires name { blank.name ≡ L.name }
    requires parts { blank.parts ≡ L.parts }
    requires one { 0 < blank.parts }
{
    let mut steps = Steps::<L>::of(blank);
    let mut nodes = nodes_of(alloc)?;
    let one = view_is(alloc, &mut nodes, false, "x:a", "x:p ", &mut steps)?;
    let all = view_is(alloc, &mut nodes, true, "x:a", "x:p x:q ", &mut steps)?;
    let none = view_is(alloc, &mut nodes, false, "x:d", "none", &mut steps)?;
    let again = view_is(alloc, &mut nodes, false, "x:a", "x:p ", &mut steps)?;
    let none_again = view_is(alloc, &mut nodes, false, "x:d", "none", &mut steps)?;
    Ok(one && all && none && again && none_again)
}

fn asked_through<L: Ledger>(alloc: Global, blank: Blank) -> Result<bool, Memory>
    requires name { blank.name ≡ L.name }
    requires parts { blank.parts ≡ L.parts }
    requires one { 0 < blank.parts }
{
    let mut steps = Steps::<L>::of(blank);
    let mut nodes = nodes_of(alloc)?;
    let kept = view_is(alloc, &mut nodes, false, "x:a", "x:p ", &mut steps)?;
    let keys = keys_are(alloc, &mut nodes, &mut steps)?;
    let names = names_are(alloc, &mut nodes, &mut steps)?;
    let again = view_is(alloc, &mut nodes, false, "x:a", "x:p ", &mut steps)?;
    Ok(kept && keys && names && again)
}

#[test]
fn a_view_is_given_again_without_a_question(rt: HostRuntime) -> Result<(), Fail> {
    let alloc = rt.alloc();
    assert!(rt; asked_once::<Brand>(alloc, Blank::new(1))?);
    Ok(())
}

#[test]
fn the_views_of_a_node_in_two_graphs_are_kept_apart(rt: HostRuntime) -> Result<(), Fail> {
    let alloc = rt.alloc();
    assert!(rt; told_apart::<Brand>(alloc, Blank::new(1))?);
    Ok(())
}

#[test]
fn keys_and_names_are_asked_for_beside_kept_views(rt: HostRuntime) -> Result<(), Fail> {
    let alloc = rt.alloc();
    assert!(rt; asked_through::<Brand>(alloc, Blank::new(1))?);
    Ok(())
}
