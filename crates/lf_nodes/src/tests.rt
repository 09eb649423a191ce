//! Keys and views over the plain oracle: lists, names of graphs, and the merged graph.
ghost use Rattle.std.specs.Prelude.{◌≡◌, ◌<◌};

use crate::NodesOver;
use lf_base::{Memory, Steps, Text};
use lf_model::{NodeView, Value};
use lf_oracle::Nodes;
use lf_order::id_text;
use lf_plain::{PlainQuads, term_of};
use lf_rdf::{GraphRef, QuadList, Term, TermList};
use std::alloc::Global;
use std::marker::Brand;
use std::sync::ledger::{Blank, Ledger};
use std::test::Fail;

const FIRST: &str = "http://www.w3.org/1999/02/22-rdf-syntax-ns#first";

const REST: &str = "http://www.w3.org/1999/02/22-rdf-syntax-ns#rest";

const NIL: &str = "http://www.w3.org/1999/02/22-rdf-syntax-ns#nil";

const TYPE: &str = "http://www.w3.org/1999/02/22-rdf-syntax-ns#type";

// A list node with an item and a rest.
fn put_cell(
    alloc: Global,
    quads: &mut PlainQuads,
    node: &str,
    item: &str,
    rest: &str,
    graph: &str,
) -> Result<(), Memory> {
    quads.put(alloc, node, FIRST, item, graph)?;
    quads.put(alloc, node, REST, rest, graph)
}

// A list of three items in the default graph; its second cell may have a triple more.
fn put_list(alloc: Global, quads: &mut PlainQuads, more: bool) -> Result<(), Memory> {
    quads.put(alloc, "x:a", "x:l", "_:c1", "")?;
    put_cell(alloc, quads, "_:c1", "'1", "_:c2", "")?;
    put_cell(alloc, quads, "_:c2", "'2", "_:c3", "")?;
    put_cell(alloc, quads, "_:c3", "'3", NIL, "")?;
    if more {
        quads.put(alloc, "_:c2", "x:x", "'y", "")?;
    }
    Ok(())
}

// A list node that a second graph uses too.
fn put_shared(alloc: Global, quads: &mut PlainQuads) -> Result<(), Memory> {
    quads.put(alloc, "x:a", "x:l", "_:c", "")?;
    quads.put(alloc, "x:b", "x:l", "_:c", "x:g")?;
    put_cell(alloc, quads, "_:c", "'1", NIL, "")
}

// A list of a graph whose cell has a triple and a type in the default graph too.
fn put_elsewhere(alloc: Global, quads: &mut PlainQuads) -> Result<(), Memory> {
    quads.put(alloc, "x:a", "x:l", "_:c", "x:g")?;
    put_cell(alloc, quads, "_:c", "'1", NIL, "x:g")?;
    quads.put(alloc, "_:c", "x:p", "'2", "")?;
    quads.put(alloc, "_:c", TYPE, "x:b", "")
}

// One object under two properties in two graphs.
fn put_twice(alloc: Global, quads: &mut PlainQuads) -> Result<(), Memory> {
    quads.put(alloc, "x:a", "x:q", "x:b", "x:g")?;
    quads.put(alloc, "x:a", "x:p", "x:b", "")?;
    quads.put(alloc, "x:a", "x:p", "x:b", "x:g")?;
    quads.put(alloc, "x:a", "x:p", "'1", "x:g")
}

fn graph_of(alloc: Global, word: &str) -> Result<GraphRef, Memory> {
    if word.is_empty() {
        return Ok(GraphRef::Default);
    }
    if word == "*" {
        return Ok(GraphRef::Merged);
    }
    Ok(GraphRef::Named(term_of(alloc, word)?))
}

fn put_text(shown: &mut String, text: &str) -> Result<(), Memory> {
    shown.push_str(text)?;
    Ok(())
}

fn put_id(alloc: Global, shown: &mut String, term: &Term) -> Result<(), Memory> {
    let id: Text = id_text(alloc, term)?;
    put_text(shown, id.as_str())?;
    put_text(shown, " ")
}

fn put_ids(alloc: Global, shown: &mut String, terms: &TermList) -> Result<(), Memory> {
    for term in terms.as_slice() {
        put_id(alloc, shown, term)?;
    }
    Ok(())
}

fn put_item(alloc: Global, shown: &mut String, value: &Value) -> Result<(), Memory> {
    match value {
        Value::Literal(Term::Literal { lexical, .. }) => put_text(shown, lexical.as_str()),
        Value::Literal(_) => Ok(()),
        Value::Ref(node) => put_id(alloc, shown, node),
        Value::List(_) => put_text(shown, "()"),
    }
}

fn put_value(alloc: Global, shown: &mut String, value: &Value) -> Result<(), Memory> {
    match value {
        Value::Literal(_) => put_item(alloc, shown, value),
        Value::Ref(_) => put_item(alloc, shown, value),
        Value::List(items) => {
            put_text(shown, "(")?;
            for item in items.as_slice() {
                put_item(alloc, shown, item)?;
            }
            put_text(shown, ")")
        }
    }
}

// The types of a view, and its properties with their values.
fn put_view(alloc: Global, shown: &mut String, view: &NodeView) -> Result<(), Memory> {
    put_ids(alloc, shown, &view.types)?;
    for prop in view.props.as_slice() {
        put_text(shown, prop.property.as_str())?;
        put_text(shown, "=")?;
        for value in prop.values.as_slice() {
            put_value(alloc, shown, value)?;
        }
        put_text(shown, ";")?;
    }
    Ok(())
}

// Whether a node has this view; `none` stands for no key.
fn view_is<L: Ledger>(
    alloc: Global,
    quads: &mut PlainQuads,
    graph: &str,
    node: &str,
    wanted: &str,
    steps: &mut Steps<L>,
) -> Result<bool, Memory> {
    let graph = graph_of(alloc, graph)?;
    let id = term_of(alloc, node)?;
    let mut nodes = NodesOver::new(quads);
    let mut shown = String::new(alloc);
    match nodes.node(alloc, &graph, &id, steps)? {
        Some(view) => put_view(alloc, &mut shown, &view)?,
        None => put_text(&mut shown, "none")?,
    }
    Ok(shown.as_str() == wanted)
}

// Whether a graph has these keys.
fn keys_are<L: Ledger>(
    alloc: Global,
    quads: &mut PlainQuads,
    graph: &str,
    wanted: &str,
    steps: &mut Steps<L>,
) -> Result<bool, Memory> {
    let graph = graph_of(alloc, graph)?;
    let mut nodes = NodesOver::new(quads);
    let mut shown = String::new(alloc);
    let found = nodes.members(alloc, &graph, steps)?;
    put_ids(alloc, &mut shown, &found)?;
    Ok(shown.as_str() == wanted)
}

// Whether these keys point at a node.
fn pointing_are<L: Ledger>(
    alloc: Global,
    quads: &mut PlainQuads,
    graph: &str,
    property: &str,
    node: &str,
    wanted: &str,
    steps: &mut Steps<L>,
) -> Result<bool, Memory> {
    let graph = graph_of(alloc, graph)?;
    let property = term_of(alloc, property)?;
    let id = term_of(alloc, node)?;
    let mut nodes = NodesOver::new(quads);
    let mut shown = String::new(alloc);
    let found = nodes.pointing(alloc, &graph, &property, &id, steps)?;
    put_ids(alloc, &mut shown, &found)?;
    Ok(shown.as_str() == wanted)
}

// Whether a name names a graph.
fn names<L: Ledger>(
    alloc: Global,
    quads: &mut PlainQuads,
    name: &str,
    steps: &mut Steps<L>,
) -> Result<bool, Memory> {
    let name = term_of(alloc, name)?;
    let mut nodes = NodesOver::new(quads);
    nodes.names_graph(alloc, &name, steps)
}

fn whole_list<L: Ledger>(alloc: Global, blank: Blank) -> Result<bool, Memory>
    requires name { blank.name ≡ L.name }
    requires parts { blank.parts ≡ L.parts }
    requires one { 0 < blank.parts }
{
    let mut steps = Steps::<L>::of(blank);
    let mut quads = PlainQuads::of(alloc, QuadList::new(alloc));
    put_list(alloc, &mut quads, false)?;
    let list = view_is(alloc, &mut quads, "", "x:a", "x:l=(123);", &mut steps)?;
    let cell = view_is(alloc, &mut quads, "", "_:c2", "none", &mut steps)?;
    let keys = keys_are(alloc, &mut quads, "", "x:a ", &mut steps)?;
    let points = pointing_are(alloc, &mut quads, "", "x:l", "_:c1", "", &mut steps)?;
    Ok(list && cell && keys && points)
}

fn broken_list<L: Ledger>(alloc: Global, blank: Blank) -> Result<bool, Memory>
    requires name { blank.name ≡ L.name }
    requires parts { blank.parts ≡ L.parts }
    requires one { 0 < blank.parts }
{
    let mut steps = Steps::<L>::of(blank);
    let mut quads = PlainQuads::of(alloc, QuadList::new(alloc));
    put_list(alloc, &mut quads, true)?;
    let head = view_is(alloc, &mut quads, "", "x:a", "x:l=_:c1 ;", &mut steps)?;
    let cell = view_is(alloc, &mut quads, "", "_:c3", "none", &mut steps)?;
    let keys = keys_are(alloc, &mut quads, "", "_:c1 _:c2 x:a ", &mut steps)?;
    let points = pointing_are(alloc, &mut quads, "", "x:l", "_:c1", "x:a ", &mut steps)?;
    Ok(head && cell && keys && points)
}

fn shared_cell<L: Ledger>(alloc: Global, blank: Blank) -> Result<bool, Memory>
    requires name { blank.name ≡ L.name }
    requires parts { blank.parts ≡ L.parts }
    requires one { 0 < blank.parts }
{
    let mut steps = Steps::<L>::of(blank);
    let mut quads = PlainQuads::of(alloc, QuadList::new(alloc));
    put_shared(alloc, &mut quads)?;
    let head = view_is(alloc, &mut quads, "*", "x:a", "x:l=_:c ;", &mut steps)?;
    let keys = keys_are(alloc, &mut quads, "", "_:c x:a x:g ", &mut steps)?;
    let all = keys_are(alloc, &mut quads, "*", "_:c x:a x:b x:g ", &mut steps)?;
    Ok(head && keys && all)
}

fn one_graph<L: Ledger>(alloc: Global, blank: Blank) -> Result<bool, Memory>
    requires name { blank.name ≡ L.name }
    requires parts { blank.parts ≡ L.parts }
    requires one { 0 < blank.parts }
{
    let mut steps = Steps::<L>::of(blank);
    let mut quads = PlainQuads::of(alloc, QuadList::new(alloc));
    quads.put(alloc, "x:a", "x:p", "'1", "x:g")?;
    let name = view_is(alloc, &mut quads, "", "x:g", "", &mut steps)?;
    let other = view_is(alloc, &mut quads, "", "x:a", "none", &mut steps)?;
    let node = view_is(alloc, &mut quads, "x:g", "x:a", "x:p=1;", &mut steps)?;
    let named = names(alloc, &mut quads, "x:g", &mut steps)?;
    Ok(name && other && node && named)
}

fn merged_views<L: Ledger>(alloc: Global, blank: Blank) -> Result<bool, Memory>
    requires name { blank.name ≡ L.name }
    requires parts { blank.parts ≡ L.parts }
    requires one { 0 < blank.parts }
{
    let mut steps = Steps::<L>::of(blank);
    let mut quads = PlainQuads::of(alloc, QuadList::new(alloc));
    put_elsewhere(alloc, &mut quads)?;
    put_twice(alloc, &mut quads)?;
    let cell = view_is(alloc, &mut quads, "*", "_:c", "x:b x:p=2;", &mut steps)?;
    let wanted = "x:l=(1);x:p=1x:b ;x:q=x:b ;";
    let node = view_is(alloc, &mut quads, "*", "x:a", wanted, &mut steps)?;
    let points = pointing_are(alloc, &mut quads, "*", "x:p", "x:b", "x:a ", &mut steps)?;
    let nothing = pointing_are(alloc, &mut quads, "", "x:q", "x:b", "", &mut steps)?;
    Ok(cell && node && points && nothing)
}

#[test]
fn a_list_is_one_value_and_its_cells_no_keys(rt: HostRuntime) -> Result<(), Fail> {
    let alloc = rt.alloc();
    assert!(rt; whole_list::<Brand>(alloc, Blank::new(1))?);
    Ok(())
}

#[test]
fn a_further_triple_makes_nodes_of_cells(rt: HostRuntime) -> Result<(), Fail> {
    let alloc = rt.alloc();
    assert!(rt; broken_list::<Brand>(alloc, Blank::new(1))?);
    Ok(())
}

#[test]
fn a_cell_used_in_two_graphs_is_a_node(rt: HostRuntime) -> Result<(), Fail> {
    let alloc = rt.alloc();
    assert!(rt; shared_cell::<Brand>(alloc, Blank::new(1))?);
    Ok(())
}

#[test]
fn the_name_of_a_graph_is_a_key_of_the_default_graph(rt: HostRuntime) -> Result<(), Fail> {
    let alloc = rt.alloc();
    assert!(rt; one_graph::<Brand>(alloc, Blank::new(1))?);
    Ok(())
}

#[test]
fn merged_views_have_each_object_once(rt: HostRuntime) -> Result<(), Fail> {
    let alloc = rt.alloc();
    assert!(rt; merged_views::<Brand>(alloc, Blank::new(1))?);
    Ok(())
}
