//! Lists over the plain oracle: each case puts some quads and compares the lists with their texts.
ghost use Rattle.std.specs.Prelude.{◌≡◌, ◌<◌, IsTrue};
ghost use Rattle.lf_oracle.specs.Asking.{is_one_graph};

use crate::{KnownCells, list_at, value_at};
use lf_base::{Memory, Steps, Text};
use lf_model::{Value, ValueList};
use lf_plain::{PlainQuads, term_of};
use lf_rdf::{GraphRef, QuadList, Term};
use std::alloc::Global;
use std::marker::Brand;
use std::sync::ledger::{Blank, Ledger};
use std::test::Fail;

const TYPE: &str = "http://www.w3.org/1999/02/22-rdf-syntax-ns#type";

const LIST: &str = "http://www.w3.org/1999/02/22-rdf-syntax-ns#List";

const FIRST: &str = "http://www.w3.org/1999/02/22-rdf-syntax-ns#first";

const REST: &str = "http://www.w3.org/1999/02/22-rdf-syntax-ns#rest";

const NIL: &str = "http://www.w3.org/1999/02/22-rdf-syntax-ns#nil";

// ---- quads

fn cell_in(
    alloc: Global,
    plain: &mut PlainQuads,
    cell: &str,
    item: &str,
    rest: &str,
    graph: &str,
) -> Result<(), Memory> {
    plain.put(alloc, cell, FIRST, item, graph)?;
    plain.put(alloc, cell, REST, rest, graph)
}

fn cell(
    alloc: Global,
    plain: &mut PlainQuads,
    cell: &str,
    item: &str,
    rest: &str,
) -> Result<(), Memory> {
    cell_in(alloc, plain, cell, item, rest, "")
}

// A use of a node in the default graph.
fn uses(alloc: Global, plain: &mut PlainQuads, node: &str) -> Result<(), Memory> {
    plain.put(alloc, "http://e/a", "http://e/l", node, "")
}

// ---- texts of values

fn term_text(term: &Term) -> &Text {
    match term {
        Term::Iri(iri) => iri,
        Term::Blank(label) => label,
        Term::Literal { lexical, .. } => lexical,
    }
}

#[cycle(writing)]
fn put_value(text: &mut String, value: &Value) -> Result<(), Memory> {
    match value {
        Value::Literal(literal) => text.push_str(term_text(literal).as_str())?,
        Value::Ref(node) => text.push_str(term_text(node).as_str())?,
        Value::List(items) => put_list(text, items)?,
    }
    Ok(())
}

#[cycle(writing)]
fn put_list(text: &mut String, items: &ValueList) -> Result<(), Memory> {
    text.push_str("(")?;
    for item in items.as_slice() {
        put_value(text, item)?;
        text.push_str(" ")?;
    }
    text.push_str(")")?;
    Ok(())
}

fn list_text(alloc: Global, list: &Option<ValueList>) -> Result<String, Memory> {
    let mut text = String::new(alloc);
    match list {
        Some(items) => put_list(&mut text, items)?,
        None => text.push_str("none")?,
    }
    Ok(text)
}

// Whether the list at a node of a graph has this text.
fn reads_at<L: Ledger>(
    alloc: Global,
    plain: &mut PlainQuads,
    graph: &GraphRef,
    node: &Term,
    wanted: &str,
    steps: &mut Steps<L>,
) -> Result<bool, Memory>
    requires { IsTrue (is_one_graph graph.now) }
{
    let list = list_at(alloc, plain, graph, node, steps)?;
    let text = list_text(alloc, &list)?;
    Ok(text.as_str() == wanted)
}

fn reads_in<L: Ledger>(
    alloc: Global,
    plain: &mut PlainQuads,
    graph: &GraphRef,
    node: &str,
    wanted: &str,
    steps: &mut Steps<L>,
) -> Result<bool, Memory>
    requires { IsTrue (is_one_graph graph.now) }
{
    let term = term_of(alloc, node)?;
    reads_at(alloc, plain, graph, &term, wanted, steps)
}

// Whether a node of the default graph has this value.
fn shows<L: Ledger>(
    alloc: Global,
    plain: &mut PlainQuads,
    node: &str,
    wanted: &str,
    steps: &mut Steps<L>,
) -> Result<bool, Memory> {
    let term = term_of(alloc, node)?;
    let value = value_at(alloc, plain, &GraphRef::Default, &term, steps)?;
    let mut text = String::new(alloc);
    put_value(&mut text, &value)?;
    Ok(text.as_str() == wanted)
}

// Whether the list at a node of the default graph has this text.
fn reads<L: Ledger>(
    alloc: Global,
    plain: &mut PlainQuads,
    node: &str,
    wanted: &str,
    steps: &mut Steps<L>,
) -> Result<bool, Memory> {
    reads_in(alloc, plain, &GraphRef::Default, node, wanted, steps)
}

// Whether a node of the default graph is a cell, where nothing is known yet.
fn is_listed<L: Ledger>(
    alloc: Global,
    plain: &mut PlainQuads,
    node: &str,
    steps: &mut Steps<L>,
) -> Result<bool, Memory> {
    let term = term_of(alloc, node)?;
    let mut known = KnownCells::new(alloc);
    let listed = known.is_cell(alloc, plain, &GraphRef::Default, &term, steps)?;
    Ok(listed)
}

// ---- cases

fn three(alloc: Global, plain: &mut PlainQuads) -> Result<(), Memory> {
    uses(alloc, plain, "_:x")?;
    cell(alloc, plain, "_:x", "'1", "_:y")?;
    cell(alloc, plain, "_:y", "http://e/b", "_:z")?;
    cell(alloc, plain, "_:z", "'3", NIL)
}

// A list, and what is left of it where its second node has a further triple.
fn loses_a_cell<L: Ledger>(
    alloc: Global,
    plain: &mut PlainQuads,
    blank: Blank,
) -> Result<bool, Memory>
    requires name { blank.name ≡ L.name }
    requires parts { blank.parts ≡ L.parts }
    requires one { 0 < blank.parts }
{
    let mut steps = Steps::<L>::of(blank);
    three(alloc, plain)?;
    let whole = reads(alloc, plain, "_:x", "(1 http://e/b 3 )", &mut steps)?;
    plain.put(alloc, "_:y", "http://e/x", "'y", "")?;
    let head = reads(alloc, plain, "_:x", "none", &mut steps)?;
    let tail = reads(alloc, plain, "_:z", "(3 )", &mut steps)?;
    Ok(whole && head && tail)
}

fn nested(alloc: Global, plain: &mut PlainQuads) -> Result<(), Memory> {
    uses(alloc, plain, "_:a")?;
    cell(alloc, plain, "_:a", "_:b", "_:d")?;
    cell(alloc, plain, "_:b", "'1", "_:c")?;
    cell(alloc, plain, "_:c", NIL, NIL)?;
    cell(alloc, plain, "_:d", "_:e", "_:f")?;
    cell(alloc, plain, "_:f", "'2", NIL)?;
    plain.put(alloc, "_:f", TYPE, LIST, "")
}

// Lists in a list, the empty one and a typed cell among them, and an item that is no list.
fn lists_in_a_list<L: Ledger>(
    alloc: Global,
    plain: &mut PlainQuads,
    blank: Blank,
) -> Result<bool, Memory>
    requires name { blank.name ≡ L.name }
    requires parts { blank.parts ≡ L.parts }
    requires one { 0 < blank.parts }
{
    let mut steps = Steps::<L>::of(blank);
    nested(alloc, plain)?;
    let outer = reads(alloc, plain, "_:a", "((1 () ) e 2 )", &mut steps)?;
    let inner = reads(alloc, plain, "_:b", "(1 () )", &mut steps)?;
    let typed = shows(alloc, plain, "_:f", "(2 )", &mut steps)?;
    let empty = reads(alloc, plain, NIL, "()", &mut steps)?;
    let known = is_listed(alloc, plain, "_:c", &mut steps)?;
    Ok(outer && inner && typed && empty && known)
}

fn rings(alloc: Global, plain: &mut PlainQuads) -> Result<(), Memory> {
    cell(alloc, plain, "_:a", "'1", "_:b")?;
    cell(alloc, plain, "_:b", "'2", "_:a")?;
    cell(alloc, plain, "_:c", "_:c", NIL)?;
    uses(alloc, plain, "_:d")?;
    cell(alloc, plain, "_:d", "'1", "http://e/d")?;
    uses(alloc, plain, "_:e")?;
    cell(alloc, plain, "_:e", "'1", "_:t")?;
    uses(alloc, plain, "_:f")?;
    cell(alloc, plain, "_:f", "'2", "_:t")?;
    cell(alloc, plain, "_:t", "'3", NIL)
}

// Rings along `rdf:rest` and through `rdf:first`, a rest that is no list, and a shared tail.
fn no_lists<L: Ledger>(alloc: Global, plain: &mut PlainQuads, blank: Blank) -> Result<bool, Memory>
    requires name { blank.name ≡ L.name }
    requires parts { blank.parts ≡ L.parts }
    requires one { 0 < blank.parts }
{
    let mut steps = Steps::<L>::of(blank);
    rings(alloc, plain)?;
    let rests = reads(alloc, plain, "_:a", "none", &mut steps)?;
    let items = reads(alloc, plain, "_:c", "none", &mut steps)?;
    let stray = reads(alloc, plain, "_:d", "none", &mut steps)?;
    let one = reads(alloc, plain, "_:e", "none", &mut steps)?;
    let two = reads(alloc, plain, "_:f", "none", &mut steps)?;
    let known = is_listed(alloc, plain, "_:a", &mut steps)?;
    Ok(rests && items && stray && one && two && !known)
}

fn in_graphs(alloc: Global, plain: &mut PlainQuads) -> Result<(), Memory> {
    plain.put(alloc, "http://e/a", "http://e/l", "_:x", "http://e/g")?;
    cell_in(alloc, plain, "_:x", "'1", NIL, "http://e/g")?;
    uses(alloc, plain, "_:y")?;
    cell_in(alloc, plain, "_:y", "'1", NIL, "http://e/g")
}

// A list of a named graph, and one whose use lies in another graph.
fn lists_of_graphs<L: Ledger>(
    alloc: Global,
    plain: &mut PlainQuads,
    blank: Blank,
) -> Result<bool, Memory>
    requires name { blank.name ≡ L.name }
    requires parts { blank.parts ≡ L.parts }
    requires one { 0 < blank.parts }
{
    let mut steps = Steps::<L>::of(blank);
    in_graphs(alloc, plain)?;
    let graph = GraphRef::Named(term_of(alloc, "http://e/g")?);
    let here = reads_in(alloc, plain, &graph, "_:x", "(1 )", &mut steps)?;
    let there = reads(alloc, plain, "_:x", "none", &mut steps)?;
    let used = reads_in(alloc, plain, &graph, "_:y", "none", &mut steps)?;
    Ok(here && there && used)
}

#[test]
fn a_list_loses_a_cell(rt: HostRuntime) -> Result<(), Fail> {
    let alloc = rt.alloc();
    let mut plain = PlainQuads::of(alloc, QuadList::new(alloc));
    assert!(rt; loses_a_cell::<Brand>(alloc, &mut plain, Blank::new(1))?);
    Ok(())
}

#[test]
fn lists_stand_in_lists(rt: HostRuntime) -> Result<(), Fail> {
    let alloc = rt.alloc();
    let mut plain = PlainQuads::of(alloc, QuadList::new(alloc));
    assert!(rt; lists_in_a_list::<Brand>(alloc, &mut plain, Blank::new(1))?);
    Ok(())
}

#[test]
fn rings_and_shared_tails_are_no_lists(rt: HostRuntime) -> Result<(), Fail> {
    let alloc = rt.alloc();
    let mut plain = PlainQuads::of(alloc, QuadList::new(alloc));
    assert!(rt; no_lists::<Brand>(alloc, &mut plain, Blank::new(1))?);
    Ok(())
}

#[test]
fn a_list_lies_in_one_graph(rt: HostRuntime) -> Result<(), Fail> {
    let alloc = rt.alloc();
    let mut plain = PlainQuads::of(alloc, QuadList::new(alloc));
    assert!(rt; lists_of_graphs::<Brand>(alloc, &mut plain, Blank::new(1))?);
    Ok(())
}
