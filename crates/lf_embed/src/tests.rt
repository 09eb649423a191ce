//! Outcomes over a list of quads, for frames of each flag and of each kind of sub-frame.
ghost use Rattle.std.specs.Prelude.{◌≡◌, ◌<◌};

use crate::frames_made::{
    alone, by_id, map, of_a, one_default, one_prop, one_reverse, one_term, pattern, two, two_props,
};
use crate::trees_shown::{all_shown, shown};
use crate::{Walk, outcomes_of, tree};
use lf_base::{Memory, Steps};
use lf_model::{DefaultList, Embed, Frame, FrameKind, Limit, Outcome, TypeTest};
use lf_nodes::NodesOver;
use lf_plain::{PlainQuads, term_of};
use lf_rdf::{GraphRef, QuadList, TermList};
use std::alloc::Global;
use std::marker::Brand;
use std::sync::ledger::{Blank, Ledger};
use std::test::Fail;

const FIRST: &str = "http://www.w3.org/1999/02/22-rdf-syntax-ns#first";

const REST: &str = "http://www.w3.org/1999/02/22-rdf-syntax-ns#rest";

const NIL: &str = "http://www.w3.org/1999/02/22-rdf-syntax-ns#nil";

const TYPE: &str = "http://www.w3.org/1999/02/22-rdf-syntax-ns#type";

// Whether a term has this outcome.
fn gives<L: Ledger>(
    alloc: Global,
    quads: &mut PlainQuads,
    frame: &Frame,
    word: &str,
    wanted: &str,
    steps: &mut Steps<L>,
) -> Result<bool, Memory> {
    let x = term_of(alloc, word)?;
    let mut nodes = NodesOver::new(quads);
    let outcome = tree(alloc, &mut nodes, frame, &x, steps)?;
    let text = shown(alloc, &outcome);
    drop(outcome);
    Ok(text?.as_str() == wanted)
}

// Whether a frame that is made for this has that outcome.
fn made_gives<L: Ledger>(
    alloc: Global,
    quads: &mut PlainQuads,
    made: Result<Frame, Memory>,
    word: &str,
    wanted: &str,
    steps: &mut Steps<L>,
) -> Result<bool, Memory> {
    match made {
        Ok(frame) => {
            let right = gives(alloc, quads, &frame, word, wanted, steps);
            drop(frame);
            right
        }
        Err(Memory) => Err(Memory),
    }
}

fn no_quads(alloc: Global) -> PlainQuads {
    PlainQuads::of(alloc, QuadList::new(alloc))
}

// `{ x:p: {} }`
fn by_property(alloc: Global) -> Result<Frame, Memory> {
    let props = one_prop(alloc, "x:p", Some(1))?;
    let mut top = map(alloc, FrameKind::Node);
    top.props = props;
    two(alloc, top, map(alloc, FrameKind::Wild))
}

fn put_shared(alloc: Global, quads: &mut PlainQuads) -> Result<(), Memory> {
    quads.put(alloc, "x:a", "x:p", "x:c", "")?;
    quads.put(alloc, "x:a", "x:q", "x:c", "")?;
    quads.put(alloc, "x:b", "x:p", "x:c", "")?;
    quads.put(alloc, "x:c", "x:n", "'c", "")
}

fn once_in_each<L: Ledger>(
    alloc: Global,
    frame: &Frame,
    steps: &mut Steps<L>,
) -> Result<bool, Memory> {
    let mut quads = no_quads(alloc);
    put_shared(alloc, &mut quads)?;
    let wanted = "x:a(x:p=x:c(x:n='c ;) ;x:q=x:c() ;)";
    let a = gives(alloc, &mut quads, frame, "x:a", wanted, steps)?;
    let b = gives(
        alloc,
        &mut quads,
        frame,
        "x:b",
        "x:b(x:p=x:c(x:n='c ;) ;)",
        steps,
    )?;
    let c = gives(alloc, &mut quads, frame, "x:c", "no", steps)?;
    let n = gives(alloc, &mut quads, frame, "x:n", "none", steps)?;
    Ok(a && b && c && n)
}

fn once_per_tree<L: Ledger>(alloc: Global, blank: Blank) -> Result<bool, Memory>
    requires name { blank.name ≡ L.name }
    requires parts { blank.parts ≡ L.parts }
    requires one { 0 < blank.parts }
{
    let mut steps = Steps::<L>::of(blank);
    let frame = by_property(alloc)?;
    let right = once_in_each(alloc, &frame, &mut steps);
    drop(frame);
    right
}

#[test]
fn a_node_is_embedded_once_in_each_tree(rt: HostRuntime) -> Result<(), Fail> {
    let alloc = rt.alloc();
    assert!(rt; once_per_tree::<Brand>(alloc, Blank::new(1))?);
    Ok(())
}

fn blank_in_both<L: Ledger>(
    alloc: Global,
    frame: &Frame,
    steps: &mut Steps<L>,
) -> Result<bool, Memory> {
    let mut quads = no_quads(alloc);
    quads.put(alloc, "x:a", "x:p", "_:x", "")?;
    quads.put(alloc, "x:b", "x:p", "_:x", "")?;
    quads.put(alloc, "_:x", "x:q", "'1", "")?;
    let a = gives(
        alloc,
        &mut quads,
        frame,
        "x:a",
        "x:a(x:p=_:x(x:q='1 ;) ;)",
        steps,
    )?;
    let b = gives(
        alloc,
        &mut quads,
        frame,
        "x:b",
        "x:b(x:p=_:x(x:q='1 ;) ;)",
        steps,
    )?;
    Ok(a && b)
}

fn shared_blank<L: Ledger>(alloc: Global, blank: Blank) -> Result<bool, Memory>
    requires name { blank.name ≡ L.name }
    requires parts { blank.parts ≡ L.parts }
    requires one { 0 < blank.parts }
{
    let mut steps = Steps::<L>::of(blank);
    let frame = by_property(alloc)?;
    let right = blank_in_both(alloc, &frame, &mut steps);
    drop(frame);
    right
}

#[test]
fn trees_share_a_blank_node(rt: HostRuntime) -> Result<(), Fail> {
    let alloc = rt.alloc();
    assert!(rt; shared_blank::<Brand>(alloc, Blank::new(1))?);
    Ok(())
}

// `{ "@embed": EMBED }`
fn embedding(alloc: Global, embed: Embed) -> Result<Frame, Memory> {
    let mut top = map(alloc, FrameKind::Wild);
    top.embed = embed;
    alone(alloc, top)
}

fn cycle<L: Ledger>(alloc: Global, blank: Blank) -> Result<bool, Memory>
    requires name { blank.name ≡ L.name }
    requires parts { blank.parts ≡ L.parts }
    requires one { 0 < blank.parts }
{
    let mut steps = Steps::<L>::of(blank);
    let mut quads = no_quads(alloc);
    quads.put(alloc, "x:a", "x:p", "x:b", "")?;
    quads.put(alloc, "x:a", "x:q", "x:b", "")?;
    quads.put(alloc, "x:b", "x:p", "x:a", "")?;
    let wanted = "x:a(x:p=x:b(x:p=x:a() ;) ;x:q=x:b(x:p=x:a() ;) ;)";
    let made = embedding(alloc, Embed::Always);
    let always = made_gives(alloc, &mut quads, made, "x:a", wanted, &mut steps)?;
    let wanted = "x:a(x:p=x:b(x:p=x:a() ;) ;x:q=x:b() ;)";
    let made = embedding(alloc, Embed::Once);
    let once = made_gives(alloc, &mut quads, made, "x:a", wanted, &mut steps)?;
    let wanted = "x:a(x:p=x:b() ;x:q=x:b() ;)";
    let made = embedding(alloc, Embed::Never);
    let never = made_gives(alloc, &mut quads, made, "x:a", wanted, &mut steps)?;
    Ok(always && once && never)
}

#[test]
fn each_embed_flag_ends_a_cycle(rt: HostRuntime) -> Result<(), Fail> {
    let alloc = rt.alloc();
    assert!(rt; cycle::<Brand>(alloc, Blank::new(1))?);
    Ok(())
}

// `{ x:p: [] }`
fn lacking(alloc: Global) -> Result<Frame, Memory> {
    let props = one_prop(alloc, "x:p", None)?;
    let mut top = map(alloc, FrameKind::Node);
    top.props = props;
    alone(alloc, top)
}

// `{ "@requireAll": REQUIRE_ALL, x:p: {}, x:q: Q }`, where Q is `{}` or `[]`
fn both(alloc: Global, require_all: bool, q: Option<u32>) -> Result<Frame, Memory> {
    let props = two_props(alloc, Some(1), q)?;
    let mut top = map(alloc, FrameKind::Node);
    top.props = props;
    top.require_all = require_all;
    two(alloc, top, map(alloc, FrameKind::Wild))
}

fn put_apart(alloc: Global, quads: &mut PlainQuads) -> Result<(), Memory> {
    quads.put(alloc, "x:a", "x:p", "'1", "")?;
    quads.put(alloc, "x:b", "x:q", "'2", "")
}

fn match_none<L: Ledger>(alloc: Global, blank: Blank) -> Result<bool, Memory>
    requires name { blank.name ≡ L.name }
    requires parts { blank.parts ≡ L.parts }
    requires one { 0 < blank.parts }
{
    let mut steps = Steps::<L>::of(blank);
    let mut quads = no_quads(alloc);
    put_apart(alloc, &mut quads)?;
    let made = lacking(alloc);
    let b = made_gives(
        alloc,
        &mut quads,
        made,
        "x:b",
        "x:b(x:q='2 ;x:p=~null ;)",
        &mut steps,
    )?;
    let made = lacking(alloc);
    let a = made_gives(alloc, &mut quads, made, "x:a", "no", &mut steps)?;
    let made = both(alloc, true, None);
    let wanted = "x:a(x:p='1 ;x:q=~null ;)";
    let without = made_gives(alloc, &mut quads, made, "x:a", wanted, &mut steps)?;
    Ok(a && b && without)
}

fn require_all<L: Ledger>(alloc: Global, blank: Blank) -> Result<bool, Memory>
    requires name { blank.name ≡ L.name }
    requires parts { blank.parts ≡ L.parts }
    requires one { 0 < blank.parts }
{
    let mut steps = Steps::<L>::of(blank);
    let mut quads = no_quads(alloc);
    put_apart(alloc, &mut quads)?;
    let wanted = "x:a(x:p='1 ;x:q=~null ;)";
    let made = both(alloc, false, Some(1));
    let any = made_gives(alloc, &mut quads, made, "x:a", wanted, &mut steps)?;
    let made = both(alloc, true, Some(1));
    let all = made_gives(alloc, &mut quads, made, "x:a", "no", &mut steps)?;
    let made = both(alloc, true, None);
    let other = made_gives(alloc, &mut quads, made, "x:b", "no", &mut steps)?;
    Ok(any && all && other)
}

#[test]
fn a_property_that_is_to_be_absent_is_null(rt: HostRuntime) -> Result<(), Fail> {
    let alloc = rt.alloc();
    assert!(rt; match_none::<Brand>(alloc, Blank::new(1))?);
    Ok(())
}

#[test]
fn all_properties_match_where_all_are_required(rt: HostRuntime) -> Result<(), Fail> {
    let alloc = rt.alloc();
    assert!(rt; require_all::<Brand>(alloc, Blank::new(1))?);
    Ok(())
}

// `{ "@id": x:a, x:p: { "@value": "y", "@default": FALLBACK } }`
fn with_default(alloc: Global, fallback: Option<DefaultList>) -> Result<Frame, Memory> {
    match pattern(alloc, "y") {
        Ok(kind) => {
            let mut sub = map(alloc, kind);
            sub.fallback = fallback;
            of_a(alloc, "x:p", sub)
        }
        Err(Memory) => Err(Memory),
    }
}

// The same without `@default`, with `@omitDefault`.
fn omitting(alloc: Global) -> Result<Frame, Memory> {
    let mut sub = map(alloc, pattern(alloc, "y")?);
    sub.omit_default = Some(true);
    of_a(alloc, "x:p", sub)
}

fn text_default(alloc: Global) -> Result<Frame, Memory> {
    let fallback = one_default(alloc, "d")?;
    with_default(alloc, Some(fallback))
}

fn defaults<L: Ledger>(alloc: Global, blank: Blank) -> Result<bool, Memory>
    requires name { blank.name ≡ L.name }
    requires parts { blank.parts ≡ L.parts }
    requires one { 0 < blank.parts }
{
    let mut steps = Steps::<L>::of(blank);
    let mut quads = no_quads(alloc);
    quads.put(alloc, "x:a", "x:p", "'x", "")?;
    let made = text_default(alloc);
    let text = made_gives(alloc, &mut quads, made, "x:a", "x:a(x:p=~d ;)", &mut steps)?;
    let made = with_default(alloc, None);
    let null = made_gives(
        alloc,
        &mut quads,
        made,
        "x:a",
        "x:a(x:p=~null ;)",
        &mut steps,
    )?;
    let made = with_default(alloc, Some(DefaultList::new(alloc)));
    let empty = made_gives(alloc, &mut quads, made, "x:a", "x:a(x:p=[] ;)", &mut steps)?;
    let made = omitting(alloc);
    let omitted = made_gives(alloc, &mut quads, made, "x:a", "x:a()", &mut steps)?;
    Ok(text && null && empty && omitted)
}

#[test]
fn a_property_without_a_value_takes_its_default(rt: HostRuntime) -> Result<(), Fail> {
    let alloc = rt.alloc();
    assert!(rt; defaults::<Brand>(alloc, Blank::new(1))?);
    Ok(())
}

// `{ "@id": x:a, "@reverse": { x:p: {} } }`
fn reversed(alloc: Global) -> Result<Frame, Memory> {
    let reverse = one_reverse(alloc, "x:p", 1)?;
    let mut top = by_id(alloc, "x:a")?;
    top.reverse = reverse;
    two(alloc, top, map(alloc, FrameKind::Wild))
}

fn reverse_arrives<L: Ledger>(alloc: Global, blank: Blank) -> Result<bool, Memory>
    requires name { blank.name ≡ L.name }
    requires parts { blank.parts ≡ L.parts }
    requires one { 0 < blank.parts }
{
    let mut steps = Steps::<L>::of(blank);
    let mut quads = no_quads(alloc);
    quads.put(alloc, "x:a", "x:n", "'A", "")?;
    let made = reversed(alloc);
    let before = made_gives(alloc, &mut quads, made, "x:a", "x:a(x:n='A ;)", &mut steps)?;
    quads.put(alloc, "x:b", "x:p", "x:a", "")?;
    let wanted = "x:a(x:n='A ;^x:p=x:b(x:p=x:a() ;);)";
    let made = reversed(alloc);
    let after = made_gives(alloc, &mut quads, made, "x:a", wanted, &mut steps)?;
    Ok(before && after)
}

#[test]
fn a_node_that_points_here_arrives(rt: HostRuntime) -> Result<(), Fail> {
    let alloc = rt.alloc();
    assert!(rt; reverse_arrives::<Brand>(alloc, Blank::new(1))?);
    Ok(())
}

// `{ "@graph": {} }`
fn graphs(alloc: Global) -> Result<Frame, Memory> {
    let mut top = map(alloc, FrameKind::Node);
    top.graph = Some(1);
    let mut frame = two(alloc, top, map(alloc, FrameKind::Wild))?;
    frame.top_graph = true;
    Ok(frame)
}

fn named_graph<L: Ledger>(alloc: Global, blank: Blank) -> Result<bool, Memory>
    requires name { blank.name ≡ L.name }
    requires parts { blank.parts ≡ L.parts }
    requires one { 0 < blank.parts }
{
    let mut steps = Steps::<L>::of(blank);
    let mut quads = no_quads(alloc);
    quads.put(alloc, "x:a", "x:p", "'1", "x:g")?;
    let made = graphs(alloc);
    let entered = made_gives(
        alloc,
        &mut quads,
        made,
        "x:g",
        "x:g(@x:a(x:p='1 ;))",
        &mut steps,
    )?;
    let made = graphs(alloc);
    let apart = made_gives(alloc, &mut quads, made, "x:a", "none", &mut steps)?;
    let made = embedding(alloc, Embed::Once);
    let merged = made_gives(alloc, &mut quads, made, "x:a", "x:a(x:p='1 ;)", &mut steps)?;
    let made = embedding(alloc, Embed::Once);
    let name = made_gives(alloc, &mut quads, made, "x:g", "x:g()", &mut steps)?;
    Ok(entered && apart && merged && name)
}

#[test]
fn a_graph_is_entered_where_the_frame_asks(rt: HostRuntime) -> Result<(), Fail> {
    let alloc = rt.alloc();
    assert!(rt; named_graph::<Brand>(alloc, Blank::new(1))?);
    Ok(())
}

fn put_cell(
    alloc: Global,
    quads: &mut PlainQuads,
    node: &str,
    item: &str,
    rest: &str,
) -> Result<(), Memory> {
    quads.put(alloc, node, FIRST, item, "")?;
    quads.put(alloc, node, REST, rest, "")
}

fn put_list(alloc: Global, quads: &mut PlainQuads) -> Result<(), Memory> {
    quads.put(alloc, "x:a", "x:l", "_:c1", "")?;
    put_cell(alloc, quads, "_:c1", "'1", "_:c2")?;
    put_cell(alloc, quads, "_:c2", "'2", "_:c3")?;
    put_cell(alloc, quads, "_:c3", "'3", NIL)
}

fn only_a(alloc: Global) -> Result<Frame, Memory> {
    let top = by_id(alloc, "x:a")?;
    alone(alloc, top)
}

fn loses_cell<L: Ledger>(alloc: Global, blank: Blank) -> Result<bool, Memory>
    requires name { blank.name ≡ L.name }
    requires parts { blank.parts ≡ L.parts }
    requires one { 0 < blank.parts }
{
    let mut steps = Steps::<L>::of(blank);
    let mut quads = no_quads(alloc);
    put_list(alloc, &mut quads)?;
    let made = only_a(alloc);
    let wanted = "x:a(x:l=['1 '2 '3 ] ;)";
    let whole = made_gives(alloc, &mut quads, made, "x:a", wanted, &mut steps)?;
    quads.put(alloc, "_:c2", "x:x", "'y", "")?;
    let made = only_a(alloc);
    let wanted =
        "x:a(x:l=_:c1(http://www.w3.org/1999/02/22-rdf-syntax-ns#first='1 ;http://www.w3.org/1999/02/22-rdf-syntax-ns#rest=_:c2(http://www.w3.org/1999/02/22-rdf-syntax-ns#first='2 ;http://www.w3.org/1999/02/22-rdf-syntax-ns#rest=['3 ] ;x:x='y ;) ;) ;)";
    let broken = made_gives(alloc, &mut quads, made, "x:a", wanted, &mut steps)?;
    Ok(whole && broken)
}

#[test]
fn a_list_loses_a_cell(rt: HostRuntime) -> Result<(), Fail> {
    let alloc = rt.alloc();
    assert!(rt; loses_cell::<Brand>(alloc, Blank::new(1))?);
    Ok(())
}

// `{ "@id": x:a, x:l: { "@list": ITEMS } }`, for any items or for the text "2"
fn list_of_any(alloc: Global) -> Result<Frame, Memory> {
    of_a(alloc, "x:l", map(alloc, FrameKind::List(None)))
}

fn list_of_two(alloc: Global) -> Result<Frame, Memory> {
    let item = pattern(alloc, "2")?;
    let mut frame = of_a(alloc, "x:l", map(alloc, FrameKind::List(Some(2))))?;
    frame.nodes.push(map(alloc, item))?;
    Ok(frame)
}

// `{ "@id": x:a, x:l: PATTERN }`
fn value_one(alloc: Global) -> Result<Frame, Memory> {
    let item = pattern(alloc, "1")?;
    of_a(alloc, "x:l", map(alloc, item))
}

fn patterns<L: Ledger>(alloc: Global, blank: Blank) -> Result<bool, Memory>
    requires name { blank.name ≡ L.name }
    requires parts { blank.parts ≡ L.parts }
    requires one { 0 < blank.parts }
{
    let mut steps = Steps::<L>::of(blank);
    let mut quads = no_quads(alloc);
    put_list(alloc, &mut quads)?;
    quads.put(alloc, "x:a", "x:l", "'1", "")?;
    quads.put(alloc, "x:a", "x:l", "x:b", "")?;
    let made = list_of_any(alloc);
    let wanted = "x:a(x:l=['1 '2 '3 ] ;)";
    let any = made_gives(alloc, &mut quads, made, "x:a", wanted, &mut steps)?;
    let made = list_of_two(alloc);
    let item = made_gives(
        alloc,
        &mut quads,
        made,
        "x:a",
        "x:a(x:l=['2 ] ;)",
        &mut steps,
    )?;
    let made = value_one(alloc);
    let value = made_gives(alloc, &mut quads, made, "x:a", "x:a(x:l='1 ;)", &mut steps)?;
    Ok(any && item && value)
}

#[test]
fn patterns_take_their_values(rt: HostRuntime) -> Result<(), Fail> {
    let alloc = rt.alloc();
    assert!(rt; patterns::<Brand>(alloc, Blank::new(1))?);
    Ok(())
}

// `{ "@id": x:a, x:p: { "@type": x:U } }`
fn by_type(alloc: Global) -> Result<Frame, Memory> {
    let types = TypeTest::OneOf(one_term(alloc, "x:U")?);
    let mut sub = map(alloc, FrameKind::Node);
    sub.types = types;
    of_a(alloc, "x:p", sub)
}

// `{ "@type": { "@default": x:V } }`
fn type_default(alloc: Global) -> Result<Frame, Memory> {
    let types = TypeTest::Fallback(one_term(alloc, "x:V")?);
    let mut top = map(alloc, FrameKind::Node);
    top.types = types;
    alone(alloc, top)
}

// `{ "@id": x:a, "@explicit": true, x:q: {} }`
fn explicit(alloc: Global) -> Result<Frame, Memory> {
    let props = one_prop(alloc, "x:q", Some(1))?;
    let mut top = by_id(alloc, "x:a")?;
    top.explicit = true;
    top.props = props;
    two(alloc, top, map(alloc, FrameKind::Wild))
}

fn types_and_flags<L: Ledger>(alloc: Global, blank: Blank) -> Result<bool, Memory>
    requires name { blank.name ≡ L.name }
    requires parts { blank.parts ≡ L.parts }
    requires one { 0 < blank.parts }
{
    let mut steps = Steps::<L>::of(blank);
    let mut quads = no_quads(alloc);
    quads.put(alloc, "x:a", "x:p", "x:b", "")?;
    quads.put(alloc, "x:a", "x:p", "x:c", "")?;
    quads.put(alloc, "x:b", TYPE, "x:U", "")?;
    quads.put(alloc, "x:c", "x:n", "'c", "")?;
    let made = by_type(alloc);
    let typed = made_gives(
        alloc,
        &mut quads,
        made,
        "x:a",
        "x:a(x:p=x:b!x:U() ;)",
        &mut steps,
    )?;
    let made = type_default(alloc);
    let given = made_gives(
        alloc,
        &mut quads,
        made,
        "x:c",
        "x:c!x:V(x:n='c ;)",
        &mut steps,
    )?;
    let made = explicit(alloc);
    let stated = made_gives(
        alloc,
        &mut quads,
        made,
        "x:a",
        "x:a(x:q=~null ;)",
        &mut steps,
    )?;
    Ok(typed && given && stated)
}

#[test]
fn types_are_tested_and_given(rt: HostRuntime) -> Result<(), Fail> {
    let alloc = rt.alloc();
    assert!(rt; types_and_flags::<Brand>(alloc, Blank::new(1))?);
    Ok(())
}

// ---- limits

fn put_link(alloc: Global, quads: &mut PlainQuads, number: u32) -> Result<(), Memory> {
    let next = number.wrapping_add(1);
    let from = format!(in alloc; "x:n{number}")?;
    let to = format!(in alloc; "x:n{next}")?;
    quads.put(alloc, from.as_str(), "x:p", to.as_str(), "")
}

// A chain of nodes, from `x:n0` to the one of this number.
fn chain(alloc: Global, last: u32) -> Result<PlainQuads, Memory> {
    let mut quads = no_quads(alloc);
    for number in 0..last {
        put_link(alloc, &mut quads, number)?;
    }
    Ok(quads)
}

fn put_number(alloc: Global, quads: &mut PlainQuads, number: u32) -> Result<(), Memory> {
    let value = format!(in alloc; "'{number}")?;
    quads.put(alloc, "x:n0", "x:p", value.as_str(), "")
}

// A node with this many values.
fn values(alloc: Global, count: u32) -> Result<PlainQuads, Memory> {
    let mut quads = no_quads(alloc);
    for number in 0..count {
        put_number(alloc, &mut quads, number)?;
    }
    Ok(quads)
}

fn kind(outcome: &Outcome) -> &str {
    match outcome {
        Outcome::NotKey => "none",
        Outcome::NoMatch => "no",
        Outcome::Matched(_) => "tree",
        Outcome::Over(Limit::TreeItems) => "items",
        Outcome::Over(Limit::Depth) => "depth",
        Outcome::Over(_) => "document",
    }
}

// Whether `x:n0` has an outcome of this kind by the empty frame.
fn comes_to<L: Ledger>(
    alloc: Global,
    quads: &mut PlainQuads,
    frame: &Frame,
    wanted: &str,
    steps: &mut Steps<L>,
) -> Result<bool, Memory> {
    let x = term_of(alloc, "x:n0")?;
    let mut nodes = NodesOver::new(quads);
    let outcome = tree(alloc, &mut nodes, frame, &x, steps)?;
    let right = kind(&outcome) == wanted;
    drop(outcome);
    Ok(right)
}

// Whether the beginning of a chain has an outcome of this kind.
fn chain_comes_to<L: Ledger>(
    alloc: Global,
    frame: &Frame,
    last: u32,
    wanted: &str,
    steps: &mut Steps<L>,
) -> Result<bool, Memory> {
    let mut quads = chain(alloc, last)?;
    comes_to(alloc, &mut quads, frame, wanted, steps)
}

// Whether a node with this many values has an outcome of this kind.
fn values_come_to<L: Ledger>(
    alloc: Global,
    frame: &Frame,
    count: u32,
    wanted: &str,
    steps: &mut Steps<L>,
) -> Result<bool, Memory> {
    let mut quads = values(alloc, count)?;
    comes_to(alloc, &mut quads, frame, wanted, steps)
}

fn all_limits<L: Ledger>(
    alloc: Global,
    frame: &Frame,
    steps: &mut Steps<L>,
) -> Result<bool, Memory> {
    let path = chain_comes_to(alloc, frame, 255, "tree", steps)?;
    let deep = chain_comes_to(alloc, frame, 256, "depth", steps)?;
    let full = values_come_to(alloc, frame, 65_535, "tree", steps)?;
    let over = values_come_to(alloc, frame, 65_536, "items", steps)?;
    Ok(path && deep && full && over)
}

fn limits<L: Ledger>(alloc: Global, blank: Blank) -> Result<bool, Memory>
    requires name { blank.name ≡ L.name }
    requires parts { blank.parts ≡ L.parts }
    requires one { 0 < blank.parts }
{
    let mut steps = Steps::<L>::of(blank);
    let frame = embedding(alloc, Embed::Once)?;
    let right = all_limits(alloc, &frame, &mut steps);
    drop(frame);
    right
}

#[test]
fn trees_have_limits(rt: HostRuntime) -> Result<(), Fail> {
    let alloc = rt.alloc();
    assert!(rt; limits::<Brand>(alloc, Blank::new(1))?);
    Ok(())
}

// ---- all terms

fn four_terms(alloc: Global) -> Result<TermList, Memory> {
    let mut terms = TermList::new(alloc);
    terms.push(term_of(alloc, "_:c2")?)?;
    terms.push(term_of(alloc, "x:a")?)?;
    terms.push(term_of(alloc, "x:b")?)?;
    terms.push(term_of(alloc, "x:d")?)?;
    Ok(terms)
}

fn all_terms<L: Ledger>(
    alloc: Global,
    frame: &Frame,
    steps: &mut Steps<L>,
) -> Result<bool, Memory> {
    let mut quads = no_quads(alloc);
    put_list(alloc, &mut quads)?;
    quads.put(alloc, "x:d", "x:p", "x:b", "")?;
    let terms = four_terms(alloc)?;
    let mut nodes = NodesOver::new(&mut quads);
    let made = outcomes_of(alloc, &mut nodes, frame, &terms, steps)?;
    let text = all_shown(alloc, &made);
    drop(made);
    Ok(text?.as_str() == "none no no x:d(x:p=x:b() ;) ")
}

fn each_outcome<L: Ledger>(alloc: Global, blank: Blank) -> Result<bool, Memory>
    requires name { blank.name ≡ L.name }
    requires parts { blank.parts ≡ L.parts }
    requires one { 0 < blank.parts }
{
    let mut steps = Steps::<L>::of(blank);
    let frame = by_property(alloc)?;
    let right = all_terms(alloc, &frame, &mut steps);
    drop(frame);
    right
}

#[test]
fn each_term_has_its_outcome(rt: HostRuntime) -> Result<(), Fail> {
    let alloc = rt.alloc();
    assert!(rt; each_outcome::<Brand>(alloc, Blank::new(1))?);
    Ok(())
}

// ---- the walk

fn remembers(alloc: Global) -> Result<bool, Memory> {
    let id = term_of(alloc, "x:a")?;
    let mut walk = Walk::new(alloc);
    walk.enter(alloc, &GraphRef::Merged, &id)?;
    let on_path = walk.is_on_path(&GraphRef::Merged, &id)
        && !walk.is_on_path(&GraphRef::Default, &id)
        && walk.is_referred(alloc, Embed::Always, &GraphRef::Merged, &id)?;
    walk.leave();
    let embedded = walk.is_referred(alloc, Embed::Once, &GraphRef::Merged, &id)?
        && walk.is_referred(alloc, Embed::Never, &GraphRef::Default, &id)?
        && !walk.is_referred(alloc, Embed::Once, &GraphRef::Default, &id)?
        && !walk.is_referred(alloc, Embed::Always, &GraphRef::Merged, &id)?;
    Ok(on_path && embedded && walk.is_outside(&id) && walk.count_item().is_ok())
}

#[test]
fn a_walk_remembers_its_nodes(rt: HostRuntime) -> Result<(), Fail> {
    let alloc = rt.alloc();
    assert!(rt; remembers(alloc)?);
    Ok(())
}
