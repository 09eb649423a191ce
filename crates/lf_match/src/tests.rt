//! Matching that asks nothing, over nodes that answer no call.
ghost use Rattle.std.specs.Prelude.{◌≡◌, ◌<◌};

use crate::view_matches;
use lf_base::{Memory, Steps, Text};
use lf_model::{
    DefaultList, Embed, Frame, FrameKind, FrameNode, FrameNodeList, FrameProp, FramePropList,
    FrameReverseList, IdTest, Json, NodeView, PartTest, Prop, PropList, Scalar, ScalarList,
    TermDefList, TermTable, TypeTest, Value, ValueList, ValuePattern,
};
use lf_oracle::Nodes;
use lf_rdf::{GraphRef, Term, TermList};
use std::alloc::Global;
use std::marker::Brand;
use std::sync::ledger::{Blank, Ledger};
use std::test::Fail;

#[derive(Debug, Drop)]
struct NoNodes;

impl Nodes for NoNodes {
    ghost use Rattle.std.specs.Prelude.{[], None};

    ghost quads = { λ nodes. [] };

    ghost told = { λ nodes. None };

    fn node<L: Ledger>(
        &mut self,
        _alloc: Global,
        _graph: &GraphRef,
        _id: &Term,
        _steps: &mut Steps<L>,
    ) -> Result<Option<NodeView>, Memory> {
        Err(Memory)
    }

    fn members<L: Ledger>(
        &mut self,
        _alloc: Global,
        _graph: &GraphRef,
        _steps: &mut Steps<L>,
    ) -> Result<TermList, Memory> {
        Err(Memory)
    }

    fn pointing<L: Ledger>(
        &mut self,
        _alloc: Global,
        _graph: &GraphRef,
        _property: &Term,
        _id: &Term,
        _steps: &mut Steps<L>,
    ) -> Result<TermList, Memory> {
        Err(Memory)
    }

    fn names_graph<L: Ledger>(
        &mut self,
        _alloc: Global,
        _name: &Term,
        _steps: &mut Steps<L>,
    ) -> Result<bool, Memory> {
        Err(Memory)
    }
}

fn iri(alloc: Global, text: &str) -> Result<Term, Memory> {
    Ok(Term::Iri(Text::of(alloc, text)?))
}

fn terms(alloc: Global, text: &str) -> Result<TermList, Memory> {
    let mut all = TermList::new(alloc);
    all.push(iri(alloc, text)?)?;
    Ok(all)
}

// A node of type `e:T` with the text "a" under `e:p`.
fn node(alloc: Global) -> Result<NodeView, Memory> {
    let mut values = ValueList::new(alloc);
    values.push(Value::Literal(Term::Literal {
        lexical: Text::of(alloc, "a")?,
        datatype: Text::of(alloc, "http://www.w3.org/2001/XMLSchema#string")?,
        language: None,
    }))?;
    let mut props = PropList::new(alloc);
    props.push(Prop {
        property: Text::of(alloc, "e:p")?,
        values,
    })?;
    Ok(NodeView {
        id: iri(alloc, "e:s")?,
        types: terms(alloc, "e:T")?,
        props,
    })
}

fn map(
    alloc: Global,
    types: TypeTest,
    require_all: bool,
    props: FramePropList,
    kind: FrameKind,
    fallback: Option<DefaultList>,
) -> FrameNode {
    FrameNode {
        ids: IdTest::Absent,
        types,
        embed: Embed::Once,
        explicit: false,
        require_all,
        omit_default: None,
        props,
        reverse: FrameReverseList::new(alloc),
        graph: None,
        kind,
        fallback,
    }
}

// The pattern of one text, map 1, and a wildcard with a default, map 2, behind the top map.
fn frame(alloc: Global, top: FrameNode, text: &str) -> Result<Frame, Memory> {
    let mut texts = ScalarList::new(alloc);
    texts.push(Scalar::Text(Text::of(alloc, text)?))?;
    let pattern = FrameKind::Value(ValuePattern {
        value: PartTest::OneOf(texts),
        datatype: PartTest::Absent,
        language: PartTest::Absent,
    });
    let mut nodes = FrameNodeList::new(alloc);
    nodes.push(top)?;
    nodes.push(map(
        alloc,
        TypeTest::Absent,
        false,
        FramePropList::new(alloc),
        pattern,
        None,
    ))?;
    nodes.push(map(
        alloc,
        TypeTest::Absent,
        false,
        FramePropList::new(alloc),
        FrameKind::Wild,
        Some(DefaultList::new(alloc)),
    ))?;
    Ok(Frame {
        nodes,
        context: Json::Null,
        table: TermTable {
            vocab: None,
            language: None,
            terms: TermDefList::new(alloc),
            type_set: false,
        },
        top_graph: false,
    })
}

// A map for `e:p` and `e:q`, with these sub-frames.
fn two_props(
    alloc: Global,
    types: TypeTest,
    require_all: bool,
    p: Option<u32>,
    q: Option<u32>,
) -> Result<FrameNode, Memory> {
    let mut props = FramePropList::new(alloc);
    props.push(FrameProp {
        property: Text::of(alloc, "e:p")?,
        frame: p,
    })?;
    props.push(FrameProp {
        property: Text::of(alloc, "e:q")?,
        frame: q,
    })?;
    Ok(map(alloc, types, require_all, props, FrameKind::Node, None))
}

fn fits<L: Ledger>(
    alloc: Global,
    top: FrameNode,
    text: &str,
    steps: &mut Steps<L>,
) -> Result<bool, Memory> {
    let frame = frame(alloc, top, text)?;
    let view = node(alloc)?;
    view_matches(
        alloc,
        &mut NoNodes,
        &GraphRef::Default,
        &view.id,
        &view,
        &frame,
        0,
        steps,
    )
}

fn all_fit<L: Ledger>(alloc: Global, blank: Blank) -> Result<bool, Memory>
    requires name { blank.name ≡ L.name }
    requires parts { blank.parts ≡ L.parts }
    requires one { 0 < blank.parts }
{
    let mut steps = Steps::<L>::of(blank);
    let wanted = TypeTest::OneOf(terms(alloc, "e:T")?);
    let other = TypeTest::OneOf(terms(alloc, "e:U")?);
    let by_type = two_props(alloc, wanted, false, Some(1), None)?;
    let by_other_type = two_props(alloc, other, false, Some(1), None)?;
    let by_text = two_props(alloc, TypeTest::Absent, false, Some(1), Some(2))?;
    let by_absence = two_props(alloc, TypeTest::Absent, false, Some(1), None)?;
    let by_all = two_props(alloc, TypeTest::Absent, true, Some(1), Some(2))?;
    let by_each = two_props(alloc, TypeTest::Absent, true, Some(1), None)?;
    let unwanted = two_props(alloc, TypeTest::Absent, false, None, None)?;
    Ok(
        fits(alloc, by_type, "b", &mut steps)?
            && !fits(alloc, by_other_type, "a", &mut steps)?
            && fits(alloc, by_text, "a", &mut steps)?
            && fits(alloc, by_absence, "b", &mut steps)?
            && fits(alloc, by_all, "a", &mut steps)?
            && !fits(alloc, by_each, "b", &mut steps)?
            && !fits(alloc, unwanted, "a", &mut steps)?,
    )
}

#[test]
fn entries_decide_by_a_view(rt: HostRuntime) -> Result<(), Fail> {
    let alloc = rt.alloc();
    assert!(rt; all_fit::<Brand>(alloc, Blank::new(1))?);
    Ok(())
}
