//! Frames of a few maps, for tests.
use lf_base::{Memory, Text};
use lf_model::{
    DefaultList, DefaultValue, Embed, Frame, FrameKind, FrameNode, FrameNodeList, FrameProp,
    FramePropList, FrameReverse, FrameReverseList, IdTest, Json, PartTest, Scalar, ScalarList,
    TermDefList, TermTable, TypeTest, ValuePattern,
};
use lf_plain::term_of;
use lf_rdf::TermList;
use std::alloc::Global;

// A map of a kind, with the flags that hold where none is stated.
pub(crate) fn map(alloc: Global, kind: FrameKind) -> FrameNode {
    FrameNode {
        ids: IdTest::Absent,
        types: TypeTest::Absent,
        embed: Embed::Once,
        explicit: false,
        require_all: false,
        omit_default: None,
        props: FramePropList::new(alloc),
        reverse: FrameReverseList::new(alloc),
        graph: None,
        kind,
        fallback: None,
    }
}

// The maps of a frame, the top one first.
pub(crate) fn frame(alloc: Global, maps: FrameNodeList) -> Frame {
    Frame {
        nodes: maps,
        context: Json::Null,
        table: TermTable {
            vocab: None,
            language: None,
            terms: TermDefList::new(alloc),
            type_set: false,
        },
        top_graph: false,
    }
}

// A frame of one map without sub-frames.
pub(crate) fn alone(alloc: Global, top: FrameNode) -> Result<Frame, Memory> {
    let mut maps = FrameNodeList::new(alloc);
    maps.push(top)?;
    Ok(frame(alloc, maps))
}

// A frame of two maps, where the top one names the other.
pub(crate) fn two(alloc: Global, top: FrameNode, sub: FrameNode) -> Result<Frame, Memory> {
    let mut maps = FrameNodeList::new(alloc);
    maps.push(top)?;
    maps.push(sub)?;
    Ok(frame(alloc, maps))
}

pub(crate) fn one_prop(
    alloc: Global,
    property: &str,
    sub: Option<u32>,
) -> Result<FramePropList, Memory> {
    let property = Text::of(alloc, property)?;
    let mut props = FramePropList::new(alloc);
    props.push(FrameProp {
        property,
        frame: sub,
    })?;
    Ok(props)
}

// `x:p` and `x:q`, with these sub-frames.
pub(crate) fn two_props(
    alloc: Global,
    p: Option<u32>,
    q: Option<u32>,
) -> Result<FramePropList, Memory> {
    let mut props = one_prop(alloc, "x:p", p)?;
    props.push(FrameProp {
        property: Text::of(alloc, "x:q")?,
        frame: q,
    })?;
    Ok(props)
}

pub(crate) fn one_reverse(
    alloc: Global,
    property: &str,
    sub: u32,
) -> Result<FrameReverseList, Memory> {
    let property = Text::of(alloc, property)?;
    let mut props = FrameReverseList::new(alloc);
    props.push(FrameReverse {
        property,
        frame: sub,
    })?;
    Ok(props)
}

pub(crate) fn one_term(alloc: Global, word: &str) -> Result<TermList, Memory> {
    let mut terms = TermList::new(alloc);
    terms.push(term_of(alloc, word)?)?;
    Ok(terms)
}

// A pattern of one plain string.
pub(crate) fn pattern(alloc: Global, text: &str) -> Result<FrameKind, Memory> {
    let mut texts = ScalarList::new(alloc);
    texts.push(Scalar::Text(Text::of(alloc, text)?))?;
    Ok(FrameKind::Value(ValuePattern {
        value: PartTest::OneOf(texts),
        datatype: PartTest::Absent,
        language: PartTest::Absent,
    }))
}

pub(crate) fn one_default(alloc: Global, text: &str) -> Result<DefaultList, Memory> {
    let scalar = Scalar::Text(Text::of(alloc, text)?);
    let mut values = DefaultList::new(alloc);
    values.push(DefaultValue::Scalar {
        scalar,
        datatype: None,
        language: None,
    })?;
    Ok(values)
}

// A node frame for one id.
pub(crate) fn by_id(alloc: Global, word: &str) -> Result<FrameNode, Memory> {
    let ids = IdTest::OneOf(one_term(alloc, word)?);
    let mut top = map(alloc, FrameKind::Node);
    top.ids = ids;
    Ok(top)
}

// `{ "@id": x:a, PROPERTY: SUB }`
pub(crate) fn of_a(alloc: Global, property: &str, sub: FrameNode) -> Result<Frame, Memory> {
    let props = one_prop(alloc, property, Some(1))?;
    let mut top = by_id(alloc, "x:a")?;
    top.props = props;
    two(alloc, top, sub)
}
