//! Frames as they are read: numbered maps, each sub-frame behind its parent (JSON-LD 1.1 Framing, section 4.1).
use crate::json::Json;
use crate::scalar::{Scalar, ScalarList};
use crate::table::TermTable;
use lf_base::{ListOf, Text};
use lf_rdf::{Term, TermList};

/// One map of a frame (JSON-LD 1.1 Framing, section 4.1). It names its sub-frames by their numbers, which are larger than its own.
#[derive(Debug, Drop)]
pub struct FrameNode {
    pub ids: IdTest,
    pub types: TypeTest,
    pub embed: Embed,
    pub explicit: bool,
    pub require_all: bool,
    pub omit_default: Option<bool>,
    pub props: FramePropList,
    pub reverse: FrameReverseList,
    pub graph: Option<u32>,
    pub kind: FrameKind,
    /// The values of `@default`, where it stands.
    pub fallback: Option<DefaultList>,
}

/// A list of frame nodes.
pub type FrameNodeList = ListOf<FrameNode>;

/// A property of a frame and its sub-frame; none is match-none.
#[derive(Debug, Drop)]
pub struct FrameProp {
    pub property: Text,
    pub frame: Option<u32>,
}

/// A list of a frame's properties, in byte order of their IRIs.
pub type FramePropList = ListOf<FrameProp>;

/// A property of `@reverse` and its sub-frame.
#[derive(Debug, Drop)]
pub struct FrameReverse {
    pub property: Text,
    pub frame: u32,
}

/// A list of a frame's reverse properties, in byte order of their IRIs.
pub type FrameReverseList = ListOf<FrameReverse>;

/// What a frame asks of a node's id.
#[derive(Debug, Drop)]
pub enum IdTest {
    Absent,
    Any,
    Never,
    OneOf(TermList),
}

/// What a frame asks of a node's types. `Fallback` gives types to a node without any.
#[derive(Debug, Drop)]
pub enum TypeTest {
    Absent,
    Any,
    Never,
    OneOf(TermList),
    Fallback(TermList),
}

/// The object embed flag (JSON-LD 1.1 Framing, section 4.1).
#[derive(Clone, Copy, Debug, PartialEq, Eq)]
pub enum Embed {
    Once,
    Always,
    Never,
}

/// What a sub-frame is: a wildcard, a node frame, a value pattern, or a list pattern with the number of its item pattern.
#[derive(Debug, Drop)]
pub enum FrameKind {
    Wild,
    Node,
    Value(ValuePattern),
    List(Option<u32>),
}

/// A value pattern (JSON-LD 1.1 Framing, section 4.1).
#[derive(Debug, Drop)]
pub struct ValuePattern {
    pub value: PartTest,
    pub datatype: PartTest,
    pub language: PartTest,
}

/// What a value pattern asks of one part of a literal.
#[derive(Debug, Drop)]
pub enum PartTest {
    Absent,
    Any,
    Never,
    OneOf(ScalarList),
}

/// One value of a `@default`.
#[derive(Debug, Drop)]
pub enum DefaultValue {
    Null,
    Ref(Term),
    Scalar {
        scalar: Scalar,
        datatype: Option<Text>,
        language: Option<Text>,
    },
}

/// A list of default values.
pub type DefaultList = ListOf<DefaultValue>;

/// A frame: node 0 is the top frame.
#[derive(Debug, Drop)]
pub struct Frame {
    pub nodes: FrameNodeList,
    /// The value of the frame's `@context`, which the document repeats.
    pub context: Json,
    pub table: TermTable,
    /// Whether a key of the top map expands to `@graph`.
    pub top_graph: bool,
}
