//! The types that framing works on: JSON values, node views, contexts, frames, trees and documents.
#![tactic(auto)]

mod desk;
mod document;
mod error;
mod frame;
mod frame_copy;
mod json;
mod scalar;
mod table;
#[cfg(test)]
mod tests;
mod tree;
mod value;

pub use desk::{Counted, FramedNow, Look, Notice, NoticeList};
pub use document::{Doc, Limit, Outcome, OutcomeList};
pub use error::{LdError, error_names_law};
pub use frame::{
    DefaultList, DefaultValue, Embed, Frame, FrameKind, FrameNode, FrameNodeList, FrameProp,
    FramePropList, FrameReverse, FrameReverseList, IdTest, PartTest, TypeTest, ValuePattern,
};
pub use json::{Json, JsonList, JsonMap};
pub use scalar::{Scalar, ScalarList};
pub use table::{Container, TermDef, TermDefList, TermTable};
pub use tree::{
    Tree, TreeList, TreeProp, TreePropList, TreeReverse, TreeReverseList, TreeValue, TreeValueList,
};
pub use value::{NodeView, Prop, PropList, Value, ValueList};
