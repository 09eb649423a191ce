//! The types and the definitions of ldframes under one name. Each crate below it holds what belongs
//! together, so that a change proves little anew; `docs/ARCHITECTURE.md` says which crate holds
//! what.
#![tactic(auto)]

#[cfg(test)]
mod tests;

pub use def_histories::{Live, Operation, OperationList};
pub use def_patch_texts::LineKind;
pub use def_selection::{ContainerList, Pick, PickKind};
pub use lf_base::{ListOf, Memory, Same, Steps, Text, TextList, TryCopy};
pub use lf_desk::{CommitErr, Desk, RegisterErr};
pub use lf_model::{
    Container, Counted, DefaultList, DefaultValue, Doc, Embed, Frame, FrameKind, FrameNode,
    FrameNodeList, FrameProp, FramePropList, FrameReverse, FrameReverseList, FramedNow, IdTest,
    Json, JsonList, JsonMap, LdError, Limit, Look, NodeView, Notice, NoticeList, Outcome,
    OutcomeList, PartTest, Prop, PropList, Scalar, ScalarList, TermDef, TermDefList, TermTable,
    Tree, TreeList, TreeProp, TreePropList, TreeReverse, TreeReverseList, TreeValue, TreeValueList,
    TypeTest, Value, ValueList, ValuePattern,
};
pub use lf_oracle::{Nodes, Oracle};
pub use lf_rdf::{
    Answer, GraphRef, Patch, Quad, QuadList, Question, QuestionList, Signed, SignedList, Term,
    TermList,
};
pub use lf_sorted::{Entry, MapOf};
