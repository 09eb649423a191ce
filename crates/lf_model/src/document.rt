//! Outcomes of terms, and documents, with the limits that they may pass.
use crate::error::LdError;
use crate::tree::Tree;
use lf_base::{ListOf, Memory, Text, TryCopy};
use std::alloc::Global;

/// A limit of framing that a document met.
#[derive(Clone, Copy, Debug, PartialEq, Eq)]
pub enum Limit {
    /// The items of one tree.
    TreeItems,
    /// The steps of a path in a tree.
    Depth,
    /// The items of all trees of a document.
    DocumentItems,
    /// The bytes of a document's text.
    DocumentBytes,
}

/// What a frame gives for one term of a dataset (JSON-LD 1.1 Framing, section 4.3).
#[derive(Debug, Drop)]
pub enum Outcome {
    /// The term is no node of the framed graph.
    NotKey,
    /// The node doesn't match the frame.
    NoMatch,
    Matched(Tree),
    Over(Limit),
}

/// A list of outcomes.
pub type OutcomeList = ListOf<Outcome>;

/// A framed document: its JSON text, an error, or a limit.
#[derive(Debug, Drop)]
pub enum Doc {
    Bytes(Text),
    Refused(LdError),
    Over(Limit),
}

impl TryCopy for Outcome {
    fn copy(&self, alloc: Global) -> Result<Outcome, Memory> {
        match self {
            Outcome::NotKey => Ok(Outcome::NotKey),
            Outcome::NoMatch => Ok(Outcome::NoMatch),
            Outcome::Matched(tree) => Ok(Outcome::Matched(tree.copy(alloc)?)),
            Outcome::Over(limit) => Ok(Outcome::Over(*limit)),
        }
    }
}

impl TryCopy for Doc {
    fn copy(&self, alloc: Global) -> Result<Doc, Memory> {
        match self {
            Doc::Bytes(text) => Ok(Doc::Bytes(text.copy(alloc)?)),
            Doc::Refused(error) => Ok(Doc::Refused(*error)),
            Doc::Over(limit) => Ok(Doc::Over(*limit)),
        }
    }
}
