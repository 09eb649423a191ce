//! The operations that a history lists.
use lf_base::{ListOf, Memory, Text, TryCopy};
use lf_rdf::Patch;
use std::alloc::Global;

/// One entry of a history. A seat is the number of the caller that made it.
#[derive(Debug, Drop)]
pub enum Operation {
    /// A patch that made the next version.
    Commit { seat: u64, patch: Patch },
    /// A frame's text under a name, which is live from here on.
    Register { seat: u64, name: Text, text: Text },
    /// The name is no longer live.
    Retire { seat: u64, name: Text },
    /// The frame's document of this version was published.
    Publish { name: Text, version: u64 },
}

/// A history: operations in the order in which they were made.
pub type OperationList = ListOf<Operation>;

impl TryCopy for Operation {
    fn copy(&self, alloc: Global) -> Result<Operation, Memory> {
        match self {
            Operation::Commit { seat, patch } => Ok(Operation::Commit {
                seat: *seat,
                patch: patch.copy(alloc)?,
            }),
            Operation::Register { seat, name, text } => Ok(Operation::Register {
                seat: *seat,
                name: name.copy(alloc)?,
                text: text.copy(alloc)?,
            }),
            Operation::Retire { seat, name } => Ok(Operation::Retire {
                seat: *seat,
                name: name.copy(alloc)?,
            }),
            Operation::Publish { name, version } => Ok(Operation::Publish {
                name: name.copy(alloc)?,
                version: *version,
            }),
        }
    }
}
