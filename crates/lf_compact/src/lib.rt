//! Compaction of framed trees: what each value asks of a term, how it is written, and the maps that
//! nodes become.
#![tactic(auto)]

mod entry;
mod error;
mod groups;
mod key;
mod kinds;
mod members;
mod node;
mod parts;
mod picks;
mod pieces;
mod property;
#[cfg(test)]
mod tests;
mod trees;
mod turned;
mod value;
mod values;
mod write;

pub use error::CompactErr;
pub use members::{Joined, Members, add, array_of, object_of};
pub use trees::{compact, compact_with};
