//! The nodes of a dataset's graphs, with each view kept that was given.
#![tactic(auto)]

mod entry;
mod kept_nodes;
mod key;
mod telling;
#[cfg(test)]
mod tests;

pub use kept_nodes::KeptNodes;
