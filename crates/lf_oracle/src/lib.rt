//! Oracles, which answer questions of a dataset, and the nodes that are seen by asking them.
#![tactic(auto)]

mod asking;
mod laws;
mod naming;
mod no_quads;
mod nodes;
mod oracle;
#[cfg(test)]
mod tests;

pub use asking::ask_flag;
pub use laws::{learnt_is_exact, learnt_stays};
pub use naming::names_graph;
pub use no_quads::NoQuads;
pub use nodes::Nodes;
pub use oracle::Oracle;
