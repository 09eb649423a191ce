//! The nested frame that a table of numbered frame maps stands for (JSON-LD 1.1 Framing, section
//! 4.1).
#![tactic(auto)]

mod laws;

pub use laws::{nested_ends, nested_is_built};
