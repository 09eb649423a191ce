//! Lists over any oracle: the cells of RDF lists and the values that they stand for.
#![tactic(auto)]

mod asking;
mod cell;
mod known;
mod marks;
mod proper;
mod reader;
mod shape;
#[cfg(test)]
mod tests;
mod value;

pub use asking::{ask_quads, is_named, quads_out, quads_using};
pub use cell::is_cell;
pub use known::KnownCells;
pub use shape::{is_nil, tells_item, tells_rest};
pub use value::{list_at, value_at};
