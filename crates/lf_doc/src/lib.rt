//! The document of a frame and of what it gives for the terms of a dataset (JSON-LD 1.1 Framing,
//! section 4).
#![tactic(auto)]

mod assembly;
mod context;
mod items;
mod labels;
mod limits;
mod maps;
mod printing;
mod sheet;
#[cfg(test)]
mod tests;
mod top;

pub use assembly::assemble;
pub use limits::room_left;
