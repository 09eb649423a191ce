//! The document of a frame over the quads of an index, computed from scratch (JSON-LD 1.1 Framing,
//! section 4).
#![tactic(auto)]

mod framing;
#[cfg(test)]
mod tests;

pub use framing::frame_dataset;
