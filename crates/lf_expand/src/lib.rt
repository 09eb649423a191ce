//! Frames as they are read (JSON-LD 1.1 Framing, section 4.2).
#![tactic(auto)]

mod class;
mod context;
mod defaults;
mod error;
mod expand;
mod flags;
mod found;
mod given;
mod keys;
mod label;
mod maps;
mod meaning;
mod node_tests;
mod numbering;
mod patterns;
mod place;
mod reading;
mod rows;
mod scalars;
mod terms;

pub use error::FrameErr;
pub use expand::expand_frame;

#[cfg(test)]
mod frame_tests;
#[cfg(test)]
mod tests;
