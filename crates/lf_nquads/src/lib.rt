//! Patch texts and N-Quads (RDF 1.1 N-Quads), read and written.
#![tactic(auto)]

mod blank;
mod characters;
mod cursor;
mod error;
mod escape;
mod iri;
mod laws;
mod literal;
mod patch;
mod statement;
mod write;

pub use characters::{begins_label, is_label_char};
pub use error::LineErr;
pub use laws::each_text_is_told;
pub use patch::read_patch;
pub use write::write_quads;

#[cfg(test)]
mod tests;
