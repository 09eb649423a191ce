//! JSON texts read as values, and values written as compact texts (RFC 8259).
#![tactic(auto)]

mod laws;
mod read;
#[cfg(test)]
mod tests;
mod write;

pub use laws::{each_reading_gives_back, text_is_compact};
pub use read::{JsonErr, read_json};
pub use write::{has_fraction, text};
