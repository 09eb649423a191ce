//! The oracle of a plain list of quads, for tests and small datasets: each question walks the whole
//! list.
#![tactic(auto)]

mod answers;
mod members;
mod order;
mod plain;
#[cfg(test)]
mod tests;
mod words;

pub use plain::PlainQuads;
pub use words::term_of;
