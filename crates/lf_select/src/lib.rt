//! Which term of a context stands for an IRI and a value, by tables that are made once for a
//! document.
#![tactic(auto)]

mod choose;
mod error;
mod inverse;
mod key;
mod names;
mod prefixes;
mod shelves;
mod shorten;
#[cfg(test)]
mod tests;
mod text;

pub use error::SelectErr;
pub use inverse::{Inverse, compact_iri};
pub use shorten::stands_for;
