//! A map from texts, kept in byte order of its keys.
#![tactic(auto)]

mod laws;
mod map;
#[cfg(test)]
mod tests;

pub use laws::put_laws;
pub use map::{Entry, MapOf};
