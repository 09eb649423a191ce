//! Texts, lists and their copies: what every type of ldframes is made of.
#![tactic(auto)]

mod copying;
mod list;
mod memory;
mod steps;
#[cfg(test)]
mod tests;
mod text;

pub use copying::{Same, TryCopy};
pub use list::ListOf;
pub use memory::Memory;
pub use steps::Steps;
pub use text::{Text, TextList};
