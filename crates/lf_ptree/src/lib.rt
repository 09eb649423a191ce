//! A persistent ordered map whose versions share their pages.
#![tactic(auto)]

mod build;
mod map;
mod page;
mod pages;
mod range;
mod removal;
mod root;
#[cfg(test)]
mod tests;

pub use map::PMap;
pub use range::{Pairs, Range};
