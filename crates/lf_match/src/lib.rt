//! Which nodes a frame matches and which values a sub-frame accepts (JSON-LD 1.1 Framing, section
//! 4.2.2).
#![tactic(auto)]

mod matching;
mod pattern;
mod rows;
#[cfg(test)]
mod tests;
mod verdict;
mod view;

pub use matching::{accepts, matches, view_matches};
pub use rows::{later_row, row_has_default, row_is_wild};
pub use verdict::Verdict;
pub use view::values_under;
