//! How often blank node labels stand in the trees of a document, and trees without the ids that are
//! counted once.
#![tactic(auto)]

mod count;
mod counts;
mod prune;
#[cfg(test)]
mod tests;

pub use count::{add_labels, label_counts};
pub use counts::Counts;
pub use prune::tidy;
