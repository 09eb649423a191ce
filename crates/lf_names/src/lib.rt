//! The words that replies and printed texts share: kinds of bad lines, limits of documents, and
//! what a history counts.
#![tactic(auto)]

mod names;

pub use names::{counted_name, kind_name, limit_name, limit_number};
