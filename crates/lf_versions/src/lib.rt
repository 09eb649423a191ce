//! Versions of a dataset: each is the commits that made it, and the index of its quads.
#![tactic(auto)]

mod change;
mod commit;
mod delta;
mod error;
#[cfg(test)]
mod tests;
mod version;

pub use commit::Commit;
pub use error::VersionErr;
pub use version::Version;
