//! One commit: the patch that made a version, and who made it.
use lf_rdf::Patch;

/// A patch that made a version, and the number of the seat that committed it.
#[derive(Debug, Drop)]
pub struct Commit {
    pub seat: u64,
    pub patch: Patch,
}
