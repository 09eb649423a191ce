//! Quads, signed quads and patches (RDF 1.1 Concepts, section 4).
use crate::term::Term;
use lf_base::{ListOf, Memory, Same, TryCopy};
use std::alloc::Global;

/// A statement in the default graph or in a named one (RDF 1.1 N-Quads, section 2).
#[derive(Debug, Drop)]
pub struct Quad {
    pub subject: Term,
    pub predicate: Term,
    pub object: Term,
    /// The graph's name, or none for the default graph.
    pub graph: Option<Term>,
}

/// A list of quads.
pub type QuadList = ListOf<Quad>;

impl TryCopy for Quad {
    fn copy(&self, alloc: Global) -> Result<Quad, Memory> {
        Ok(Quad {
            subject: self.subject.copy(alloc)?,
            predicate: self.predicate.copy(alloc)?,
            object: self.object.copy(alloc)?,
            graph: self.graph.copy(alloc)?,
        })
    }
}

impl Same for Quad {
    fn is(&self, other: &Quad) -> bool {
        self.subject.is(&other.subject)
            && self.predicate.is(&other.predicate)
            && self.object.is(&other.object)
            && self.graph.is(&other.graph)
    }
}

/// A quad that a patch adds or deletes.
#[derive(Debug, Drop)]
pub struct Signed {
    /// Whether the quad is added. Otherwise it is deleted.
    pub add: bool,
    pub quad: Quad,
}

/// A list of signed quads.
pub type SignedList = ListOf<Signed>;

impl TryCopy for Signed {
    fn copy(&self, alloc: Global) -> Result<Signed, Memory> {
        Ok(Signed {
            add: self.add,
            quad: self.quad.copy(alloc)?,
        })
    }
}

/// What one patch text says: signed quads in the order of its lines.
#[derive(Debug, Drop)]
pub struct Patch {
    pub lines: SignedList,
    /// The length of the patch text in bytes.
    pub bytes: u64,
}

impl TryCopy for Patch {
    fn copy(&self, alloc: Global) -> Result<Patch, Memory> {
        Ok(Patch {
            lines: self.lines.copy(alloc)?,
            bytes: self.bytes,
        })
    }
}
