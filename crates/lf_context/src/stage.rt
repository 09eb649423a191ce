//! Where the definition of a term stops to need another one, and where it goes on.
use lf_base::{Memory, Text, TryCopy};
use lf_model::TermDef;
use std::alloc::Global;

/// What an IRI is expanded for, with the type mapping of the term.
#[derive(Debug, Drop)]
pub enum Wanted {
    /// The IRI of a reverse property.
    Reverse(Option<Text>),
    /// The IRI that `@id` gives.
    Id(Option<Text>),
}

/// Where a definition goes on.
#[derive(Debug, Drop)]
pub enum Stage {
    /// The text of the type mapping is no term that is still to be defined; its prefix may be one.
    TypePrefix { words: Text },
    /// The text of the type mapping can be expanded.
    TypeExpanding { words: Text },
    /// The text of the IRI is no term that is still to be defined; its prefix may be one.
    IriPrefix { words: Text, wanted: Wanted },
    /// The text of the IRI can be expanded.
    IriExpanding { words: Text, wanted: Wanted },
    /// The term itself can be expanded, which must give the IRI.
    Confirming { coercion: Option<Text>, iri: Text },
    /// The term's own prefix can be looked up.
    ByName { coercion: Option<Text> },
}

/// What a definition comes to.
#[derive(Debug, Drop)]
pub enum Turn {
    /// It needs a term to be defined, and goes on then.
    Asks { asked: Text, rest: Stage },
    /// The term has no definition.
    Settled,
    Defined(TermDef),
}

impl TryCopy for Wanted {
    fn copy(&self, alloc: Global) -> Result<Wanted, Memory> {
        match self {
            Wanted::Reverse(coercion) => Ok(Wanted::Reverse(coercion.copy(alloc)?)),
            Wanted::Id(coercion) => Ok(Wanted::Id(coercion.copy(alloc)?)),
        }
    }
}
