//! RDF terms: IRIs, blank nodes and literals (RDF 1.1 Concepts, section 3).
use lf_base::{ListOf, Memory, Same, Text, TryCopy};
use std::alloc::Global;

/// An RDF term (RDF 1.1 Concepts, section 3).
#[derive(Debug, Drop)]
pub enum Term {
    /// An IRI, without angle brackets.
    Iri(Text),
    /// A blank node by its label, without `_:`.
    Blank(Text),
    /// A literal. `datatype` is an IRI; with a language it is `rdf:langString`.
    Literal {
        lexical: Text,
        datatype: Text,
        language: Option<Text>,
    },
}

/// A list of terms.
pub type TermList = ListOf<Term>;

impl TryCopy for Term {
    fn copy(&self, alloc: Global) -> Result<Term, Memory> {
        match self {
            Term::Iri(iri) => Ok(Term::Iri(iri.copy(alloc)?)),
            Term::Blank(label) => Ok(Term::Blank(label.copy(alloc)?)),
            Term::Literal {
                lexical,
                datatype,
                language,
            } => Ok(Term::Literal {
                lexical: lexical.copy(alloc)?,
                datatype: datatype.copy(alloc)?,
                language: language.copy(alloc)?,
            }),
        }
    }
}

impl Same for Term {
    fn is(&self, other: &Term) -> bool {
        match self {
            Term::Iri(iri) => match other {
                Term::Iri(other_iri) => iri.is(other_iri),
                Term::Blank(_) => false,
                Term::Literal { .. } => false,
            },
            Term::Blank(label) => match other {
                Term::Blank(other_label) => label.is(other_label),
                Term::Iri(_) => false,
                Term::Literal { .. } => false,
            },
            Term::Literal {
                lexical,
                datatype,
                language,
            } => match other {
                Term::Literal {
                    lexical: other_lexical,
                    datatype: other_datatype,
                    language: other_language,
                } => lexical.is(other_lexical)
                    && datatype.is(other_datatype)
                    && language.is(other_language),
                Term::Iri(_) => false,
                Term::Blank(_) => false,
            },
        }
    }
}
