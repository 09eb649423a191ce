//! Term definitions of a context (JSON-LD 1.1 API, section 4.2).
use lf_base::{ListOf, Memory, Text, TryCopy};
use std::alloc::Global;

/// A processed context (JSON-LD 1.1 Processing Algorithms and API, section 4.1): its terms in byte order of their names.
#[derive(Debug, Drop)]
pub struct TermTable {
    /// The vocabulary mapping.
    pub vocab: Option<Text>,
    /// The default language.
    pub language: Option<Text>,
    pub terms: TermDefList,
    /// Whether `@type` is always an array.
    pub type_set: bool,
}

/// A term definition (JSON-LD 1.1 Processing Algorithms and API, section 4.2).
#[derive(Debug, Drop)]
pub struct TermDef {
    pub name: Text,
    /// The IRI or keyword that the term stands for, if any.
    pub iri: Option<Text>,
    /// Whether the term may be the prefix of a compact IRI.
    pub prefix: bool,
    /// Whether it is a reverse property.
    pub reverse: bool,
    /// The type mapping: `@id`, `@vocab`, `@none` or an IRI.
    pub coercion: Option<Text>,
    /// The language mapping: none, null or a language.
    pub language: Option<Option<Text>>,
    pub container: Container,
}

/// A list of term definitions.
pub type TermDefList = ListOf<TermDef>;

/// A container mapping (JSON-LD 1.1, section 9.15.1).
#[derive(Clone, Copy, Debug, PartialEq, Eq)]
pub enum Container {
    NoContainer,
    Set,
    List,
    Language,
    LanguageSet,
}

impl TryCopy for TermTable {
    fn copy(&self, alloc: Global) -> Result<TermTable, Memory> {
        Ok(TermTable {
            vocab: self.vocab.copy(alloc)?,
            language: self.language.copy(alloc)?,
            terms: self.terms.copy(alloc)?,
            type_set: self.type_set,
        })
    }
}

impl TryCopy for TermDef {
    fn copy(&self, alloc: Global) -> Result<TermDef, Memory> {
        Ok(TermDef {
            name: self.name.copy(alloc)?,
            iri: self.iri.copy(alloc)?,
            prefix: self.prefix,
            reverse: self.reverse,
            coercion: self.coercion.copy(alloc)?,
            language: self.language.copy(alloc)?,
            container: self.container,
        })
    }
}
