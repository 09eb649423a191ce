//! What is kept while the terms of a context's map are defined.
use crate::stage::Stage;
use lf_base::Text;
use lf_model::Json;
use std::collections::BTreeMap;

/// A term that is being defined, and where its definition goes on once what it needs is defined.
#[derive(Drop)]
pub struct Begun<'a> {
    pub name: Text,
    pub value: &'a Json,
    pub rest: Stage,
}

/// The terms that are done, marked true, and those that are being defined, marked false.
pub type Marks = BTreeMap<Text, bool>;

/// How a needed term stands.
pub enum Standing<'a> {
    /// It is no term of the map, or is done.
    Ready,
    /// It is being defined.
    Begun,
    /// It waits with its value.
    Waiting(&'a Json),
}

/// What a key of a context is, as a term.
pub enum NameKind {
    Empty,
    Type,
    Keyword,
    Ignored,
    Ordinary,
}
