//! RDF terms, quads, patches and the questions that are asked of a dataset (RDF 1.1 Concepts, sections 3 and 4).
#![tactic(auto)]

mod quad;
mod question;
mod term;
#[cfg(test)]
mod tests;
mod vocabulary;

pub use quad::{Patch, Quad, QuadList, Signed, SignedList};
pub use question::{Answer, GraphRef, Question, QuestionList};
pub use term::{Term, TermList};
pub use vocabulary::{is_rdf_type, is_xsd_string, xsd_string};
