//! What an oracle is asked, and what it answers.
use crate::quad::QuadList;
use crate::term::{Term, TermList};
use lf_base::{ListOf, Memory, TryCopy};
use std::alloc::Global;

/// A graph of a dataset (JSON-LD 1.1 Framing, section 4.1: the merged graph holds the nodes of all graphs).
#[derive(Debug, Drop)]
pub enum GraphRef {
    Default,
    Named(Term),
    Merged,
}

impl TryCopy for GraphRef {
    fn copy(&self, alloc: Global) -> Result<GraphRef, Memory> {
        match self {
            GraphRef::Default => Ok(GraphRef::Default),
            GraphRef::Named(name) => Ok(GraphRef::Named(name.copy(alloc)?)),
            GraphRef::Merged => Ok(GraphRef::Merged),
        }
    }
}

/// What can be asked of a dataset. Its graph is never the merged one.
#[derive(Debug, Drop)]
pub enum Question {
    /// The quads of a graph with this subject.
    Out(GraphRef, Term),
    /// The quads of all graphs with this subject.
    OutAny(Term),
    /// The quads of a graph with this predicate and object.
    Inward(GraphRef, Term, Term),
    /// The quads of all graphs with this predicate and object.
    InwardAny(Term, Term),
    /// The quads with this object and a predicate other than `rdf:type`.
    Uses(Term),
    /// Whether a quad lies in the graph of this name.
    Named(Term),
    /// The nodes of a graph.
    Members(GraphRef),
}

/// A list of questions.
pub type QuestionList = ListOf<Question>;

impl TryCopy for Question {
    fn copy(&self, alloc: Global) -> Result<Question, Memory> {
        match self {
            Question::Out(graph, subject) => Ok(Question::Out(
                graph.copy(alloc)?,
                subject.copy(alloc)?,
            )),
            Question::OutAny(subject) => Ok(Question::OutAny(subject.copy(alloc)?)),
            Question::Inward(graph, predicate, object) => Ok(Question::Inward(
                graph.copy(alloc)?,
                predicate.copy(alloc)?,
                object.copy(alloc)?,
            )),
            Question::InwardAny(predicate, object) => Ok(Question::InwardAny(
                predicate.copy(alloc)?,
                object.copy(alloc)?,
            )),
            Question::Uses(object) => Ok(Question::Uses(object.copy(alloc)?)),
            Question::Named(name) => Ok(Question::Named(name.copy(alloc)?)),
            Question::Members(graph) => Ok(Question::Members(graph.copy(alloc)?)),
        }
    }
}

/// The answer to a question.
#[derive(Debug, Drop)]
pub enum Answer {
    Quads(QuadList),
    Flag(bool),
    Terms(TermList),
}

impl TryCopy for Answer {
    fn copy(&self, alloc: Global) -> Result<Answer, Memory> {
        match self {
            Answer::Quads(quads) => Ok(Answer::Quads(quads.copy(alloc)?)),
            Answer::Flag(flag) => Ok(Answer::Flag(*flag)),
            Answer::Terms(terms) => Ok(Answer::Terms(terms.copy(alloc)?)),
        }
    }
}
