//! The answer to each question, by a walk of the list.
ghost use Rattle.std.specs.Prelude.{◌≡◌, IfOk};
ghost use Rattle.std.specs.List.{filter, list_any};
ghost use Rattle.def_datasets.specs.Questions.{answer, touches};

use crate::members::members;
use def_datasets::touches;
use lf_base::{Memory, TryCopy};
use lf_rdf::{Answer, Quad, QuadList, Question};
use std::alloc::Global;

/// The answer of some quads to a question.
pub(crate) fn answered(alloc: Global, quads: &[Quad], question: &Question) -> Result<Answer, Memory>
    ensures { IfOk result (λ given. given ≡ answer quads.now question.now) }
{
    match question {
        Question::Out(_, _) => Ok(Answer::Quads(touching(alloc, quads, question)?)),
        Question::OutAny(_) => Ok(Answer::Quads(touching(alloc, quads, question)?)),
        Question::Inward(_, _, _) => Ok(Answer::Quads(touching(alloc, quads, question)?)),
        Question::InwardAny(_, _) => Ok(Answer::Quads(touching(alloc, quads, question)?)),
        Question::Uses(_) => Ok(Answer::Quads(touching(alloc, quads, question)?)),
        Question::Named(_) => Ok(Answer::Flag(is_touched(quads, question))),
        Question::Members(graph) => Ok(Answer::Terms(members(alloc, quads, graph)?)),
    }
}

// The quads that touch a question.
fn touching(alloc: Global, quads: &[Quad], question: &Question) -> Result<QuadList, Memory>
    ensures { IfOk result (λ found. found ≡ filter (λ q. touches q question.now) quads.now) }
{
    let mut found = QuadList::new(alloc);
    for quad in quads {
        if touches(quad, question) {
            found.push(quad.copy(alloc)?)?;
        }
    }
    Ok(found)
}

// Whether a quad touches a question.
fn is_touched(quads: &[Quad], question: &Question) -> bool
    ensures { result ≡ list_any (λ q. touches q question.now) quads.now }
{
    quads.iter().any(|quad| touches(quad, question))
}
