//! The oracle of the empty dataset: the least implementor.
ghost use Rattle.std.specs.Prelude.{◌≡◌, []};
ghost use Rattle.def_datasets.specs.Questions.{answer};

use crate::oracle::Oracle;
use lf_base::{Memory, Steps, TryCopy};
use lf_rdf::{Answer, QuadList, Question, QuestionList, TermList};
use std::alloc::Global;
use std::sync::ledger::Ledger;

/// The oracle of the empty dataset. It tells its questions.
#[derive(Debug, Drop)]
pub struct NoQuads {
    pub asked: QuestionList,
}

impl Oracle for NoQuads {
    ghost use Rattle.std.specs.Prelude.{[], Some};

    ghost quads = { λ oracle. [] };

    ghost told = { λ oracle. Some oracle.asked };

    fn ask<L: Ledger>(
        &mut self,
        alloc: Global,
        question: &Question,
        steps: &mut Steps<L>,
    ) -> Result<Answer, Memory> {
        steps.tick();
        self.asked.push(question.copy(alloc)?)?;
        Ok(nothing(alloc, question))
    }
}

// What the empty dataset answers.
fn nothing(alloc: Global, question: &Question) -> Answer
    ensures { result ≡ answer [] question.now }
{
    match question {
        Question::Out(_, _) => Answer::Quads(QuadList::new(alloc)),
        Question::OutAny(_) => Answer::Quads(QuadList::new(alloc)),
        Question::Inward(_, _, _) => Answer::Quads(QuadList::new(alloc)),
        Question::InwardAny(_, _) => Answer::Quads(QuadList::new(alloc)),
        Question::Uses(_) => Answer::Quads(QuadList::new(alloc)),
        Question::Named(_) => Answer::Flag(false),
        Question::Members(_) => Answer::Terms(TermList::new(alloc)),
    }
}
