//! An oracle that tells its questions, over one that may not.
use lf_base::{Memory, Steps, TryCopy};
use lf_oracle::Oracle;
use lf_rdf::{Answer, Question, QuestionList};
use std::alloc::Global;
use std::sync::ledger::Ledger;

/// An oracle, with the questions that it was asked since the list was last emptied, in order.
#[derive(Drop)]
pub(crate) struct Telling<O: Oracle> {
    pub(crate) oracle: O,
    pub(crate) asked: QuestionList,
}

impl<O: Oracle> Oracle for Telling<O> {
    ghost use Rattle.std.specs.Prelude.{Some};

    ghost quads = { λ telling. O.quads telling.oracle };

    ghost told = { λ telling. Some telling.asked };

    fn ask<L: Ledger>(
        &mut self,
        alloc: Global,
        question: &Question,
        steps: &mut Steps<L>,
    ) -> Result<Answer, Memory> {
        let answer = self.oracle.ask(alloc, question, steps)?;
        self.asked.push(question.copy(alloc)?)?;
        Ok(answer)
    }
}
