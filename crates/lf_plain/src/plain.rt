//! The oracle itself, which the tests of the crates above ask.
ghost use Rattle.std.specs.Prelude.{◌≡◌, []};

use crate::answers::answered;
use lf_base::{Memory, Steps, TryCopy};
use lf_oracle::Oracle;
use lf_rdf::{Answer, QuadList, Question, QuestionList};
use std::alloc::Global;
use std::sync::ledger::Ledger;

/// The oracle of a list of quads, which stay in the order in which they are given. It tells its
/// questions. An answer of quads takes a walk of the list; the members of a graph are compared with
/// one another, each with each.
#[derive(Debug, Drop)]
pub struct PlainQuads {
    pub quads: QuadList,
    pub asked: QuestionList,
}

impl PlainQuads {
    /// The oracle of some quads, before its first question. It takes no memory.
    pub fn of(alloc: Global, quads: QuadList) -> PlainQuads
        ensures quads { result.quads ≡ quads }
        ensures asked { result.asked ≡ [] }
    {
        PlainQuads {
            quads,
            asked: QuestionList::new(alloc),
        }
    }
}

impl Oracle for PlainQuads {
    ghost use Rattle.std.specs.Prelude.{Some};

    ghost quads = { λ oracle. oracle.quads };

    ghost told = { λ oracle. Some oracle.asked };

    fn ask<L: Ledger>(
        &mut self,
        alloc: Global,
        question: &Question,
        steps: &mut Steps<L>,
    ) -> Result<Answer, Memory> {
        steps.tick();
        self.asked.push(question.copy(alloc)?)?;
        answered(alloc, self.quads.as_slice(), question)
    }
}
