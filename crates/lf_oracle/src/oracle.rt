//! The trait of oracles, which answer questions over a dataset.
ghost use Rattle.std.specs.Prelude.{◌≡◌, ◌+◌, ℕ, List, [], ◌∷◌, Option, IfOk, IsTrue, OnOk};
ghost use Rattle.lf_rdf.specs.declared.quad.Quad.{Quad};
ghost use Rattle.lf_rdf.specs.declared.question.Question.{Question};
ghost use Rattle.def_datasets.specs.Questions.{answer};
ghost use Rattle.lf_oracle.specs.Asking.{asks_one_graph, told_with};

use lf_base::{Memory, Steps};
use lf_rdf::{Answer, Question};
use std::alloc::Global;
use std::sync::ledger::Ledger;

/// What answers questions about the quads of a dataset (RDF 1.1 Concepts, section 4).
pub trait Oracle {
    /// The quads that are asked about.
    ghost quads: { Self → List Quad };

    /// The questions that were asked, in order, where the oracle tells them.
    ghost told: { Self → Option (List Question) };

    /// Answers a question and counts it. The quads stay as they are, so the same question has the
    /// same answer.
    fn ask<L: Ledger>(
        &mut self,
        alloc: Global,
        question: &Question,
        steps: &mut Steps<L>,
    ) -> Result<Answer, Memory>
        requires { IsTrue (asks_one_graph question.now) }
        ensures answers { IfOk result (λ given. given ≡ answer (quads self.old) question.now) }
        ensures quads_stay { quads self.new ≡ quads self.old }
        ensures tells { OnOk result (told self.new ≡ told_with (question.now ∷ []) (told self.old)) }
        ensures counts { steps.new ≡ steps.old + 1 };
}
