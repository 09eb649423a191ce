//! Questions whose answer is yes or no; the crates of lists and of node views ask by it.
ghost use Rattle.std.specs.Prelude.{◌≡◌, ◌+◌, [], ◌∷◌, IfOk, IsTrue, OnOk};
ghost use Rattle.lf_rdf.specs.declared.question.Answer.TheVariants.{Flag, Quads, Terms};
ghost use Rattle.def_datasets.specs.Questions.{answer};
ghost use Rattle.lf_oracle.specs.Asking.{asks_one_graph, asks_flag, flag_in, told_with};

use crate::oracle::Oracle;
use lf_base::{Memory, Steps};
use lf_rdf::{Answer, Question};
use std::alloc::Global;
use std::sync::ledger::Ledger;

/// The answer to a question that is yes or no.
pub fn ask_flag<O: Oracle, L: Ledger>(
    alloc: Global,
    oracle: &mut O,
    question: &Question,
    steps: &mut Steps<L>,
) -> Result<bool, Memory>
    requires flag { IsTrue (asks_flag question.now) }
    requires graph { IsTrue (asks_one_graph question.now) }
    ensures answers { IfOk result (λ given. answer (O.quads oracle.old) question.now ≡ Flag given) }
    ensures quads_stay { O.quads oracle.new ≡ O.quads oracle.old }
    ensures tells { OnOk result (O.told oracle.new ≡ told_with (question.now ∷ []) (O.told oracle.old)) }
    ensures counts { steps.new ≡ steps.old + 1 }
{
    let answer = oracle.ask(alloc, question, steps)?;
    Ok(flag_of(answer))
}

// The flag of an answer; no other answer has one.
fn flag_of(answer: Answer) -> bool
    ensures { result ≡ flag_in answer }
{
    match answer {
        Answer::Flag(flag) => flag,
        Answer::Quads(_) => false,
        Answer::Terms(_) => false,
    }
}
