//! Whether a graph has a quad, by one question.
ghost use Rattle.std.specs.Prelude.{◌≡◌, IfOk};
ghost use Rattle.def_datasets.specs.Questions.{named};
ghost use Rattle.lf_oracle.specs.Asking.{Learns};
ghost use Rattle.lf_oracle.specs.Nearby.{IsNamed, IsNearOne};

use crate::asking::ask_flag;
use crate::oracle::Oracle;
use lf_base::{Memory, Steps, TryCopy};
use lf_rdf::{Question, Term};
use std::alloc::Global;
use std::sync::ledger::Ledger;

/// Whether a quad lies in the graph of this name, by one question.
pub fn names_graph<O: Oracle, L: Ledger>(
    alloc: Global,
    oracle: &mut O,
    name: &Term,
    steps: &mut Steps<L>,
) -> Result<bool, Memory>
    ensures names { IfOk result (λ found.
        Learns (IsNearOne (O.quads oracle.old) (IsNamed name.now)) (O.quads oracle.old)
        (O.told oracle.old) (O.told oracle.new) steps.old steps.new
        (λ dataset. named dataset name.now) found) }
    ensures quads_stay { O.quads oracle.new ≡ O.quads oracle.old }
{
    let question = Question::Named(name.copy(alloc)?);
    let answered = ask_flag(alloc, oracle, &question, steps);
    drop(question);
    answered
}
