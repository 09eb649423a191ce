//! Single questions whose answers are quads: what cells, values and views are read from.
ghost use Rattle.std.specs.Prelude.{◌≡◌, ◌+◌, [], ◌∷◌, IfOk, IsTrue, OnOk};
ghost use Rattle.lf_rdf.specs.declared.question.Answer.TheVariants.{Quads};
ghost use Rattle.def_datasets.specs.Questions.{answer, named, out};
ghost use Rattle.def_datasets.specs.Terms.{uses};
ghost use Rattle.lf_oracle.specs.Asking.{Learns, asks_one_graph, is_one_graph, told_with};
ghost use Rattle.lf_lists.specs.Learning.{NearTo, asks_quads, quads_in};

use lf_base::{Memory, Steps, TryCopy};
use lf_oracle::{Oracle, ask_flag};
use lf_rdf::{Answer, GraphRef, QuadList, Question, Term};
use std::alloc::Global;
use std::sync::ledger::Ledger;

// The quads of an answer; no other answer has them.
fn quads_of(alloc: Global, answer: Answer) -> QuadList
    ensures { result ≡ quads_in answer }
{
    match answer {
        Answer::Flag(_) => QuadList::new(alloc),
        Answer::Quads(quads) => quads,
        Answer::Terms(_) => QuadList::new(alloc),
    }
}

/// The answer to a question that is answered by quads.
pub fn ask_quads<O: Oracle, L: Ledger>(
    alloc: Global,
    oracle: &mut O,
    question: &Question,
    steps: &mut Steps<L>,
) -> Result<QuadList, Memory>
    requires quads { IsTrue (asks_quads question.now) }
    requires graph { IsTrue (asks_one_graph question.now) }
    ensures answers { IfOk result (λ given. answer (O.quads oracle.old) question.now ≡ Quads given) }
    ensures quads_stay { O.quads oracle.new ≡ O.quads oracle.old }
    ensures tells { OnOk result (O.told oracle.new ≡ told_with (question.now ∷ []) (O.told oracle.old)) }
    ensures counts { steps.new ≡ steps.old + 1 }
{
    let answer = oracle.ask(alloc, question, steps)?;
    Ok(quads_of(alloc, answer))
}

/// The quads of a graph with this subject, by one question.
pub fn quads_out<O: Oracle, L: Ledger>(
    alloc: Global,
    oracle: &mut O,
    graph: &GraphRef,
    subject: &Term,
    steps: &mut Steps<L>,
) -> Result<QuadList, Memory>
    requires graph { IsTrue (is_one_graph graph.now) }
    ensures quads { IfOk result (λ found.
        Learns (NearTo (O.quads oracle.old) subject.now) (O.quads oracle.old)
        (O.told oracle.old) (O.told oracle.new) steps.old steps.new
        (λ dataset. out dataset graph.now subject.now) found) }
    ensures counts { OnOk result (steps.new ≡ steps.old + 1) }
    ensures quads_stay { O.quads oracle.new ≡ O.quads oracle.old }
{
    let question = Question::Out(graph.copy(alloc)?, subject.copy(alloc)?);
    let answered = ask_quads(alloc, oracle, &question, steps);
    drop(question);
    answered
}

/// The quads of all graphs that use an object, by one question.
pub fn quads_using<O: Oracle, L: Ledger>(
    alloc: Global,
    oracle: &mut O,
    object: &Term,
    steps: &mut Steps<L>,
) -> Result<QuadList, Memory>
    ensures quads { IfOk result (λ found.
        Learns (NearTo (O.quads oracle.old) object.now) (O.quads oracle.old)
        (O.told oracle.old) (O.told oracle.new) steps.old steps.new
        (λ dataset. uses dataset object.now) found) }
    ensures counts { OnOk result (steps.new ≡ steps.old + 1) }
    ensures quads_stay { O.quads oracle.new ≡ O.quads oracle.old }
{
    let question = Question::Uses(object.copy(alloc)?);
    let answered = ask_quads(alloc, oracle, &question, steps);
    drop(question);
    answered
}

/// Whether a quad lies in the graph of this name, by one question.
pub fn is_named<O: Oracle, L: Ledger>(
    alloc: Global,
    oracle: &mut O,
    name: &Term,
    steps: &mut Steps<L>,
) -> Result<bool, Memory>
    ensures names { IfOk result (λ found.
        Learns (NearTo (O.quads oracle.old) name.now) (O.quads oracle.old) (O.told oracle.old)
        (O.told oracle.new) steps.old steps.new (λ dataset. named dataset name.now) found) }
    ensures counts { OnOk result (steps.new ≡ steps.old + 1) }
    ensures quads_stay { O.quads oracle.new ≡ O.quads oracle.old }
{
    let question = Question::Named(name.copy(alloc)?);
    let answered = ask_flag(alloc, oracle, &question, steps);
    drop(question);
    answered
}
