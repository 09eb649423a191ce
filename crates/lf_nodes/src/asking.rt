//! Single questions for the quads of a subject, the quads that point at an object and the nodes of
//! a graph.
ghost use Rattle.std.specs.Prelude.{◌≡◌, ◌+◌, [], ◌∷◌, IfOk, IsTrue, OnOk};
ghost use Rattle.lf_rdf.specs.declared.question.Answer.TheVariants.{Terms};
ghost use Rattle.def_datasets.specs.Questions.{answer, inward, members, out_any};
ghost use Rattle.lf_oracle.specs.Asking.{Learns, asks_one_graph, is_one_graph, told_with};
ghost use Rattle.lf_oracle.specs.Nearby.{IsNearMembers};
ghost use Rattle.lf_lists.specs.Learning.{NearTo};
ghost use Rattle.lf_nodes.specs.Asked.{IsInward, asks_terms, terms_in};

use lf_base::{Memory, Steps, TryCopy};
use lf_lists::ask_quads;
use lf_oracle::Oracle;
use lf_rdf::{Answer, GraphRef, QuadList, Question, Term, TermList};
use std::alloc::Global;
use std::sync::ledger::Ledger;

// The terms of an answer; no other answer has them.
fn terms_of(alloc: Global, answer: Answer) -> TermList
    ensures { result ≡ terms_in answer }
{
    match answer {
        Answer::Flag(_) => TermList::new(alloc),
        Answer::Quads(_) => TermList::new(alloc),
        Answer::Terms(terms) => terms,
    }
}

// The answer to a question that is answered by terms.
fn ask_terms<O: Oracle, L: Ledger>(
    alloc: Global,
    oracle: &mut O,
    question: &Question,
    steps: &mut Steps<L>,
) -> Result<TermList, Memory>
    requires terms { IsTrue (asks_terms question.now) }
    requires graph { IsTrue (asks_one_graph question.now) }
    ensures answers { IfOk result (λ given. answer (O.quads oracle.old) question.now ≡ Terms given) }
    ensures quads_stay { O.quads oracle.new ≡ O.quads oracle.old }
    ensures tells { OnOk result (O.told oracle.new ≡ told_with (question.now ∷ []) (O.told oracle.old)) }
    ensures counts { steps.new ≡ steps.old + 1 }
{
    let answer = oracle.ask(alloc, question, steps)?;
    Ok(terms_of(alloc, answer))
}

/// The quads of all graphs with this subject, by one question.
pub fn quads_of_subject<O: Oracle, L: Ledger>(
    alloc: Global,
    oracle: &mut O,
    subject: &Term,
    steps: &mut Steps<L>,
) -> Result<QuadList, Memory>
    ensures quads { IfOk result (λ found.
        Learns (NearTo (O.quads oracle.old) subject.now) (O.quads oracle.old)
        (O.told oracle.old) (O.told oracle.new) steps.old steps.new
        (λ dataset. out_any dataset subject.now) found) }
    ensures quads_stay { O.quads oracle.new ≡ O.quads oracle.old }
{
    let question = Question::OutAny(subject.copy(alloc)?);
    let answered = ask_quads(alloc, oracle, &question, steps);
    drop(question);
    answered
}

/// The quads of a graph with this predicate and object, by one question.
pub fn quads_inward<O: Oracle, L: Ledger>(
    alloc: Global,
    oracle: &mut O,
    graph: &GraphRef,
    predicate: &Term,
    object: &Term,
    steps: &mut Steps<L>,
) -> Result<QuadList, Memory>
    ensures quads { IfOk result (λ found.
        Learns (NearTo (O.quads oracle.old) object.now) (O.quads oracle.old)
        (O.told oracle.old) (O.told oracle.new) steps.old steps.new
        (λ dataset. inward dataset graph.now predicate.now object.now) found) }
    ensures quads_stay { O.quads oracle.new ≡ O.quads oracle.old }
{
    let question = inward_question(alloc, graph, predicate, object)?;
    let answered = ask_quads(alloc, oracle, &question, steps);
    drop(question);
    answered
}

// The question for the quads of a graph, or of all graphs, with this predicate and object.
fn inward_question(
    alloc: Global,
    graph: &GraphRef,
    predicate: &Term,
    object: &Term,
) -> Result<Question, Memory>
    ensures { IfOk result (λ question. IsInward question graph.now predicate.now object.now) }
{
    match graph {
        GraphRef::Default => Ok(Question::Inward(
            GraphRef::Default,
            predicate.copy(alloc)?,
            object.copy(alloc)?,
        )),
        GraphRef::Named(name) => Ok(Question::Inward(
            GraphRef::Named(name.copy(alloc)?),
            predicate.copy(alloc)?,
            object.copy(alloc)?,
        )),
        GraphRef::Merged => Ok(Question::InwardAny(predicate.copy(alloc)?, object.copy(alloc)?)),
    }
}

/// The nodes of a graph, by one question. The graph isn't the merged one.
pub fn nodes_in<O: Oracle, L: Ledger>(
    alloc: Global,
    oracle: &mut O,
    graph: &GraphRef,
    steps: &mut Steps<L>,
) -> Result<TermList, Memory>
    requires graph { IsTrue (is_one_graph graph.now) }
    ensures terms { IfOk result (λ found.
        Learns (IsNearMembers (O.quads oracle.old) graph.now) (O.quads oracle.old)
        (O.told oracle.old) (O.told oracle.new) steps.old steps.new
        (λ dataset. members dataset graph.now) found) }
    ensures quads_stay { O.quads oracle.new ≡ O.quads oracle.old }
{
    let question = Question::Members(graph.copy(alloc)?);
    let answered = ask_terms(alloc, oracle, &question, steps);
    drop(question);
    answered
}
