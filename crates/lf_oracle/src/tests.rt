//! The empty dataset asked twice.
ghost use Rattle.std.specs.Prelude.{◌≡◌, ◌<◌};

use crate::{NoQuads, Oracle, names_graph};
use lf_base::{Memory, Steps, Text};
use lf_rdf::{Answer, GraphRef, Question, QuestionList, Term};
use std::alloc::Global;
use std::marker::Brand;
use std::sync::ledger::{Blank, Ledger};
use std::test::Fail;

fn no_quads(alloc: Global) -> NoQuads {
    NoQuads {
        asked: QuestionList::new(alloc),
    }
}

fn name(alloc: Global) -> Result<Term, Memory> {
    Ok(Term::Iri(Text::of(alloc, "http://e/g")?))
}

fn has_no_terms(answer: Answer) -> bool {
    match answer {
        Answer::Terms(terms) => terms.is_empty(),
        Answer::Quads(_) => false,
        Answer::Flag(_) => false,
    }
}

fn has_no_members<O: Oracle, L: Ledger>(
    alloc: Global,
    oracle: &mut O,
    steps: &mut Steps<L>,
) -> Result<bool, Memory> {
    let question = Question::Members(GraphRef::Default);
    let answered = oracle.ask(alloc, &question, steps);
    drop(question);
    Ok(has_no_terms(answered?))
}

fn names_nothing<O: Oracle, L: Ledger>(
    alloc: Global,
    oracle: &mut O,
    steps: &mut Steps<L>,
) -> Result<bool, Memory> {
    let graph = name(alloc)?;
    let named = names_graph(alloc, oracle, &graph, steps);
    drop(graph);
    Ok(!named?)
}

// Two questions to the empty dataset: whether a graph has quads, and the nodes of the default
// graph.
fn asked_twice<L: Ledger>(alloc: Global, blank: Blank) -> Result<bool, Memory>
    requires name { blank.name ≡ L.name }
    requires parts { blank.parts ≡ L.parts }
    requires one { 0 < blank.parts }
{
    let mut steps = Steps::<L>::of(blank);
    let mut oracle = no_quads(alloc);
    let unnamed = names_nothing(alloc, &mut oracle, &mut steps)?;
    let empty = has_no_members(alloc, &mut oracle, &mut steps)?;
    Ok(unnamed && empty && oracle.asked.len() == 2)
}

#[test]
fn the_empty_dataset_answers_and_tells(rt: HostRuntime) -> Result<(), Fail> {
    let alloc = rt.alloc();
    assert!(rt; asked_twice::<Brand>(alloc, Blank::new(1))?);
    Ok(())
}
