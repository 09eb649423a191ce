//! A list of quads as an oracle: its answers, and the questions that it tells.
ghost use Rattle.std.specs.Prelude.{◌≡◌, ◌<◌, IsTrue};
ghost use Rattle.lf_oracle.specs.Asking.{asks_one_graph};

use crate::{PlainQuads, term_of};
use lf_base::{Memory, Same, Steps};
use lf_oracle::Oracle;
use lf_rdf::{Answer, GraphRef, QuadList, Question, TermList};
use std::alloc::Global;
use std::marker::Brand;
use std::sync::ledger::{Blank, Ledger};
use std::test::Fail;

const TYPE: &str = "http://www.w3.org/1999/02/22-rdf-syntax-ns#type";

fn put_quads(alloc: Global, plain: &mut PlainQuads) -> Result<(), Memory> {
    plain.put(alloc, "http://e/b", "http://e/p", "_:x", "")?;
    plain.put(alloc, "http://e/a", "http://e/p", "_:x", "")?;
    plain.put(alloc, "http://e/a", TYPE, "http://e/T", "")?;
    plain.put(alloc, "_:x", "http://e/q", "'1", "http://e/g")
}

fn is_at(alloc: Global, terms: &TermList, place: u64, word: &str) -> Result<bool, Memory> {
    let term = term_of(alloc, word)?;
    match terms.at(place) {
        Some(there) => Ok(there.is(&term)),
        None => Ok(false),
    }
}

// Each member once, in order of the ids, and no type.
fn are_members(alloc: Global, terms: &TermList) -> Result<bool, Memory> {
    let blank = is_at(alloc, terms, 0, "_:x")?;
    let one = is_at(alloc, terms, 1, "http://e/a")?;
    let two = is_at(alloc, terms, 2, "http://e/b")?;
    let name = is_at(alloc, terms, 3, "http://e/g")?;
    Ok(terms.len() == 4 && blank && one && two && name)
}

// Whether an answer is right: two quads, yes, or the members.
fn is_right(alloc: Global, answer: &Answer) -> Result<bool, Memory> {
    match answer {
        Answer::Quads(quads) => Ok(quads.len() == 2),
        Answer::Flag(flag) => Ok(*flag),
        Answer::Terms(terms) => are_members(alloc, terms),
    }
}

fn answers_right<L: Ledger>(
    alloc: Global,
    plain: &mut PlainQuads,
    question: &Question,
    steps: &mut Steps<L>,
) -> Result<bool, Memory>
    requires { IsTrue (asks_one_graph question.now) }
{
    let answer = plain.ask(alloc, question, steps)?;
    is_right(alloc, &answer)
}

fn uses_are_two<L: Ledger>(
    alloc: Global,
    plain: &mut PlainQuads,
    steps: &mut Steps<L>,
) -> Result<bool, Memory> {
    let question = Question::Uses(term_of(alloc, "_:x")?);
    let right = answers_right(alloc, plain, &question, steps);
    drop(question);
    right
}

fn graph_is_named<L: Ledger>(
    alloc: Global,
    plain: &mut PlainQuads,
    steps: &mut Steps<L>,
) -> Result<bool, Memory> {
    let question = Question::Named(term_of(alloc, "http://e/g")?);
    let right = answers_right(alloc, plain, &question, steps);
    drop(question);
    right
}

fn members_are_in_order<L: Ledger>(
    alloc: Global,
    plain: &mut PlainQuads,
    steps: &mut Steps<L>,
) -> Result<bool, Memory> {
    let question = Question::Members(GraphRef::Default);
    let right = answers_right(alloc, plain, &question, steps);
    drop(question);
    right
}

fn asked_three_times<L: Ledger>(alloc: Global, blank: Blank) -> Result<bool, Memory>
    requires name { blank.name ≡ L.name }
    requires parts { blank.parts ≡ L.parts }
    requires one { 0 < blank.parts }
{
    let mut steps = Steps::<L>::of(blank);
    let mut plain = PlainQuads::of(alloc, QuadList::new(alloc));
    put_quads(alloc, &mut plain)?;
    let uses = uses_are_two(alloc, &mut plain, &mut steps)?;
    let named = graph_is_named(alloc, &mut plain, &mut steps)?;
    let members = members_are_in_order(alloc, &mut plain, &mut steps)?;
    Ok(uses && named && members && plain.asked.len() == 3)
}

#[test]
fn a_list_of_quads_answers_and_tells(rt: HostRuntime) -> Result<(), Fail> {
    let alloc = rt.alloc();
    assert!(rt; asked_three_times::<Brand>(alloc, Blank::new(1))?);
    Ok(())
}
