//! A value of each type that is copied.
use crate::{Answer, GraphRef, Patch, Quad, Question, Signed, SignedList, Term, TermList};
use lf_base::{Memory, Same, Text, TryCopy};
use std::alloc::Global;
use std::test::Fail;

fn copied<T: TryCopy + Drop>(alloc: Global, value: T) -> Result<T, Memory> {
    value.copy(alloc)
}

fn copies_are_equal<T: TryCopy + Same + Drop>(alloc: Global, value: T) -> Result<bool, Memory> {
    let copied = value.copy(alloc)?;
    Ok(copied.is(&value))
}

fn iri(alloc: Global, text: &str) -> Result<Term, Memory> {
    Ok(Term::Iri(Text::of(alloc, text)?))
}

fn tagged(alloc: Global) -> Result<Term, Memory> {
    Ok(Term::Literal {
        lexical: Text::of(alloc, "chat")?,
        datatype: Text::of(
            alloc,
            "http://www.w3.org/1999/02/22-rdf-syntax-ns#langString",
        )?,
        language: Some(Text::of(alloc, "fr")?),
    })
}

fn quad(alloc: Global) -> Result<Quad, Memory> {
    Ok(Quad {
        subject: Term::Blank(Text::of(alloc, "b")?),
        predicate: iri(alloc, "http://e/p")?,
        object: tagged(alloc)?,
        graph: Some(iri(alloc, "http://e/g")?),
    })
}

fn patch(alloc: Global) -> Result<Patch, Memory> {
    let mut lines = SignedList::new(alloc);
    lines.push(Signed {
        add: true,
        quad: quad(alloc)?,
    })?;
    Ok(Patch { lines, bytes: 70 })
}

fn named_out(alloc: Global) -> Result<Question, Memory> {
    let graph = GraphRef::Named(iri(alloc, "http://e/g")?);
    Ok(Question::Out(graph, tagged(alloc)?))
}

#[test]
fn quads_and_patches_copy(rt: HostRuntime) -> Result<(), Fail> {
    let alloc = rt.alloc();
    assert!(rt; copies_are_equal(alloc, quad(alloc)?)?);
    let patch = copied(alloc, patch(alloc)?)?;
    let kept = patch.bytes == 70 && patch.lines.len() == 1;
    drop(patch);
    assert!(rt; kept);
    Ok(())
}

#[test]
fn questions_copy(rt: HostRuntime) -> Result<(), Fail> {
    let alloc = rt.alloc();
    let question = copied(alloc, named_out(alloc)?)?;
    let kept = matches!(&question, Question::Out(GraphRef::Named(_), _));
    drop(question);
    assert!(rt; kept);
    Ok(())
}

#[test]
fn answers_copy(rt: HostRuntime) -> Result<(), Fail> {
    let alloc = rt.alloc();
    let answer = copied(alloc, Answer::Terms(TermList::new(alloc)))?;
    let kept = matches!(&answer, Answer::Terms(terms) if terms.is_empty());
    drop(answer);
    assert!(rt; kept);
    Ok(())
}
