//! Documents of one tree and of several, and the limits at their edges.
use crate::assemble;
use lf_base::{ListOf, Memory, Text};
use lf_model::{
    Container, DefaultValue, Doc, Frame, Json, JsonMap, LdError, Limit, Outcome, OutcomeList,
    TermDef, TermDefList, TermTable, Tree, TreeProp, TreeValue,
};
use lf_rdf::Term;
use std::alloc::Global;
use std::test::Fail;

fn iri(alloc: Global, text: &str) -> Result<Term, Memory> {
    Ok(Term::Iri(Text::of(alloc, text)?))
}

fn node(alloc: Global, id: Term) -> Tree {
    Tree {
        id: Some(id),
        types: ListOf::new(alloc),
        graph: ListOf::new(alloc),
        props: ListOf::new(alloc),
        reverse: ListOf::new(alloc),
    }
}

// A node with a reference under `http://e/p`.
fn pointing(alloc: Global, id: Term, reference: Term) -> Result<Outcome, Memory> {
    let mut values = ListOf::new(alloc);
    values.push(TreeValue::Node(node(alloc, reference)))?;
    let mut tree = node(alloc, id);
    tree.props.push(TreeProp {
        property: Text::of(alloc, "http://e/p")?,
        values,
    })?;
    Ok(Outcome::Matched(tree))
}

fn frame(alloc: Global, terms: TermDefList, context: Json) -> Frame {
    Frame {
        nodes: ListOf::new(alloc),
        context,
        table: TermTable {
            vocab: None,
            language: None,
            terms,
            type_set: false,
        },
        top_graph: false,
    }
}

// The frame of `{"@context":{"@version":1.1,"tag":"http://t/"}}`.
fn tag_frame(alloc: Global) -> Result<Frame, Memory> {
    let mut terms = TermDefList::new(alloc);
    terms.push(TermDef {
        name: Text::of(alloc, "tag")?,
        iri: Some(Text::of(alloc, "http://t/")?),
        prefix: true,
        reverse: false,
        coercion: None,
        language: None,
        container: Container::NoContainer,
    })?;
    let mut context = JsonMap::new(alloc);
    context.put(Text::of(alloc, "@version")?, Json::Fraction)?;
    context.put(
        Text::of(alloc, "tag")?,
        Json::Text(Text::of(alloc, "http://t/")?),
    )?;
    Ok(frame(alloc, terms, Json::Map(context)))
}

fn prints(doc: &Doc, expected: &str) -> bool {
    match doc {
        Doc::Bytes(text) => text.as_str() == expected,
        Doc::Refused(_) => false,
        Doc::Over(_) => false,
    }
}

fn is_confused(doc: &Doc) -> bool {
    match doc {
        Doc::Bytes(_) => false,
        Doc::Refused(error) => *error == LdError::IriConfusedWithPrefix,
        Doc::Over(_) => false,
    }
}

fn is_over(doc: &Doc, expected: Limit) -> bool {
    match doc {
        Doc::Bytes(_) => false,
        Doc::Refused(_) => false,
        Doc::Over(limit) => *limit == expected,
    }
}

// The document of one tree by the frame of a context.
fn one_tree(alloc: Global, reference: &str) -> Result<Doc, Memory> {
    let mut outcomes = OutcomeList::new(alloc);
    outcomes.push(Outcome::NoMatch)?;
    outcomes.push(pointing(alloc, iri(alloc, "http://e/a")?, iri(alloc, reference)?)?)?;
    assemble(alloc, &tag_frame(alloc)?, &outcomes)
}

#[test]
fn one_tree_stands_beside_its_context(rt: HostRuntime) -> Result<(), Fail> {
    let doc = one_tree(rt.alloc(), "http://t/b")?;
    assert!(rt;
        prints(
            &doc,
            "{\"@context\":{\"tag\":\"http://t/\"},\"@id\":\"http://e/a\",\"http://e/p\":{\"@id\":\"tag:b\"}}"
        )
    );
    Ok(())
}

#[test]
fn a_confused_iri_is_the_document(rt: HostRuntime) -> Result<(), Fail> {
    let doc = one_tree(rt.alloc(), "tag:x,1")?;
    assert!(rt; is_confused(&doc));
    Ok(())
}

fn blank(alloc: Global, label: &str) -> Result<Term, Memory> {
    Ok(Term::Blank(Text::of(alloc, label)?))
}

// The document of two trees that share one blank node, the first of which has an id of its own
// that is counted once.
fn two_trees(alloc: Global) -> Result<Doc, Memory> {
    let mut outcomes = OutcomeList::new(alloc);
    outcomes.push(pointing(alloc, blank(alloc, "b")?, blank(alloc, "x")?)?)?;
    outcomes.push(pointing(alloc, iri(alloc, "http://e/a")?, blank(alloc, "x")?)?)?;
    let plain = frame(alloc, ListOf::new(alloc), Json::Null);
    assemble(alloc, &plain, &outcomes)
}

#[test]
fn an_id_is_left_out_where_it_is_counted_once_in_all_trees(rt: HostRuntime) -> Result<(), Fail> {
    let doc = two_trees(rt.alloc())?;
    assert!(rt;
        prints(
            &doc,
            "{\"@graph\":[{\"http://e/p\":{\"@id\":\"_:x\"}},{\"@id\":\"http://e/a\",\"http://e/p\":{\"@id\":\"_:x\"}}]}"
        )
    );
    Ok(())
}

// A tree of a node and this many nulls.
fn nulls(alloc: Global, count: u32) -> Result<Outcome, Memory> {
    let mut values = ListOf::new(alloc);
    for _ in 0..count {
        values.push(TreeValue::Fallback(DefaultValue::Null))?;
    }
    let mut tree = node(alloc, iri(alloc, "http://e/a")?);
    tree.props.push(TreeProp {
        property: Text::of(alloc, "http://e/p")?,
        values,
    })?;
    Ok(Outcome::Matched(tree))
}

// The document of a tree with so many nulls, and of a path that was too deep.
fn limited(alloc: Global, count: u32) -> Result<Doc, Memory> {
    let mut outcomes = OutcomeList::new(alloc);
    outcomes.push(nulls(alloc, count)?)?;
    outcomes.push(Outcome::Over(Limit::Depth))?;
    let plain = frame(alloc, ListOf::new(alloc), Json::Null);
    assemble(alloc, &plain, &outcomes)
}

#[test]
fn the_first_limit_decides(rt: HostRuntime) -> Result<(), Fail> {
    let full = limited(rt.alloc(), 262_143)?;
    assert!(rt; is_over(&full, Limit::Depth));
    let excess = limited(rt.alloc(), 262_144)?;
    assert!(rt; is_over(&excess, Limit::DocumentItems));
    Ok(())
}

// The document of a tree with a text of so many bytes.
fn long_text(alloc: Global, bytes: u32) -> Result<Doc, Memory> {
    let mut text = String::new(alloc);
    for _ in 0..bytes {
        text.push('x')?;
    }
    let mut outcomes = OutcomeList::new(alloc);
    outcomes.push(saying(alloc, Text::from_string(text)?)?)?;
    let plain = frame(alloc, ListOf::new(alloc), Json::Null);
    assemble(alloc, &plain, &outcomes)
}

// A node with a text under `http://e/p`.
fn saying(alloc: Global, text: Text) -> Result<Outcome, Memory> {
    let literal = TreeValue::Literal(Term::Literal {
        lexical: text,
        datatype: Text::of(alloc, "http://www.w3.org/2001/XMLSchema#string")?,
        language: None,
    });
    let values = ListOf::from_vec(vec![in alloc; literal]?);
    let property = Text::of(alloc, "http://e/p")?;
    let mut tree = node(alloc, iri(alloc, "http://e/a")?);
    tree.props.push(TreeProp { property, values })?;
    Ok(Outcome::Matched(tree))
}

// How many bytes a document has.
fn bytes_of(doc: &Doc) -> usize {
    match doc {
        Doc::Bytes(text) => text.as_str().len(),
        Doc::Refused(_) => 0,
        Doc::Over(_) => 0,
    }
}

#[test]
fn a_document_has_33_554_432_bytes_at_most(rt: HostRuntime) -> Result<(), Fail> {
    let full = long_text(rt.alloc(), 33_554_396)?;
    assert!(rt; bytes_of(&full) == 33_554_432);
    let excess = long_text(rt.alloc(), 33_554_397)?;
    assert!(rt; is_over(&excess, Limit::DocumentBytes));
    Ok(())
}
