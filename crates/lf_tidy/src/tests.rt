//! An id that stays since its label stands elsewhere too.
use crate::{Counts, label_counts, tidy};
use lf_base::{ListOf, Memory, Text};
use lf_model::{Tree, TreeList};
use lf_rdf::{Term, TermList};
use std::alloc::Global;
use std::test::Fail;

fn blank(alloc: Global, label: &str) -> Result<Term, Memory> {
    Ok(Term::Blank(Text::of(alloc, label)?))
}

// A node with this blank id and this blank type.
fn node(alloc: Global, id: &str, class: &str) -> Result<Tree, Memory> {
    let mut types: TermList = ListOf::new(alloc);
    types.push(blank(alloc, class)?)?;
    Ok(Tree {
        id: Some(blank(alloc, id)?),
        types,
        graph: ListOf::new(alloc),
        props: ListOf::new(alloc),
        reverse: ListOf::new(alloc),
    })
}

// Whether the pruned node has an id.
fn keeps_id(alloc: Global, tree: &Tree, counts: &Counts) -> Result<bool, Memory> {
    Ok(tidy(alloc, tree, counts)?.id.is_some())
}

#[test]
fn an_id_stays_where_its_label_stands_in_another_tree_or_among_types(
    rt: HostRuntime,
) -> Result<(), Fail> {
    let alloc = rt.alloc();
    let lone = node(alloc, "lone", "class")?;
    let shared = node(alloc, "shared", "class")?;
    let named = node(alloc, "class", "shared")?;
    let mut trees: TreeList = ListOf::new(alloc);
    trees.push(node(alloc, "lone", "class")?)?;
    trees.push(node(alloc, "shared", "class")?)?;
    trees.push(node(alloc, "class", "shared")?)?;
    let counts = label_counts(alloc, &trees)?;
    assert!(rt; !keeps_id(alloc, &lone, &counts)?);
    assert!(rt; keeps_id(alloc, &shared, &counts)?);
    assert!(rt; keeps_id(alloc, &named, &counts)?);
    Ok(())
}
