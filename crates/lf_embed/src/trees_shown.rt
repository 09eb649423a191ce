//! Outcomes as texts, for tests.
use lf_base::{Memory, Text};
use lf_model::{
    DefaultValue, Limit, Outcome, OutcomeList, Scalar, Tree, TreeList, TreePropList,
    TreeReverseList, TreeValue, TreeValueList,
};
use lf_order::id_text;
use lf_rdf::{Term, TermList};
use std::alloc::Global;

fn put_text(shown: &mut String, text: &str) -> Result<(), Memory> {
    shown.push_str(text)?;
    Ok(())
}

fn put_term(alloc: Global, shown: &mut String, term: &Term) -> Result<(), Memory> {
    match term {
        Term::Literal { lexical, .. } => {
            put_text(shown, "'")?;
            put_text(shown, lexical.as_str())
        }
        Term::Iri(_) => put_id(alloc, shown, term),
        Term::Blank(_) => put_id(alloc, shown, term),
    }
}

fn put_id(alloc: Global, shown: &mut String, term: &Term) -> Result<(), Memory> {
    let id: Text = id_text(alloc, term)?;
    put_text(shown, id.as_str())
}

fn put_types(alloc: Global, shown: &mut String, types: &TermList) -> Result<(), Memory> {
    for term in types.as_slice() {
        put_text(shown, "!")?;
        put_id(alloc, shown, term)?;
    }
    Ok(())
}

fn put_fallback(alloc: Global, shown: &mut String, value: &DefaultValue) -> Result<(), Memory> {
    match value {
        DefaultValue::Null => put_text(shown, "null"),
        DefaultValue::Ref(term) => put_id(alloc, shown, term),
        DefaultValue::Scalar { scalar, .. } => match scalar {
            Scalar::Text(text) => put_text(shown, text.as_str()),
            Scalar::Whole(_) => Ok(()),
            Scalar::Bool(_) => Ok(()),
        },
    }
}

// The id with its types, and in brackets the graph, the properties and the reverse properties.
#[cycle(showing)]
fn put_tree(alloc: Global, shown: &mut String, tree: &Tree) -> Result<(), Memory> {
    match &tree.id {
        Some(id) => put_id(alloc, shown, id)?,
        None => {}
    }
    put_types(alloc, shown, &tree.types)?;
    put_text(shown, "(")?;
    put_trees(alloc, shown, "@", &tree.graph)?;
    put_props(alloc, shown, &tree.props)?;
    put_reverses(alloc, shown, &tree.reverse)?;
    put_text(shown, ")")
}

#[cycle(showing)]
fn put_trees(
    alloc: Global,
    shown: &mut String,
    sign: &str,
    trees: &TreeList,
) -> Result<(), Memory> {
    for tree in trees.as_slice() {
        put_text(shown, sign)?;
        put_tree(alloc, shown, tree)?;
    }
    Ok(())
}

#[cycle(showing)]
fn put_props(alloc: Global, shown: &mut String, props: &TreePropList) -> Result<(), Memory> {
    for prop in props.as_slice() {
        put_text(shown, prop.property.as_str())?;
        put_text(shown, "=")?;
        put_values(alloc, shown, &prop.values)?;
        put_text(shown, ";")?;
    }
    Ok(())
}

#[cycle(showing)]
fn put_reverses(
    alloc: Global,
    shown: &mut String,
    reverses: &TreeReverseList,
) -> Result<(), Memory> {
    for reverse in reverses.as_slice() {
        put_text(shown, "^")?;
        put_text(shown, reverse.property.as_str())?;
        put_trees(alloc, shown, "=", &reverse.nodes)?;
        put_text(shown, ";")?;
    }
    Ok(())
}

#[cycle(showing)]
fn put_values(alloc: Global, shown: &mut String, values: &TreeValueList) -> Result<(), Memory> {
    for value in values.as_slice() {
        put_value(alloc, shown, value)?;
        put_text(shown, " ")?;
    }
    Ok(())
}

#[cycle(showing)]
fn put_value(alloc: Global, shown: &mut String, value: &TreeValue) -> Result<(), Memory> {
    match value {
        TreeValue::Node(tree) => put_tree(alloc, shown, tree),
        TreeValue::Literal(literal) => put_term(alloc, shown, literal),
        TreeValue::List(items) => {
            put_text(shown, "[")?;
            put_values(alloc, shown, items)?;
            put_text(shown, "]")
        }
        TreeValue::Fallback(fallback) => {
            put_text(shown, "~")?;
            put_fallback(alloc, shown, fallback)
        }
        TreeValue::EmptyFallback => put_text(shown, "[]"),
    }
}

fn put_limit(shown: &mut String, limit: Limit) -> Result<(), Memory> {
    match limit {
        Limit::TreeItems => put_text(shown, "items"),
        Limit::Depth => put_text(shown, "depth"),
        Limit::DocumentItems => Ok(()),
        Limit::DocumentBytes => Ok(()),
    }
}

fn put_outcome(alloc: Global, shown: &mut String, outcome: &Outcome) -> Result<(), Memory> {
    match outcome {
        Outcome::NotKey => put_text(shown, "none"),
        Outcome::NoMatch => put_text(shown, "no"),
        Outcome::Matched(tree) => put_tree(alloc, shown, tree),
        Outcome::Over(limit) => put_limit(shown, *limit),
    }
}

/// An outcome as a text.
pub(crate) fn shown(alloc: Global, outcome: &Outcome) -> Result<String, Memory> {
    let mut text = String::new(alloc);
    put_outcome(alloc, &mut text, outcome)?;
    Ok(text)
}

/// Outcomes as a text, one after the other.
pub(crate) fn all_shown(alloc: Global, outcomes: &OutcomeList) -> Result<String, Memory> {
    let mut text = String::new(alloc);
    for outcome in outcomes.as_slice() {
        put_outcome(alloc, &mut text, outcome)?;
        put_text(&mut text, " ")?;
    }
    Ok(text)
}
