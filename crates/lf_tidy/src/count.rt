//! How often blank node labels stand in trees.
ghost use Rattle.std.specs.Prelude.{◌≡◌, ◌+◌, ℕ, List, IfOk, OnOk, map};
ghost use Rattle.lf_model.specs.TreeBridge.{tree_data, entry_data, nodes_data, entries_data, properties_data, reverses_data};
ghost use Rattle.def_documents.specs.Pruning.{count_default, count_entries, count_entry, count_id, count_node, count_nodes, count_properties, count_reverses, count_term, count_types, label_count};
ghost use Rattle.lf_tidy.specs.Counts.{count_in};

use crate::counts::Counts;
use lf_base::Memory;
use lf_model::{
    DefaultValue, Tree, TreeList, TreePropList, TreeReverseList, TreeValue, TreeValueList,
};
use lf_rdf::{Term, TermList};
use std::alloc::Global;

// Counts a label where a term is a blank node.
fn count_term(alloc: Global, counts: &mut Counts, term: &Term) -> Result<(), Memory>
    ensures { OnOk result ((label : List ℕ) → count_in counts.new label
        ≡ count_in counts.old label + count_term label term.now) }
{
    match term {
        Term::Blank(label) => counts.add(alloc, label),
        Term::Iri(_) => Ok(()),
        Term::Literal { .. } => Ok(()),
    }
}

// Counts the label of an id.
fn count_id(alloc: Global, counts: &mut Counts, id: &Option<Term>) -> Result<(), Memory>
    ensures { OnOk result ((label : List ℕ) → count_in counts.new label
        ≡ count_in counts.old label + count_id label id.now) }
{
    match id {
        Some(id) => count_term(alloc, counts, id),
        None => Ok(()),
    }
}

// Counts the labels of types.
fn count_types(alloc: Global, counts: &mut Counts, types: &TermList) -> Result<(), Memory>
    ensures { OnOk result ((label : List ℕ) → count_in counts.new label
        ≡ count_in counts.old label + count_types label types.now) }
{
    for term in types.as_slice() {
        count_term(alloc, counts, term)?;
    }
    Ok(())
}

// Counts the label of a default.
fn count_default(alloc: Global, counts: &mut Counts, value: &DefaultValue) -> Result<(), Memory>
    ensures { OnOk result ((label : List ℕ) → count_in counts.new label
        ≡ count_in counts.old label + count_default label value.now) }
{
    match value {
        DefaultValue::Ref(id) => count_term(alloc, counts, id),
        DefaultValue::Null => Ok(()),
        DefaultValue::Scalar { .. } => Ok(()),
    }
}

// Counts the labels of a node.
#[cycle(counting)]
fn count_tree(alloc: Global, counts: &mut Counts, tree: &Tree) -> Result<(), Memory>
    ensures { OnOk result ((label : List ℕ) → count_in counts.new label
        ≡ count_in counts.old label + count_node label (tree_data tree.now)) }
{
    count_id(alloc, counts, &tree.id)?;
    count_types(alloc, counts, &tree.types)?;
    count_trees(alloc, counts, &tree.graph)?;
    count_props(alloc, counts, &tree.props)?;
    count_reverses(alloc, counts, &tree.reverse)?;
    Ok(())
}

// Counts the labels of nodes.
#[cycle(counting)]
fn count_trees(alloc: Global, counts: &mut Counts, trees: &TreeList) -> Result<(), Memory>
    ensures { OnOk result ((label : List ℕ) → count_in counts.new label
        ≡ count_in counts.old label + count_nodes label (nodes_data trees.now)) }
{
    for tree in trees.as_slice() {
        count_tree(alloc, counts, tree)?;
    }
    Ok(())
}

// Counts the labels in properties.
#[cycle(counting)]
fn count_props(alloc: Global, counts: &mut Counts, props: &TreePropList) -> Result<(), Memory>
    ensures { OnOk result ((label : List ℕ) → count_in counts.new label
        ≡ count_in counts.old label + count_properties label (properties_data props.now)) }
{
    for prop in props.as_slice() {
        count_values(alloc, counts, &prop.values)?;
    }
    Ok(())
}

// Counts the labels in reverse properties.
#[cycle(counting)]
fn count_reverses(
    alloc: Global,
    counts: &mut Counts,
    reverses: &TreeReverseList,
) -> Result<(), Memory>
    ensures { OnOk result ((label : List ℕ) → count_in counts.new label
        ≡ count_in counts.old label + count_reverses label (reverses_data reverses.now)) }
{
    for reverse in reverses.as_slice() {
        count_trees(alloc, counts, &reverse.nodes)?;
    }
    Ok(())
}

// Counts the labels in a value.
#[cycle(counting)]
fn count_value(alloc: Global, counts: &mut Counts, value: &TreeValue) -> Result<(), Memory>
    ensures { OnOk result ((label : List ℕ) → count_in counts.new label
        ≡ count_in counts.old label + count_entry label (entry_data value.now)) }
{
    match value {
        TreeValue::Node(tree) => count_tree(alloc, counts, tree),
        TreeValue::Literal(_) => Ok(()),
        TreeValue::List(values) => count_values(alloc, counts, values),
        TreeValue::Fallback(value) => count_default(alloc, counts, value),
        TreeValue::EmptyFallback => Ok(()),
    }
}

// Counts the labels in values.
#[cycle(counting)]
fn count_values(alloc: Global, counts: &mut Counts, values: &TreeValueList) -> Result<(), Memory>
    ensures { OnOk result ((label : List ℕ) → count_in counts.new label
        ≡ count_in counts.old label + count_entries label (entries_data values.now)) }
{
    for value in values.as_slice() {
        count_value(alloc, counts, value)?;
    }
    Ok(())
}

/// Counts the labels of one tree more. On `Memory` some of them may be counted.
pub fn add_labels(alloc: Global, counts: &mut Counts, tree: &Tree) -> Result<(), Memory>
    ensures { OnOk result ((label : List ℕ) → count_in counts.new label
        ≡ count_in counts.old label + count_node label (tree_data tree.now)) }
{
    count_tree(alloc, counts, tree)
}

/// How often each blank node label stands in all trees of a document: at the id of a node or
/// reference, in a reference of a default, and among types (JSON-LD 1.1 Framing, section 4.2). Its
/// time grows as n log n in the items.
pub fn label_counts(alloc: Global, trees: &TreeList) -> Result<Counts, Memory>
    ensures { IfOk result (λ counts. (label : List ℕ) → count_in counts label
        ≡ label_count (map tree_data trees.now) label) }
{
    let mut counts = Counts::new(alloc);
    for tree in trees.as_slice() {
        count_tree(alloc, &mut counts, tree)?;
    }
    Ok(counts)
}
