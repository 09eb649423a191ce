//! Trees without the blank node ids that are counted once.
ghost use Rattle.std.specs.Prelude.{◌≡◌, IfOk};
ghost use Rattle.lf_model.specs.TreeBridge.{tree_data, property_data, reverse_data, entry_data, nodes_data, entries_data, properties_data, reverses_data};
ghost use Rattle.def_documents.specs.Pruning.{prune_entries, prune_entry, prune_id, prune_node, prune_nodes, prune_properties, prune_reverses};
ghost use Rattle.lf_tidy.specs.Counts.{count_in};
ghost use Rattle.lf_tidy.specs.Pruned.{pruned_property, pruned_reverse};

use crate::counts::Counts;
use lf_base::{ListOf, Memory, TryCopy};
use lf_model::{
    Tree, TreeList, TreeProp, TreePropList, TreeReverse, TreeReverseList, TreeValue, TreeValueList,
};
use lf_rdf::Term;
use std::alloc::Global;

// An id, unless it is a label that is counted once.
fn prune_id(alloc: Global, counts: &Counts, id: &Option<Term>) -> Result<Option<Term>, Memory>
    ensures { IfOk result (λ pruned. pruned ≡ prune_id (count_in counts.now) id.now) }
{
    match id {
        Some(Term::Blank(label)) => {
            if counts.get(label) == 1 {
                Ok(None)
            } else {
                Ok(Some(Term::Blank(label.copy(alloc)?)))
            }
        }
        Some(Term::Iri(iri)) => Ok(Some(Term::Iri(iri.copy(alloc)?))),
        Some(
            Term::Literal {
                lexical,
                datatype,
                language,
            },
        ) => Ok(Some(Term::Literal {
            lexical: lexical.copy(alloc)?,
            datatype: datatype.copy(alloc)?,
            language: language.copy(alloc)?,
        })),
        None => Ok(None),
    }
}

// A node without the labels that are counted once.
#[cycle(pruning)]
fn prune_tree(alloc: Global, counts: &Counts, tree: &Tree) -> Result<Tree, Memory>
    ensures { IfOk result
        (λ pruned. tree_data pruned ≡ prune_node (count_in counts.now) (tree_data tree.now)) }
{
    Ok(Tree {
        id: prune_id(alloc, counts, &tree.id)?,
        types: tree.types.copy(alloc)?,
        graph: prune_trees(alloc, counts, &tree.graph)?,
        props: prune_props(alloc, counts, &tree.props)?,
        reverse: prune_reverses(alloc, counts, &tree.reverse)?,
    })
}

// A property with its values pruned.
#[cycle(pruning)]
fn prune_prop(alloc: Global, counts: &Counts, prop: &TreeProp) -> Result<TreeProp, Memory>
    ensures { IfOk result (λ pruned.
        property_data pruned ≡ pruned_property (count_in counts.now) (property_data prop.now)) }
{
    Ok(TreeProp {
        property: prop.property.copy(alloc)?,
        values: prune_values(alloc, counts, &prop.values)?,
    })
}

// A reverse property with its nodes pruned.
#[cycle(pruning)]
fn prune_reverse(
    alloc: Global,
    counts: &Counts,
    reverse: &TreeReverse,
) -> Result<TreeReverse, Memory>
    ensures { IfOk result (λ pruned.
        reverse_data pruned ≡ pruned_reverse (count_in counts.now) (reverse_data reverse.now)) }
{
    Ok(TreeReverse {
        property: reverse.property.copy(alloc)?,
        nodes: prune_trees(alloc, counts, &reverse.nodes)?,
    })
}

// A value, pruned.
#[cycle(pruning)]
fn prune_value(alloc: Global, counts: &Counts, value: &TreeValue) -> Result<TreeValue, Memory>
    ensures { IfOk result
        (λ pruned. entry_data pruned ≡ prune_entry (count_in counts.now) (entry_data value.now)) }
{
    match value {
        TreeValue::Node(tree) => Ok(TreeValue::Node(prune_tree(alloc, counts, tree)?)),
        TreeValue::Literal(literal) => Ok(TreeValue::Literal(literal.copy(alloc)?)),
        TreeValue::List(values) => Ok(TreeValue::List(prune_values(alloc, counts, values)?)),
        TreeValue::Fallback(fallback) => Ok(TreeValue::Fallback(fallback.copy(alloc)?)),
        TreeValue::EmptyFallback => Ok(TreeValue::EmptyFallback),
    }
}

// Nodes, pruned.
#[cycle(pruning)]
fn prune_trees(alloc: Global, counts: &Counts, trees: &TreeList) -> Result<TreeList, Memory>
    ensures { IfOk result
        (λ pruned. nodes_data pruned ≡ prune_nodes (count_in counts.now) (nodes_data trees.now)) }
{
    let mut pruned = Vec::new(alloc);
    for tree in trees.as_slice() {
        pruned.push(prune_tree(alloc, counts, tree)?)?;
    }
    Ok(ListOf::from_vec(pruned))
}

// Properties, pruned.
#[cycle(pruning)]
fn prune_props(alloc: Global, counts: &Counts, props: &TreePropList) -> Result<TreePropList, Memory>
    ensures { IfOk result (λ pruned. properties_data pruned
        ≡ prune_properties (count_in counts.now) (properties_data props.now)) }
{
    let mut pruned = Vec::new(alloc);
    for prop in props.as_slice() {
        pruned.push(prune_prop(alloc, counts, prop)?)?;
    }
    Ok(ListOf::from_vec(pruned))
}

// Reverse properties, pruned.
#[cycle(pruning)]
fn prune_reverses(
    alloc: Global,
    counts: &Counts,
    reverses: &TreeReverseList,
) -> Result<TreeReverseList, Memory>
    ensures { IfOk result (λ pruned. reverses_data pruned
        ≡ prune_reverses (count_in counts.now) (reverses_data reverses.now)) }
{
    let mut pruned = Vec::new(alloc);
    for reverse in reverses.as_slice() {
        pruned.push(prune_reverse(alloc, counts, reverse)?)?;
    }
    Ok(ListOf::from_vec(pruned))
}

// Values, pruned.
#[cycle(pruning)]
fn prune_values(
    alloc: Global,
    counts: &Counts,
    values: &TreeValueList,
) -> Result<TreeValueList, Memory>
    ensures { IfOk result (λ pruned.
        entries_data pruned ≡ prune_entries (count_in counts.now) (entries_data values.now)) }
{
    let mut pruned = Vec::new(alloc);
    for value in values.as_slice() {
        pruned.push(prune_value(alloc, counts, value)?)?;
    }
    Ok(ListOf::from_vec(pruned))
}

/// The tree without the blank node ids that are counted once (JSON-LD 1.1 Framing, section 4.2:
/// prune blank node identifiers). Types and references of defaults stay. Its time grows with the
/// tree's items.
pub fn tidy(alloc: Global, tree: &Tree, counts: &Counts) -> Result<Tree, Memory>
    ensures { IfOk result
        (λ pruned. tree_data pruned ≡ prune_node (count_in counts.now) (tree_data tree.now)) }
{
    prune_tree(alloc, counts, tree)
}
