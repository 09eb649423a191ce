//! Framed trees, before they are compacted.
ghost use Rattle.std.specs.Prelude.{◌≡◌, IfOk};

use crate::frame::DefaultValue;
use lf_base::{ListOf, Memory, Text, TryCopy};
use lf_rdf::{Term, TermList};
use std::alloc::Global;

/// A framed node (JSON-LD 1.1 Framing, section 4.1).
#[derive(Debug, Drop)]
#[cycle(tree)]
pub struct Tree {
    /// The node's id, unless it was pruned.
    pub id: Option<Term>,
    pub types: TermList,
    /// The nodes of the graph that this node names.
    pub graph: TreeList,
    pub props: TreePropList,
    pub reverse: TreeReverseList,
}

/// A list of framed nodes.
pub type TreeList = ListOf<Tree>;

/// A property of a framed node and its values.
#[derive(Debug, Drop)]
#[cycle(tree)]
pub struct TreeProp {
    pub property: Text,
    pub values: TreeValueList,
}

/// A list of a framed node's properties.
pub type TreePropList = ListOf<TreeProp>;

/// A reverse property of a framed node and the nodes that have this one under it.
#[derive(Debug, Drop)]
#[cycle(tree)]
pub struct TreeReverse {
    pub property: Text,
    pub nodes: TreeList,
}

/// A list of a framed node's reverse properties.
pub type TreeReverseList = ListOf<TreeReverse>;

/// A value of a framed node's property.
#[derive(Debug, Drop)]
#[cycle(tree)]
pub enum TreeValue {
    Node(Tree),
    Literal(Term),
    List(TreeValueList),
    Fallback(DefaultValue),
    /// The empty `@default`, which gives an empty array.
    EmptyFallback,
}

/// A list of values of a framed node.
pub type TreeValueList = ListOf<TreeValue>;

impl TryCopy for Tree {
    fn copy(&self, alloc: Global) -> Result<Tree, Memory> {
        copy_tree(alloc, self)
    }
}

impl TryCopy for TreeProp {
    fn copy(&self, alloc: Global) -> Result<TreeProp, Memory> {
        copy_prop(alloc, self)
    }
}

impl TryCopy for TreeReverse {
    fn copy(&self, alloc: Global) -> Result<TreeReverse, Memory> {
        copy_reverse(alloc, self)
    }
}

impl TryCopy for TreeValue {
    fn copy(&self, alloc: Global) -> Result<TreeValue, Memory> {
        copy_value(alloc, self)
    }
}

#[cycle(copying)]
fn copy_tree(alloc: Global, tree: &Tree) -> Result<Tree, Memory>
    ensures { IfOk result (λ copied. copied ≡ tree.now) }
{
    Ok(Tree {
        id: tree.id.copy(alloc)?,
        types: tree.types.copy(alloc)?,
        graph: copy_trees(alloc, &tree.graph)?,
        props: copy_props(alloc, &tree.props)?,
        reverse: copy_reverses(alloc, &tree.reverse)?,
    })
}

#[cycle(copying)]
fn copy_prop(alloc: Global, prop: &TreeProp) -> Result<TreeProp, Memory>
    ensures { IfOk result (λ copied. copied ≡ prop.now) }
{
    Ok(TreeProp {
        property: prop.property.copy(alloc)?,
        values: copy_values(alloc, &prop.values)?,
    })
}

#[cycle(copying)]
fn copy_reverse(alloc: Global, reverse: &TreeReverse) -> Result<TreeReverse, Memory>
    ensures { IfOk result (λ copied. copied ≡ reverse.now) }
{
    Ok(TreeReverse {
        property: reverse.property.copy(alloc)?,
        nodes: copy_trees(alloc, &reverse.nodes)?,
    })
}

#[cycle(copying)]
fn copy_value(alloc: Global, value: &TreeValue) -> Result<TreeValue, Memory>
    ensures { IfOk result (λ copied. copied ≡ value.now) }
{
    match value {
        TreeValue::Node(tree) => Ok(TreeValue::Node(copy_tree(alloc, tree)?)),
        TreeValue::Literal(literal) => Ok(TreeValue::Literal(literal.copy(alloc)?)),
        TreeValue::List(values) => Ok(TreeValue::List(copy_values(alloc, values)?)),
        TreeValue::Fallback(fallback) => Ok(TreeValue::Fallback(fallback.copy(alloc)?)),
        TreeValue::EmptyFallback => Ok(TreeValue::EmptyFallback),
    }
}

#[cycle(copying)]
fn copy_trees(alloc: Global, trees: &TreeList) -> Result<TreeList, Memory>
    ensures { IfOk result (λ copied. copied ≡ trees.now) }
{
    let mut copied = Vec::new(alloc);
    for tree in trees.as_slice() {
        copied.push(copy_tree(alloc, tree)?)?;
    }
    Ok(ListOf::from_vec(copied))
}

#[cycle(copying)]
fn copy_props(alloc: Global, props: &TreePropList) -> Result<TreePropList, Memory>
    ensures { IfOk result (λ copied. copied ≡ props.now) }
{
    let mut copied = Vec::new(alloc);
    for prop in props.as_slice() {
        copied.push(copy_prop(alloc, prop)?)?;
    }
    Ok(ListOf::from_vec(copied))
}

#[cycle(copying)]
fn copy_reverses(alloc: Global, reverses: &TreeReverseList) -> Result<TreeReverseList, Memory>
    ensures { IfOk result (λ copied. copied ≡ reverses.now) }
{
    let mut copied = Vec::new(alloc);
    for reverse in reverses.as_slice() {
        copied.push(copy_reverse(alloc, reverse)?)?;
    }
    Ok(ListOf::from_vec(copied))
}

#[cycle(copying)]
fn copy_values(alloc: Global, values: &TreeValueList) -> Result<TreeValueList, Memory>
    ensures { IfOk result (λ copied. copied ≡ values.now) }
{
    let mut copied = Vec::new(alloc);
    for value in values.as_slice() {
        copied.push(copy_value(alloc, value)?)?;
    }
    Ok(ListOf::from_vec(copied))
}
