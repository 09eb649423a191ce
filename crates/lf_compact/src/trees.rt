//! Compaction of nodes, their values and lists (JSON-LD 1.1 Processing Algorithms and API, section
//! 5.1.2).
ghost use Rattle.std.specs.Prelude.{◌≡◌, ◌&&◌};
ghost use Rattle.std.specs.Option.{option_copied};
ghost use Rattle.lf_model.specs.TreeBridge.{entries_data, entry_data, nodes_data, properties_data, property_data, reverse_data, reverses_data, tree_data};
ghost use Rattle.def_documents.specs.Nodes as def;
ghost use Rattle.lf_compact.specs.Answers.{Compacted, Gives};
ghost use Rattle.lf_compact.specs.Nodes.{has_only_id, json_list, lone_id_of, map_json, one_pointing, one_property, one_reverse, one_value};
ghost use Rattle.lf_compact.specs.Pieces as pieces;

use crate::error::CompactErr;
use crate::key::{under_node, under_value};
use crate::members::array_of;
use crate::parts::{begin_node, write_node};
use crate::pieces::{Filed, Piece, piece_of};
use crate::property::FiledProperty;
use crate::write::{default_json, list_json, literal_json, reference_json};
use lf_base::{Text, TryCopy};
use lf_model::{
    Json, TermDef, TermTable, Tree, TreeList, TreeProp, TreePropList, TreeReverse, TreeReverseList,
    TreeValue, TreeValueList,
};
use lf_rdf::Term;
use lf_select::Inverse;
use std::alloc::Global;

// Whether all four hold.
fn all_four(first: bool, second: bool, third: bool, fourth: bool) -> bool
    ensures { result ≡ (first && second && third && fourth) }
{
    first && second && third && fourth
}

// Whether a node has nothing but an id.
fn has_only_id(tree: &Tree) -> bool
    ensures { result ≡ has_only_id (tree_data tree.now) }
{
    all_four(
        tree.types.as_slice().len() == 0,
        tree.graph.as_slice().len() == 0,
        tree.props.as_slice().len() == 0,
        tree.reverse.as_slice().len() == 0,
    )
}

// The id of a node that has nothing but an id.
#[tactic(auto, using(crate::proofs::Sole::lone))]
fn lone_id(tree: &Tree) -> Option<&Term>
    ensures { option_copied result ≡ lone_id_of (tree_data tree.now) }
{
    if has_only_id(tree) {
        tree.id.as_ref()
    } else {
        None
    }
}

// Whether these are the one value of a property.
fn is_sole(values: &[TreeValue]) -> bool
    ensures { result ≡ def.is_sole (entries_data values.now) }
{
    values.len() == 1
}

// A node under a chosen term, or none.
#[cycle(compacting)]
fn node_json(
    alloc: Global,
    inverse: &Inverse,
    term: Option<&TermDef>,
    tree: &Tree,
) -> Result<Json, CompactErr>
    ensures { Compacted result (def.node_json inverse.now (option_copied term.entry) (tree_data tree.now)) }
{
    match lone_id(tree) {
        Some(id) => reference_json(alloc, inverse, term, id),
        None => map_json(alloc, inverse, tree),
    }
}

// The map of a node.
#[cycle(compacting)]
fn map_json(alloc: Global, inverse: &Inverse, tree: &Tree) -> Result<Json, CompactErr>
    ensures { Compacted result (map_json inverse.now (tree_data tree.now)) }
{
    let members = match begin_node(alloc, inverse, &tree.id, &tree.types) {
        Ok(members) => members,
        Err(e) => return Err(e),
    };
    let graph = match nodes_json(alloc, inverse, &tree.graph) {
        Ok(graph) => graph,
        Err(e) => return Err(e),
    };
    let properties = match properties_filed(alloc, inverse, &tree.props) {
        Ok(properties) => properties,
        Err(e) => return Err(e),
    };
    let reverses = match reverses_filed(alloc, inverse, &tree.reverse) {
        Ok(reverses) => reverses,
        Err(e) => return Err(e),
    };
    Ok(write_node(alloc, inverse, members, graph, properties, reverses)?)
}

// The nodes of a graph, compacted.
#[cycle(compacting)]
fn nodes_json(alloc: Global, inverse: &Inverse, nodes: &TreeList) -> Result<Vec<Json>, CompactErr>
    ensures { Gives json_list result (def.nodes_json inverse.now (nodes_data nodes.now)) }
{
    let mut made = Vec::new(alloc);
    for node in nodes.as_slice() {
        match node_json(alloc, inverse, None, node) {
            Ok(json) => made.push(json)?,
            Err(e) => return Err(e),
        }
    }
    Ok(made)
}

// The properties of a node, with their values under keys.
#[cycle(compacting)]
fn properties_filed<'a>(
    alloc: Global,
    inverse: &'a Inverse,
    properties: &TreePropList,
) -> Result<Vec<FiledProperty<'a>>, CompactErr>
    ensures { Gives pieces.properties_data result
        (def.properties_filed inverse.now (properties_data properties.now)) }
{
    let mut made = Vec::new(alloc);
    for property in properties.as_slice() {
        match property_filed(alloc, inverse, property) {
            Ok(filed) => made.push(filed)?,
            Err(e) => return Err(e),
        }
    }
    Ok(made)
}

// A property, with its values under keys.
#[cycle(compacting)]
fn property_filed<'a>(
    alloc: Global,
    inverse: &'a Inverse,
    property: &TreeProp,
) -> Result<FiledProperty<'a>, CompactErr>
    ensures { Gives pieces.property_data result (one_property inverse.now (property_data property.now)) }
{
    let iri = property.property.copy(alloc)?;
    let sole = is_sole(property.values.as_slice());
    match values_filed(alloc, inverse, &property.property, sole, &property.values) {
        Ok(values) => Ok(FiledProperty { iri, values }),
        Err(e) => Err(e),
    }
}

// The values of a property under their keys.
#[cycle(compacting)]
fn values_filed<'a>(
    alloc: Global,
    inverse: &'a Inverse,
    iri: &Text,
    sole: bool,
    values: &TreeValueList,
) -> Result<Vec<Filed<'a>>, CompactErr>
    ensures { Gives pieces.filed_list result
        (def.values_filed inverse.now iri.now sole (entries_data values.now)) }
{
    let mut made = Vec::new(alloc);
    for value in values.as_slice() {
        match value_filed(alloc, inverse, iri, sole, value) {
            Ok(filed) => made.push(filed)?,
            Err(e) => return Err(e),
        }
    }
    Ok(made)
}

// A value under the key that its pick chooses.
#[cycle(compacting)]
fn value_filed<'a>(
    alloc: Global,
    inverse: &'a Inverse,
    iri: &Text,
    sole: bool,
    value: &TreeValue,
) -> Result<Filed<'a>, CompactErr>
    ensures { Gives pieces.filed_data result (one_value inverse.now iri.now sole (entry_data value.now)) }
{
    let under = match under_value(alloc, inverse, iri, sole, value) {
        Ok(under) => under,
        Err(e) => return Err(e),
    };
    match value_json(alloc, inverse, under.term, value) {
        Ok(json) => Ok(Filed {
            key: under.key,
            term: under.term,
            piece: piece_of(alloc, inverse, under.term, value, json)?,
        }),
        Err(e) => Err(e),
    }
}

// A value under a chosen term, or none.
#[cycle(compacting)]
fn value_json(
    alloc: Global,
    inverse: &Inverse,
    term: Option<&TermDef>,
    value: &TreeValue,
) -> Result<Json, CompactErr>
    ensures { Compacted result
        (def.value_json inverse.now (option_copied term.entry) (entry_data value.now)) }
{
    match value {
        TreeValue::Node(tree) => node_json(alloc, inverse, term, tree),
        TreeValue::Literal(literal) => literal_json(alloc, inverse, term, literal),
        TreeValue::List(items) => match items_json(alloc, inverse, term, items) {
            Ok(items) => Ok(list_json(alloc, inverse, term, items)?),
            Err(e) => Err(e),
        },
        TreeValue::Fallback(value) => default_json(alloc, inverse, term, value),
        TreeValue::EmptyFallback => Ok(array_of(Vec::new(alloc))),
    }
}

// The items of a list, compacted.
#[cycle(compacting)]
fn items_json(
    alloc: Global,
    inverse: &Inverse,
    term: Option<&TermDef>,
    items: &TreeValueList,
) -> Result<Vec<Json>, CompactErr>
    ensures { Gives json_list result
        (def.items_json inverse.now (option_copied term.entry) (entries_data items.now)) }
{
    let mut made = Vec::new(alloc);
    for item in items.as_slice() {
        match value_json(alloc, inverse, term, item) {
            Ok(json) => made.push(json)?,
            Err(e) => return Err(e),
        }
    }
    Ok(made)
}

// The reverse properties of a node, with their nodes under keys.
#[cycle(compacting)]
fn reverses_filed<'a>(
    alloc: Global,
    inverse: &'a Inverse,
    reverses: &TreeReverseList,
) -> Result<Vec<FiledProperty<'a>>, CompactErr>
    ensures { Gives pieces.properties_data result
        (def.reverses_filed inverse.now (reverses_data reverses.now)) }
{
    let mut made = Vec::new(alloc);
    for reverse in reverses.as_slice() {
        match reverse_filed(alloc, inverse, reverse) {
            Ok(filed) => made.push(filed)?,
            Err(e) => return Err(e),
        }
    }
    Ok(made)
}

// A reverse property, with its nodes under keys.
#[cycle(compacting)]
fn reverse_filed<'a>(
    alloc: Global,
    inverse: &'a Inverse,
    reverse: &TreeReverse,
) -> Result<FiledProperty<'a>, CompactErr>
    ensures { Gives pieces.property_data result (one_reverse inverse.now (reverse_data reverse.now)) }
{
    let iri = reverse.property.copy(alloc)?;
    match pointing_filed(alloc, inverse, &reverse.property, &reverse.nodes) {
        Ok(values) => Ok(FiledProperty { iri, values }),
        Err(e) => Err(e),
    }
}

// The nodes of a reverse property under their keys.
#[cycle(compacting)]
fn pointing_filed<'a>(
    alloc: Global,
    inverse: &'a Inverse,
    iri: &Text,
    nodes: &TreeList,
) -> Result<Vec<Filed<'a>>, CompactErr>
    ensures { Gives pieces.filed_list result
        (def.pointing_filed inverse.now iri.now (nodes_data nodes.now)) }
{
    let mut made = Vec::new(alloc);
    for node in nodes.as_slice() {
        match one_pointing(alloc, inverse, iri, node) {
            Ok(filed) => made.push(filed)?,
            Err(e) => return Err(e),
        }
    }
    Ok(made)
}

// A node of a reverse property under the key that its pick chooses.
#[cycle(compacting)]
fn one_pointing<'a>(
    alloc: Global,
    inverse: &'a Inverse,
    iri: &Text,
    node: &Tree,
) -> Result<Filed<'a>, CompactErr>
    ensures { Gives pieces.filed_data result (one_pointing inverse.now iri.now (tree_data node.now)) }
{
    let under = match under_node(alloc, inverse, iri, node) {
        Ok(under) => under,
        Err(e) => return Err(e),
    };
    match node_json(alloc, inverse, under.term, node) {
        Ok(json) => Ok(Filed {
            key: under.key,
            term: under.term,
            piece: Piece::Whole(json),
        }),
        Err(e) => Err(e),
    }
}

/// The compacted tree, by the inverse of its context that is made once for all trees of a document
/// (JSON-LD 1.1 Processing Algorithms and API, section 5.1). `Ld` is `IRI confused with prefix`.
/// Its time grows with the tree's items and the logarithm of the members of a map.
pub fn compact_with(alloc: Global, inverse: &Inverse, tree: &Tree) -> Result<Json, CompactErr>
    ensures { Compacted result (def.compact inverse.now (tree_data tree.now)) }
{
    node_json(alloc, inverse, None, tree)
}

/// The compacted tree by a context, which is turned round for this call: `compact_with` shares that
/// between trees.
pub fn compact(alloc: Global, table: &TermTable, tree: &Tree) -> Result<Json, CompactErr>
    ensures { Compacted result (def.compact table.now (tree_data tree.now)) }
{
    let inverse = Inverse::of(alloc, table)?;
    compact_with(alloc, &inverse, tree)
}
