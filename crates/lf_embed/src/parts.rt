//! The parts of a node put together: its outputs, properties and reverse properties. Embedding
//! calls it; it asks nothing.
ghost use Rattle.std.specs.Prelude.{◌≡◌, ◌++◌, IfOk, OnOk, Some, map};
ghost use Rattle.std.specs.Option.{option_map};
ghost use Rattle.lf_model.specs.TreeData.{node_entry, nodes_of, properties_of, reverses_of, tree};
ghost use Rattle.lf_model.specs.TreeBridge.{entry_data, property_data, reverse_data, tree_data};
ghost use Rattle.def_framing.specs.Parts.{with_property, with_reverse};
ghost use Rattle.lf_embed.specs.Made.{with_made};

use lf_base::{Memory, Text, TryCopy};
use lf_model::{
    Tree, TreeList, TreeProp, TreePropList, TreeReverse, TreeReverseList, TreeValue, TreeValueList,
};
use lf_rdf::{Term, TermList};
use std::alloc::Global;

/// The output of a node from its parts (JSON-LD 1.1 Framing, section 4.2.3).
#[tactic(auto, using(lf_model::proofs::TreeLemmas::tree_cases, crate::proofs::PartProofs::outputs_join))]
pub fn assemble(
    alloc: Global,
    id: &Term,
    types: TermList,
    graph: TreeList,
    values: TreePropList,
    defaults: TreePropList,
    reverse: TreeReverseList,
) -> Result<Tree, Memory>
    ensures { IfOk result (λ made.
        tree_data made
        ≡ tree (Some id.now) types (nodes_of (map tree_data graph))
        (properties_of (map property_data values ++ map property_data defaults))
        (reverses_of (map reverse_data reverse))) }
{
    let props = joined(values, defaults)?;
    Ok(Tree {
        id: Some(id.copy(alloc)?),
        types,
        graph,
        props,
        reverse,
    })
}

// The properties with values, then those with defaults.
fn joined(values: TreePropList, defaults: TreePropList) -> Result<TreePropList, Memory>
    ensures { IfOk result (λ props. props ≡ values ++ defaults) }
{
    let mut props = values;
    for property in defaults.into_vec() {
        props.push(property)?;
    }
    Ok(props)
}

// The same values in no more memory than they take: most properties have one, and a list that grew
// by one has room for four.
fn fitted(entries: TreeValueList) -> TreeValueList
    ensures { result ≡ entries }
{
    let mut values = entries.into_vec();
    values.shrink_to_fit();
    TreeValueList::from_vec(values)
}

/// A property joins those that were output where a value of it was.
#[tactic(auto, using(lf_model::proofs::TreeLemmas::tree_cases))]
pub fn add_property(
    alloc: Global,
    property: &Text,
    entries: TreeValueList,
    made: &mut TreePropList,
) -> Result<(), Memory>
    ensures { OnOk result (map property_data made.new
        ≡ with_property property.now (map entry_data entries) (map property_data made.old)) }
{
    if entries.is_empty() {
        return Ok(());
    }
    made.push(TreeProp {
        property: property.copy(alloc)?,
        values: fitted(entries),
    })?;
    Ok(())
}

/// A reverse property joins those that were output where a node was.
#[tactic(auto, using(lf_model::proofs::TreeLemmas::tree_cases))]
pub fn add_reverse(
    alloc: Global,
    property: &Text,
    nodes: TreeList,
    made: &mut TreeReverseList,
) -> Result<(), Memory>
    ensures { OnOk result (map reverse_data made.new
        ≡ with_reverse property.now (map tree_data nodes) (map reverse_data made.old)) }
{
    if nodes.is_empty() {
        return Ok(());
    }
    made.push(TreeReverse {
        property: property.copy(alloc)?,
        nodes,
    })?;
    Ok(())
}

/// A node joins those that were output, where there is one.
pub fn push_tree(made: Option<Tree>, trees: &mut TreeList) -> Result<(), Memory>
    ensures { OnOk result (map tree_data trees.new
        ≡ with_made (option_map tree_data made) (map tree_data trees.old)) }
{
    match made {
        None => Ok(()),
        Some(tree) => {
            trees.push(tree)?;
            Ok(())
        }
    }
}

/// A value joins those that were output, where there is one.
pub fn push_entry(made: Option<TreeValue>, entries: &mut TreeValueList) -> Result<(), Memory>
    ensures { OnOk result (map entry_data entries.new
        ≡ with_made (option_map entry_data made) (map entry_data entries.old)) }
{
    match made {
        None => Ok(()),
        Some(entry) => {
            entries.push(entry)?;
            Ok(())
        }
    }
}

/// A node as a value.
#[tactic(auto, using(lf_model::proofs::TreeLemmas::tree_cases))]
pub fn node_value(made: Option<Tree>) -> Option<TreeValue>
    ensures { option_map entry_data result ≡ option_map node_entry (option_map tree_data made) }
{
    match made {
        None => None,
        Some(tree) => Some(TreeValue::Node(tree)),
    }
}
