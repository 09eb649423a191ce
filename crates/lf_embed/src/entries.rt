//! Outputs that ask nothing: references and default values. Embedding calls it.
ghost use Rattle.std.specs.Prelude.{◌≡◌, ◌≤◌, [], ◌∷◌, IfOk, IfSome, OnOk, Some, map};
ghost use Rattle.std.specs.Option.{option_map};
ghost use Rattle.lf_model.specs.TreeData.{no_nodes, no_properties, no_reverses, tree};
ghost use Rattle.lf_model.specs.TreeBridge.{entry_data, tree_data};
ghost use Rattle.def_framing.specs.Embedding.{refer};
ghost use Rattle.def_framing.specs.Parts.{default_entries, fallback_next};
ghost use Rattle.def_framing.specs.Results.{through};
ghost use Rattle.lf_model.specs.declared.frame.DefaultValue.TheVariants.{Null};
ghost use Rattle.lf_embed.specs.Made.{emit_literal};
ghost use Rattle.lf_embed.specs.Runs.{run_of};
ghost use Rattle.lf_embed.specs.Walks.{path_of, state_of};

use crate::walk::{Stop, Walk};
use lf_base::{Memory, TryCopy};
use lf_model::{
    DefaultList, DefaultValue, Tree, TreeList, TreePropList, TreeReverseList, TreeValue,
    TreeValueList,
};
use lf_rdf::{Term, TermList};
use std::alloc::Global;

/// A node is output as a reference: its id alone (JSON-LD 1.1 Framing, section 4.1: the object
/// embed flag).
pub fn refer(alloc: Global, id: &Term, walk: &mut Walk) -> Result<Tree, Stop>
    ensures run { IfSome (run_of tree_data result (state_of walk.new))
        (λ r. r ≡ refer id.now (state_of walk.old)) }
    ensures path { path_of walk.new ≡ path_of walk.old }
    ensures grows { OnOk result ((state_of walk.old).count ≤ (state_of walk.new).count) }
{
    let counted = walk.count_item();
    match counted {
        Err(stop) => Err(stop),
        Ok(()) => Ok(reference(alloc, id)?),
    }
}

/// A literal is output as it is.
#[tactic(auto, using(lf_model::proofs::TreeLemmas::tree_cases))]
pub fn emit_literal(
    alloc: Global,
    literal: &Term,
    walk: &mut Walk,
) -> Result<Option<TreeValue>, Stop>
    ensures run { IfSome (run_of (option_map entry_data) result (state_of walk.new))
        (λ r. r ≡ emit_literal literal.now (state_of walk.old)) }
    ensures path { path_of walk.new ≡ path_of walk.old }
    ensures grows { OnOk result ((state_of walk.old).count ≤ (state_of walk.new).count) }
{
    match walk.count_item() {
        Err(stop) => Err(stop),
        Ok(()) => Ok(Some(TreeValue::Literal(literal.copy(alloc)?))),
    }
}

// A node object of an id alone.
fn reference(alloc: Global, id: &Term) -> Result<Tree, Memory>
    ensures { IfOk result
        (λ made. tree_data made ≡ tree (Some id.now) [] no_nodes no_properties no_reverses) }
{
    Ok(Tree {
        id: Some(id.copy(alloc)?),
        types: TermList::new(alloc),
        graph: TreeList::new(alloc),
        props: TreePropList::new(alloc),
        reverse: TreeReverseList::new(alloc),
    })
}

/// The default values of a property: null without `@default`, and an empty array for an empty one
/// (JSON-LD 1.1 Framing, section 4.1: the default keyword).
pub fn fallback_entries(
    alloc: Global,
    fallback: &Option<DefaultList>,
    walk: &mut Walk,
) -> Result<TreeValueList, Stop>
    ensures run { IfSome (run_of (map entry_data) result (state_of walk.new))
        (λ r. r ≡ default_entries fallback.now (state_of walk.old)) }
    ensures path { path_of walk.new ≡ path_of walk.old }
{
    match fallback {
        None => null_entry(alloc, walk),
        Some(values) => match values.as_slice().first() {
            None => Ok(one_entry(alloc, TreeValue::EmptyFallback)?),
            Some(_) => each_fallback(alloc, values, walk),
        },
    }
}

/// The null of a property without `@default`.
pub fn null_entry(alloc: Global, walk: &mut Walk) -> Result<TreeValueList, Stop>
    ensures run { IfSome (run_of (map entry_data) result (state_of walk.new))
        (λ r. r ≡ fallback_next [] Null (state_of walk.old)) }
    ensures path { path_of walk.new ≡ path_of walk.old }
{
    match walk.count_item() {
        Err(stop) => Err(stop),
        Ok(()) => Ok(one_entry(alloc, TreeValue::Fallback(DefaultValue::Null))?),
    }
}

// A list of one value.
fn one_entry(alloc: Global, entry: TreeValue) -> Result<TreeValueList, Memory>
    ensures { IfOk result (λ entries. entries ≡ entry ∷ []) }
{
    let mut entries = TreeValueList::new(alloc);
    entries.push(entry)?;
    Ok(entries)
}

// Each default value is counted and output, in order.
fn each_fallback(
    alloc: Global,
    values: &DefaultList,
    walk: &mut Walk,
) -> Result<TreeValueList, Stop>
    ensures run { IfSome (run_of (map entry_data) result (state_of walk.new))
        (λ r. r ≡ through fallback_next [] values.now (state_of walk.old)) }
    ensures path { path_of walk.new ≡ path_of walk.old }
{
    let mut entries = TreeValueList::new(alloc);
    for value in values.as_slice() {
        match next_fallback(alloc, value, &mut entries, walk) {
            Err(stop) => return Err(stop),
            Ok(()) => {}
        }
    }
    Ok(entries)
}

// One more default value is counted and output.
fn next_fallback(
    alloc: Global,
    value: &DefaultValue,
    entries: &mut TreeValueList,
    walk: &mut Walk,
) -> Result<(), Stop>
    ensures run { IfSome (run_of (λ u. map entry_data entries.new) result (state_of walk.new))
        (λ r. r ≡ fallback_next (map entry_data entries.old) value.now (state_of walk.old)) }
    ensures path { path_of walk.new ≡ path_of walk.old }
{
    match walk.count_item() {
        Err(stop) => Err(stop),
        Ok(()) => {
            entries.push(TreeValue::Fallback(value.copy(alloc)?))?;
            Ok(())
        }
    }
}
