//! What a property's value asks of a term.
ghost use Rattle.std.specs.Prelude.{◌≡◌, IfOk};
ghost use Rattle.lf_model.specs.TreeBridge.{entry_data};
ghost use Rattle.def_documents.specs.Picks as def;

use crate::kinds::list_pick;
use crate::node::{default_pick, no_id_pick, node_pick};
use crate::picks::literal_pick;
use def_selection::Pick;
use lf_base::Memory;
use lf_model::TreeValue;
use lf_select::Inverse;
use std::alloc::Global;

/// What a property's value asks of a term; `sole` is whether the property has no other value in
/// this node.
pub fn pick_of(
    alloc: Global,
    inverse: &Inverse,
    sole: bool,
    value: &TreeValue,
) -> Result<Pick, Memory>
    ensures { IfOk result (λ made. made ≡ def.pick_of inverse.now sole (entry_data value.now)) }
{
    match value {
        TreeValue::Node(node) => node_pick(alloc, inverse, &node.id),
        TreeValue::Literal(literal) => literal_pick(alloc, literal),
        TreeValue::List(items) => list_pick(alloc, sole, items),
        TreeValue::Fallback(value) => default_pick(alloc, inverse, value),
        TreeValue::EmptyFallback => no_id_pick(alloc, inverse),
    }
}
