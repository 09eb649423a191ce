//! The keys under which values stand, and the terms that are chosen for them (JSON-LD 1.1
//! Processing Algorithms and API, sections 6.2 and 6.3).
ghost use Rattle.lf_model.specs.TreeBridge.{entry_data, tree_data};
ghost use Rattle.def_documents.specs.Picks.{pick_of, reverse_pick, tree_id};
ghost use Rattle.lf_compact.specs.Answers.{Gives};
ghost use Rattle.lf_compact.specs.Nodes.{under_pick};
ghost use Rattle.lf_compact.specs.Under.{under_data};

use crate::error::CompactErr;
use crate::node::reverse_pick;
use crate::value::pick_of;
use def_selection::Pick;
use lf_base::Text;
use lf_model::{TermDef, Tree, TreeValue};
use lf_select::Inverse;
use std::alloc::Global;

/// The key of a value, and the term that is chosen for it, if any.
#[derive(Drop)]
pub struct Under<'a> {
    pub key: Text,
    pub term: Option<&'a TermDef>,
}

// The key, and the term behind it, that a pick chooses for an IRI.
fn under_pick<'a>(
    alloc: Global,
    inverse: &'a Inverse,
    iri: &Text,
    pick: &Pick,
) -> Result<Under<'a>, CompactErr>
    ensures { Gives under_data result (under_pick inverse.now iri.now pick.now) }
{
    let term = inverse.chosen(alloc, iri, pick)?;
    let key = inverse.compact_under(alloc, iri, term, pick)?;
    Ok(Under { key, term })
}

/// The key of a property's value; `sole` is whether the property has no other value in this node.
pub fn under_value<'a>(
    alloc: Global,
    inverse: &'a Inverse,
    iri: &Text,
    sole: bool,
    value: &TreeValue,
) -> Result<Under<'a>, CompactErr>
    ensures { Gives under_data result
        (under_pick inverse.now iri.now (pick_of inverse.now sole (entry_data value.now))) }
{
    let pick = pick_of(alloc, inverse, sole, value)?;
    under_pick(alloc, inverse, iri, &pick)
}

/// The key of a node of a reverse property.
pub fn under_node<'a>(
    alloc: Global,
    inverse: &'a Inverse,
    iri: &Text,
    node: &Tree,
) -> Result<Under<'a>, CompactErr>
    ensures { Gives under_data result (under_pick inverse.now iri.now
        (reverse_pick inverse.now (tree_id (tree_data node.now)))) }
{
    let pick = reverse_pick(alloc, inverse, &node.id)?;
    under_pick(alloc, inverse, iri, &pick)
}
