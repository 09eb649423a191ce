//! The parts of a node's map (JSON-LD 1.1 Processing Algorithms and API, section 5.1.2).
ghost use Rattle.std.specs.Prelude.{◌≡◌, ◌∷◌, [], ℕ, List, IfOk, OnOk, if◌then◌else◌, length, map, nat_eq, not};
ghost use Rattle.lf_model.specs.JsonBridge.{json_data};
ghost use Rattle.lf_model.specs.JsonData.{JsonValue, array, items_of};
ghost use Rattle.def_documents.specs.Entries.{entries_in_order};
ghost use Rattle.def_documents.specs.Grouping.{object_of};
ghost use Rattle.def_documents.specs.Nodes as def;
ghost use Rattle.lf_compact.specs.Answers.{AddsAll, AddsEntries, Compacted, Gives};
ghost use Rattle.lf_compact.specs.Members.{Hold};
ghost use Rattle.lf_compact.specs.Nodes.{beginning, json_list, names_entry, node_entries, reverse_part, short_type, Begins};
ghost use Rattle.lf_compact.specs.Pieces.{properties_data};

use crate::entry::alone_or_array;
use crate::error::CompactErr;
use crate::members::{Members, add, object_of};
use crate::pieces::{container_of, has_set};
use crate::property::{FiledProperty, add_in_order};
use crate::turned::split_reverses;
use crate::write::add_under;
use lf_base::{ListOf, Memory, Text};
use lf_model::Json;
use lf_rdf::{Term, TermList};
use lf_select::Inverse;
use std::alloc::Global;
use std::collections::BTreeMap;

// Whether there is any value.
fn has_any(values: &[Json]) -> bool
    ensures { result ≡ not (nat_eq (length values.now) 0) }
{
    values.len() != 0
}

// Whether there is any member.
fn holds_any(members: &Members) -> bool
    ensures { result ≡ not (nat_eq (length members.now.entries) 0) }
{
    members.len() != 0
}

// Puts a value under a key, or leaves it.
fn add_where(
    alloc: Global,
    members: &mut Members,
    key: Text,
    value: Json,
    some: bool,
) -> Result<(), Memory>
    ensures { OnOk result
        (AddsEntries members.old members.new (if some then (key, json_data value) ∷ [] else [])) }
{
    if some {
        add(alloc, members, key, value)
    } else {
        Ok(())
    }
}

// Puts the id under the key of `@id`, unless it was pruned.
#[tactic(auto, unfolding(def_selection::specs::Keywords::at_id), using(lf_model::proofs::JsonLemmas::json_cases))]
fn add_id(
    alloc: Global,
    inverse: &Inverse,
    members: &mut Members,
    id: &Option<Term>,
) -> Result<(), CompactErr>
    ensures { AddsAll result members.old members.new (def.id_entry inverse.now id.now) }
{
    match id {
        Some(id) => {
            let compacted = inverse.compact_node(alloc, id, false)?;
            add_under(alloc, inverse, members, "@id", Json::Text(compacted))?;
            Ok(())
        }
        None => Ok(()),
    }
}

// A compacted type.
#[tactic(auto, using(lf_model::proofs::JsonLemmas::json_cases))]
fn short_type(alloc: Global, inverse: &Inverse, term: &Term) -> Result<Json, CompactErr>
    ensures { Compacted result (short_type inverse.now term.now) }
{
    let compacted = inverse.compact_node(alloc, term, true)?;
    Ok(Json::Text(compacted))
}

// The compacted types.
fn short_types(alloc: Global, inverse: &Inverse, types: &[Term]) -> Result<Vec<Json>, CompactErr>
    ensures { Gives json_list result (def.short_types inverse.now types.now) }
{
    let mut made = Vec::new(alloc);
    for term in types {
        match short_type(alloc, inverse, term) {
            Ok(json) => made.push(json)?,
            Err(e) => return Err(e),
        }
    }
    Ok(made)
}

// Whether one type is an array too: the key is `@type` and the context says so, or a term with
// `@set`.
#[tactic(auto, unfolding(def_selection::specs::Keywords::at_type))]
fn types_in_array(inverse: &Inverse, key: &Text) -> bool
    ensures { result ≡ def.types_in_array inverse.now key.now }
{
    if key.as_str() == "@type" && inverse.table().type_set {
        return true;
    }
    has_set(container_of(inverse.term_named(key)))
}

// Puts compacted types under the key of `@type`, where there are any.
#[tactic(auto, unfolding(def_selection::specs::Keywords::at_type))]
fn add_type_names(
    alloc: Global,
    inverse: &Inverse,
    members: &mut Members,
    types: Vec<Json>,
) -> Result<(), Memory>
    ensures { OnOk result (AddsEntries members.old members.new
        (names_entry inverse.now (map json_data types.items))) }
{
    let key = inverse.compact_keyword(alloc, "@type")?;
    let in_array = types_in_array(inverse, &key);
    let some = has_any(types.as_slice());
    add_where(alloc, members, key, alone_or_array(in_array, types), some)
}

// Puts the types under the key of `@type`, where there are any.
#[tactic(auto, using(crate::proofs::NodeParts::types_none))]
fn add_types(
    alloc: Global,
    inverse: &Inverse,
    members: &mut Members,
    types: &TermList,
) -> Result<(), CompactErr>
    ensures { AddsAll result members.old members.new (def.type_entry inverse.now types.now) }
{
    let names = short_types(alloc, inverse, types.as_slice())?;
    add_type_names(alloc, inverse, members, names)?;
    Ok(())
}

/// The members of a node's id and types.
pub fn begin_node(
    alloc: Global,
    inverse: &Inverse,
    id: &Option<Term>,
    types: &TermList,
) -> Result<Members, CompactErr>
    ensures { Begins result (beginning inverse.now id.now types.now) }
{
    let mut members = BTreeMap::new(alloc);
    add_id(alloc, inverse, &mut members, id)?;
    add_types(alloc, inverse, &mut members, types)?;
    Ok(members)
}

// An array of values.
#[tactic(auto, using(lf_model::proofs::JsonLemmas::json_cases))]
fn array_json(values: Vec<Json>) -> Json
    ensures { json_data result ≡ array (items_of (map json_data values.items)) }
{
    Json::List(ListOf::from_vec(values))
}

// Puts the nodes of a graph under the key of `@graph`, always as an array.
#[tactic(auto, unfolding(def_selection::specs::Keywords::at_graph), using(lf_model::proofs::JsonLemmas::json_cases))]
fn add_graph(
    alloc: Global,
    inverse: &Inverse,
    members: &mut Members,
    graph: Vec<Json>,
) -> Result<(), Memory>
    ensures { OnOk result (AddsEntries members.old members.new
        (def.graph_entry inverse.now (map json_data graph.items))) }
{
    let key = inverse.compact_keyword(alloc, "@graph")?;
    let some = has_any(graph.as_slice());
    add_where(alloc, members, key, array_json(graph), some)
}

// Puts the values that were filed under no reverse term under the key of `@reverse`.
#[tactic(auto, unfolding(def_selection::specs::Keywords::at_reverse))]
fn add_reverse(
    alloc: Global,
    inverse: &Inverse,
    members: &mut Members,
    properties: Vec<FiledProperty<'_>>,
) -> Result<(), Memory>
    ensures { OnOk result (AddsEntries members.old members.new
        (reverse_part inverse.now (entries_in_order (properties_data properties.entry)))) }
{
    let mut inner = BTreeMap::new(alloc);
    add_in_order(alloc, &mut inner, properties)?;
    let some = holds_any(&inner);
    let object = object_of(alloc, inner)?;
    let key = inverse.compact_keyword(alloc, "@reverse")?;
    add_where(alloc, members, key, object, some)
}

/// A node's map: after its id and types its graph, its reverse properties, its properties and those
/// under reverse terms.
pub fn write_node(
    alloc: Global,
    inverse: &Inverse,
    members: Members,
    graph: Vec<Json>,
    properties: Vec<FiledProperty<'_>>,
    reverses: Vec<FiledProperty<'_>>,
) -> Result<Json, Memory>
    ensures { IfOk result (λ json. (entries : List (List ℕ × JsonValue)) → Hold members entries → json_data json
        ≡ object_of (node_entries inverse.now entries (map json_data graph.items) (properties_data properties.entry) (properties_data reverses.entry))) }
{
    let mut members = members;
    let parts = split_reverses(alloc, reverses)?;
    add_graph(alloc, inverse, &mut members, graph)?;
    add_reverse(alloc, inverse, &mut members, parts.unturned)?;
    add_in_order(alloc, &mut members, properties)?;
    add_in_order(alloc, &mut members, parts.turned)?;
    object_of(alloc, members)
}
