//! The map at the top of a document: the context, and the compacted trees (JSON-LD 1.1 Framing,
//! section 4.1).
ghost use Rattle.std.specs.Prelude.{◌≡◌, ◌++◌, ◌∷◌, [], IfOk, map, option_map};
ghost use Rattle.lf_model.specs.JsonBridge.{json_data, members_data};
ghost use Rattle.lf_model.specs.JsonData.{array, items_of, members_list, object};
ghost use Rattle.def_documents.specs.Document.{entries_in, top_entries};
ghost use Rattle.def_documents.specs.Grouping.{object_of, together, under};
ghost use Rattle.def_selection.specs.Iris.{short_keyword};
ghost use Rattle.def_selection.specs.Keywords.{at_context, at_graph};
ghost use Rattle.lf_compact.specs.Members.{Hold};
ghost use Rattle.lf_doc.specs.Entries.{entry_of};

use lf_base::{ListOf, Memory, Text, TryCopy};
use lf_compact::{Joined, Members, add, array_of, object_of};
use lf_model::{Json, JsonMap};
use lf_select::Inverse;
use lf_sorted::MapOf;
use std::alloc::Global;

// The key of the context.
#[tactic(auto, unfolding(def_selection::specs::Keywords::at_context))]
fn context_name() -> &'static str
    ensures { result.now ≡ at_context }
{
    "@context"
}

// The key of the maps, where there is not exactly one.
#[tactic(auto, unfolding(def_selection::specs::Keywords::at_graph))]
fn graph_name() -> &'static str
    ensures { result.now ≡ at_graph }
{
    "@graph"
}

// The key of the context as a text.
fn context_key(alloc: Global) -> Result<Text, Memory>
    ensures { IfOk result (λ key. key ≡ at_context) }
{
    Text::of(alloc, context_name())
}

// What is written where both values come under one key.
fn both(alloc: Global, first: Json, second: Json) -> Result<Json, Memory>
    ensures { IfOk result (λ json. json_data json ≡ together (json_data first ∷ json_data second ∷ [])) }
{
    let mut members = Members::new(alloc);
    add(alloc, &mut members, context_key(alloc)?, first)?;
    add(alloc, &mut members, context_key(alloc)?, second)?;
    let key = context_key(alloc)?;
    match members.remove(&key) {
        Some(Joined::Several(values)) => Ok(array_of(values)),
        Some(Joined::One(_)) => unreachable!(),
        None => unreachable!(),
    }
}

// The context beside what stands under its key.
fn beside(alloc: Global, members: &JsonMap, context: Json) -> Result<Json, Memory>
    ensures { IfOk result (λ json.
        json_data json
        ≡ together
        (json_data context ∷ under at_context (members_list (members_data members.now)))) }
{
    let _ = members.as_slice();
    match members.get(context_name()) {
        Some(value) => both(alloc, context, value.copy(alloc)?),
        None => Ok(context),
    }
}

// A map with a context put into it.
fn with_context(alloc: Global, members: JsonMap, context: Json) -> Result<Json, Memory>
    ensures { IfOk result (λ json.
        json_data json
        ≡ object_of ((at_context, json_data context) ∷ members_list (members_data members))) }
{
    let mut members = members;
    let _ = members.as_slice();
    let context = beside(alloc, &members, context)?;
    members.put(context_key(alloc)?, context)?;
    Ok(Json::Map(members))
}

// The members of a map are its entries: their keys stand in order.
fn is_object(members: &JsonMap)
    ensures { object (members_data members.now) ≡ object_of (members_list (members_data members.now)) }
{
    let _ = members.as_slice();
}

// The members of a value that is a map.
fn members_in(alloc: Global, map: Json) -> JsonMap
    ensures { members_list (members_data result) ≡ entries_in (json_data map) }
{
    match map {
        Json::Map(members) => members,
        Json::Null => MapOf::new(alloc),
        Json::Bool(_) => MapOf::new(alloc),
        Json::Whole(_) => MapOf::new(alloc),
        Json::Fraction => MapOf::new(alloc),
        Json::Text(_) => MapOf::new(alloc),
        Json::List(_) => MapOf::new(alloc),
    }
}

// The context, where one is shown, and the members of one map.
fn one_map(alloc: Global, context: Option<Json>, map: Json) -> Result<Json, Memory>
    ensures { IfOk result (λ json.
        json_data json
        ≡ object_of (entry_of (option_map json_data context) ++ entries_in (json_data map))) }
{
    let members = members_in(alloc, map);
    match context {
        Some(context) => with_context(alloc, members, context),
        None => {
            is_object(&members);
            Ok(Json::Map(members))
        }
    }
}

// The members of a document's map before its trees.
fn with_context_alone(alloc: Global, context: Option<Json>) -> Result<Members, Memory>
    ensures { IfOk result (λ members. Hold members (entry_of (option_map json_data context))) }
{
    let mut members = Members::new(alloc);
    if let Some(context) = context {
        add(alloc, &mut members, context_key(alloc)?, context)?;
    }
    Ok(members)
}

// The context, where one is shown, and the array of the maps under the key of `@graph`.
fn several_maps(
    alloc: Global,
    inverse: &Inverse,
    context: Option<Json>,
    maps: Vec<Json>,
) -> Result<Json, Memory>
    ensures { IfOk result (λ json. json_data json ≡ object_of (entry_of (option_map json_data context)
        ++ (short_keyword inverse.now at_graph, array (items_of (map json_data maps.items))) ∷ [])) }
{
    let mut members = with_context_alone(alloc, context)?;
    let key = inverse.compact_keyword(alloc, graph_name())?;
    add(alloc, &mut members, key, Json::List(ListOf::from_vec(maps)))?;
    object_of(alloc, members)
}

/// The map of a document: one compacted tree stands by itself, several under the key of `@graph`.
pub fn top_map(
    alloc: Global,
    inverse: &Inverse,
    context: Option<Json>,
    maps: Vec<Json>,
) -> Result<Json, Memory>
    ensures { IfOk result (λ json. json_data json ≡ object_of (entry_of (option_map json_data context)
        ++ top_entries inverse.now (map json_data maps.items))) }
{
    if maps.len() > 1 {
        return several_maps(alloc, inverse, context, maps);
    }
    let mut maps = maps;
    match maps.pop() {
        Some(map) => one_map(alloc, context, map),
        None => one_map(alloc, context, Json::Map(MapOf::new(alloc))),
    }
}
