//! The context that a document shows: the frame's without its `@version` entries (JSON-LD 1.1
//! Framing, section 4.1).
ghost use Rattle.std.specs.Prelude.{◌≡◌, IfOk, option_map};
ghost use Rattle.lf_model.specs.JsonBridge.{items_data, json_data, members_data};
ghost use Rattle.def_documents.specs.PrintedContext.{context_entry, items_without_version, members_without_version, shown, without_version};
ghost use Rattle.def_selection.specs.Keywords.{at_version};
ghost use Rattle.lf_rdf.specs.Equality.{text_eq};
ghost use Rattle.lf_doc.specs.Entries.{entry_of};

use lf_base::{ListOf, Memory, Text, TryCopy};
use lf_model::{Json, JsonList, JsonMap};
use lf_sorted::{Entry, MapOf};
use std::alloc::Global;

// Whether a key is `@version`.
#[tactic(auto, unfolding(def_selection::specs::Keywords::at_version))]
fn is_version(key: &Text) -> bool
    ensures { result ≡ text_eq key.now at_version }
{
    key.as_str() == "@version"
}

// A copy without the entries of `@version`, at whatever depth they stand.
#[cycle(copying)]
fn copy_value(alloc: Global, value: &Json) -> Result<Json, Memory>
    ensures { IfOk result (λ copied. json_data copied ≡ without_version (json_data value.now)) }
{
    match value {
        Json::Null => Ok(Json::Null),
        Json::Bool(truth) => Ok(Json::Bool(*truth)),
        Json::Whole(number) => Ok(Json::Whole(*number)),
        Json::Fraction => Ok(Json::Fraction),
        Json::Text(text) => Ok(Json::Text(text.copy(alloc)?)),
        Json::List(items) => Ok(Json::List(copy_items(alloc, items)?)),
        Json::Map(members) => Ok(Json::Map(copy_members(alloc, members)?)),
    }
}

// Copies the items of an array.
#[cycle(copying)]
fn copy_items(alloc: Global, items: &JsonList) -> Result<JsonList, Memory>
    ensures { IfOk result (λ copied. items_data copied ≡ items_without_version (items_data items.now)) }
{
    let mut copied = Vec::new(alloc);
    for item in items.as_slice() {
        copied.push(copy_value(alloc, item)?)?;
    }
    Ok(ListOf::from_vec(copied))
}

// Copies the members of a map.
#[cycle(copying)]
fn copy_members(alloc: Global, members: &JsonMap) -> Result<JsonMap, Memory>
    ensures { IfOk result
        (λ copied. members_data copied ≡ members_without_version (members_data members.now)) }
{
    let mut copied = Vec::new(alloc);
    for member in members.as_slice() {
        if is_version(&member.key) {
            continue;
        }
        copied.push(Entry {
            key: member.key.copy(alloc)?,
            value: copy_value(alloc, &member.value)?,
        })?;
    }
    Ok(MapOf::from_vec(copied))
}

// A context that has something to say: null, `[]` and `{}` have nothing.
fn shown(context: Json) -> Option<Json>
    ensures { shown (json_data context) ≡ entry_of (option_map json_data result) }
{
    match context {
        Json::Null => None,
        Json::Bool(truth) => Some(Json::Bool(truth)),
        Json::Whole(number) => Some(Json::Whole(number)),
        Json::Fraction => Some(Json::Fraction),
        Json::Text(text) => Some(Json::Text(text)),
        Json::List(items) => {
            if items.is_empty() {
                None
            } else {
                Some(Json::List(items))
            }
        }
        Json::Map(members) => {
            if members.is_empty() {
                None
            } else {
                Some(Json::Map(members))
            }
        }
    }
}

/// The context that a document shows, where there is one. Its time grows with the context.
pub fn shown_context(alloc: Global, context: &Json) -> Result<Option<Json>, Memory>
    ensures { IfOk result
        (λ found. context_entry (json_data context.now) ≡ entry_of (option_map json_data found)) }
{
    Ok(shown(copy_value(alloc, context)?))
}
