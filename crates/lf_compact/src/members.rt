//! The members of a map: what comes under one key stands alone, or its elements in one array
//! (JSON-LD 1.1 Processing Algorithms and API, section 5.1.2: add value).
ghost use Rattle.std.specs.Prelude.{◌≡◌, ◌++◌, ◌∷◌, [], ℕ, List, IfOk, OnOk, map};
ghost use Rattle.lf_model.specs.JsonBridge.{json_data};
ghost use Rattle.lf_model.specs.JsonData.{JsonValue};
ghost use Rattle.def_documents.specs.Grouping.{array_of, elements_of, object_of};
ghost use Rattle.lf_compact.specs.Arrays.{is_lone_null};
ghost use Rattle.lf_compact.specs.Members.{joined_data, one_more, value_of, Adds, Hold};

use lf_base::{ListOf, Memory, Text};
use lf_model::Json;
use lf_sorted::{Entry, MapOf};
use std::alloc::Global;
use std::collections::BTreeMap;

/// What came under a key: one value, or the elements of several.
#[derive(Drop)]
pub enum Joined {
    One(Json),
    Several(Vec<Json>),
}

/// The members of a map that is being made.
pub type Members = BTreeMap<Text, Joined>;

// Whether values are one null.
fn is_lone_null(values: &[Json]) -> bool
    ensures { result ≡ is_lone_null (map json_data values.now) }
{
    match values {
        [value] => is_null(value),
        _ => false,
    }
}

// Whether a value is null.
#[tactic(auto, using(lf_model::proofs::JsonLemmas::json_cases))]
fn is_null(value: &Json) -> bool
    ensures { result ≡ is_lone_null (json_data value.now ∷ []) }
{
    match value {
        Json::Null => true,
        Json::Bool(_) => false,
        Json::Whole(_) => false,
        Json::Fraction => false,
        Json::Text(_) => false,
        Json::List(_) => false,
        Json::Map(_) => false,
    }
}

/// An array; one that holds null alone is empty.
pub fn array_of(values: Vec<Json>) -> Json
    ensures { json_data result ≡ array_of (map json_data values.items) }
{
    if is_lone_null(values.as_slice()) {
        let mut values = values;
        values.clear();
        return Json::List(ListOf::from_vec(values));
    }
    Json::List(ListOf::from_vec(values))
}

// Puts the elements of an array, or any other value, behind values.
fn push_elements(values: &mut Vec<Json>, value: Json) -> Result<(), Memory>
    ensures { OnOk result (map json_data values.new.items
        ≡ map json_data values.old.items ++ elements_of (json_data value)) }
{
    match value {
        Json::List(items) => {
            let mut items = items.into_vec();
            values.append(&mut items)?;
            Ok(())
        }
        Json::Null => push(values, Json::Null),
        Json::Bool(truth) => push(values, Json::Bool(truth)),
        Json::Whole(number) => push(values, Json::Whole(number)),
        Json::Fraction => push(values, Json::Fraction),
        Json::Text(text) => push(values, Json::Text(text)),
        Json::Map(members) => push(values, Json::Map(members)),
    }
}

// Adds a value at the end.
fn push(values: &mut Vec<Json>, value: Json) -> Result<(), Memory>
    ensures { OnOk result (map json_data values.new.items
        ≡ map json_data values.old.items ++ json_data value ∷ []) }
{
    values.push(value)?;
    Ok(())
}

// The elements of a value.
fn elements_of(alloc: Global, value: Json) -> Result<Vec<Json>, Memory>
    ensures { IfOk result (λ values. map json_data values.items ≡ elements_of (json_data value)) }
{
    let mut values = Vec::new(alloc);
    push_elements(&mut values, value)?;
    Ok(values)
}

// What came under a key before, and one more value.
fn one_more(alloc: Global, before: Joined, value: Json) -> Result<Joined, Memory>
    ensures { IfOk result (λ joined. joined_data joined ≡ one_more (joined_data before) (json_data value)) }
{
    match before {
        Joined::One(first) => {
            let mut values = elements_of(alloc, first)?;
            push_elements(&mut values, value)?;
            Ok(Joined::Several(values))
        }
        Joined::Several(values) => {
            let mut values = values;
            push_elements(&mut values, value)?;
            Ok(Joined::Several(values))
        }
    }
}

/// Puts a value under a key.
pub fn add(alloc: Global, members: &mut Members, key: Text, value: Json) -> Result<(), Memory>
    ensures { OnOk result (Adds members.old members.new key (json_data value)) }
{
    match members.remove(&key) {
        Some(before) => {
            let joined = one_more(alloc, before, value)?;
            members.insert(key, joined)?;
        }
        None => {
            members.insert(key, Joined::One(value))?;
        }
    }
    Ok(())
}

// What is written under a key.
fn value_of(joined: Joined) -> Json
    ensures { json_data result ≡ value_of (joined_data joined) }
{
    match joined {
        Joined::One(value) => value,
        Joined::Several(values) => array_of(values),
    }
}

/// The map of the members.
pub fn object_of(alloc: Global, members: Members) -> Result<Json, Memory>
    ensures { IfOk result (λ json.
        (entries : List (List ℕ × JsonValue)) → Hold members entries →
        json_data json ≡ object_of entries) }
{
    let mut members = members;
    let _ = members.len();
    let mut written = Vec::with_capacity(alloc, members.len())?;
    while let Some((key, joined)) = members.pop_first() {
        written.push(Entry {
            key,
            value: value_of(joined),
        })?;
    }
    Ok(Json::Map(MapOf::from_vec(written)))
}
