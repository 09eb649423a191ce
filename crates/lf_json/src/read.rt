//! JSON texts read, over `serde_json`.
ghost use Rattle.std.specs.Prelude.{◌≡◌, ◌++◌, IfOk, OnOk, string_bytes};
ghost use Rattle.serde_json.specs.View.{view, items_view, members_view};
ghost use Rattle.serde_json.specs.Data.{array, object};
ghost use Rattle.lf_model.specs.JsonBridge.{json_data, items_data, members_data};
ghost use Rattle.lf_model.specs.JsonData as j;
ghost use Rattle.lf_json.specs.Reading.{json_of, fraction_in, fraction_in_items, fraction_in_members, pointer_char, pointer_key};
ghost use Rattle.lf_json.specs.Answers.{Reads, Converts};

use lf_base::{ListOf, Memory, Text};
use lf_model::{Json, JsonList, JsonMap};
use lf_sorted::{Entry, MapOf};
use serde_json::{Map, Value};
use std::alloc::Global;
use thiserror::Error;

/// Why bytes give no JSON value here.
#[derive(Debug, Drop, Error)]
pub enum JsonErr {
    #[error("not JSON")]
    NotJson,
    /// A number that is no whole number from -2^63 to 2^64 - 1, by the JSON pointer of the first
    /// (RFC 6901).
    #[error("fractional number at {}", .path.as_str())]
    Fractional { path: Text },
    #[error("out of memory")]
    Memory,
}

impl From<Memory> for JsonErr {
    ghost use Rattle.std.specs.Prelude.{◌≡◌};
    ghost use Rattle.lf_json.specs.declared.read.JsonErr.TheVariants as err;

    ghost from_gives = { λ _ e. e ≡ err.Memory };

    fn from(_refused: Memory) -> JsonErr {
        JsonErr::Memory
    }
}

/// The value that a JSON text states (RFC 8259), with its members in byte order of their keys; of
/// repeated keys the last counts. A number that is no whole number of 64 bits stands only as the
/// value of a key `@version`. What is nested past 127 levels is no JSON here. The cost grows with
/// the length of the text.
pub fn read_json(alloc: Global, bytes: &[u8]) -> Result<Json, JsonErr>
    ensures { Reads bytes.now result }
{
    match Value::from_slice(alloc, bytes) {
        Ok(value) => {
            let answer = convert(alloc, &value);
            drop(value);
            answer
        }
        Err(error) => {
            if error.is_memory() {
                Err(JsonErr::Memory)
            } else {
                Err(JsonErr::NotJson)
            }
        }
    }
}

// The value that was read, unless it holds a number that may not stand.
fn convert(alloc: Global, value: &Value) -> Result<Json, JsonErr>
    ensures { Converts (view value.now) result }
{
    match first_fraction(alloc, value, false)? {
        Some(path) => Err(JsonErr::Fractional { path }),
        None => Ok(json_from(alloc, value)?),
    }
}

// The pointer of the first number that may not stand, in byte order of keys and in list order.
#[cycle(fractions)]
fn first_fraction(alloc: Global, value: &Value, allowed: bool) -> Result<Option<Text>, Memory>
    ensures { IfOk result (λ found. found ≡ fraction_in allowed (view value.now)) }
{
    match value {
        Value::Null => Ok(None),
        Value::Bool(_) => Ok(None),
        Value::Number(number) => {
            if number.is_f64() && !allowed {
                Ok(Some(Text::of(alloc, "")?))
            } else {
                Ok(None)
            }
        }
        Value::String(_) => Ok(None),
        Value::Array(items) => fraction_among(alloc, items),
        Value::Object(members) => fraction_under(alloc, members),
    }
}

#[cycle(fractions)]
fn fraction_among(alloc: Global, items: &Vec<Value>) -> Result<Option<Text>, Memory>
    ensures { IfOk result (λ found. found ≡ fraction_in_items 0 (items_view items.now.items)) }
{
    for (place, item) in items.iter().enumerate() {
        if let Some(rest) = first_fraction(alloc, item, false)? {
            let mut path = format!(in alloc; "/{place}")?;
            path.push_str(rest.as_str())?;
            return Ok(Some(Text::from_string(path)?));
        }
    }
    Ok(None)
}

#[cycle(fractions)]
fn fraction_under(alloc: Global, members: &Map<String, Value>) -> Result<Option<Text>, Memory>
    ensures { IfOk result (λ found. found ≡ fraction_in_members (members_view members.now.entries)) }
{
    for (key, member) in members.iter() {
        if let Some(rest) = first_fraction(alloc, member, key.as_str() == "@version")? {
            return Ok(Some(pointed(alloc, key.as_str(), rest.as_str())?));
        }
    }
    Ok(None)
}

// A member's key before the rest of a pointer (RFC 6901, section 3).
fn pointed(alloc: Global, key: &str, rest: &str) -> Result<Text, Memory>
    ensures { IfOk result (λ path. path ≡ pointer_key key.now ++ rest.now) }
{
    let mut path = String::from_str(alloc, "/")?;
    for c in key.chars() {
        push_escaped(&mut path, c)?;
    }
    path.push_str(rest)?;
    Text::from_string(path)
}

fn push_escaped(path: &mut String, c: char) -> Result<(), Memory>
    ensures { OnOk result (string_bytes path.new ≡ string_bytes path.old ++ pointer_char c) }
{
    match c {
        '~' => path.push_str("~0")?,
        '/' => path.push_str("~1")?,
        _ => path.push(c)?,
    }
    Ok(())
}

// The value, with numbers that aren't whole as fractions.
#[cycle(values)]
fn json_from(alloc: Global, value: &Value) -> Result<Json, Memory>
    ensures { IfOk result (λ json. json_data json ≡ json_of (view value.now)) }
{
    match value {
        Value::Null => Ok(Json::Null),
        Value::Bool(truth) => Ok(Json::Bool(*truth)),
        Value::Number(number) => match number.as_i128() {
            Some(whole) => Ok(Json::Whole(whole)),
            None => Ok(Json::Fraction),
        },
        Value::String(text) => Ok(Json::Text(Text::of(alloc, text.as_str())?)),
        Value::Array(items) => Ok(Json::List(list_from(alloc, items)?)),
        Value::Object(members) => Ok(Json::Map(map_from(alloc, members)?)),
    }
}

#[cycle(values)]
fn list_from(alloc: Global, items: &Vec<Value>) -> Result<JsonList, Memory>
    ensures { IfOk result
        (λ list. j.array (items_data list) ≡ json_of (array (items_view items.now.items))) }
{
    let mut found = Vec::with_capacity(alloc, items.len())?;
    for item in items {
        found.push(json_from(alloc, item)?)?;
    }
    Ok(ListOf::from_vec(found))
}

#[cycle(values)]
fn map_from(alloc: Global, members: &Map<String, Value>) -> Result<JsonMap, Memory>
    ensures { IfOk result (λ map.
        j.object (members_data map) ≡ json_of (object (members_view members.now.entries))) }
{
    let mut found = Vec::with_capacity(alloc, members.len())?;
    for (key, member) in members.iter() {
        found.push(Entry {
            key: Text::of(alloc, key.as_str())?,
            value: json_from(alloc, member)?,
        })?;
    }
    Ok(MapOf::from_vec(found))
}
