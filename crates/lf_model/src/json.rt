//! JSON values, whose maps are in byte order of their keys.
ghost use Rattle.std.specs.Prelude.{◌≡◌, IfOk};

use lf_base::{ListOf, Memory, Text, TryCopy};
use lf_sorted::{Entry, MapOf};
use std::alloc::Global;

/// A JSON value (RFC 8259, section 3).
#[derive(Debug, Drop)]
pub enum Json {
    Null,
    Bool(bool),
    /// A whole number from -2^63 to 2^64 - 1.
    Whole(i128),
    /// Any other number. It stands only as the value of a key `@version`.
    Fraction,
    Text(Text),
    List(JsonList),
    Map(JsonMap),
}

/// A list of JSON values.
pub type JsonList = ListOf<Json>;

/// The members of a JSON object, in byte order of their keys.
pub type JsonMap = MapOf<Json>;

impl TryCopy for Json {
    fn copy(&self, alloc: Global) -> Result<Json, Memory> {
        copy_json(alloc, self)
    }
}

#[cycle(copying)]
fn copy_json(alloc: Global, value: &Json) -> Result<Json, Memory>
    ensures { IfOk result (λ copied. copied ≡ value.now) }
{
    match value {
        Json::Null => Ok(Json::Null),
        Json::Bool(truth) => Ok(Json::Bool(*truth)),
        Json::Whole(number) => Ok(Json::Whole(*number)),
        Json::Fraction => Ok(Json::Fraction),
        Json::Text(text) => Ok(Json::Text(text.copy(alloc)?)),
        Json::List(items) => Ok(Json::List(copy_items(alloc, items)?)),
        Json::Map(members) => Ok(Json::Map(copy_members(alloc, members)?)),
    }
}

#[cycle(copying)]
fn copy_items(alloc: Global, items: &JsonList) -> Result<JsonList, Memory>
    ensures { IfOk result (λ copied. copied ≡ items.now) }
{
    let mut copied = Vec::new(alloc);
    for item in items.as_slice() {
        copied.push(copy_json(alloc, item)?)?;
    }
    Ok(ListOf::from_vec(copied))
}

#[cycle(copying)]
fn copy_members(alloc: Global, members: &JsonMap) -> Result<JsonMap, Memory>
    ensures { IfOk result (λ copied. copied ≡ members.now) }
{
    let mut copied = Vec::new(alloc);
    for member in members.as_slice() {
        copied.push(Entry {
            key: member.key.copy(alloc)?,
            value: copy_json(alloc, &member.value)?,
        })?;
    }
    Ok(MapOf::from_vec(copied))
}
