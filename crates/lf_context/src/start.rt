//! How the definition of a term begins (JSON-LD 1.1 Processing Algorithms and API, section 4.2.2,
//! steps 2 to 6).
ghost use Rattle.std.specs.Prelude.{◌≡◌, List, ℕ, IfOk};
ghost use Rattle.lf_model.specs.JsonBridge.{json_data, items_data, members_data};
ghost use Rattle.lf_model.specs.JsonData.{array, object, item, no_items};
ghost use Rattle.def_contexts.specs.Texts.{is_empty};
ghost use Rattle.def_contexts.specs.Defining.{is_set_alone, sets_type};
ghost use Rattle.lf_context.specs.DraftView.{table_in};
ghost use Rattle.lf_context.specs.Kinds.{IsKind, Starts, StartsType};
ghost use Rattle.lf_context.specs.Stages.{IsFor};

use crate::draft::Drafted;
use crate::error::ContextErr;
use crate::stage::Turn;
use crate::term::begin;
use crate::text::{has_keyword_form, is_keyword};
use crate::walk::NameKind;
use lf_base::Text;
use lf_model::{Json, JsonMap, LdError};
use std::alloc::Global;

/// The definition of a term begins: its older definition goes, and it comes to a first turn.
pub fn start(
    alloc: Global,
    draft: &mut Drafted,
    name: &Text,
    value: &Json,
) -> Result<Turn, ContextErr>
    ensures turn { Starts name.now (json_data value.now) (table_in draft.old) (table_in draft.new) result }
    ensures later { IfOk result (IsFor name.now 7) }
{
    match name_kind(name) {
        NameKind::Empty => Err(ContextErr::Ld(LdError::InvalidTermDefinition)),
        NameKind::Type => start_type(draft, value),
        NameKind::Keyword => Err(ContextErr::Ld(LdError::KeywordRedefinition)),
        NameKind::Ignored => Ok(Turn::Settled),
        NameKind::Ordinary => {
            draft.forget(name);
            begin(alloc, draft, name, value)
        }
    }
}

fn name_kind(name: &Text) -> NameKind
    ensures { IsKind name.now result }
{
    let name = name.as_str();
    if is_empty(name) {
        NameKind::Empty
    } else if name == "@type" {
        NameKind::Type
    } else if is_keyword(name) {
        NameKind::Keyword
    } else if has_keyword_form(name) {
        NameKind::Ignored
    } else {
        NameKind::Ordinary
    }
}

fn is_empty(name: &str) -> bool
    ensures { result ≡ is_empty name.now }
{
    match name.as_bytes() {
        [] => true,
        [_, ..] => false,
    }
}

// The one definition that `@type` may have says that types are always an array.
fn start_type(draft: &mut Drafted, value: &Json) -> Result<Turn, ContextErr>
    ensures turn { StartsType (json_data value.now) (table_in draft.old) (table_in draft.new) result }
    ensures later { (name : List ℕ) → IfOk result (IsFor name 7) }
{
    if sets_type(value) {
        draft.type_set = true;
        Ok(Turn::Settled)
    } else {
        Err(ContextErr::Ld(LdError::KeywordRedefinition))
    }
}

// A map with `@container` alone, which is `@set`.
fn sets_type(value: &Json) -> bool
    ensures { result ≡ sets_type (json_data value.now) }
{
    match value {
        Json::Map(members) => members_set_type(members),
        Json::Null => false,
        Json::Bool(_) => false,
        Json::Whole(_) => false,
        Json::Fraction => false,
        Json::Text(_) => false,
        Json::List(_) => false,
    }
}

fn members_set_type(members: &JsonMap) -> bool
    ensures { result ≡ sets_type (object (members_data members.now)) }
{
    match members.as_slice() {
        [] => false,
        [only] => only.key.as_str() == "@container" && is_set_alone(&only.value),
        [_, _, ..] => false,
    }
}

// `@set`, alone or in an array.
fn is_set_alone(value: &Json) -> bool
    ensures { result ≡ is_set_alone (json_data value.now) }
{
    match value {
        Json::Text(name) => name.as_str() == "@set",
        Json::List(items) => is_set_listed(items.as_slice()),
        Json::Null => false,
        Json::Bool(_) => false,
        Json::Whole(_) => false,
        Json::Fraction => false,
        Json::Map(_) => false,
    }
}

fn is_set_listed(items: &[Json]) -> bool
    ensures { result ≡ is_set_alone (array (items_data items.now)) }
{
    match items {
        [] => false,
        [only] => is_set_text(only),
        [_, _, ..] => false,
    }
}

fn is_set_text(value: &Json) -> bool
    ensures { result ≡ is_set_alone (array (item (json_data value.now) no_items)) }
{
    match value {
        Json::Text(name) => name.as_str() == "@set",
        Json::Null => false,
        Json::Bool(_) => false,
        Json::Whole(_) => false,
        Json::Fraction => false,
        Json::List(_) => false,
        Json::Map(_) => false,
    }
}
