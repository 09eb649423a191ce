//! The parts of a term definition that need no other term: the container, the language, whether it
//! may be a prefix.
ghost use Rattle.std.specs.Prelude.{◌≡◌};
ghost use Rattle.lf_model.specs.JsonBridge.{json_data, items_data, members_data};
ghost use Rattle.lf_model.specs.JsonData.{array, item, no_items};
ghost use Rattle.def_contexts.specs.Members.{value_of};
ghost use Rattle.def_contexts.specs.TermParts.{container_named, container_pair, container_given, container_of, reverse_container_of, language_given, language_of, has_colon_or_slash, prefix_given, prefix_of};
ghost use Rattle.lf_context.specs.Parts.{IsPart, data_of};
ghost use Rattle.lf_context.specs.Stages.{part, is_simple};
ghost use Rattle.lf_context.specs.Turns.{is_null};

use crate::error::ContextErr;
use crate::text::{has_byte, is_keyword, lower};
use lf_base::Text;
use lf_model::{Container, Json, JsonMap, LdError};
use std::alloc::Global;

/// A member of a term's value; a text is the `@id` of a map.
pub fn part<'a>(value: &'a Json, key: &str) -> Option<&'a Json>
    ensures { data_of result ≡ part key.now (json_data value.now) }
{
    match value {
        Json::Text(_) => { if key == "@id" { Some(value) } else { None } }
        Json::Map(members) => member(members, key),
        Json::Null => None,
        Json::Bool(_) => None,
        Json::Whole(_) => None,
        Json::Fraction => None,
        Json::List(_) => None,
    }
}

/// Whether the value of a term is a text.
pub fn is_simple(value: &Json) -> bool
    ensures { result ≡ is_simple (json_data value.now) }
{
    match value {
        Json::Text(_) => true,
        Json::Map(_) => false,
        Json::Null => false,
        Json::Bool(_) => false,
        Json::Whole(_) => false,
        Json::Fraction => false,
        Json::List(_) => false,
    }
}

/// The member of a map.
pub fn member<'a>(members: &'a JsonMap, key: &str) -> Option<&'a Json>
    ensures { data_of result ≡ value_of key.now (members_data members.now) }
{
    members.get(key)
}

/// Whether a member is null.
pub fn is_null(value: Option<&Json>) -> bool
    ensures { result ≡ is_null (data_of value.entry) }
{
    match value {
        None => false,
        Some(Json::Null) => true,
        Some(Json::Bool(_)) => false,
        Some(Json::Whole(_)) => false,
        Some(Json::Fraction) => false,
        Some(Json::Text(_)) => false,
        Some(Json::List(_)) => false,
        Some(Json::Map(_)) => false,
    }
}

// The containers that have a name.
fn container_named(name: &str) -> Option<Container>
    ensures { result ≡ container_named name.now }
{
    if name == "@set" {
        Some(Container::Set)
    } else if name == "@list" {
        Some(Container::List)
    } else if name == "@language" {
        Some(Container::Language)
    } else {
        None
    }
}

// `@language` and `@set`, in either order.
fn container_pair(one: &str, two: &str) -> Option<Container>
    ensures { result ≡ container_pair one.now two.now }
{
    if (one == "@language" && two == "@set") || (one == "@set" && two == "@language") {
        Some(Container::LanguageSet)
    } else {
        None
    }
}

// The name, an array of one, or the pair.
fn container_given(value: &Json) -> Option<Container>
    ensures { result ≡ container_given (json_data value.now) }
{
    match value {
        Json::Text(name) => container_named(name.as_str()),
        Json::List(items) => container_listed(items.as_slice()),
        Json::Map(_) => None,
        Json::Null => None,
        Json::Bool(_) => None,
        Json::Whole(_) => None,
        Json::Fraction => None,
    }
}

fn container_listed(items: &[Json]) -> Option<Container>
    ensures { result ≡ container_given (array (items_data items.now)) }
{
    match items {
        [] => None,
        [only] => container_alone(only),
        [one, two] => container_both(one, two),
        [_, _, _, ..] => None,
    }
}

fn container_alone(only: &Json) -> Option<Container>
    ensures { result ≡ container_given (array (item (json_data only.now) no_items)) }
{
    match only {
        Json::Text(name) => container_named(name.as_str()),
        Json::List(_) => None,
        Json::Map(_) => None,
        Json::Null => None,
        Json::Bool(_) => None,
        Json::Whole(_) => None,
        Json::Fraction => None,
    }
}

fn container_both(one: &Json, two: &Json) -> Option<Container>
    ensures { result
        ≡ container_given (array (item (json_data one.now) (item (json_data two.now) no_items))) }
{
    match one {
        Json::Text(first) => match two {
            Json::Text(second) => container_pair(first.as_str(), second.as_str()),
            Json::List(_) => None,
            Json::Map(_) => None,
            Json::Null => None,
            Json::Bool(_) => None,
            Json::Whole(_) => None,
            Json::Fraction => None,
        },
        Json::List(_) => None,
        Json::Map(_) => None,
        Json::Null => None,
        Json::Bool(_) => None,
        Json::Whole(_) => None,
        Json::Fraction => None,
    }
}

/// The container of a term that is no reverse property (JSON-LD 1.1 Processing Algorithms and API,
/// section 4.2.2, step 19).
pub fn container_of(value: Option<&Json>) -> Result<Container, LdError>
    ensures { result ≡ container_of (data_of value.entry) }
{
    match value {
        None => Ok(Container::NoContainer),
        Some(value) => match container_given(value) {
            Some(container) => Ok(container),
            None => Err(LdError::InvalidContainerMapping),
        },
    }
}

/// The container of a reverse property: `@set` or none.
pub fn reverse_container_of(value: Option<&Json>) -> Result<Container, LdError>
    ensures { result ≡ reverse_container_of (data_of value.entry) }
{
    match value {
        None => Ok(Container::NoContainer),
        Some(Json::Null) => Ok(Container::NoContainer),
        Some(value) => match container_given(value) {
            Some(Container::Set) => Ok(Container::Set),
            _ => Err(LdError::InvalidReverseProperty),
        },
    }
}

/// Null, or a language in small letters; anything else is the error.
pub fn language_given(
    alloc: Global,
    error: LdError,
    value: &Json,
) -> Result<Option<Text>, ContextErr>
    ensures { IsPart (language_given error (json_data value.now)) result }
{
    match value {
        Json::Null => Ok(None),
        Json::Text(language) => Ok(Some(lower(alloc, language.as_str())?)),
        Json::Map(_) => Err(ContextErr::Ld(error)),
        Json::Bool(_) => Err(ContextErr::Ld(error)),
        Json::Whole(_) => Err(ContextErr::Ld(error)),
        Json::Fraction => Err(ContextErr::Ld(error)),
        Json::List(_) => Err(ContextErr::Ld(error)),
    }
}

/// The language mapping, which is read only where there is no type mapping.
pub fn language_of(
    alloc: Global,
    typed: Option<&Json>,
    language: Option<&Json>,
) -> Result<Option<Option<Text>>, ContextErr>
    ensures { IsPart (language_of (data_of typed.entry) (data_of language.entry)) result }
{
    if typed.is_some() {
        return Ok(None);
    }
    match language {
        None => Ok(None),
        Some(value) => Ok(Some(language_given(alloc, LdError::InvalidLanguageMapping, value)?)),
    }
}

/// Whether a term is a compact IRI or a path by its form.
pub fn has_colon_or_slash(name: &str) -> bool
    ensures { result ≡ has_colon_or_slash name.now }
{
    has_byte(b':', name.as_bytes()) || has_byte(b'/', name.as_bytes())
}

/// Whether a term may be a prefix: as `@prefix` says, or else as its form says.
pub fn prefix_of(
    name: &str,
    iri: &str,
    by_form: bool,
    value: Option<&Json>,
) -> Result<bool, LdError>
    ensures { result ≡ prefix_of name.now iri.now by_form (data_of value.entry) }
{
    match value {
        None => Ok(by_form),
        Some(value) => {
            if has_colon_or_slash(name) {
                Err(LdError::InvalidTermDefinition)
            } else {
                prefix_given(iri, value)
            }
        }
    }
}

fn prefix_given(iri: &str, value: &Json) -> Result<bool, LdError>
    ensures { result ≡ prefix_given iri.now (json_data value.now) }
{
    match value {
        Json::Bool(stated) => {
            if *stated && is_keyword(iri) {
                Err(LdError::InvalidTermDefinition)
            } else {
                Ok(*stated)
            }
        }
        Json::Text(_) => Err(LdError::InvalidPrefixValue),
        Json::Map(_) => Err(LdError::InvalidPrefixValue),
        Json::Null => Err(LdError::InvalidPrefixValue),
        Json::Whole(_) => Err(LdError::InvalidPrefixValue),
        Json::Fraction => Err(LdError::InvalidPrefixValue),
        Json::List(_) => Err(LdError::InvalidPrefixValue),
    }
}
