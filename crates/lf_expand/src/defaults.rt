//! The values of `@default` (JSON-LD 1.1 Framing, section 4.1: default objects).
ghost use Rattle.std.specs.Prelude.{◌≡◌, false, true};
ghost use Rattle.std.specs.Option.{option_copied, option_map};
ghost use Rattle.lf_model.specs.JsonBridge.{json_data, items_data, members_data};
ghost use Rattle.def_contexts.specs.Members.{value_of, all_keys, only_value};
ghost use Rattle.def_contexts.specs.Texts.{lower};
ghost use Rattle.def_contexts.specs.Expansion.{expand};
ghost use Rattle.def_contexts.specs.NodeTests.{node_named};
ghost use Rattle.def_contexts.specs.Defaults.{default_given, default_scalar, default_text, default_reference, datatype_expanded, default_datatype, default_language, default_value_scalar, is_default_key, default_value, default_map, default_of, defaults_of_items, defaults_of};
ghost use Rattle.lf_expand.specs.Gives.{Gives};
ghost use Rattle.lf_expand.specs.DefaultParts.{default_alone};
ghost use Rattle.lf_expand.specs.GivenData.{given_data};

use crate::error::FrameErr;
use crate::given::{Given, value_given};
use crate::node_tests::{node_named, text_in};
use crate::patterns::scalar_of;
use crate::terms::Terms;
use lf_base::{ListOf, Memory, Text, TryCopy};
use lf_context::{is_absolute, lower};
use lf_model::{DefaultList, DefaultValue, Json, JsonMap, LdError, Scalar, TermDef};
use lf_sorted::Entry;
use std::alloc::Global;

/// The value of a key.
pub fn member<'a>(members: &'a JsonMap, key: &str) -> Option<&'a Json>
    ensures { option_map json_data (option_copied result) ≡ value_of key.now (members_data members.now) }
{
    members.get(key)
}

// The value of a key that is the only one.
fn only_member<'a>(members: &'a [Entry<Json>], key: &str) -> Option<&'a Json>
    ensures { option_map json_data (option_copied result) ≡ only_value key.now (members_data members.now) }
{
    match members {
        [] => None,
        [only, rest @ ..] => match rest {
            [] => {
                if key == only.key.as_str() {
                    Some(&only.value)
                } else {
                    None
                }
            }
            [_second, _more @ ..] => None,
        },
    }
}

// A value that was given, as a default.
fn default_given(given: Given) -> DefaultValue
    ensures { result ≡ default_given (given_data given) }
{
    match given {
        Given::Reference(node) => DefaultValue::Ref(node),
        Given::Plain {
            scalar,
            datatype,
            language,
        } => DefaultValue::Scalar {
            scalar,
            datatype,
            language,
        },
    }
}

// The default that a scalar is, by the coercion of its place.
fn default_scalar(
    alloc: Global,
    terms: &Terms<'_>,
    term: Option<&TermDef>,
    scalar: Scalar,
) -> Result<DefaultValue, FrameErr>
    ensures { Gives (λ value. value) result
        (default_scalar terms.now.table.now (option_copied term.entry) scalar) }
{
    let given = value_given(alloc, terms, term, scalar)?;
    Ok(default_given(given))
}

// A text is null where it is `@null`.
fn default_text(
    alloc: Global,
    terms: &Terms<'_>,
    term: Option<&TermDef>,
    text: &Text,
) -> Result<DefaultValue, FrameErr>
    ensures { Gives (λ value. value) result
        (default_text terms.now.table.now (option_copied term.entry) text.now) }
{
    if text.as_str() == "@null" {
        return Ok(DefaultValue::Null);
    }
    let scalar = Scalar::Text(text.copy(alloc)?);
    default_scalar(alloc, terms, term, scalar)
}

// A reference to the node that `@id` names.
fn default_reference(
    alloc: Global,
    terms: &Terms<'_>,
    id: Option<&Json>,
) -> Result<DefaultValue, FrameErr>
    ensures { Gives (λ value. value) result
        (default_reference terms.now.table.now (option_map json_data (option_copied id.entry))) }
{
    match id {
        Some(value) => match text_in(value) {
            Some(name) => match node_named(alloc, terms, name, false)? {
                Some(node) => Ok(DefaultValue::Ref(node)),
                None => Err(FrameErr::Ld(LdError::InvalidFrame)),
            },
            None => Err(FrameErr::Ld(LdError::InvalidFrame)),
        },
        None => Err(FrameErr::Ld(LdError::InvalidFrame)),
    }
}

// The datatype of a default is an absolute IRI; anything else is an error.
fn datatype_expanded(iri: Option<Text>) -> Result<Option<Text>, FrameErr>
    ensures { Gives (λ datatype. datatype) result (datatype_expanded iri) }
{
    match iri {
        Some(iri) => {
            if is_absolute(iri.as_str()) {
                Ok(Some(iri))
            } else {
                Err(FrameErr::Ld(LdError::InvalidFrame))
            }
        }
        None => Err(FrameErr::Ld(LdError::InvalidFrame)),
    }
}

// `@type` of a default.
fn default_datatype(
    alloc: Global,
    terms: &Terms<'_>,
    value: Option<&Json>,
) -> Result<Option<Text>, FrameErr>
    ensures { Gives (λ datatype. datatype) result (default_datatype terms.now.table.now
        (option_map json_data (option_copied value.entry))) }
{
    match value {
        Some(value) => match text_in(value) {
            Some(name) => datatype_expanded(terms.expand(alloc, name, true)?),
            None => Err(FrameErr::Ld(LdError::InvalidFrame)),
        },
        None => Ok(None),
    }
}

// `@language` of a default, in small letters.
fn default_language(alloc: Global, value: Option<&Json>) -> Result<Option<Text>, FrameErr>
    ensures { Gives (λ language. language) result
        (default_language (option_map json_data (option_copied value.entry))) }
{
    match value {
        Some(value) => match text_in(value) {
            Some(language) => Ok(Some(lower(alloc, language.as_str())?)),
            None => Err(FrameErr::Ld(LdError::InvalidFrame)),
        },
        None => Ok(None),
    }
}

// `@value` of a default.
fn default_value_scalar(alloc: Global, value: Option<&Json>) -> Result<Scalar, FrameErr>
    ensures { Gives (λ scalar. scalar) result
        (default_value_scalar (option_map json_data (option_copied value.entry))) }
{
    match value {
        Some(value) => match scalar_of(alloc, value)? {
            Some(scalar) => Ok(scalar),
            None => Err(FrameErr::Ld(LdError::InvalidFrame)),
        },
        None => Err(FrameErr::Ld(LdError::InvalidFrame)),
    }
}

// Whether a key may stand beside `@value` in a default.
fn is_default_key(key: &str) -> bool
    ensures { result ≡ is_default_key key.now }
{
    matches!(key, "@value" | "@type" | "@language")
}

// Whether each key may stand in a default with `@value`.
fn are_default_keys(members: &[Entry<Json>]) -> bool
    ensures { result ≡ all_keys is_default_key (members_data members.now) }
{
    for member in members {
        if !is_default_key(member.key.as_str()) {
            return false;
        }
    }
    true
}

// `@value` and at most one of `@type` and `@language`.
fn default_value(
    alloc: Global,
    terms: &Terms<'_>,
    members: &JsonMap,
) -> Result<DefaultValue, FrameErr>
    ensures { Gives (λ value. value) result (default_value terms.now.table.now (members_data members.now)) }
{
    if !are_default_keys(members.as_slice()) {
        return Err(FrameErr::Ld(LdError::InvalidFrame));
    }
    let datatype = member(members, "@type");
    let language = member(members, "@language");
    if datatype.is_some() && language.is_some() {
        return Err(FrameErr::Ld(LdError::InvalidFrame));
    }
    let scalar = default_value_scalar(alloc, member(members, "@value"))?;
    let datatype = default_datatype(alloc, terms, datatype)?;
    let language = default_language(alloc, language)?;
    Ok(DefaultValue::Scalar {
        scalar,
        datatype,
        language,
    })
}

// The default that a map is: a value object or a node reference.
fn default_map(
    alloc: Global,
    terms: &Terms<'_>,
    members: &JsonMap,
) -> Result<DefaultValue, FrameErr>
    ensures { Gives (λ value. value) result (default_map terms.now.table.now (members_data members.now)) }
{
    if member(members, "@id").is_some() {
        default_reference(alloc, terms, only_member(members.as_slice(), "@id"))
    } else {
        default_value(alloc, terms, members)
    }
}

// One value of a default.
fn default_of(
    alloc: Global,
    terms: &Terms<'_>,
    term: Option<&TermDef>,
    value: &Json,
) -> Result<DefaultValue, FrameErr>
    ensures { Gives (λ value. value) result
        (default_of terms.now.table.now (option_copied term.entry) (json_data value.now)) }
{
    match value {
        Json::Null => Ok(DefaultValue::Null),
        Json::Text(text) => default_text(alloc, terms, term, text),
        Json::Whole(number) => default_scalar(alloc, terms, term, Scalar::Whole(*number)),
        Json::Bool(truth) => default_scalar(alloc, terms, term, Scalar::Bool(*truth)),
        Json::Map(members) => default_map(alloc, terms, members),
        Json::List(_) => Err(FrameErr::Ld(LdError::InvalidFrame)),
        Json::Fraction => Err(FrameErr::Ld(LdError::InvalidFrame)),
    }
}

// The defaults of the items of an array, in order.
fn defaults_of_items(
    alloc: Global,
    terms: &Terms<'_>,
    term: Option<&TermDef>,
    items: &[Json],
) -> Result<DefaultList, FrameErr>
    ensures { Gives (λ values. values) result (defaults_of_items terms.now.table.now
        (option_copied term.entry) (items_data items.now)) }
{
    let mut values = ListOf::new(alloc);
    for item in items {
        match default_of(alloc, terms, term, item) {
            Ok(value) => values.push(value)?,
            Err(error) => return Err(error),
        }
    }
    Ok(values)
}

// A default of one value.
fn default_alone(
    alloc: Global,
    terms: &Terms<'_>,
    term: Option<&TermDef>,
    value: &Json,
) -> Result<DefaultList, FrameErr>
    ensures { Gives (λ values. values) result
        (default_alone terms.now.table.now (option_copied term.entry) (json_data value.now)) }
{
    let only = default_of(alloc, terms, term, value)?;
    let mut values = ListOf::new(alloc);
    values.push(only)?;
    Ok(values)
}

/// `@default`: one value or an array of values.
#[tactic(auto, unfolding(def_contexts::specs::Defaults::defaults_of))]
pub fn defaults_of(
    alloc: Global,
    terms: &Terms<'_>,
    term: Option<&TermDef>,
    value: &Json,
) -> Result<DefaultList, FrameErr>
    ensures { Gives (λ values. values) result
        (defaults_of terms.now.table.now (option_copied term.entry) (json_data value.now)) }
{
    match value {
        Json::List(items) => defaults_of_items(alloc, terms, term, items.as_slice()),
        Json::Null => default_alone(alloc, terms, term, value),
        Json::Bool(_) => default_alone(alloc, terms, term, value),
        Json::Whole(_) => default_alone(alloc, terms, term, value),
        Json::Fraction => default_alone(alloc, terms, term, value),
        Json::Text(_) => default_alone(alloc, terms, term, value),
        Json::Map(_) => default_alone(alloc, terms, term, value),
    }
}
