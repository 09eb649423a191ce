//! The definition of one term, up to where it needs another one
//! (JSON-LD 1.1 Processing Algorithms and API, section 4.2.2).
ghost use Rattle.std.specs.Prelude.{◌≡◌, IfOk};
ghost use Rattle.def_contexts.specs.Texts.{has_later_colon};
ghost use Rattle.def_contexts.specs.Members.{all_keys};
ghost use Rattle.def_contexts.specs.Mappings.{is_type_mapping};
ghost use Rattle.def_contexts.specs.Terms.{is_definition_key, bare_definition, naming_of_id};
ghost use Rattle.lf_model.specs.JsonBridge.{json_data, members_data};
ghost use Rattle.lf_context.specs.DraftView.{table_in};
ghost use Rattle.lf_context.specs.Parts.{IsPart};
ghost use Rattle.lf_context.specs.Stages.{IsFor};
ghost use Rattle.lf_context.specs.Turns.{asked_prefix, iri_whole_turn, iri_prefix_turn, iri_expanding_turn, reverse_begun_turn, named_turn, plain_turn, by_name_turn, typed_turn, type_expanded_turn, type_expanding_turn, type_prefix_turn, type_whole_turn, members_turn, states_members, begun_turn};

use crate::draft::Drafted;
use crate::error::ContextErr;
use crate::expand::{expand_in, joined};
use crate::finish::{finish_by_name, finish_expanded};
use crate::parts::{is_null, part};
use crate::stage::{Stage, Turn, Wanted};
use crate::table::Terms;
use crate::text::{
    Split, cut_at_colon, has_keyword_form, has_later_colon, is_absolute, is_keyword, split_of,
};
use lf_base::{Memory, Text, TryCopy};
use lf_model::{Container, Json, JsonMap, LdError, TermDef};
use std::alloc::Global;

/// The definition of a term that is no keyword, from its beginning on.
#[tactic(auto, unfolding(crate::specs::Turns::begun_turn))]
pub fn begin(alloc: Global, table: &Drafted, name: &Text, value: &Json) -> Result<Turn, ContextErr>
    ensures turn { IsPart (begun_turn (table_in table.now) name.now (json_data value.now)) result }
    ensures later { IfOk result (IsFor name.now 7) }
{
    match states_members(value) {
        Ok(true) => begin_members(alloc, table, name, value),
        Ok(false) => Ok(Turn::Defined(bare_definition(alloc, name)?)),
        Err(error) => Err(ContextErr::Ld(error)),
    }
}

// Whether a term's value states members of a definition; null states that the term has no IRI.
fn states_members(value: &Json) -> Result<bool, LdError>
    ensures { result ≡ states_members (json_data value.now) }
{
    match value {
        Json::Null => Ok(false),
        Json::Text(_) => Ok(true),
        Json::Map(members) => {
            if is_null(part(value, "@id")) {
                Ok(false)
            } else if have_definition_keys(members) {
                Ok(true)
            } else {
                Err(LdError::InvalidTermDefinition)
            }
        }
        Json::Bool(_) => Err(LdError::InvalidTermDefinition),
        Json::Whole(_) => Err(LdError::InvalidTermDefinition),
        Json::Fraction => Err(LdError::InvalidTermDefinition),
        Json::List(_) => Err(LdError::InvalidTermDefinition),
    }
}

fn have_definition_keys(members: &JsonMap) -> bool
    ensures { result ≡ all_keys is_definition_key (members_data members.now) }
{
    for member in members.as_slice() {
        if !is_definition_key(member.key.as_str()) {
            return false;
        }
    }
    true
}

fn is_definition_key(key: &str) -> bool
    ensures { result ≡ is_definition_key key.now }
{
    matches!(
        key,
        "@id" | "@reverse" | "@type" | "@container" | "@language" | "@prefix"
    )
}

// A term without an IRI.
fn bare_definition(alloc: Global, name: &Text) -> Result<TermDef, Memory>
    ensures { IfOk result (λ d. d ≡ bare_definition name.now) }
{
    Ok(TermDef {
        name: name.copy(alloc)?,
        iri: None,
        prefix: false,
        reverse: false,
        coercion: None,
        language: None,
        container: Container::NoContainer,
    })
}

// The type mapping comes first.
#[tactic(auto, unfolding(crate::specs::Turns::members_turn))]
fn begin_members(
    alloc: Global,
    table: &Drafted,
    name: &Text,
    value: &Json,
) -> Result<Turn, ContextErr>
    ensures turn { IsPart (members_turn (table_in table.now) name.now (json_data value.now)) result }
    ensures later { IfOk result (IsFor name.now 7) }
{
    match part(value, "@type") {
        None => go_on_typed(alloc, table, name, value, &None),
        Some(Json::Text(words)) => begin_type(alloc, table, name, value, words),
        Some(_) => Err(ContextErr::Ld(LdError::InvalidTypeMapping)),
    }
}

// The text of the type mapping may itself be a term that is needed.
#[tactic(auto, unfolding(crate::specs::Turns::type_whole_turn))]
fn begin_type(
    alloc: Global,
    table: &Drafted,
    name: &Text,
    value: &Json,
    words: &Text,
) -> Result<Turn, ContextErr>
    ensures turn { IsPart (type_whole_turn (table_in table.now) name.now (json_data value.now) words.now)
        result }
    ensures later { IfOk result (IsFor name.now 7) }
{
    if is_keyword(words.as_str()) || has_keyword_form(words.as_str()) {
        return type_prefix(alloc, table, name, value, words);
    }
    let asked = words.copy(alloc)?;
    let words = words.copy(alloc)?;
    Ok(Turn::Asks {
        asked,
        rest: Stage::TypePrefix { words },
    })
}

/// What stands before the `:` of the type mapping may be a term that is needed.
#[tactic(auto, unfolding(crate::specs::Turns::type_prefix_turn))]
pub fn type_prefix(
    alloc: Global,
    table: &Drafted,
    name: &Text,
    value: &Json,
    words: &Text,
) -> Result<Turn, ContextErr>
    ensures turn { IsPart (type_prefix_turn (table_in table.now) name.now (json_data value.now) words.now)
        result }
    ensures later { IfOk result (IsFor name.now 6) }
{
    match prefix_of_text(alloc, table, words)? {
        Some(asked) => {
            let words = words.copy(alloc)?;
            Ok(Turn::Asks {
                asked,
                rest: Stage::TypeExpanding { words },
            })
        }
        None => type_expanding(alloc, table, name, value, words),
    }
}

/// The type mapping is expanded.
#[tactic(auto, unfolding(crate::specs::Turns::type_expanding_turn))]
pub fn type_expanding(
    alloc: Global,
    table: &Drafted,
    name: &Text,
    value: &Json,
    words: &Text,
) -> Result<Turn, ContextErr>
    ensures turn { IsPart (type_expanding_turn (table_in table.now) name.now (json_data value.now) words.now)
        result }
    ensures later { IfOk result (IsFor name.now 5) }
{
    let found = expand_in(alloc, table, words)?;
    type_expanded(alloc, table, name, value, &found)
}

// The type mapping is `@id`, `@vocab`, `@none` or absolute.
#[tactic(auto, unfolding(crate::specs::Turns::type_expanded_turn))]
fn type_expanded(
    alloc: Global,
    table: &Drafted,
    name: &Text,
    value: &Json,
    found: &Option<Text>,
) -> Result<Turn, ContextErr>
    ensures turn { IsPart (type_expanded_turn (table_in table.now) name.now (json_data value.now) found.now)
        result }
    ensures later { IfOk result (IsFor name.now 5) }
{
    match found {
        Some(iri) => {
            if is_type_mapping(iri.as_str()) {
                go_on_typed(alloc, table, name, value, found)
            } else {
                Err(ContextErr::Ld(LdError::InvalidTypeMapping))
            }
        }
        None => Err(ContextErr::Ld(LdError::InvalidTypeMapping)),
    }
}

fn is_type_mapping(iri: &str) -> bool
    ensures { result ≡ is_type_mapping iri.now }
{
    matches!(iri, "@id" | "@vocab" | "@none") || is_absolute(iri)
}

// `@reverse` comes after the type mapping.
#[tactic(auto, unfolding(crate::specs::Turns::typed_turn))]
fn go_on_typed(
    alloc: Global,
    table: &Drafted,
    name: &Text,
    value: &Json,
    coercion: &Option<Text>,
) -> Result<Turn, ContextErr>
    ensures turn { IsPart (typed_turn (table_in table.now) name.now (json_data value.now) coercion.now) result }
    ensures later { IfOk result (IsFor name.now 5) }
{
    match part(value, "@reverse") {
        Some(reverse) => begin_reverse(alloc, table, name, value, coercion, reverse),
        None => begin_plain(alloc, table, name, value, coercion),
    }
}

// A reverse property has no `@id`, and `@reverse` is a text that is expanded.
#[tactic(auto, unfolding(crate::specs::Turns::reverse_begun_turn))]
fn begin_reverse(
    alloc: Global,
    table: &Drafted,
    name: &Text,
    value: &Json,
    coercion: &Option<Text>,
    reverse: &Json,
) -> Result<Turn, ContextErr>
    ensures turn { IsPart (reverse_begun_turn (table_in table.now) name.now (json_data value.now) coercion.now
        (json_data reverse.now)) result }
    ensures later { IfOk result (IsFor name.now 5) }
{
    if part(value, "@id").is_some() {
        return Err(ContextErr::Ld(LdError::InvalidReverseProperty));
    }
    match reverse {
        Json::Text(words) => {
            let wanted = Wanted::Reverse(coercion.copy(alloc)?);
            let turn = begin_iri(alloc, table, name, value, words, &wanted);
            drop(wanted);
            turn
        }
        Json::Null => Err(ContextErr::Ld(LdError::InvalidIriMapping)),
        Json::Bool(_) => Err(ContextErr::Ld(LdError::InvalidIriMapping)),
        Json::Whole(_) => Err(ContextErr::Ld(LdError::InvalidIriMapping)),
        Json::Fraction => Err(ContextErr::Ld(LdError::InvalidIriMapping)),
        Json::List(_) => Err(ContextErr::Ld(LdError::InvalidIriMapping)),
        Json::Map(_) => Err(ContextErr::Ld(LdError::InvalidIriMapping)),
    }
}

// A term that is no reverse property takes its IRI from `@id` or from its name.
#[tactic(auto, unfolding(crate::specs::Turns::plain_turn))]
fn begin_plain(
    alloc: Global,
    table: &Drafted,
    name: &Text,
    value: &Json,
    coercion: &Option<Text>,
) -> Result<Turn, ContextErr>
    ensures turn { IsPart (plain_turn (table_in table.now) name.now (json_data value.now) coercion.now) result }
    ensures later { IfOk result (IsFor name.now 5) }
{
    match part(value, "@id") {
        None => begin_by_name(alloc, table, name, value, coercion),
        Some(Json::Text(id)) => begin_by_id(alloc, table, name, value, coercion, id),
        Some(_) => Err(ContextErr::Ld(LdError::InvalidIriMapping)),
    }
}

// `@id` is a text: the name again, or no keyword but of a keyword's form, or else it is expanded.
fn begin_by_id(
    alloc: Global,
    table: &Drafted,
    name: &Text,
    value: &Json,
    coercion: &Option<Text>,
    id: &Text,
) -> Result<Turn, ContextErr>
    ensures turn { IsPart (named_turn (naming_of_id name.now id.now) (table_in table.now) name.now
        (json_data value.now) coercion.now) result }
    ensures later { IfOk result (IsFor name.now 5) }
{
    if id.as_str() == name.as_str() {
        return begin_by_name(alloc, table, name, value, coercion);
    }
    if has_keyword_form(id.as_str()) && !is_keyword(id.as_str()) {
        return Ok(Turn::Settled);
    }
    let wanted = Wanted::Id(coercion.copy(alloc)?);
    let turn = begin_iri(alloc, table, name, value, id, &wanted);
    drop(wanted);
    turn
}

// A name with `:` behind its first byte needs the term before it; any other goes behind the
// vocabulary mapping.
fn begin_by_name(
    alloc: Global,
    table: &Drafted,
    name: &Text,
    value: &Json,
    coercion: &Option<Text>,
) -> Result<Turn, ContextErr>
    ensures turn { IsPart (by_name_turn (has_later_colon name.now) (table_in table.now) name.now
        (json_data value.now) coercion.now) result }
    ensures later { IfOk result (IsFor name.now 5) }
{
    if has_later_colon(name.as_str()) {
        let (before, _) = cut_at_colon(name.as_str());
        let asked = Text::of(alloc, before)?;
        let coercion = coercion.copy(alloc)?;
        return Ok(Turn::Asks {
            asked,
            rest: Stage::ByName { coercion },
        });
    }
    match &table.vocab {
        Some(mapping) => {
            let iri = joined(alloc, mapping.as_str(), name.as_str())?;
            finish_by_name(alloc, name, value, coercion, iri)
        }
        None => Err(ContextErr::Ld(LdError::InvalidIriMapping)),
    }
}

// The text of the IRI may itself be a term that is needed.
#[tactic(auto, unfolding(crate::specs::Turns::iri_whole_turn))]
fn begin_iri(
    alloc: Global,
    table: &Drafted,
    name: &Text,
    value: &Json,
    words: &Text,
    wanted: &Wanted,
) -> Result<Turn, ContextErr>
    ensures turn { IsPart (iri_whole_turn (table_in table.now) name.now (json_data value.now) words.now
        wanted.now) result }
    ensures later { IfOk result (IsFor name.now 5) }
{
    if is_keyword(words.as_str()) || has_keyword_form(words.as_str()) {
        return iri_prefix(alloc, table, name, value, words, wanted);
    }
    let asked = words.copy(alloc)?;
    let words = words.copy(alloc)?;
    let wanted = wanted.copy(alloc)?;
    Ok(Turn::Asks {
        asked,
        rest: Stage::IriPrefix { words, wanted },
    })
}

/// What stands before the `:` of the IRI's text may be a term that is needed.
#[tactic(auto, unfolding(crate::specs::Turns::iri_prefix_turn))]
pub fn iri_prefix(
    alloc: Global,
    table: &Drafted,
    name: &Text,
    value: &Json,
    words: &Text,
    wanted: &Wanted,
) -> Result<Turn, ContextErr>
    ensures turn { IsPart (iri_prefix_turn (table_in table.now) name.now (json_data value.now) words.now
        wanted.now) result }
    ensures later { IfOk result (IsFor name.now 4) }
{
    match prefix_of_text(alloc, table, words)? {
        Some(asked) => {
            let words = words.copy(alloc)?;
            let wanted = wanted.copy(alloc)?;
            Ok(Turn::Asks {
                asked,
                rest: Stage::IriExpanding { words, wanted },
            })
        }
        None => iri_expanding(alloc, table, name, value, words, wanted),
    }
}

/// The IRI is expanded.
#[tactic(auto, unfolding(crate::specs::Turns::iri_expanding_turn))]
pub fn iri_expanding(
    alloc: Global,
    table: &Drafted,
    name: &Text,
    value: &Json,
    words: &Text,
    wanted: &Wanted,
) -> Result<Turn, ContextErr>
    ensures turn { IsPart (iri_expanding_turn (table_in table.now) name.now (json_data value.now) words.now
        wanted.now) result }
    ensures later { IfOk result (IsFor name.now 3) }
{
    let found = expand_in(alloc, table, words)?;
    finish_expanded(alloc, table, name, value, wanted, found)
}

/// The prefix of a text that is no term.
pub fn prefix_of_text(alloc: Global, table: &Drafted, words: &Text) -> Result<Option<Text>, Memory>
    ensures { IfOk result (λ asked. asked ≡ asked_prefix words.now (table_in table.now)) }
{
    if table.find(words).is_some() {
        return Ok(None);
    }
    match split_of(words.as_str()) {
        Split::Unsplit => Ok(None),
        Split::AsIs => Ok(None),
        Split::Parts(before, _) => Ok(Some(Text::of(alloc, before)?)),
    }
}
