//! The last parts of a term's definition, once its IRI is expanded.
ghost use Rattle.std.specs.Prelude.{◌≡◌, IfOk, Some, false};
ghost use Rattle.def_contexts.specs.Texts.{has_later_colon, before_colon};
ghost use Rattle.def_contexts.specs.Mappings.{must_expand, is_prefix_by_form, named_iri, iri_by_prefix};
ghost use Rattle.def_contexts.specs.Expansion.{find_term};
ghost use Rattle.lf_rdf.specs.Equality.{text_eq, option_eq};
ghost use Rattle.lf_model.specs.JsonBridge.{json_data};
ghost use Rattle.lf_context.specs.DraftView.{table_in};
ghost use Rattle.lf_context.specs.Parts.{IsPart};
ghost use Rattle.lf_context.specs.Stages.{IsFor, is_simple};
ghost use Rattle.lf_context.specs.Turns.{absolute_iri, finished_turn, reverse_turn, confirming_turn, confirm_if, id_turn, by_prefix_turn, iri_expanded_turn};

use crate::draft::Drafted;
use crate::error::ContextErr;
use crate::expand::{expand_in, joined};
use crate::parts::{
    container_of, has_colon_or_slash, is_simple, language_of, part, prefix_of, reverse_container_of,
};
use crate::stage::{Stage, Turn, Wanted};
use crate::table::Terms;
use crate::term::prefix_of_text;
use crate::text::{
    cut_at_colon, ends_in_gen_delim, has_byte, has_inner_colon, is_absolute, is_keyword,
};
use lf_base::{Memory, Same, Text, TryCopy};
use lf_model::{Json, LdError, TermDef};
use std::alloc::Global;

/// The IRI was expanded as it was wanted.
pub fn finish_expanded(
    alloc: Global,
    table: &Drafted,
    name: &Text,
    value: &Json,
    wanted: &Wanted,
    found: Option<Text>,
) -> Result<Turn, ContextErr>
    ensures turn { IsPart
        (iri_expanded_turn wanted.now (table_in table.now) name.now (json_data value.now) found)
        result }
    ensures later { IfOk result (IsFor name.now 3) }
{
    match wanted {
        Wanted::Reverse(coercion) => finish_reverse(alloc, name, value, coercion, found),
        Wanted::Id(coercion) => finish_id(alloc, table, name, value, coercion, found),
    }
}

// The definition of a reverse property.
#[tactic(auto, unfolding(crate::specs::Turns::reverse_turn))]
fn finish_reverse(
    alloc: Global,
    name: &Text,
    value: &Json,
    coercion: &Option<Text>,
    found: Option<Text>,
) -> Result<Turn, ContextErr>
    ensures turn { IsPart (reverse_turn name.now (json_data value.now) coercion.now found) result }
    ensures later { IfOk result (IsFor name.now 3) }
{
    let iri = absolute_iri(found)?;
    let container = reverse_container_of(part(value, "@container"))?;
    let name = name.copy(alloc)?;
    let coercion = coercion.copy(alloc)?;
    Ok(Turn::Defined(TermDef {
        name,
        iri: Some(iri),
        prefix: false,
        reverse: true,
        coercion,
        language: None,
        container,
    }))
}

fn absolute_iri(found: Option<Text>) -> Result<Text, LdError>
    ensures { result ≡ absolute_iri found }
{
    match found {
        Some(iri) => {
            if is_absolute(iri.as_str()) {
                Ok(iri)
            } else {
                Err(LdError::InvalidIriMapping)
            }
        }
        None => Err(LdError::InvalidIriMapping),
    }
}

// A keyword other than `@context`, or an absolute IRI.
fn named_iri(found: Option<Text>) -> Result<Text, LdError>
    ensures { result ≡ named_iri found }
{
    match found {
        None => Err(LdError::InvalidIriMapping),
        Some(iri) => {
            if iri.as_str() == "@context" {
                Err(LdError::InvalidKeywordAlias)
            } else if is_keyword(iri.as_str()) || is_absolute(iri.as_str()) {
                Ok(iri)
            } else {
                Err(LdError::InvalidIriMapping)
            }
        }
    }
}

// The IRI of `@id`, which a name with an inner `:` or with `/` must itself expand to.
#[tactic(auto, unfolding(crate::specs::Turns::id_turn))]
fn finish_id(
    alloc: Global,
    table: &Drafted,
    name: &Text,
    value: &Json,
    coercion: &Option<Text>,
    found: Option<Text>,
) -> Result<Turn, ContextErr>
    ensures turn { IsPart (id_turn (table_in table.now) name.now (json_data value.now) coercion.now found)
        result }
    ensures later { IfOk result (IsFor name.now 3) }
{
    let iri = named_iri(found)?;
    if !must_expand(name.as_str()) {
        let by_form = is_prefix_by_form(name.as_str(), iri.as_str(), is_simple(value));
        return finish(alloc, name, value, coercion, iri, by_form);
    }
    match prefix_of_text(alloc, table, name)? {
        Some(asked) => {
            let coercion = coercion.copy(alloc)?;
            Ok(Turn::Asks {
                asked,
                rest: Stage::Confirming { coercion, iri },
            })
        }
        None => confirm(alloc, table, name, value, coercion, &iri),
    }
}

fn must_expand(name: &str) -> bool
    ensures { result ≡ must_expand name.now }
{
    has_inner_colon(name) || has_byte(b'/', name.as_bytes())
}

// A simple term of a plain name may be a prefix where its IRI ends in a delimiter.
fn is_prefix_by_form(name: &str, iri: &str, simple: bool) -> bool
    ensures { result ≡ is_prefix_by_form name.now iri.now simple }
{
    simple && !has_colon_or_slash(name) && ends_in_gen_delim(iri)
}

/// The term itself must expand to its IRI.
#[tactic(auto, unfolding(crate::specs::Turns::confirming_turn))]
pub fn confirm(
    alloc: Global,
    table: &Drafted,
    name: &Text,
    value: &Json,
    coercion: &Option<Text>,
    iri: &Text,
) -> Result<Turn, ContextErr>
    ensures turn { IsPart (confirming_turn (table_in table.now) name.now (json_data value.now) coercion.now
        iri.now) result }
    ensures later { IfOk result (IsFor name.now 2) }
{
    let found = expand_in(alloc, table, name)?;
    if !is_iri(&found, iri) {
        return Err(ContextErr::Ld(LdError::InvalidIriMapping));
    }
    let by_form = is_prefix_by_form(name.as_str(), iri.as_str(), is_simple(value));
    finish(alloc, name, value, coercion, iri.copy(alloc)?, by_form)
}

fn is_iri(found: &Option<Text>, iri: &Text) -> bool
    ensures { result ≡ option_eq text_eq found.now (Some iri.now) }
{
    match found {
        Some(found) => found.as_str() == iri.as_str(),
        None => false,
    }
}

/// The IRI of the term before the first `:` of the name, and the rest; or else the name itself.
#[tactic(auto, unfolding(crate::specs::Turns::by_prefix_turn))]
pub fn finish_by_prefix(
    alloc: Global,
    table: &Drafted,
    name: &Text,
    value: &Json,
    coercion: &Option<Text>,
) -> Result<Turn, ContextErr>
    ensures turn { IsPart (by_prefix_turn (table_in table.now) name.now (json_data value.now) coercion.now)
        result }
    ensures later { IfOk result (IsFor name.now 2) }
{
    let found = iri_by_prefix(alloc, table, name)?;
    let iri = absolute_iri(Some(found))?;
    finish(alloc, name, value, coercion, iri, false)
}

fn iri_by_prefix(alloc: Global, table: &Drafted, name: &Text) -> Result<Text, Memory>
    ensures { IfOk result (λ iri.
        iri
        ≡ iri_by_prefix name.now
        (find_term (before_colon name.now) (table_in table.now).terms)) }
{
    let (before, after) = cut_at_colon(name.as_str());
    let prefix = Text::of(alloc, before)?;
    match table.find(&prefix) {
        Some(term) => match &term.iri {
            Some(iri) => joined(alloc, iri.as_str(), after),
            None => name.copy(alloc),
        },
        None => name.copy(alloc),
    }
}

/// The vocabulary mapping and the name.
pub fn finish_by_name(
    alloc: Global,
    name: &Text,
    value: &Json,
    coercion: &Option<Text>,
    iri: Text,
) -> Result<Turn, ContextErr>
    ensures turn { IsPart (finished_turn name.now (json_data value.now) coercion.now iri false) result }
    ensures later { IfOk result (IsFor name.now 2) }
{
    finish(alloc, name, value, coercion, iri, false)
}

// The container, the language and whether the term may be a prefix.
#[tactic(auto, unfolding(crate::specs::Turns::finished_turn))]
fn finish(
    alloc: Global,
    name: &Text,
    value: &Json,
    coercion: &Option<Text>,
    iri: Text,
    by_form: bool,
) -> Result<Turn, ContextErr>
    ensures turn { IsPart (finished_turn name.now (json_data value.now) coercion.now iri by_form) result }
    ensures later { IfOk result (IsFor name.now 2) }
{
    let container = container_of(part(value, "@container"))?;
    let language = language_of(alloc, part(value, "@type"), part(value, "@language"))?;
    let prefix = prefix_of(name.as_str(), iri.as_str(), by_form, part(value, "@prefix"))?;
    let name = name.copy(alloc)?;
    let coercion = coercion.copy(alloc)?;
    Ok(Turn::Defined(TermDef {
        name,
        iri: Some(iri),
        prefix,
        reverse: false,
        coercion,
        language,
        container,
    }))
}
