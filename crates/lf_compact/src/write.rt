//! How values and references are written under a chosen term (JSON-LD 1.1 Processing Algorithms and
//! API, section 6.1.2).
ghost use Rattle.std.specs.Prelude.{◌≡◌, ◌∷◌, [], IfOk, OnOk, map};
ghost use Rattle.std.specs.Option.{option_copied};
ghost use Rattle.lf_model.specs.JsonBridge.{json_data};
ghost use Rattle.def_documents.specs.Entries.{container_of, is_list_container};
ghost use Rattle.def_documents.specs.Grouping.{object_of};
ghost use Rattle.def_documents.specs.Nodes as nodes;
ghost use Rattle.def_documents.specs.Picks as picks;
ghost use Rattle.def_documents.specs.Values as def;
ghost use Rattle.def_selection.specs.Iris.{short_keyword};
ghost use Rattle.lf_compact.specs.Plains.{plain_data};
ghost use Rattle.lf_compact.specs.Answers.{AddsAll, AddsEntries, Compacted};

use crate::error::CompactErr;
use crate::members::{Members, add, object_of};
use crate::values::{Plain, coerces_to, is_bare, literal_plain, scalar_plain};
use lf_base::{ListOf, Memory, Text};
use lf_model::{Container, DefaultValue, Json, TermDef};
use lf_rdf::Term;
use lf_select::Inverse;
use std::alloc::Global;
use std::collections::BTreeMap;

/// Puts a value under the key of a keyword.
pub fn add_under(
    alloc: Global,
    inverse: &Inverse,
    members: &mut Members,
    keyword: &str,
    value: Json,
) -> Result<(), Memory>
    ensures { OnOk result (AddsEntries members.old members.new
        ((short_keyword inverse.now keyword.now, json_data value) ∷ [])) }
{
    let key = inverse.compact_keyword(alloc, keyword)?;
    add(alloc, members, key, value)
}

/// The map that has a value under the key of a keyword, and nothing else.
pub fn only_under(
    alloc: Global,
    inverse: &Inverse,
    keyword: &str,
    value: Json,
) -> Result<Json, Memory>
    ensures { IfOk result (λ json.
        json_data json
        ≡ object_of ((short_keyword inverse.now keyword.now, json_data value) ∷ [])) }
{
    let mut members = BTreeMap::new(alloc);
    add_under(alloc, inverse, &mut members, keyword, value)?;
    object_of(alloc, members)
}

// Puts a datatype under the key of `@type`, where there is one.
#[tactic(auto, unfolding(def_selection::specs::Keywords::at_type), using(lf_model::proofs::JsonLemmas::json_cases))]
fn add_datatype(
    alloc: Global,
    inverse: &Inverse,
    members: &mut Members,
    datatype: &Option<Text>,
) -> Result<(), CompactErr>
    ensures { AddsAll result members.old members.new (def.datatype_entry inverse.now datatype.now) }
{
    match datatype {
        Some(datatype) => {
            let compacted = inverse.compact_alone(alloc, datatype, true)?;
            add_under(alloc, inverse, members, "@type", Json::Text(compacted))?;
            Ok(())
        }
        None => Ok(()),
    }
}

// Puts a language under the key of `@language`, where there is one.
#[tactic(auto, unfolding(def_selection::specs::Keywords::at_language), using(lf_model::proofs::JsonLemmas::json_cases))]
fn add_language(
    alloc: Global,
    inverse: &Inverse,
    members: &mut Members,
    language: Option<Text>,
) -> Result<(), Memory>
    ensures { OnOk result (AddsEntries members.old members.new (def.language_entry inverse.now language)) }
{
    match language {
        Some(language) => add_under(alloc, inverse, members, "@language", Json::Text(language)),
        None => Ok(()),
    }
}

// A map of a value and, where there are, of its datatype and its language.
#[tactic(auto, unfolding(def_selection::specs::Keywords::at_value))]
fn value_object(alloc: Global, inverse: &Inverse, plain: Plain) -> Result<Json, CompactErr>
    ensures { Compacted result (def.value_object inverse.now (plain_data plain)) }
{
    let mut members = BTreeMap::new(alloc);
    add_under(alloc, inverse, &mut members, "@value", plain.scalar)?;
    add_datatype(alloc, inverse, &mut members, &plain.datatype)?;
    add_language(alloc, inverse, &mut members, plain.language)?;
    Ok(object_of(alloc, members)?)
}

/// A literal or scalar under a chosen term, or none.
pub fn plain_json(
    alloc: Global,
    inverse: &Inverse,
    term: Option<&TermDef>,
    plain: Plain,
) -> Result<Json, CompactErr>
    ensures { Compacted result (def.plain_json inverse.now (option_copied term.entry) (plain_data plain)) }
{
    if is_bare(inverse.table(), term, &plain) {
        Ok(plain.scalar)
    } else {
        value_object(alloc, inverse, plain)
    }
}

/// A literal under a chosen term, or none.
pub fn literal_json(
    alloc: Global,
    inverse: &Inverse,
    term: Option<&TermDef>,
    literal: &Term,
) -> Result<Json, CompactErr>
    ensures { Compacted result (def.plain_json inverse.now (option_copied term.entry)
        (picks.literal_plain literal.now)) }
{
    let plain = literal_plain(alloc, literal)?;
    plain_json(alloc, inverse, term, plain)
}

// A compacted id: the id alone where the term's coercion says that it is one, otherwise a map of
// it.
#[tactic(auto, unfolding(def_selection::specs::Keywords::at_id, def_selection::specs::Keywords::at_vocab), using(lf_model::proofs::JsonLemmas::json_cases))]
fn reference_value(
    alloc: Global,
    inverse: &Inverse,
    term: Option<&TermDef>,
    compacted: Text,
) -> Result<Json, Memory>
    ensures { IfOk result (λ json.
        json_data json ≡ def.reference_value inverse.now (option_copied term.entry) compacted) }
{
    if coerces_to(term, "@id") || coerces_to(term, "@vocab") {
        Ok(Json::Text(compacted))
    } else {
        only_under(alloc, inverse, "@id", Json::Text(compacted))
    }
}

/// A node that has an id alone, under a chosen term, or none.
#[tactic(auto, unfolding(def_selection::specs::Keywords::at_vocab))]
pub fn reference_json(
    alloc: Global,
    inverse: &Inverse,
    term: Option<&TermDef>,
    id: &Term,
) -> Result<Json, CompactErr>
    ensures { Compacted result (def.reference_json inverse.now (option_copied term.entry) id.now) }
{
    let vocab = coerces_to(term, "@vocab");
    let compacted = inverse.compact_node(alloc, id, vocab)?;
    Ok(reference_value(alloc, inverse, term, compacted)?)
}

/// A default's value under a chosen term, or none.
#[tactic(auto, using(lf_model::proofs::JsonLemmas::json_cases))]
pub fn default_json(
    alloc: Global,
    inverse: &Inverse,
    term: Option<&TermDef>,
    value: &DefaultValue,
) -> Result<Json, CompactErr>
    ensures { Compacted result (nodes.default_json inverse.now (option_copied term.entry) value.now) }
{
    match value {
        DefaultValue::Null => Ok(Json::Null),
        DefaultValue::Ref(id) => reference_json(alloc, inverse, term, id),
        DefaultValue::Scalar {
            scalar,
            datatype,
            language,
        } => {
            let plain = scalar_plain(alloc, scalar, datatype, language)?;
            plain_json(alloc, inverse, term, plain)
        }
    }
}

// Whether a term's container is `@list`.
fn is_list(term: Option<&TermDef>) -> bool
    ensures { result ≡ is_list_container (container_of (option_copied term.entry)) }
{
    match term {
        Some(term) => match term.container {
            Container::List => true,
            Container::NoContainer => false,
            Container::Set => false,
            Container::Language => false,
            Container::LanguageSet => false,
        },
        None => false,
    }
}

/// A list of compacted items: an array under a term with `@list`, otherwise a map of `@list`.
#[tactic(auto, unfolding(def_selection::specs::Keywords::at_list), using(lf_model::proofs::JsonLemmas::json_cases))]
pub fn list_json(
    alloc: Global,
    inverse: &Inverse,
    term: Option<&TermDef>,
    items: Vec<Json>,
) -> Result<Json, Memory>
    ensures { IfOk result (λ json.
        json_data json
        ≡ nodes.list_json inverse.now (option_copied term.entry) (map json_data items.items)) }
{
    let items = Json::List(ListOf::from_vec(items));
    if is_list(term) {
        Ok(items)
    } else {
        only_under(alloc, inverse, "@list", items)
    }
}
