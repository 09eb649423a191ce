//! The term table of a context (JSON-LD 1.1 Processing Algorithms and API, section 4.1).
ghost use Rattle.std.specs.Prelude.{◌≡◌, IfOk, IsTrue};
ghost use Rattle.lf_model.specs.JsonBridge.{json_data, items_data, members_data};
ghost use Rattle.def_contexts.specs.Table.{is_bad_version, is_bad_base, has_refused_key, vocab_expanded, vocab_of, default_language_of, map_table, table_after, items_after, table_of};
ghost use Rattle.def_contexts.specs.Members.{has_key};
ghost use Rattle.def_contexts.specs.TableLaws.{ascends};
ghost use Rattle.lf_context.specs.DraftView.{table_in};
ghost use Rattle.lf_context.specs.Parts.{IsPart, data_of};
ghost use Rattle.lf_context.specs.Maps.{checked, vocab_step, language_step};
ghost use Rattle.lf_context.specs.Walks.{IsTable};

use crate::define::define_terms;
use crate::draft::Drafted;
use crate::error::ContextErr;
use crate::expand::expand_in;
use crate::parts::{language_given, member};
use crate::text::is_absolute;
use lf_base::{Memory, Text, TryCopy};
use lf_model::{Json, JsonList, JsonMap, LdError, TermTable};
use std::alloc::Global;

/// The term table of a context, its terms in byte order of their names; or the first error that is
/// met, by its name in the standards. Each term is defined once, with those that it needs first, on
/// a stack of its own: the cost grows as n log n with the terms, however they need each other.
/// Calls nest as deep as arrays do in the context.
pub fn process(alloc: Global, context: &Json) -> Result<TermTable, ContextErr>
    ensures table { IsPart (table_of (json_data context.now)) result }
    ensures order { IfOk result (λ table. IsTrue (ascends table.terms)) }
{
    let mut draft = Drafted::new(alloc);
    match read_context(alloc, &mut draft, context) {
        Ok(()) => Ok(draft.finish(alloc)?),
        Err(error) => Err(error),
    }
}

// A context over the table before it: null empties the table, and an array is read element by
// element.
#[cycle(reading)]
fn read_context(alloc: Global, draft: &mut Drafted, context: &Json) -> Result<(), ContextErr>
    ensures { IsTable (table_after (json_data context.now) (table_in draft.old)) (table_in draft.new)
        result }
{
    match context {
        Json::Null => {
            draft.clear();
            Ok(())
        }
        Json::Text(_) => Err(ContextErr::Ld(LdError::LoadingRemoteContextFailed)),
        Json::List(items) => read_contexts(alloc, draft, items),
        Json::Map(members) => read_map(alloc, draft, members),
        Json::Bool(_) => Err(ContextErr::Ld(LdError::InvalidLocalContext)),
        Json::Whole(_) => Err(ContextErr::Ld(LdError::InvalidLocalContext)),
        Json::Fraction => Err(ContextErr::Ld(LdError::InvalidLocalContext)),
    }
}

#[cycle(reading)]
fn read_contexts(alloc: Global, draft: &mut Drafted, items: &JsonList) -> Result<(), ContextErr>
    ensures { IsTable (items_after (items_data items.now) (table_in draft.old)) (table_in draft.new)
        result }
{
    for item in items.as_slice() {
        match read_context(alloc, draft, item) {
            Ok(()) => {}
            Err(error) => return Err(error),
        }
    }
    Ok(())
}

// The map of a context: its own keys first, and then its terms.
fn read_map(alloc: Global, draft: &mut Drafted, members: &JsonMap) -> Result<(), ContextErr>
    ensures { IsTable (map_table (members_data members.now) (table_in draft.old)) (table_in draft.new)
        result }
{
    match check_keys(members) {
        Ok(()) => read_vocab(alloc, draft, members),
        Err(error) => Err(ContextErr::Ld(error)),
    }
}

fn read_vocab(alloc: Global, draft: &mut Drafted, members: &JsonMap) -> Result<(), ContextErr>
    ensures { IsTable (vocab_step (members_data members.now) (table_in draft.old)) (table_in draft.new)
        result }
{
    match vocab_of(alloc, draft, member(members, "@vocab")) {
        Ok(vocab) => read_language(alloc, draft, members, vocab),
        Err(error) => Err(error),
    }
}

fn read_language(
    alloc: Global,
    draft: &mut Drafted,
    members: &JsonMap,
    vocab: Option<Text>,
) -> Result<(), ContextErr>
    ensures { IsTable (language_step (members_data members.now) (table_in draft.old) vocab)
        (table_in draft.new) result }
{
    match default_language_of(alloc, draft, member(members, "@language")) {
        Ok(language) => {
            draft.vocab = vocab;
            draft.language = language;
            define_terms(alloc, draft, members)
        }
        Err(error) => Err(error),
    }
}

// `@version` first, and then the keys that are refused by name.
fn check_keys(members: &JsonMap) -> Result<(), LdError>
    ensures { result ≡ checked (members_data members.now) }
{
    if is_bad_version(member(members, "@version")) {
        return Err(LdError::InvalidVersionValue);
    }
    if has_refused_key(members) {
        return Err(LdError::InvalidLocalContext);
    }
    Ok(())
}

// `@version` stands and is no fraction.
fn is_bad_version(value: Option<&Json>) -> bool
    ensures { result ≡ is_bad_version (data_of value.entry) }
{
    match value {
        None => false,
        Some(Json::Fraction) => false,
        Some(Json::Null) => true,
        Some(Json::Bool(_)) => true,
        Some(Json::Whole(_)) => true,
        Some(Json::Text(_)) => true,
        Some(Json::List(_)) => true,
        Some(Json::Map(_)) => true,
    }
}

// `@base` stands and isn't null.
fn is_bad_base(value: Option<&Json>) -> bool
    ensures { result ≡ is_bad_base (data_of value.entry) }
{
    match value {
        None => false,
        Some(Json::Null) => false,
        Some(Json::Bool(_) | Json::Whole(_) | Json::Fraction) => true,
        Some(Json::Text(_) | Json::List(_) | Json::Map(_)) => true,
    }
}

fn has_refused_key(members: &JsonMap) -> bool
    ensures { result ≡ has_refused_key (members_data members.now) }
{
    is_bad_base(member(members, "@base"))
        || has_key(members, "@direction")
        || has_key(members, "@import")
        || has_key(members, "@propagate")
        || has_key(members, "@protected")
}

fn has_key(members: &JsonMap, key: &str) -> bool
    ensures { result ≡ has_key key.now (members_data members.now) }
{
    member(members, key).is_some()
}

// The vocabulary mapping after a context.
fn vocab_of(
    alloc: Global,
    draft: &Drafted,
    value: Option<&Json>,
) -> Result<Option<Text>, ContextErr>
    ensures { IsPart (vocab_of (table_in draft.now) (data_of value.entry)) result }
{
    match value {
        None => Ok(draft.vocab.copy(alloc)?),
        Some(Json::Null) => Ok(None),
        Some(Json::Text(words)) => Ok(absolute_vocab(expand_in(alloc, draft, words)?)?),
        Some(Json::Fraction) => Err(ContextErr::Ld(LdError::InvalidVocabMapping)),
        Some(Json::Bool(_)) => Err(ContextErr::Ld(LdError::InvalidVocabMapping)),
        Some(Json::Whole(_)) => Err(ContextErr::Ld(LdError::InvalidVocabMapping)),
        Some(Json::List(_)) => Err(ContextErr::Ld(LdError::InvalidVocabMapping)),
        Some(Json::Map(_)) => Err(ContextErr::Ld(LdError::InvalidVocabMapping)),
    }
}

fn absolute_vocab(found: Option<Text>) -> Result<Option<Text>, LdError>
    ensures { result ≡ vocab_expanded found }
{
    match found {
        Some(iri) => {
            if is_absolute(iri.as_str()) {
                Ok(Some(iri))
            } else {
                Err(LdError::InvalidVocabMapping)
            }
        }
        None => Err(LdError::InvalidVocabMapping),
    }
}

// The default language after a context.
fn default_language_of(
    alloc: Global,
    draft: &Drafted,
    value: Option<&Json>,
) -> Result<Option<Text>, ContextErr>
    ensures { IsPart (default_language_of (table_in draft.now) (data_of value.entry)) result }
{
    match value {
        None => Ok(draft.language.copy(alloc)?),
        Some(value) => language_given(alloc, LdError::InvalidDefaultLanguage, value),
    }
}
