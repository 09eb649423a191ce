//! What a map of a frame is by its keys (JSON-LD 1.1 Framing, section 4.1).
ghost use Rattle.std.specs.Prelude.{◌≡◌, ◌&&◌, IfOk};
ghost use Rattle.std.specs.Option.{option_copied};
ghost use Rattle.lf_model.specs.JsonBridge.{json_data, items_data, members_data};
ghost use Rattle.def_contexts.specs.FrameKeys.{stands_for_null, is_set_only, kept, set_for_null, class_of, are_all_keywords, is_keyword_meaning};
ghost use Rattle.def_contexts.specs.Places.{under_language};
ghost use Rattle.lf_expand.specs.MeaningData.{meaning_data};
ghost use Rattle.lf_expand.specs.KeptKeys.{class_data, is_kept, kept_keys, with_key, nothing_kept, is_alone, class_by};

use crate::meaning::{Meaning, is_the_keyword, meaning_of, means};
use crate::terms::Terms;
use lf_base::Memory;
use lf_model::{Container, Json, JsonMap, TermDef};
use std::alloc::Global;

/// What a map is, before its keys are read.
#[derive(Clone, Copy, Debug)]
pub enum MapClass {
    Value,
    List,
    Set,
    Node,
}

// What is known of the keys that are kept: whether one is `@value` or `@language`, whether one is
// `@list`, whether there is one, whether there are more, and whether the first is `@set`.
#[derive(Clone, Copy, Debug)]
struct KeptKeys {
    of_value: bool,
    of_list: bool,
    any: bool,
    more: bool,
    set_first: bool,
}

impl KeptKeys {
    // No key is kept so far.
    fn nothing() -> KeptKeys
        ensures { result ≡ nothing_kept }
    {
        KeptKeys {
            of_value: false,
            of_list: false,
            any: false,
            more: false,
            set_first: false,
        }
    }

    // One more key is kept.
    fn with(self, meaning: &Meaning<'_>) -> KeptKeys
        ensures { result ≡ with_key self (meaning_data meaning.now) }
    {
        KeptKeys {
            of_value: self.of_value
                || is_the_keyword("@value", meaning)
                || is_the_keyword("@language", meaning),
            of_list: self.of_list || is_the_keyword("@list", meaning),
            any: true,
            more: self.more || self.any,
            set_first: if self.any {
                self.set_first
            } else {
                is_the_keyword("@set", meaning)
            },
        }
    }

    // Whether `@set` is the only one.
    fn is_alone(self) -> bool
        ensures { result ≡ is_alone self }
    {
        self.any && !self.more && self.set_first
    }

    // The class of a map with these keys.
    fn class(self) -> MapClass
        ensures { class_data result ≡ class_by self }
    {
        if self.of_value {
            MapClass::Value
        } else if self.of_list {
            MapClass::List
        } else if self.is_alone() {
            MapClass::Set
        } else {
            MapClass::Node
        }
    }
}

// Whether a value stands for null: it is null, alone or in an array or under `@set`.
#[cycle(nulls)]
fn stands_for_null(alloc: Global, terms: &Terms<'_>, value: &Json) -> Result<bool, Memory>
    ensures { IfOk result (λ b. b ≡ stands_for_null terms.now.table.now (json_data value.now)) }
{
    match value {
        Json::Null => Ok(true),
        Json::List(items) => match items.as_slice() {
            [] => Ok(false),
            [only, rest @ ..] => match rest {
                [] => stands_for_null(alloc, terms, only),
                [_second, _more @ ..] => Ok(false),
            },
        },
        Json::Map(members) => map_for_null(alloc, terms, members),
        Json::Bool(_) => Ok(false),
        Json::Whole(_) => Ok(false),
        Json::Fraction => Ok(false),
        Json::Text(_) => Ok(false),
    }
}

// The values of other keys are looked at only where `@set` stands for null.
#[cycle(nulls)]
fn map_for_null(alloc: Global, terms: &Terms<'_>, members: &JsonMap) -> Result<bool, Memory>
    ensures { IfOk result (λ b.
        b
        ≡ (is_set_only (kept terms.now.table.now (members_data members.now))
        && set_for_null terms.now.table.now (members_data members.now))) }
{
    if !set_for_null(alloc, terms, members)? {
        return Ok(false);
    }
    let keys = kept_keys(alloc, terms, members)?;
    Ok(keys.is_alone())
}

// Whether a value under `@set` stands for null.
#[cycle(nulls)]
fn set_for_null(alloc: Global, terms: &Terms<'_>, members: &JsonMap) -> Result<bool, Memory>
    ensures { IfOk result (λ b. b ≡ set_for_null terms.now.table.now (members_data members.now)) }
{
    for member in members.as_slice() {
        if means(alloc, terms, &member.key, "@set")?
            && stands_for_null(alloc, terms, &member.value)?
        {
            return Ok(true);
        }
    }
    Ok(false)
}

// The keys that are kept.
#[cycle(nulls)]
fn kept_keys(alloc: Global, terms: &Terms<'_>, members: &JsonMap) -> Result<KeptKeys, Memory>
    ensures { IfOk result (λ keys.
        keys ≡ kept_keys nothing_kept (kept terms.now.table.now (members_data members.now))) }
{
    let mut keys = KeptKeys::nothing();
    for member in members.as_slice() {
        let meaning = meaning_of(alloc, terms, &member.key)?;
        if is_kept(alloc, terms, &meaning, &member.value)? {
            keys = keys.with(&meaning);
        }
    }
    Ok(keys)
}

// A key that is dropped isn't kept, nor is a property whose value stands for null.
#[cycle(nulls)]
fn is_kept(
    alloc: Global,
    terms: &Terms<'_>,
    meaning: &Meaning<'_>,
    value: &Json,
) -> Result<bool, Memory>
    ensures { IfOk result (λ b.
        b
        ≡ is_kept (meaning_data meaning.now)
        (stands_for_null terms.now.table.now (json_data value.now))) }
{
    match meaning {
        Meaning::Dropped => Ok(false),
        Meaning::Keyword(_) => Ok(true),
        Meaning::Property(_, _) => Ok(!stands_for_null(alloc, terms, value)?),
        Meaning::Reverse(_) => Ok(true),
    }
}

/// What a map is by its keys.
pub fn class_of(alloc: Global, terms: &Terms<'_>, members: &JsonMap) -> Result<MapClass, Memory>
    ensures { IfOk result
        (λ class. class_data class ≡ class_of terms.now.table.now (members_data members.now)) }
{
    let keys = kept_keys(alloc, terms, members)?;
    Ok(keys.class())
}

/// Whether each key is a keyword.
pub fn are_all_keywords(alloc: Global, terms: &Terms<'_>, members: &JsonMap) -> Result<bool, Memory>
    ensures { IfOk result (λ b. b ≡ are_all_keywords terms.now.table.now (members_data members.now)) }
{
    for member in members.as_slice() {
        let meaning = meaning_of(alloc, terms, &member.key)?;
        if !is_keyword_meaning(&meaning) {
            return Ok(false);
        }
    }
    Ok(true)
}

// Whether a key means a keyword.
fn is_keyword_meaning(meaning: &Meaning<'_>) -> bool
    ensures { result ≡ is_keyword_meaning (meaning_data meaning.now) }
{
    match meaning {
        Meaning::Keyword(_) => true,
        Meaning::Dropped => false,
        Meaning::Property(_, _) => false,
        Meaning::Reverse(_) => false,
    }
}

/// Whether values stand under a term with the container `@language`.
pub fn under_language(term: Option<&TermDef>) -> bool
    ensures { result ≡ under_language (option_copied term.entry) }
{
    match term {
        Some(term) => match term.container {
            Container::Language => true,
            Container::LanguageSet => true,
            Container::NoContainer => false,
            Container::Set => false,
            Container::List => false,
        },
        None => false,
    }
}
