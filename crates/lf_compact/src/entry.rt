//! The entry of a property under one key (JSON-LD 1.1 Processing Algorithms and API, section 5.1.2,
//! from step 12.8 on).
ghost use Rattle.std.specs.Prelude.{◌≡◌, ◌∷◌, [], ℕ, List, IfOk, OnOk, map, not, is_some};
ghost use Rattle.lf_model.specs.JsonBridge.{json_data};
ghost use Rattle.lf_model.specs.JsonData.{JsonValue};
ghost use Rattle.def_documents.specs.Entries as def;
ghost use Rattle.def_documents.specs.Grouping.{alone_or_array, grouped};
ghost use Rattle.lf_compact.specs.Groups as groups;
ghost use Rattle.lf_compact.specs.Members.{Hold};
ghost use Rattle.lf_compact.specs.Pieces.{filed_data, piece_data, Follows, IsMap};

use crate::groups::{Groups, put_under};
use crate::members::{Members, add, array_of, object_of};
use crate::pieces::{Filed, Piece, has_set, is_set};
use lf_base::{Memory, TryCopy};
use lf_model::{Container, Json};
use std::alloc::Global;
use std::collections::BTreeMap;

/// One value stands alone, unless it must be an array; any other number of values makes an array.
pub fn alone_or_array(in_array: bool, values: Vec<Json>) -> Json
    ensures { json_data result ≡ alone_or_array in_array (map json_data values.items) }
{
    if in_array || values.len() != 1 {
        return array_of(values);
    }
    let mut values = values;
    match values.pop() {
        Some(value) => value,
        None => array_of(values),
    }
}

// The container of the values' term, where one was chosen.
fn group_container(group: &[Filed<'_>]) -> Container
    ensures { result ≡ def.group_container (map filed_data group.now) }
{
    for filed in group {
        if let Some(term) = filed.term {
            return term.container;
        }
    }
    Container::NoContainer
}

// Puts the text or scalar of a language map under its language.
fn put_language(alloc: Global, parts: &mut Groups<Json>, filed: &Filed<'_>) -> Result<(), Memory>
    ensures { OnOk result (groups.PutsAll json_data parts.old parts.new
        (def.language_parts (filed_data filed.now ∷ []))) }
{
    match &filed.piece {
        Piece::InLanguage(language, scalar) => {
            put_under(alloc, parts, language.copy(alloc)?, scalar.copy(alloc)?)
        }
        Piece::Whole(_) => Ok(()),
        Piece::Nothing => Ok(()),
    }
}

// The texts and scalars of a language map by their languages.
fn languages_of(alloc: Global, group: &[Filed<'_>]) -> Result<Groups<Json>, Memory>
    ensures { IfOk result
        (λ parts. groups.Hold json_data parts (def.language_parts (map filed_data group.now))) }
{
    let mut parts = BTreeMap::new(alloc);
    for filed in group {
        put_language(alloc, &mut parts, filed)?;
    }
    Ok(parts)
}

// The members of a language map: one value of a language stands alone, unless it must be an array.
fn language_members(alloc: Global, in_arrays: bool, parts: Groups<Json>) -> Result<Members, Memory>
    ensures { IfOk result (λ members. (entries : List (List ℕ × JsonValue)) → groups.Hold json_data parts entries
        → Hold members (grouped (alone_or_array in_arrays) entries)) }
{
    let mut parts = parts;
    let _ = parts.len();
    let mut members = BTreeMap::new(alloc);
    while let Some((language, scalars)) = parts.pop_first() {
        add(
            alloc,
            &mut members,
            language,
            alone_or_array(in_arrays, scalars),
        )?;
    }
    Ok(members)
}

// The language map of the values under one key.
fn language_map(alloc: Global, group: &[Filed<'_>]) -> Result<Json, Memory>
    ensures { IfOk result (λ json. json_data json ≡ def.language_map (map filed_data group.now)) }
{
    let in_arrays = has_set(group_container(group));
    let parts = languages_of(alloc, group)?;
    let members = language_members(alloc, in_arrays, parts)?;
    object_of(alloc, members)
}

// Puts what a piece makes behind elements: the language map, where it still waits, at its first
// text.
fn push_piece(
    elements: &mut Vec<Json>,
    waiting: &mut Option<Json>,
    piece: Piece,
) -> Result<(), Memory>
    ensures { OnOk result ((languages : JsonValue) → IsMap languages waiting.old
        → IsMap languages waiting.new × Follows languages elements.old.items waiting.old elements.new.items waiting.new (piece_data piece)) }
{
    match piece {
        Piece::Whole(json) => {
            elements.push(json)?;
            Ok(())
        }
        Piece::InLanguage(_, _) => match waiting.take() {
            Some(languages) => {
                elements.push(languages)?;
                Ok(())
            }
            None => Ok(()),
        },
        Piece::Nothing => Ok(()),
    }
}

// The elements that the values make, in order; the language map stands at the place of its first
// text.
fn group_elements(
    alloc: Global,
    languages: Option<Json>,
    group: Vec<Filed<'_>>,
) -> Result<Vec<Json>, Memory>
    ensures { IfOk result (λ elements. (whole : JsonValue) → IsMap whole languages
        → map json_data elements.items ≡ def.group_elements whole (not (is_some languages)) (map filed_data group.entry.items)) }
{
    let mut waiting = languages;
    let mut elements = Vec::new(alloc);
    for filed in group {
        push_piece(&mut elements, &mut waiting, filed.piece)?;
    }
    Ok(elements)
}

/// What the values under one key come to.
pub fn group_entry(alloc: Global, group: Vec<Filed<'_>>) -> Result<Json, Memory>
    ensures { IfOk result (λ json. json_data json ≡ def.group_entry (map filed_data group.entry.items)) }
{
    let in_array = is_set(group_container(group.as_slice()));
    let languages = language_map(alloc, group.as_slice())?;
    let elements = group_elements(alloc, Some(languages), group)?;
    Ok(alone_or_array(in_array, elements))
}
