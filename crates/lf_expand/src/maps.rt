//! Sub-frames (JSON-LD 1.1 Framing, section 4.1: frame objects, value patterns and list patterns).
//! Each function calls the others on what lies inside a value, so they go as deep as the value is
//! nested.
ghost use Rattle.std.specs.Prelude.{length};
ghost use Rattle.std.specs.Option.{option_copied};
ghost use Rattle.lf_model.specs.JsonBridge.{json_data, members_data};
ghost use Rattle.lf_model.specs.JsonData.{object};
ghost use Rattle.def_contexts.specs.FrameKeys.{meaning_of, keyword, list_key};
ghost use Rattle.def_contexts.specs.MapReading.{read_key, read_keyword, read_list_key, read_property, read_reverse, read_reverse_key};
ghost use Rattle.def_contexts.specs.Readings.{unread};
ghost use Rattle.def_contexts.specs.SubFrames.{sub_frame, map_read, read_members, set_value, reverse_map, reverse_members};
ghost use Rattle.lf_expand.specs.KeptKeys.{class_data};
ghost use Rattle.lf_expand.specs.PlaceData.{place_data};
ghost use Rattle.lf_expand.specs.KeyData.{key_data};
ghost use Rattle.lf_expand.specs.RowData.{built};
ghost use Rattle.lf_expand.specs.ReadingData.{Lists, Told, reading_of, Finds, Reads};

use crate::class::{MapClass, are_all_keywords, class_of, under_language};
use crate::error::FrameErr;
use crate::found::Found;
use crate::keys::{FrameKey, Holding, frame_key, held_by, read_flat_key};
use crate::meaning::{Meaning, meaning_of, means};
use crate::place::{Place, PlaceKind};
use crate::reading::Reading;
use crate::rows::{Row, place_row};
use crate::scalars::{empty_at, is_array, null_at, scalar_at};
use crate::terms::Terms;
use lf_base::{Text, TryCopy};
use lf_model::{Json, JsonMap, LdError, Scalar, TermDef};
use std::alloc::Global;

/// A value as a sub-frame at a place, or nothing where it stands for null. An array of one element
/// is that element.
#[cycle(frames)]
pub fn sub_frame(
    alloc: Global,
    terms: &Terms<'_>,
    value: &Json,
    place: &Place<'_>,
    rows: &mut Vec<Row>,
) -> Result<Found, FrameErr>
    ensures { Finds rows.old.items rows.new.items (place_data place.now) result
        (sub_frame terms.now.table.now (json_data value.now) (place_data place.now)) }
{
    match value {
        Json::Null => null_at(place),
        Json::Bool(truth) => scalar_at(alloc, terms, Scalar::Bool(*truth), place, rows),
        Json::Whole(number) => scalar_at(alloc, terms, Scalar::Whole(*number), place, rows),
        Json::Text(text) => {
            scalar_at(alloc, terms, Scalar::Text(text.copy(alloc)?), place, rows)
        }
        Json::Fraction => Err(FrameErr::Ld(place.error())),
        Json::List(items) => match items.as_slice() {
            [] => empty_at(alloc, place, rows),
            [only, rest @ ..] => match rest {
                [] => {
                    if place.takes_maps_alone() && is_array(only) {
                        Err(FrameErr::Ld(place.error()))
                    } else {
                        sub_frame(alloc, terms, only, place, rows)
                    }
                }
                [_second, _more @ ..] => Err(FrameErr::Ld(place.error())),
            },
        },
        Json::Map(members) => map_frame(alloc, terms, members, place, rows),
    }
}

// A map at a place. The value of `@set` stands for its map, and a reverse property takes no
// pattern.
#[cycle(frames)]
fn map_frame(
    alloc: Global,
    terms: &Terms<'_>,
    members: &JsonMap,
    place: &Place<'_>,
    rows: &mut Vec<Row>,
) -> Result<Found, FrameErr>
    ensures { Finds rows.old.items rows.new.items (place_data place.now) result
        (sub_frame terms.now.table.now (object (members_data members.now))
        (place_data place.now)) }
{
    if under_language(place.term()) && !are_all_keywords(alloc, terms, members)? {
        return Err(FrameErr::Ld(LdError::InvalidFrame));
    }
    let class = class_of(alloc, terms, members)?;
    match class {
        MapClass::Set => set_frame(alloc, terms, members, place, rows),
        MapClass::Node => keys_frame(alloc, terms, members, class, place, rows),
        MapClass::Value => {
            if place.is_reverse() {
                Err(FrameErr::Ld(LdError::InvalidReverseValue))
            } else {
                keys_frame(alloc, terms, members, class, place, rows)
            }
        }
        MapClass::List => {
            if place.is_reverse() {
                Err(FrameErr::Ld(LdError::InvalidReverseValue))
            } else {
                keys_frame(alloc, terms, members, class, place, rows)
            }
        }
    }
}

// The value of the first key that is `@set`.
#[cycle(frames)]
fn set_frame(
    alloc: Global,
    terms: &Terms<'_>,
    members: &JsonMap,
    place: &Place<'_>,
    rows: &mut Vec<Row>,
) -> Result<Found, FrameErr>
    ensures { Finds rows.old.items rows.new.items (place_data place.now) result
        (set_value terms.now.table.now (members_data members.now) (place_data place.now)) }
{
    for member in members.as_slice() {
        if means(alloc, terms, &member.key, "@set")? {
            return sub_frame(alloc, terms, &member.value, place, rows);
        }
    }
    Err(FrameErr::Ld(place.error()))
}

// The sub-frame that the keys of a map make.
#[cycle(frames)]
fn keys_frame(
    alloc: Global,
    terms: &Terms<'_>,
    members: &JsonMap,
    class: MapClass,
    place: &Place<'_>,
    rows: &mut Vec<Row>,
) -> Result<Found, FrameErr>
    ensures { Finds rows.old.items rows.new.items (place_data place.now) result
        (map_read (class_data class) (place_data place.now) (read_members terms.now.table.now
        (members_data members.now) (class_data class) (place_data place.now) unread)) }
{
    let mut read = Reading::unread(alloc);
    match read_members(alloc, terms, members, class, place, rows, &mut read) {
        Ok(()) => {
            let number = place_row(alloc, place, read.into_row(class), rows)?;
            Ok(Found::Numbered(number))
        }
        Err(error) => {
            drop(read);
            Err(error)
        }
    }
}

/// The keys of a map, in order.
#[cycle(frames)]
pub fn read_members(
    alloc: Global,
    terms: &Terms<'_>,
    members: &JsonMap,
    class: MapClass,
    place: &Place<'_>,
    rows: &mut Vec<Row>,
    read: &mut Reading,
) -> Result<(), FrameErr>
    ensures { (lists : Lists) → Told (length rows.old.items) read.old lists →
        Reads rows.old.items rows.new.items read.new result (read_members terms.now.table.now
        (members_data members.now) (class_data class) (place_data place.now)
        (reading_of (built rows.old.items) read.old lists)) }
{
    for member in members.as_slice() {
        match read_key(
            alloc,
            terms,
            &member.key,
            &member.value,
            class,
            place,
            rows,
            read,
        ) {
            Ok(()) => {}
            Err(error) => return Err(error),
        }
    }
    Ok(())
}

/// One key of a map and its value.
#[cycle(frames)]
pub fn read_key(
    alloc: Global,
    terms: &Terms<'_>,
    key: &Text,
    value: &Json,
    class: MapClass,
    place: &Place<'_>,
    rows: &mut Vec<Row>,
    read: &mut Reading,
) -> Result<(), FrameErr>
    ensures { (lists : Lists) → Told (length rows.old.items) read.old lists →
        Reads rows.old.items rows.new.items read.new result (read_key (class_data class)
        (meaning_of terms.now.table.now key.now) terms.now.table.now (place_data place.now)
        (json_data value.now) (sub_frame terms.now.table.now (json_data value.now))
        (reverse_map terms.now.table.now (json_data value.now))
        (reading_of (built rows.old.items) read.old lists)) }
{
    match meaning_of(alloc, terms, key)? {
        Meaning::Dropped => Ok(()),
        Meaning::Keyword(name) => {
            read_keyword(alloc, terms, name, value, class, place, rows, read)
        }
        Meaning::Property(iri, term) => match class {
            MapClass::Node => read_property(alloc, terms, iri, term, value, rows, read),
            MapClass::Value => Err(FrameErr::Ld(LdError::InvalidValueObject)),
            MapClass::List => Err(FrameErr::Ld(LdError::InvalidFrame)),
            MapClass::Set => Err(FrameErr::Ld(LdError::InvalidFrame)),
        },
        Meaning::Reverse(iri) => match class {
            MapClass::Node => read_reverse(alloc, terms, iri, value, rows, read),
            MapClass::Value => Err(FrameErr::Ld(LdError::InvalidValueObject)),
            MapClass::List => Err(FrameErr::Ld(LdError::InvalidFrame)),
            MapClass::Set => Err(FrameErr::Ld(LdError::InvalidFrame)),
        },
    }
}

// A property of a node frame.
#[cycle(frames)]
fn read_property(
    alloc: Global,
    terms: &Terms<'_>,
    iri: Text,
    term: Option<&TermDef>,
    value: &Json,
    rows: &mut Vec<Row>,
    read: &mut Reading,
) -> Result<(), FrameErr>
    ensures { (lists : Lists) → Told (length rows.old.items) read.old lists →
        Reads rows.old.items rows.new.items read.new result (read_property iri
        (option_copied term.entry) (sub_frame terms.now.table.now (json_data value.now))
        (reading_of (built rows.old.items) read.old lists)) }
{
    if read.has_property(iri.as_str()) {
        return Err(FrameErr::Ld(LdError::InvalidFrame));
    }
    let place = Place {
        kind: PlaceKind::Property,
        term,
    };
    match sub_frame(alloc, terms, value, &place, rows) {
        Ok(found) => Ok(read.give_property(iri, found)?),
        Err(error) => Err(error),
    }
}

// A reverse property, of `@reverse` or by its own term.
#[cycle(frames)]
fn read_reverse(
    alloc: Global,
    terms: &Terms<'_>,
    iri: Text,
    value: &Json,
    rows: &mut Vec<Row>,
    read: &mut Reading,
) -> Result<(), FrameErr>
    ensures { (lists : Lists) → Told (length rows.old.items) read.old lists →
        Reads rows.old.items rows.new.items read.new result (read_reverse iri
        (sub_frame terms.now.table.now (json_data value.now))
        (reading_of (built rows.old.items) read.old lists)) }
{
    if read.has_reverse(iri.as_str()) {
        return Err(FrameErr::Ld(LdError::InvalidFrame));
    }
    let place = Place {
        kind: PlaceKind::Reverse,
        term: None,
    };
    match sub_frame(alloc, terms, value, &place, rows) {
        Ok(Found::Numbered(number)) => Ok(read.give_reverse(iri, number)?),
        Ok(Found::Dropped) => Err(FrameErr::Ld(LdError::InvalidReverseValue)),
        Ok(Found::MatchNone) => unreachable!(),
        Err(error) => Err(error),
    }
}

// A keyword, which may stand once.
#[cycle(frames)]
fn read_keyword(
    alloc: Global,
    terms: &Terms<'_>,
    name: Text,
    value: &Json,
    class: MapClass,
    place: &Place<'_>,
    rows: &mut Vec<Row>,
    read: &mut Reading,
) -> Result<(), FrameErr>
    ensures { (lists : Lists) → Told (length rows.old.items) read.old lists →
        Reads rows.old.items rows.new.items read.new result (read_key (class_data class)
        (keyword name) terms.now.table.now (place_data place.now) (json_data value.now)
        (sub_frame terms.now.table.now (json_data value.now))
        (reverse_map terms.now.table.now (json_data value.now))
        (reading_of (built rows.old.items) read.old lists)) }
{
    if read.has_keyword(name.as_str()) {
        return Err(FrameErr::Ld(LdError::CollidingKeywords));
    }
    let key = frame_key(name.as_str());
    read.add_keyword(name)?;
    read_frame_key(alloc, terms, key, value, class, place, rows, read)
}

// What a keyword states.
#[cycle(frames)]
fn read_frame_key(
    alloc: Global,
    terms: &Terms<'_>,
    key: FrameKey,
    value: &Json,
    class: MapClass,
    place: &Place<'_>,
    rows: &mut Vec<Row>,
    read: &mut Reading,
) -> Result<(), FrameErr>
    ensures { (lists : Lists) → Told (length rows.old.items) read.old lists →
        Reads rows.old.items rows.new.items read.new result (read_keyword (class_data class)
        (key_data key) terms.now.table.now (place_data place.now) (json_data value.now)
        (sub_frame terms.now.table.now (json_data value.now))
        (reverse_map terms.now.table.now (json_data value.now))
        (reading_of (built rows.old.items) read.old lists)) }
{
    match held_by(class, key) {
        Holding::GraphFrame => {
            let graph = Place {
                kind: PlaceKind::Graph,
                term: None,
            };
            match sub_frame(alloc, terms, value, &graph, rows) {
                Ok(found) => {
                    read.give_graph(found);
                    Ok(())
                }
                Err(error) => Err(error),
            }
        }
        Holding::ReverseMap => {
            read.flags_alone = false;
            read_reverses(alloc, terms, value, rows, read)
        }
        Holding::ItemFrame => read_item(alloc, terms, place.term(), value, rows, read),
        Holding::NoFrame => read_flat_key(alloc, terms, key, value, class, place, read),
    }
}

// The item of a list pattern.
#[cycle(frames)]
fn read_item(
    alloc: Global,
    terms: &Terms<'_>,
    term: Option<&TermDef>,
    value: &Json,
    rows: &mut Vec<Row>,
    read: &mut Reading,
) -> Result<(), FrameErr>
    ensures { (lists : Lists) → Told (length rows.old.items) read.old lists →
        Reads rows.old.items rows.new.items read.new result (read_list_key list_key
        (option_copied term.entry) (sub_frame terms.now.table.now (json_data value.now))
        (reading_of (built rows.old.items) read.old lists)) }
{
    let place = Place {
        kind: PlaceKind::Item,
        term,
    };
    match sub_frame(alloc, terms, value, &place, rows) {
        Ok(found) => {
            read.give_item(found);
            Ok(())
        }
        Err(error) => Err(error),
    }
}

// The value of `@reverse`: a map of reverse properties.
#[cycle(frames)]
fn read_reverses(
    alloc: Global,
    terms: &Terms<'_>,
    value: &Json,
    rows: &mut Vec<Row>,
    read: &mut Reading,
) -> Result<(), FrameErr>
    ensures { (lists : Lists) → Told (length rows.old.items) read.old lists →
        Reads rows.old.items rows.new.items read.new result (reverse_map terms.now.table.now
        (json_data value.now) (reading_of (built rows.old.items) read.old lists)) }
{
    match value {
        Json::Map(members) => read_reverse_members(alloc, terms, members, rows, read),
        Json::Null => Err(FrameErr::Ld(LdError::InvalidReverseValue)),
        Json::Bool(_) => Err(FrameErr::Ld(LdError::InvalidReverseValue)),
        Json::Whole(_) => Err(FrameErr::Ld(LdError::InvalidReverseValue)),
        Json::Fraction => Err(FrameErr::Ld(LdError::InvalidReverseValue)),
        Json::Text(_) => Err(FrameErr::Ld(LdError::InvalidReverseValue)),
        Json::List(_) => Err(FrameErr::Ld(LdError::InvalidReverseValue)),
    }
}

// Reads the members of `@reverse`, one after another.
#[cycle(frames)]
fn read_reverse_members(
    alloc: Global,
    terms: &Terms<'_>,
    members: &JsonMap,
    rows: &mut Vec<Row>,
    read: &mut Reading,
) -> Result<(), FrameErr>
    ensures { (lists : Lists) → Told (length rows.old.items) read.old lists →
        Reads rows.old.items rows.new.items read.new result (reverse_members terms.now.table.now
        (members_data members.now) (reading_of (built rows.old.items) read.old lists)) }
{
    for member in members.as_slice() {
        match read_reverse_key(alloc, terms, &member.key, &member.value, rows, read) {
            Ok(()) => {}
            Err(error) => return Err(error),
        }
    }
    Ok(())
}

// One key of the map of `@reverse`.
#[cycle(frames)]
fn read_reverse_key(
    alloc: Global,
    terms: &Terms<'_>,
    key: &Text,
    value: &Json,
    rows: &mut Vec<Row>,
    read: &mut Reading,
) -> Result<(), FrameErr>
    ensures { (lists : Lists) → Told (length rows.old.items) read.old lists →
        Reads rows.old.items rows.new.items read.new result (read_reverse_key
        (meaning_of terms.now.table.now key.now)
        (sub_frame terms.now.table.now (json_data value.now))
        (reading_of (built rows.old.items) read.old lists)) }
{
    match meaning_of(alloc, terms, key)? {
        Meaning::Dropped => Ok(()),
        Meaning::Keyword(_) => Err(FrameErr::Ld(LdError::InvalidReverseValue)),
        Meaning::Reverse(_) => Err(FrameErr::Ld(LdError::InvalidReverseValue)),
        Meaning::Property(iri, _term) => read_reverse(alloc, terms, iri, value, rows, read),
    }
}
