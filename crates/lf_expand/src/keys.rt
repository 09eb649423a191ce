//! The keywords of a frame's map that hold no sub-frame (JSON-LD 1.1 Framing, section 4.1).
ghost use Rattle.std.specs.Prelude.{◌≡◌, ℕ};
ghost use Rattle.lf_model.specs.JsonBridge.{json_data};
ghost use Rattle.def_nested.specs.Unfolding.{Numbered};
ghost use Rattle.def_contexts.specs.FrameKeys.{frame_key};
ghost use Rattle.def_contexts.specs.MapReading.{read_keyword, read_class_key, read_value_key, read_node_key};
ghost use Rattle.def_contexts.specs.Places as places;
ghost use Rattle.def_contexts.specs.Readings.{Reader, ReverseReader};
ghost use Rattle.lf_expand.specs.Gives.{Gives};
ghost use Rattle.lf_expand.specs.KeptKeys.{class_data};
ghost use Rattle.lf_expand.specs.PlaceData.{place_data};
ghost use Rattle.lf_expand.specs.KeyData.{key_data, holding, default_read};
ghost use Rattle.lf_expand.specs.ReadingData.{Lists, Told, reading_of};

use crate::class::MapClass;
use crate::defaults::defaults_of;
use crate::error::FrameErr;
use crate::flags::{embed_given, truth_given};
use crate::node_tests::{id_test_of, type_test_of};
use crate::patterns::{Part, part_of};
use crate::place::Place;
use crate::reading::Reading;
use crate::terms::Terms;
use lf_model::{Json, LdError};
use std::alloc::Global;

/// The keywords that a frame may hold.
#[derive(Clone, Copy, Debug)]
pub enum FrameKey {
    Embed,
    Explicit,
    RequireAll,
    OmitDefault,
    Default,
    Id,
    Type,
    Graph,
    Reverse,
    Value,
    Language,
    List,
    Other,
}

/// What the value of a keyword holds: sub-frames, or none.
#[derive(Clone, Copy, Debug)]
pub enum Holding {
    GraphFrame,
    ReverseMap,
    ItemFrame,
    NoFrame,
}

/// Which of the keywords a text is.
pub fn frame_key(name: &str) -> FrameKey
    ensures { key_data result ≡ frame_key name.now }
{
    match name {
        "@embed" => FrameKey::Embed,
        "@explicit" => FrameKey::Explicit,
        "@requireAll" => FrameKey::RequireAll,
        "@omitDefault" => FrameKey::OmitDefault,
        "@default" => FrameKey::Default,
        "@id" => FrameKey::Id,
        "@type" => FrameKey::Type,
        "@graph" => FrameKey::Graph,
        "@reverse" => FrameKey::Reverse,
        "@value" => FrameKey::Value,
        "@language" => FrameKey::Language,
        "@list" => FrameKey::List,
        _ => FrameKey::Other,
    }
}

/// What the value of a keyword holds in a map of this class.
pub fn held_by(class: MapClass, key: FrameKey) -> Holding
    ensures { result ≡ holding class key }
{
    match class {
        MapClass::Node => match key {
            FrameKey::Graph => Holding::GraphFrame,
            FrameKey::Reverse => Holding::ReverseMap,
            FrameKey::Embed => Holding::NoFrame,
            FrameKey::Explicit => Holding::NoFrame,
            FrameKey::RequireAll => Holding::NoFrame,
            FrameKey::OmitDefault => Holding::NoFrame,
            FrameKey::Default => Holding::NoFrame,
            FrameKey::Id => Holding::NoFrame,
            FrameKey::Type => Holding::NoFrame,
            FrameKey::Value => Holding::NoFrame,
            FrameKey::Language => Holding::NoFrame,
            FrameKey::List => Holding::NoFrame,
            FrameKey::Other => Holding::NoFrame,
        },
        MapClass::List => match key {
            FrameKey::List => Holding::ItemFrame,
            FrameKey::Embed => Holding::NoFrame,
            FrameKey::Explicit => Holding::NoFrame,
            FrameKey::RequireAll => Holding::NoFrame,
            FrameKey::OmitDefault => Holding::NoFrame,
            FrameKey::Default => Holding::NoFrame,
            FrameKey::Id => Holding::NoFrame,
            FrameKey::Type => Holding::NoFrame,
            FrameKey::Graph => Holding::NoFrame,
            FrameKey::Reverse => Holding::NoFrame,
            FrameKey::Value => Holding::NoFrame,
            FrameKey::Language => Holding::NoFrame,
            FrameKey::Other => Holding::NoFrame,
        },
        MapClass::Value => Holding::NoFrame,
        MapClass::Set => Holding::NoFrame,
    }
}

/// What a keyword states that holds no sub-frame.
pub fn read_flat_key(
    alloc: Global,
    terms: &Terms<'_>,
    key: FrameKey,
    value: &Json,
    class: MapClass,
    place: &Place<'_>,
    read: &mut Reading,
) -> Result<(), FrameErr>
    requires { holding class key ≡ Holding.NoFrame }
    ensures stated { (sub : Numbered) (reader : Reader) (reverses : ReverseReader) (lists : Lists) →
        Gives (λ _. reading_of sub read.new lists) result (read_keyword (class_data class)
        (key_data key) terms.now.table.now (place_data place.now) (json_data value.now)
        reader reverses (reading_of sub read.old lists)) }
    ensures same { (bound : ℕ) (lists : Lists) → Told bound read.old lists → Told bound read.new lists }
{
    match key {
        FrameKey::Embed => read.flags.embed = embed_given(value)?,
        FrameKey::Explicit => read.flags.explicit = truth_given(value)?,
        FrameKey::RequireAll => read.flags.require_all = truth_given(value)?,
        FrameKey::OmitDefault => read.flags.omit_default = Some(truth_given(value)?),
        FrameKey::Default => read_default(alloc, terms, value, place, read)?,
        FrameKey::Id => read_part(alloc, terms, key, value, class, read)?,
        FrameKey::Type => read_part(alloc, terms, key, value, class, read)?,
        FrameKey::Graph => read_part(alloc, terms, key, value, class, read)?,
        FrameKey::Reverse => read_part(alloc, terms, key, value, class, read)?,
        FrameKey::Value => read_part(alloc, terms, key, value, class, read)?,
        FrameKey::Language => read_part(alloc, terms, key, value, class, read)?,
        FrameKey::List => read_part(alloc, terms, key, value, class, read)?,
        FrameKey::Other => read_part(alloc, terms, key, value, class, read)?,
    }
    Ok(())
}

// `@default`, where it may stand.
fn read_default(
    alloc: Global,
    terms: &Terms<'_>,
    value: &Json,
    place: &Place<'_>,
    read: &mut Reading,
) -> Result<(), FrameErr>
    ensures stated { (sub : Numbered) (lists : Lists) →
        Gives (λ _. reading_of sub read.new lists) result (default_read terms.now.table.now
        (place_data place.now) (json_data value.now) (reading_of sub read.old lists)) }
    ensures same { (bound : ℕ) (lists : Lists) → Told bound read.old lists → Told bound read.new lists }
{
    if !place.takes_default() {
        return Err(FrameErr::Ld(LdError::InvalidFrame));
    }
    let values = defaults_of(alloc, terms, place.term(), value)?;
    read.flags.fallback = Some(values);
    Ok(())
}

// A keyword by the class of its map.
fn read_part(
    alloc: Global,
    terms: &Terms<'_>,
    key: FrameKey,
    value: &Json,
    class: MapClass,
    read: &mut Reading,
) -> Result<(), FrameErr>
    requires { holding class key ≡ Holding.NoFrame }
    ensures stated { (place : places.Place) (sub : Numbered) (reader : Reader) (reverses : ReverseReader)
        (lists : Lists) →
        Gives (λ _. reading_of sub read.new lists) result (read_class_key (class_data class)
        (key_data key) terms.now.table.now place (json_data value.now) reader reverses
        (reading_of sub read.old lists)) }
    ensures same { (bound : ℕ) (lists : Lists) → Told bound read.old lists → Told bound read.new lists }
{
    match class {
        MapClass::Value => read_value_part(alloc, terms, key, value, read),
        MapClass::List => Err(FrameErr::Ld(LdError::InvalidFrame)),
        MapClass::Node => read_node_part(alloc, terms, key, value, read),
        MapClass::Set => Err(FrameErr::Ld(LdError::InvalidFrame)),
    }
}

// A part of a value pattern.
fn read_value_part(
    alloc: Global,
    terms: &Terms<'_>,
    key: FrameKey,
    value: &Json,
    read: &mut Reading,
) -> Result<(), FrameErr>
    ensures stated { (sub : Numbered) (lists : Lists) →
        Gives (λ _. reading_of sub read.new lists) result (read_value_key (key_data key)
        terms.now.table.now (json_data value.now) (reading_of sub read.old lists)) }
    ensures same { (bound : ℕ) (lists : Lists) → Told bound read.old lists → Told bound read.new lists }
{
    match key {
        FrameKey::Value => {
            read.pattern.value = part_of(alloc, terms, Part::Value, value)?;
            Ok(())
        }
        FrameKey::Type => {
            read.pattern.datatype = part_of(alloc, terms, Part::Datatype, value)?;
            Ok(())
        }
        FrameKey::Language => {
            read.pattern.language = part_of(alloc, terms, Part::Language, value)?;
            Ok(())
        }
        FrameKey::Embed => Err(FrameErr::Ld(LdError::InvalidValueObject)),
        FrameKey::Explicit => Err(FrameErr::Ld(LdError::InvalidValueObject)),
        FrameKey::RequireAll => Err(FrameErr::Ld(LdError::InvalidValueObject)),
        FrameKey::OmitDefault => Err(FrameErr::Ld(LdError::InvalidValueObject)),
        FrameKey::Default => Err(FrameErr::Ld(LdError::InvalidValueObject)),
        FrameKey::Id => Err(FrameErr::Ld(LdError::InvalidValueObject)),
        FrameKey::Graph => Err(FrameErr::Ld(LdError::InvalidValueObject)),
        FrameKey::Reverse => Err(FrameErr::Ld(LdError::InvalidValueObject)),
        FrameKey::List => Err(FrameErr::Ld(LdError::InvalidValueObject)),
        FrameKey::Other => Err(FrameErr::Ld(LdError::InvalidValueObject)),
    }
}

// `@id` and `@type` of a node frame.
fn read_node_part(
    alloc: Global,
    terms: &Terms<'_>,
    key: FrameKey,
    value: &Json,
    read: &mut Reading,
) -> Result<(), FrameErr>
    requires { holding MapClass.Node key ≡ Holding.NoFrame }
    ensures stated { (sub : Numbered) (reader : Reader) (reverses : ReverseReader) (lists : Lists) →
        Gives (λ _. reading_of sub read.new lists) result (read_node_key (key_data key)
        terms.now.table.now (json_data value.now) reader reverses
        (reading_of sub read.old lists)) }
    ensures same { (bound : ℕ) (lists : Lists) → Told bound read.old lists → Told bound read.new lists }
{
    match key {
        FrameKey::Id => {
            read.flags.ids = id_test_of(alloc, terms, value)?;
            read.flags_alone = false;
            Ok(())
        }
        FrameKey::Type => {
            read.flags.types = type_test_of(alloc, terms, value)?;
            read.flags_alone = false;
            Ok(())
        }
        FrameKey::Graph => unreachable!(),
        FrameKey::Reverse => unreachable!(),
        FrameKey::Embed => Err(FrameErr::Ld(LdError::InvalidFrame)),
        FrameKey::Explicit => Err(FrameErr::Ld(LdError::InvalidFrame)),
        FrameKey::RequireAll => Err(FrameErr::Ld(LdError::InvalidFrame)),
        FrameKey::OmitDefault => Err(FrameErr::Ld(LdError::InvalidFrame)),
        FrameKey::Default => Err(FrameErr::Ld(LdError::InvalidFrame)),
        FrameKey::Value => Err(FrameErr::Ld(LdError::InvalidFrame)),
        FrameKey::Language => Err(FrameErr::Ld(LdError::InvalidFrame)),
        FrameKey::List => Err(FrameErr::Ld(LdError::InvalidFrame)),
        FrameKey::Other => Err(FrameErr::Ld(LdError::InvalidFrame)),
    }
}
