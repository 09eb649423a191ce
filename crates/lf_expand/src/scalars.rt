//! Sub-frames of values that are no maps (JSON-LD 1.1 Framing, section 4.1).
ghost use Rattle.std.specs.Prelude.{List, IfOk, ◌≡◌};
ghost use Rattle.lf_model.specs.JsonBridge.{json_data};
ghost use Rattle.def_contexts.specs.Places.{null_at, empty_at, scalar_at, scalar_under, is_array, term_at};
ghost use Rattle.lf_expand.specs.GivenData.{given_data};
ghost use Rattle.lf_expand.specs.PlaceData.{place_data};
ghost use Rattle.lf_expand.specs.ReadingData.{Finds, given_row};
ghost use Rattle.lf_expand.specs.RowData.{IsPlaced};
ghost use Rattle.def_nested.specs.Nested.{wildcard, plain};

use crate::error::FrameErr;
use crate::found::Found;
use crate::given::{Given, value_given};
use crate::patterns::pattern_of;
use crate::place::{Place, PlaceKind};
use crate::rows::{Row, place_row, push_row};
use crate::terms::Terms;
use lf_base::{ListOf, Memory};
use lf_model::{FrameKind, IdTest, Json, Scalar};
use std::alloc::Global;

/// Null drops a property, and gives no item.
pub fn null_at(place: &Place<'_>) -> Result<Found, FrameErr>
    ensures { (rows : List Row) →
        Finds rows rows (place_data place.now) result (null_at (place_data place.now)) }
{
    match place.kind {
        PlaceKind::Property => Ok(Found::Dropped),
        PlaceKind::Item => Ok(Found::Dropped),
        PlaceKind::Graph => Err(FrameErr::Ld(place.error())),
        PlaceKind::Reverse => Err(FrameErr::Ld(place.error())),
        PlaceKind::Top => Err(FrameErr::Ld(place.error())),
    }
}

/// The empty array is match-none for a property, and the empty map elsewhere.
pub fn empty_at(alloc: Global, place: &Place<'_>, rows: &mut Vec<Row>) -> Result<Found, FrameErr>
    ensures { Finds rows.old.items rows.new.items (place_data place.now) result
        (Ok (Some (empty_at (place_data place.now)))) }
{
    match place.kind {
        PlaceKind::Property => Ok(Found::MatchNone),
        PlaceKind::Item => Ok(Found::MatchNone),
        PlaceKind::Graph => Ok(Found::Numbered(push_wild(alloc, rows)?)),
        PlaceKind::Reverse => Ok(Found::Numbered(push_wild(alloc, rows)?)),
        PlaceKind::Top => Ok(Found::Numbered(push_wild(alloc, rows)?)),
    }
}

// The empty map.
fn push_wild(alloc: Global, rows: &mut Vec<Row>) -> Result<u32, Memory>
    ensures { IfOk result (λ number. IsPlaced rows.old.items rows.new.items number (wildcard plain)) }
{
    let row = Row::plain(alloc, FrameKind::Wild);
    let number = push_row(rows, row)?;
    Ok(number)
}

/// Whether a value is an array.
pub fn is_array(value: &Json) -> bool
    ensures { result ≡ is_array (json_data value.now) }
{
    match value {
        Json::List(_) => true,
        Json::Null => false,
        Json::Bool(_) => false,
        Json::Whole(_) => false,
        Json::Fraction => false,
        Json::Text(_) => false,
        Json::Map(_) => false,
    }
}

// A map that asks for what was given: a node of one id, or one value.
fn given_row(alloc: Global, given: Given) -> Result<Row, Memory>
    ensures { IfOk result (λ row. row ≡ given_row (given_data given)) }
{
    match given {
        Given::Reference(node) => {
            let mut ids = ListOf::new(alloc);
            ids.push(node)?;
            let mut row = Row::plain(alloc, FrameKind::Node);
            row.flags.ids = IdTest::OneOf(ids);
            Ok(row)
        }
        Given::Plain {
            scalar,
            datatype,
            language,
        } => {
            let pattern = pattern_of(alloc, scalar, datatype, language)?;
            Ok(Row::plain(alloc, FrameKind::Value(pattern)))
        }
    }
}

// A scalar under the term of its place.
fn scalar_under(
    alloc: Global,
    terms: &Terms<'_>,
    scalar: Scalar,
    place: &Place<'_>,
    rows: &mut Vec<Row>,
) -> Result<Found, FrameErr>
    ensures { Finds rows.old.items rows.new.items (place_data place.now) result
        (scalar_under terms.now.table.now (term_at (place_data place.now)) scalar
        (place_data place.now)) }
{
    let given = value_given(alloc, terms, place.term(), scalar)?;
    let row = given_row(alloc, given)?;
    let number = place_row(alloc, place, row, rows)?;
    Ok(Found::Numbered(number))
}

/// A text, number or truth value as a sub-frame: a node frame of one id, or a value pattern of one
/// value.
pub fn scalar_at(
    alloc: Global,
    terms: &Terms<'_>,
    scalar: Scalar,
    place: &Place<'_>,
    rows: &mut Vec<Row>,
) -> Result<Found, FrameErr>
    ensures { Finds rows.old.items rows.new.items (place_data place.now) result
        (scalar_at terms.now.table.now scalar (place_data place.now)) }
{
    match place.kind {
        PlaceKind::Property => scalar_under(alloc, terms, scalar, place, rows),
        PlaceKind::Item => scalar_under(alloc, terms, scalar, place, rows),
        PlaceKind::Graph => Err(FrameErr::Ld(place.error())),
        PlaceKind::Reverse => Err(FrameErr::Ld(place.error())),
        PlaceKind::Top => Err(FrameErr::Ld(place.error())),
    }
}
