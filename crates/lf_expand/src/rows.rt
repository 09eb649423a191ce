//! The maps of a frame while it is read. Each stands behind the maps that it holds, and names them
//! by their places.
ghost use Rattle.std.specs.Prelude.{◌≡◌, ◌&&◌, ◌∷◌, ◌++◌, [], length, IfOk, OnOk};
ghost use Rattle.def_nested.specs.Nested.{plain};
ghost use Rattle.def_contexts.specs.Places.{placed};
ghost use Rattle.lf_expand.specs.PlaceData.{is_listed, place_data};
ghost use Rattle.lf_expand.specs.RowData.{flags_data, plain_flags, plain_row, needs_list, IsPlaced, RowWithin, built, seen_row};

use crate::place::Place;
use lf_base::Memory;
use lf_model::{DefaultList, Embed, FrameKind, IdTest, TypeTest};
use lf_sorted::MapOf;
use std::alloc::Global;

/// The parts of a map that hold no sub-frame.
#[derive(Debug, Drop)]
pub struct Flags {
    pub ids: IdTest,
    pub types: TypeTest,
    pub embed: Embed,
    pub explicit: bool,
    pub require_all: bool,
    pub omit_default: Option<bool>,
    pub fallback: Option<DefaultList>,
}

impl Flags {
    /// Those of a map that states none.
    pub fn plain() -> Flags
        ensures { result ≡ plain_flags }
    {
        Flags {
            ids: IdTest::Absent,
            types: TypeTest::Absent,
            embed: Embed::Once,
            explicit: false,
            require_all: false,
            omit_default: None,
            fallback: None,
        }
    }
}

/// A map of a frame. The number of a sub-frame is its place among the maps.
#[derive(Debug, Drop)]
pub struct Row {
    pub flags: Flags,
    /// The properties and their sub-frames; none is match-none.
    pub props: MapOf<Option<u32>>,
    pub reverse: MapOf<u32>,
    pub graph: Option<u32>,
    pub kind: FrameKind,
}

impl Row {
    /// A map without keys, of this kind.
    pub fn plain(alloc: Global, kind: FrameKind) -> Row
        ensures { result ≡ plain_row kind }
    {
        Row {
            flags: Flags::plain(),
            props: MapOf::new(alloc),
            reverse: MapOf::new(alloc),
            graph: None,
            kind,
        }
    }
}

/// Puts a map behind the others, and gives its number.
pub fn push_row(rows: &mut Vec<Row>, row: Row) -> Result<u32, Memory>
    ensures number { IfOk result (λ number. number ≡ length rows.old.items) }
    ensures pushed { OnOk result (rows.new.items ≡ rows.old.items ++ row ∷ []) }
{
    match u32::try_from(rows.len()) {
        Ok(number) => {
            rows.push(row)?;
            Ok(number)
        }
        Err(_) => {
            drop(row);
            Err(Memory)
        }
    }
}

// Whether a map is put into a list pattern where a list is wanted.
fn needs_list(kind: &FrameKind) -> bool
    ensures { result ≡ needs_list kind.now }
{
    match kind {
        FrameKind::Wild => false,
        FrameKind::Node => true,
        FrameKind::Value(_) => true,
        FrameKind::List(_) => false,
    }
}

// Whether a map is put into a list pattern at a place.
fn is_wrapped(place: &Place<'_>, kind: &FrameKind) -> bool
    ensures { result ≡ (is_listed (place_data place.now) && needs_list kind.now) }
{
    place.is_listed() && needs_list(kind)
}

// Puts a list pattern with this item behind the others.
fn wrap_row(alloc: Global, item: u32, rows: &mut Vec<Row>) -> Result<u32, Memory>
    ensures number { IfOk result (λ number. number ≡ length rows.old.items) }
    ensures pushed { OnOk result (rows.new.items ≡ rows.old.items ++ plain_row (FrameKind.List (Some item)) ∷ []) }
{
    let row = Row::plain(alloc, FrameKind::List(Some(item)));
    let number = push_row(rows, row)?;
    Ok(number)
}

/// Puts a map behind the others as it stands at a place, and gives its number. Under a term with
/// the container `@list` it is the item of a list pattern, unless it is wild or a list pattern.
pub fn place_row(
    alloc: Global,
    place: &Place<'_>,
    row: Row,
    rows: &mut Vec<Row>,
) -> Result<u32, Memory>
    ensures { RowWithin (length rows.old.items) row →
        IfOk result (λ number.
        IsPlaced rows.old.items rows.new.items number
        (placed (place_data place.now) (seen_row (built rows.old.items) row))) }
{
    let wrapped = is_wrapped(place, &row.kind);
    let number = push_row(rows, row)?;
    if !wrapped {
        return Ok(number);
    }
    let outer = wrap_row(alloc, number, rows)?;
    Ok(outer)
}
