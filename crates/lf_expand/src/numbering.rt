//! The maps of a frame in their last order: the top map first, each with a smaller number than the
//! maps that it holds.
ghost use Rattle.std.specs.Prelude.{◌≡◌, map, reverse, IfOk, List, ℕ};
ghost use Rattle.std.specs.Option.{option_map};
ghost use Rattle.lf_expand.specs.Numbers.{turned, turned_props, turned_reverses, turned_kind, turned_row};

use crate::rows::{Flags, Row};
use lf_base::{ListOf, Memory, TryCopy};
use lf_model::{
    FrameKind, FrameNode, FrameNodeList, FrameProp, FramePropList, FrameReverse, FrameReverseList,
};
use lf_sorted::MapOf;
use std::alloc::Global;

// The number of a map counted from the last one.
fn turned(last: u32, number: u32) -> u32
    ensures { result ≡ turned last number }
{
    last.saturating_sub(number)
}

// The number of a sub-frame, where there is one, counted from the last map.
fn turned_maybe(last: u32, number: Option<u32>) -> Option<u32>
    ensures { result ≡ option_map (turned last) number }
{
    match number {
        Some(number) => Some(turned(last, number)),
        None => None,
    }
}

// Properties with the numbers of their sub-frames counted from the last map.
fn turned_props(
    alloc: Global,
    last: u32,
    props: &MapOf<Option<u32>>,
) -> Result<FramePropList, Memory>
    ensures { IfOk result (λ list. list ≡ turned_props last props.now) }
{
    let mut list = ListOf::new(alloc);
    for prop in props.as_slice() {
        list.push(FrameProp {
            property: prop.key.copy(alloc)?,
            frame: turned_maybe(last, prop.value),
        })?;
    }
    Ok(list)
}

// Reverse properties with the numbers of their sub-frames counted from the last map.
fn turned_reverses(
    alloc: Global,
    last: u32,
    reverse: &MapOf<u32>,
) -> Result<FrameReverseList, Memory>
    ensures { IfOk result (λ list. list ≡ turned_reverses last reverse.now) }
{
    let mut list = ListOf::new(alloc);
    for prop in reverse.as_slice() {
        list.push(FrameReverse {
            property: prop.key.copy(alloc)?,
            frame: turned(last, prop.value),
        })?;
    }
    Ok(list)
}

// A kind with the number of its item counted from the last map.
fn turned_kind(last: u32, kind: FrameKind) -> FrameKind
    ensures { result ≡ turned_kind last kind }
{
    match kind {
        FrameKind::Wild => FrameKind::Wild,
        FrameKind::Node => FrameKind::Node,
        FrameKind::Value(pattern) => FrameKind::Value(pattern),
        FrameKind::List(item) => FrameKind::List(turned_maybe(last, item)),
    }
}

// A map with the numbers of its sub-frames counted from the last one.
fn turned_row(alloc: Global, last: u32, row: Row) -> Result<FrameNode, Memory>
    ensures { IfOk result (λ node. node ≡ turned_row last row) }
{
    let Row {
        flags,
        props,
        reverse,
        graph,
        kind,
    } = row;
    let Flags {
        ids,
        types,
        embed,
        explicit,
        require_all,
        omit_default,
        fallback,
    } = flags;
    let props = turned_props(alloc, last, &props)?;
    let reverse = turned_reverses(alloc, last, &reverse)?;
    Ok(FrameNode {
        ids,
        types,
        embed,
        explicit,
        require_all,
        omit_default,
        props,
        reverse,
        graph: turned_maybe(last, graph),
        kind: turned_kind(last, kind),
        fallback,
    })
}

/// The maps from the last to the first, which is the top map's order.
pub fn numbered(alloc: Global, last: u32, mut rows: Vec<Row>) -> Result<FrameNodeList, Memory>
    ensures { IfOk result (λ nodes. nodes ≡ map (turned_row last) (reverse rows.items)) }
{
    let mut nodes = ListOf::new(alloc);
    while let Some(row) = rows.pop() {
        nodes.push(turned_row(alloc, last, row)?)?;
    }
    Ok(nodes)
}
