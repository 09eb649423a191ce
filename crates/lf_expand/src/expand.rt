//! Frames read from JSON values (JSON-LD 1.1 Framing, sections 4.1 and 5.2).
ghost use Rattle.std.specs.Prelude.{◌≡◌, ◌&&◌, IfErr, IfOk, IsTrue, codes, length, unwrap_or};
ghost use Rattle.lf_rdf.specs.Equality.{text_eq};
ghost use Rattle.lf_model.specs.JsonData.{null};
ghost use Rattle.def_contexts.specs.TableLaws.{ascends};
ghost use Rattle.std.specs.Option.{option_copied, option_map};
ghost use Rattle.lf_model.specs.JsonBridge.{json_data, members_data};
ghost use Rattle.def_nested.specs.Unfolding.{nested};
ghost use Rattle.def_contexts.specs.Members.{value_of};
ghost use Rattle.def_contexts.specs.SubFrames.{read_members, top_frame};
ghost use Rattle.def_contexts.specs.FrameKeys.{node_map};
ghost use Rattle.def_contexts.specs.Frames.{one_map, without_key, has_graph, unwrapped, frame_by, frame_of};
ghost use Rattle.def_contexts.specs.FrameValues.{IsFrameOf, frame_meaning};
ghost use Rattle.lf_expand.specs.Gives.{Fails, Gives};
ghost use Rattle.lf_expand.specs.RowData.{built};
ghost use Rattle.lf_expand.specs.ReadingData.{Lists, Told, reading_of, Reads};
ghost use Rattle.lf_expand.specs.Numbers.{NamesLargerNumbers};
ghost use Rattle.lf_expand.specs.TopFrames.{shown, map_alone, maps_by, framed};
ghost use Rattle.lf_expand.specs.PlaceData.{place_data};

use crate::class::MapClass;
use crate::context::table_by;
use crate::error::FrameErr;
use crate::maps::read_key;
use crate::meaning::means;
use crate::numbering::numbered;
use crate::place::{Place, PlaceKind};
use crate::reading::Reading;
use crate::rows::{Row, push_row};
use crate::terms::Terms;
use lf_base::{Memory, TryCopy};
use lf_model::{Frame, FrameNodeList, Json, LdError, TermTable};
use lf_sorted::Entry;
use std::alloc::Global;

/// The members of a map or of an array of at most one map.
pub fn one_map(json: &Json) -> Result<&[Entry<Json>], FrameErr>
    ensures { Gives (λ members. members_data members.now) result (one_map (json_data json.now)) }
{
    match json {
        Json::Map(members) => Ok(members.as_slice()),
        Json::List(items) => match items.as_slice() {
            [] => Ok(&[]),
            [only, rest @ ..] => match rest {
                [] => map_alone(only),
                [_second, _more @ ..] => Err(FrameErr::Ld(LdError::InvalidFrame)),
            },
        },
        Json::Null => Err(FrameErr::Ld(LdError::InvalidFrame)),
        Json::Bool(_) => Err(FrameErr::Ld(LdError::InvalidFrame)),
        Json::Whole(_) => Err(FrameErr::Ld(LdError::InvalidFrame)),
        Json::Fraction => Err(FrameErr::Ld(LdError::InvalidFrame)),
        Json::Text(_) => Err(FrameErr::Ld(LdError::InvalidFrame)),
    }
}

// The members of a map; any other value is an invalid frame.
fn map_alone(only: &Json) -> Result<&[Entry<Json>], FrameErr>
    ensures { Gives (λ members. members_data members.now) result (map_alone (json_data only.now)) }
{
    match only {
        Json::Map(members) => Ok(members.as_slice()),
        Json::Null => Err(FrameErr::Ld(LdError::InvalidFrame)),
        Json::Bool(_) => Err(FrameErr::Ld(LdError::InvalidFrame)),
        Json::Whole(_) => Err(FrameErr::Ld(LdError::InvalidFrame)),
        Json::Fraction => Err(FrameErr::Ld(LdError::InvalidFrame)),
        Json::Text(_) => Err(FrameErr::Ld(LdError::InvalidFrame)),
        Json::List(_) => Err(FrameErr::Ld(LdError::InvalidFrame)),
    }
}

/// The context of a frame's map.
pub fn context_of(members: &[Entry<Json>]) -> Option<&Json>
    ensures { option_map json_data (option_copied result)
        ≡ value_of (codes "@context") (members_data members.now) }
{
    for member in members {
        if "@context" == member.key.as_str() {
            return Some(&member.value);
        }
    }
    None
}

// Whether a key beside the context is `@graph`.
fn has_graph(alloc: Global, terms: &Terms<'_>, members: &[Entry<Json>]) -> Result<bool, Memory>
    ensures { IfOk result (λ b.
        b
        ≡ has_graph terms.now.table.now
        (without_key (codes "@context") (members_data members.now))) }
{
    for member in members {
        if "@context" != member.key.as_str() && means(alloc, terms, &member.key, "@graph")? {
            return Ok(true);
        }
    }
    Ok(false)
}

// The members of a frame's map. Where `@graph` is the only key beside the context, those of its
// value; then a key `@context` is one of them.
#[derive(Drop)]
struct Inner<'a> {
    members: &'a [Entry<Json>],
    // Whether a key `@context` among them is the context of the frame, and no member.
    has_context: bool,
}

// The members of a sole `@graph`, or else the members themselves.
fn unwrapped<'a>(
    alloc: Global,
    terms: &Terms<'_>,
    members: &'a [Entry<Json>],
) -> Result<Inner<'a>, FrameErr>
    ensures { Gives (λ inner. shown inner.has_context (members_data inner.members.now)) result
        (unwrapped terms.now.table.now
        (without_key (codes "@context") (members_data members.now))) }
{
    let mut sole: Option<&Entry<Json>> = None;
    for member in members {
        if "@context" != member.key.as_str() {
            if sole.is_some() {
                return Ok(Inner {
                    members,
                    has_context: true,
                });
            }
            sole = Some(member);
        }
    }
    match sole {
        Some(member) => {
            if means(alloc, terms, &member.key, "@graph")? {
                let members = one_map(&member.value)?;
                Ok(Inner {
                    members,
                    has_context: false,
                })
            } else {
                Ok(Inner {
                    members,
                    has_context: true,
                })
            }
        }
        None => Ok(Inner {
            members,
            has_context: true,
        }),
    }
}

// Whether a key is the context of the map.
fn is_passed(inner: &Inner<'_>, key: &str) -> bool
    ensures { result ≡ (inner.now.has_context && text_eq (codes "@context") key.now) }
{
    inner.has_context && "@context" == key
}

// The keys of the top map, without its context.
fn read_top(
    alloc: Global,
    terms: &Terms<'_>,
    inner: &Inner<'_>,
    place: &Place<'_>,
    rows: &mut Vec<Row>,
    read: &mut Reading,
) -> Result<(), FrameErr>
    ensures { (lists : Lists) → Told (length rows.old.items) read.old lists →
        Reads rows.old.items rows.new.items read.new result (read_members terms.now.table.now
        (shown inner.now.has_context (members_data inner.now.members.now)) node_map
        (place_data place.now) (reading_of (built rows.old.items) read.old lists)) }
{
    for member in inner.members {
        if is_passed(inner, member.key.as_str()) {
            continue;
        }
        match read_key(
            alloc,
            terms,
            &member.key,
            &member.value,
            MapClass::Node,
            place,
            rows,
            read,
        ) {
            Ok(()) => {}
            Err(error) => return Err(error),
        }
    }
    Ok(())
}

// The maps of the top frame.
fn top_frame(alloc: Global, terms: &Terms<'_>, inner: &Inner<'_>) -> Result<FrameNodeList, FrameErr>
    ensures frame { Gives (λ nodes. nested nodes 0) result (top_frame terms.now.table.now
        (shown inner.now.has_context (members_data inner.now.members.now))) }
    ensures numbers { IfOk result NamesLargerNumbers }
{
    let mut rows = Vec::new(alloc);
    let mut read = Reading::unread(alloc);
    let place = Place {
        kind: PlaceKind::Top,
        term: None,
    };
    match read_top(alloc, terms, inner, &place, &mut rows, &mut read) {
        Ok(()) => {
            let last = push_row(&mut rows, read.into_row(MapClass::Node))?;
            Ok(numbered(alloc, last, rows)?)
        }
        Err(error) => {
            drop(read);
            drop(rows);
            Err(error)
        }
    }
}

// The maps of a frame, and whether a key of its top map is `@graph`.
#[derive(Drop)]
struct Maps {
    nodes: FrameNodeList,
    top_graph: bool,
}

// The maps of a frame by its term table.
fn read_maps(alloc: Global, table: &TermTable, members: &[Entry<Json>]) -> Result<Maps, FrameErr>
    requires { IsTrue (ascends table.now.terms) }
    ensures frame { Gives (λ maps. (nested maps.nodes 0, maps.top_graph)) result
        (maps_by table.now (without_key (codes "@context") (members_data members.now))) }
    ensures numbers { IfOk result (λ maps. NamesLargerNumbers maps.nodes) }
{
    let terms = Terms::of(table);
    let top_graph = has_graph(alloc, &terms, members)?;
    let inner = unwrapped(alloc, &terms, members)?;
    let nodes = top_frame(alloc, &terms, &inner)?;
    Ok(Maps { nodes, top_graph })
}

// The context of a frame's map; null where it has none.
fn context_value(alloc: Global, members: &[Entry<Json>]) -> Result<Json, Memory>
    ensures { IfOk result (λ context.
        json_data context
        ≡ unwrap_or (value_of (codes "@context") (members_data members.now)) null) }
{
    match context_of(members) {
        Some(value) => Ok(value.copy(alloc)?),
        None => Ok(Json::Null),
    }
}

// A frame by its context and its term table.
fn frame_of_table(
    alloc: Global,
    members: &[Entry<Json>],
    context: Json,
    table: TermTable,
) -> Result<Frame, FrameErr>
    requires { IsTrue (ascends table.terms) }
    ensures frame { Gives frame_meaning result (framed (json_data context) table
        (without_key (codes "@context") (members_data members.now))) }
    ensures numbers { IfOk result (λ f. NamesLargerNumbers f.nodes) }
{
    match read_maps(alloc, &table, members) {
        Ok(Maps { nodes, top_graph }) => Ok(Frame {
            nodes,
            context,
            table,
            top_graph,
        }),
        Err(error) => {
            drop(context);
            drop(table);
            Err(error)
        }
    }
}

// A frame by its own context.
fn frame_by(alloc: Global, members: &[Entry<Json>]) -> Result<Frame, FrameErr>
    ensures frame { Gives frame_meaning result (frame_by
        (unwrap_or (value_of (codes "@context") (members_data members.now)) null)
        (without_key (codes "@context") (members_data members.now))) }
    ensures numbers { IfOk result (λ f. NamesLargerNumbers f.nodes) }
{
    let context = context_value(alloc, members)?;
    match table_by(alloc, &context) {
        Ok(table) => frame_of_table(alloc, members, context, table),
        Err(error) => {
            drop(context);
            Err(error)
        }
    }
}

/// The frame that a JSON value states, with the context that its document repeats. `Ld` names the
/// first error of the context or the frame, in the order in which the standards try their
/// conditions. A frame of `n` keys nested `d` deep takes time that grows as `n log n`, and at most
/// as `d * n` where values that stand for null lie inside each other.
#[tactic(auto, unfolding(def_contexts::specs::Frames::frame_of))]
pub fn expand_frame(alloc: Global, json: &Json) -> Result<Frame, FrameErr>
    ensures frame { IfOk result (λ f. IsFrameOf (json_data json.now) f) }
    ensures refused { IfErr result (λ e. Fails e (frame_of (json_data json.now))) }
    ensures numbers { IfOk result (λ f. NamesLargerNumbers f.nodes) }
{
    match one_map(json) {
        Ok(members) => frame_by(alloc, members),
        Err(error) => Err(error),
    }
}
