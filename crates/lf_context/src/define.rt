//! The terms of a context's map, each defined with those that it needs. The terms that are being
//! defined stand on a stack of the walk's own, so that a chain of terms, however long, makes no
//! deep calls.
ghost use Rattle.std.specs.Prelude.{◌≡◌, ◌<◌, [], IfOk, Some, None, length};
ghost use Rattle.std.specs.Bool.{MatchBool};
ghost use Rattle.lf_model.specs.JsonBridge.{json_data, members_data};
ghost use Rattle.lf_model.specs.JsonData.{JsonMembers};
ghost use Rattle.def_contexts.specs.Defining.{entry_value};
ghost use Rattle.def_contexts.specs.Table.{terms_of};
ghost use Rattle.lf_context.specs.DraftView.{table_in};
ghost use Rattle.lf_context.specs.Parts.{IsPart};
ghost use Rattle.lf_context.specs.Stages.{IsFor, rank};
ghost use Rattle.lf_context.specs.Turns.{resumed_turn};
ghost use Rattle.lf_context.specs.Marks.{mark_at};
ghost use Rattle.lf_context.specs.Walks.{walk_at, Advances, TakesUp, IsUnderWay, MakesReady, Furthers, IsTable, defined_table};

use crate::draft::Drafted;
use crate::error::ContextErr;
use crate::finish::{confirm, finish_by_prefix};
use crate::mark::{is_context_key, mark, standing};
use crate::stage::{Stage, Turn};
use crate::start::start;
use crate::term::{iri_expanding, iri_prefix, type_expanding, type_prefix};
use crate::walk::{Begun, Marks, Standing};
use lf_base::{Memory, Text, TryCopy};
use lf_model::{Json, JsonMap, LdError};
use std::alloc::Global;
use std::collections::BTreeMap;

/// The terms of a map are defined in order, each with those that it needs first.
pub fn define_terms(alloc: Global, draft: &mut Drafted, members: &JsonMap) -> Result<(), ContextErr>
    ensures { IsTable (defined_table (members_data members.now) (table_in draft.old)) (table_in draft.new)
        result }
{
    let mut marks = BTreeMap::new(alloc);
    for member in members.as_slice() {
        match define_member(alloc, members, draft, &mut marks, &member.key) {
            Ok(()) => {}
            Err(error) => return Err(error),
        }
    }
    Ok(())
}

// A member is made ready as a term, unless its key is none.
fn define_member(
    alloc: Global,
    members: &JsonMap,
    draft: &mut Drafted,
    marks: &mut Marks,
    key: &Text,
) -> Result<(), ContextErr>
    ensures { Furthers (members_data members.now) (table_in draft.old) marks.old.entries key.now
        (table_in draft.new) marks.new.entries result }
{
    if is_context_key(key.as_str()) {
        return Ok(());
    }
    make_ready(alloc, members, draft, marks, key)
}

// A term is defined with all that it needs.
fn make_ready(
    alloc: Global,
    members: &JsonMap,
    draft: &mut Drafted,
    marks: &mut Marks,
    name: &Text,
) -> Result<(), ContextErr>
    ensures { MakesReady (members_data members.now) (table_in draft.old) marks.old.entries name.now
        (table_in draft.new) marks.new.entries result }
{
    let mut stack = Vec::new(alloc);
    let first = name.copy(alloc)?;
    let mut asked = Some(first);
    while is_under_way(&asked, &stack) {
        match step(alloc, members, draft, marks, &mut stack, asked) {
            Ok(next) => asked = next,
            Err(error) => return Err(error),
        }
    }
    Ok(())
}

// Whether there is something to go on with.
fn is_under_way(asked: &Option<Text>, stack: &Vec<Begun>) -> bool
    ensures { MatchBool result (IsUnderWay asked.now stack.now.items)
        ((asked.now ≡ None) × (stack.now.items ≡ [])) }
{
    match asked {
        Some(_) => true,
        None => !stack.is_empty(),
    }
}

// What is needed is made ready, or else the definition on the top goes on.
fn step<'a>(
    alloc: Global,
    members: &'a JsonMap,
    draft: &mut Drafted,
    marks: &mut Marks,
    stack: &mut Vec<Begun<'a>>,
    asked: Option<Text>,
) -> Result<Option<Text>, ContextErr>
    requires { IsUnderWay asked stack.old.items }
    ensures { Advances (members_data members.now) (walk_at (table_in draft.old) marks.old.entries stack.old.items asked)
        (walk_at (table_in draft.new) marks.new.entries stack.new.items) result }
{
    match asked {
        Some(words) => need(alloc, members, draft, marks, stack, &words),
        None => go_on(alloc, draft, marks, stack),
    }
}

// A term that waits begins to be defined; one that is being defined is in a cycle.
fn need<'a>(
    alloc: Global,
    members: &'a JsonMap,
    draft: &mut Drafted,
    marks: &mut Marks,
    stack: &mut Vec<Begun<'a>>,
    asked: &Text,
) -> Result<Option<Text>, ContextErr>
    ensures { Advances (members_data members.now) (walk_at (table_in draft.old) marks.old.entries stack.old.items (Some asked.now))
        (walk_at (table_in draft.new) marks.new.entries stack.new.items) result }
{
    match standing(members, marks, asked) {
        Standing::Ready => Ok(None),
        Standing::Begun => Err(ContextErr::Ld(LdError::CyclicIriMapping)),
        Standing::Waiting(value) => begin_term(alloc, draft, marks, stack, asked, value),
    }
}

// The definition of a term that waits begins.
fn begin_term<'a>(
    alloc: Global,
    draft: &mut Drafted,
    marks: &mut Marks,
    stack: &mut Vec<Begun<'a>>,
    name: &Text,
    value: &'a Json,
) -> Result<Option<Text>, ContextErr>
    ensures { (members : JsonMembers) → entry_value name.now (terms_of members) ≡ Some (json_data value.now) → mark_at name.now marks.old.entries ≡ None
        → Advances members (walk_at (table_in draft.old) marks.old.entries stack.old.items (Some name.now))
        (walk_at (table_in draft.new) marks.new.entries stack.new.items) result }
{
    mark(alloc, marks, name, false)?;
    match start(alloc, draft, name, value) {
        Ok(turn) => Ok(take_up(alloc, draft, marks, stack, name, value, turn)?),
        Err(error) => Err(error),
    }
}

// The definition on the top goes on.
fn go_on<'a>(
    alloc: Global,
    draft: &mut Drafted,
    marks: &mut Marks,
    stack: &mut Vec<Begun<'a>>,
) -> Result<Option<Text>, ContextErr>
    requires { 0 < length stack.old.items }
    ensures { (members : JsonMembers) → Advances members (walk_at (table_in draft.old) marks.old.entries stack.old.items None)
        (walk_at (table_in draft.new) marks.new.entries stack.new.items) result }
{
    match stack.pop() {
        None => Ok(None),
        Some(frame) => match resume(alloc, draft, &frame.name, frame.value, &frame.rest) {
            Ok(turn) => Ok(take_up(alloc, draft, marks, stack, &frame.name, frame.value, turn)?),
            Err(error) => Err(error),
        },
    }
}

// The definition of a term from a stage on.
fn resume(
    alloc: Global,
    table: &Drafted,
    name: &Text,
    value: &Json,
    rest: &Stage,
) -> Result<Turn, ContextErr>
    ensures turn { IsPart (resumed_turn rest.now (table_in table.now) name.now (json_data value.now)) result }
    ensures later { IfOk result (IsFor name.now (rank rest.now)) }
{
    match rest {
        Stage::TypePrefix { words } => type_prefix(alloc, table, name, value, words),
        Stage::TypeExpanding { words } => type_expanding(alloc, table, name, value, words),
        Stage::IriPrefix { words, wanted } => iri_prefix(alloc, table, name, value, words, wanted),
        Stage::IriExpanding { words, wanted } => iri_expanding(
            alloc, table, name, value, words, wanted,
        ),
        Stage::Confirming { coercion, iri } => confirm(alloc, table, name, value, coercion, iri),
        Stage::ByName { coercion } => finish_by_prefix(alloc, table, name, value, coercion),
    }
}

// What the definition of a term comes to is taken up.
fn take_up<'a>(
    alloc: Global,
    draft: &mut Drafted,
    marks: &mut Marks,
    stack: &mut Vec<Begun<'a>>,
    name: &Text,
    value: &'a Json,
    turn: Turn,
) -> Result<Option<Text>, Memory>
    ensures { IfOk result (λ asked. TakesUp name.now (json_data value.now) turn (walk_at (table_in draft.old) marks.old.entries stack.old.items None)
        (walk_at (table_in draft.new) marks.new.entries stack.new.items asked)) }
{
    match turn {
        Turn::Asks { asked, rest } => {
            let name = name.copy(alloc)?;
            stack.push(Begun { name, value, rest })?;
            Ok(Some(asked))
        }
        Turn::Settled => {
            mark(alloc, marks, name, true)?;
            Ok(None)
        }
        Turn::Defined(definition) => {
            draft.put(alloc, definition)?;
            mark(alloc, marks, name, true)?;
            Ok(None)
        }
    }
}
