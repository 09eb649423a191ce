//! How the terms of a map stand while they are defined, told by marks at their names.
ghost use Rattle.std.specs.Prelude.{◌≡◌, OnOk};
ghost use Rattle.lf_model.specs.JsonBridge.{members_data};
ghost use Rattle.def_contexts.specs.Table.{is_context_key};
ghost use Rattle.lf_context.specs.Marks.{IsStanding, Puts, standing_in};

use crate::parts::member;
use crate::walk::{Marks, Standing};
use lf_base::{Memory, Text, TryCopy};
use lf_model::JsonMap;
use std::alloc::Global;

/// How a name stands.
pub fn standing<'a>(members: &'a JsonMap, marks: &Marks, name: &Text) -> Standing<'a>
    ensures { IsStanding (standing_in (members_data members.now) marks.now.entries name.now) result }
{
    let key = name.as_str();
    if is_context_key(key) {
        return Standing::Ready;
    }
    match member(members, key) {
        None => Standing::Ready,
        Some(value) => match marks.get(name) {
            Some(true) => Standing::Ready,
            Some(false) => Standing::Begun,
            None => Standing::Waiting(value),
        },
    }
}

/// Whether a key of a context is no term.
pub fn is_context_key(key: &str) -> bool
    ensures { result ≡ is_context_key key.now }
{
    matches!(
        key,
        "@base"
            | "@direction"
            | "@import"
            | "@language"
            | "@propagate"
            | "@protected"
            | "@version"
            | "@vocab"
    )
}

/// Marks a term: it is done, or is being defined.
pub fn mark(alloc: Global, marks: &mut Marks, name: &Text, done: bool) -> Result<(), Memory>
    ensures { OnOk result (Puts name.now done marks.old.entries marks.new.entries) }
{
    marks.insert(name.copy(alloc)?, done)?;
    Ok(())
}
