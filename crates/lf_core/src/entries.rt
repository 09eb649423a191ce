//! Entries of the stored history, and the room that they take.
ghost use Rattle.std.specs.Prelude.{◌≡◌, ◌<◌, ◌≤◌, ◌+◌, [], ◌∷◌, ◌++◌, length, vec_len, vec_capacity, IfOk, IfSome};
ghost use Rattle.lf_core.specs.Entries.{operation_of, operations};

use lf_base::{Memory, Text};
use lf_versions::Commit;
use std::sync::Arc;

/// One entry. Its commit is shared with the versions that it made.
#[derive(Debug, Drop)]
pub enum Entry {
    Commit(Arc<Commit>),
    Register { seat: u64, name: Text, text: Text },
    Retire { seat: u64, name: Text },
    Publish { name: Text, version: u64 },
}

/// Puts an entry at the end of a history that has a place for it.
pub fn enter(history: &mut Vec<Entry>, entry: Entry)
    requires place { vec_len history.old < vec_capacity history.old }
    ensures entered { operations history.new.items
        ≡ operations history.old.items ++ operation_of entry ∷ [] }
    ensures longer { length history.new.items ≡ length history.old.items + 1 }
    ensures room { vec_capacity history.old ≤ vec_capacity history.new }
{
    let _ = history.push(entry);
}

// The entries that the history of so many live frames may need room for, with one place more.
fn room_for(places: usize, frames: usize) -> Option<usize>
    ensures { IfSome result (λ more. more ≡ frames + (places + 1 + (places + 1))) }
{
    let places = places.checked_add(1)?;
    let twice = places.checked_add(places)?;
    frames.checked_add(twice)
}

/// Makes room for one place more, and gives the number of places then. Each live frame has room for
/// its retirement, and each place for an entry and the retirement of the frame that this may
/// register.
pub fn add_place(history: &mut Vec<Entry>, places: usize, frames: usize) -> Result<usize, Memory>
    ensures kept { history.new.items ≡ history.old.items }
    ensures room { vec_capacity history.old ≤ vec_capacity history.new }
    ensures places { IfOk result (λ more. more ≡ places + 1) }
    ensures placed { IfOk result
        (λ more. length history.new.items + (frames + (more + more)) ≤ vec_capacity history.new) }
{
    match room_for(places, frames) {
        Some(more) => {
            history.reserve(more)?;
            Ok(places + 1)
        }
        None => Err(Memory),
    }
}
