//! What comes under each key of a map, in order (JSON-LD 1.1 Processing Algorithms and API, section
//! 5.1.2).
ghost use Rattle.std.specs.Prelude.{◌≡◌, [], ◌∷◌, ◌++◌, ℕ, List, OnOk, Some, if◌then◌else◌, unwrap_or};
ghost use Rattle.lf_rdf.specs.Equality.{text_eq};
ghost use Rattle.lf_compact.specs.Groups.{list_at};

use lf_base::{Memory, Text};
use std::alloc::Global;
use std::collections::BTreeMap;

/// Values by their keys, in byte order of the keys.
pub type Groups<T> = BTreeMap<Text, Vec<T>>;

/// Puts a value behind those that came under its key before.
pub fn put_under<T: Drop>(
    alloc: Global,
    groups: &mut Groups<T>,
    key: Text,
    value: T,
) -> Result<(), Memory>
    ensures { OnOk result ((q : List ℕ) → list_at groups.new q
        ≡ (if text_eq key q then Some (unwrap_or (list_at groups.old q) [] ++ value ∷ []) else list_at groups.old q)) }
{
    match groups.remove(&key) {
        Some(list) => {
            let mut list = list;
            list.push(value)?;
            groups.insert(key, list)?;
        }
        None => {
            let mut list = Vec::new(alloc);
            list.push(value)?;
            groups.insert(key, list)?;
        }
    }
    Ok(())
}
