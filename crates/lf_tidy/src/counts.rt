//! Numbers by blank node labels.
ghost use Rattle.std.specs.Prelude.{◌≡◌, ◌+◌, ℕ, List, IfOk, OnOk, Some, if◌then◌else◌};
ghost use Rattle.lf_rdf.specs.Equality.{text_eq};
ghost use Rattle.lf_tidy.specs.Counts.{count_in};

use lf_base::{Memory, Text, TryCopy};
use std::alloc::Global;
use std::collections::BTreeMap;

/// How often each blank node label stands in trees. A label that stands nowhere has no entry.
#[derive(Drop)]
pub struct Counts {
    numbers: BTreeMap<Text, u64>,
}

impl Counts {
    /// No label is counted.
    pub fn new(alloc: Global) -> Counts
        ensures { (label : List ℕ) → count_in result label ≡ 0 }
    {
        Counts {
            numbers: BTreeMap::new(alloc),
        }
    }

    /// How often a label is counted.
    pub fn get(&self, label: &Text) -> u64
        ensures { result ≡ count_in self.now label.now }
    {
        match self.numbers.get(label) {
            Some(number) => *number,
            None => 0,
        }
    }

    /// Counts a label once more. A count above 2^64 - 1 is want of memory.
    pub fn add(&mut self, alloc: Global, label: &Text) -> Result<(), Memory>
        ensures { OnOk result ((other : List ℕ) → count_in self.new other
            ≡ count_in self.old other + (if text_eq label.now other then 1 else 0)) }
    {
        match self.get(label).checked_add(1) {
            Some(number) => {
                self.numbers.insert(label.copy(alloc)?, number)?;
                Ok(())
            }
            None => Err(Memory),
        }
    }
}
