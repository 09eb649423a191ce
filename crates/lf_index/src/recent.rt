//! Terms that were shared last, so that a term that comes again soon is stored once. Only memory
//! and time depend on it.
ghost use Rattle.std.specs.Prelude.{◌≡◌, IfOk};

use crate::shared::{Shared, number_of};
use lf_base::{Memory, Same};
use lf_rdf::Term;
use std::alloc::Global;

// The most terms that are remembered.
const MOST_SLOTS: usize = 65_536;

/// A place for each remainder of a term's number, with the last term that had it.
#[derive(Drop)]
pub struct Recent {
    slots: Vec<Option<Shared>>,
}

impl Recent {
    /// Places for the terms of so many quads.
    pub fn of(alloc: Global, quads: usize) -> Result<Recent, Memory> {
        let count = quads.min(MOST_SLOTS);
        let mut slots = Vec::with_capacity(alloc, count)?;
        for _ in 0..count {
            slots.push(None)?;
        }
        Ok(Recent { slots })
    }

    /// A handle of a term: another one of the term that was shared last, or one of a new copy.
    pub fn shared(&mut self, alloc: Global, term: &Term) -> Result<Shared, Memory>
        ensures { IfOk result (λ shared. shared ≡ term.now) }
    {
        let count = self.slots.len() as u64;
        if count == 0 {
            return Shared::of(alloc, term);
        }
        let number = number_of(term);
        let place = (number % count) as usize;
        if let Some(last) = &self.slots[place] {
            if last.number() == number && last.term().is(term) {
                return last.share();
            }
        }
        let made = Shared::numbered(alloc, term, number)?;
        self.slots[place] = Some(made.share()?);
        Ok(made)
    }
}
