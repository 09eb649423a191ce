//! An oracle over an index.
ghost use Rattle.std.specs.Prelude.{◌≡◌};

use crate::index::Index;
use lf_base::{Memory, Steps};
use lf_oracle::Oracle;
use lf_rdf::{Answer, Question};
use std::alloc::Global;
use std::sync::ledger::Ledger;

/// What answers questions about the quads of an index. It doesn't tell what it was asked.
#[derive(Drop)]
pub struct Asker<'a> {
    /// The quads that are asked about.
    pub index: &'a Index,
}

impl Index {
    /// An oracle over the quads. It takes no memory.
    pub fn asker(&self) -> Asker<'_>
        ensures { result.index.now ≡ self.now }
    {
        Asker { index: self }
    }
}

impl Oracle for Asker<'_> {
    ghost use Rattle.std.specs.Prelude.{None};

    ghost quads = { λ asker. asker.index.now };

    ghost told = { λ asker. None };

    fn ask<L: Ledger>(
        &mut self,
        alloc: Global,
        question: &Question,
        steps: &mut Steps<L>,
    ) -> Result<Answer, Memory> {
        steps.tick();
        self.index.answer(alloc, question)
    }
}
