//! The term table by which a frame is read.
ghost use Rattle.std.specs.Prelude.{◌≡◌, IfOk, IsTrue};
ghost use Rattle.std.specs.Option.{option_copied};
ghost use Rattle.def_contexts.specs.TableLaws.{ascends};
ghost use Rattle.def_contexts.specs.Expansion.{find_term, expand};

use lf_base::{Memory, Text, TryCopy};
use lf_context::{expand_iri, find_term};
use lf_model::{TermDef, TermTable};
use std::alloc::Global;

/// A term table whose terms are in byte order of their names.
#[derive(Drop)]
pub struct Terms<'a> {
    pub table: &'a TermTable,
    ghost ordered: { IsTrue (ascends table.now.terms) },
}

impl<'a> Terms<'a> {
    /// A table to look terms up in.
    pub fn of(table: &'a TermTable) -> Terms<'a>
        requires { IsTrue (ascends table.now.terms) }
        ensures { result.table.now ≡ table.now }
    {
        Terms { table }
    }

    /// The definition of a term, where the table has one.
    pub fn find(&self, name: &Text) -> Option<&'a TermDef>
        ensures { option_copied result ≡ find_term name.now self.now.table.now.terms }
    {
        find_term(self.table, name)
    }

    /// What a text expands to (JSON-LD 1.1 Processing Algorithms and API, section 5.2).
    pub fn expand(&self, alloc: Global, text: &Text, vocab: bool) -> Result<Option<Text>, Memory>
        ensures { IfOk result (λ iri. iri ≡ expand self.now.table.now text.now vocab) }
    {
        expand_iri(alloc, self.table, text, vocab)
    }

    /// The default language.
    pub fn language(&self, alloc: Global) -> Result<Option<Text>, Memory>
        ensures { IfOk result (λ language. language ≡ self.now.table.now.language) }
    {
        self.table.language.copy(alloc)
    }
}
