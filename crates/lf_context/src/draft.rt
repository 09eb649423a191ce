//! A term table to which terms are added while a context is read.
ghost use Rattle.std.specs.Prelude.{◌≡◌, IfOk, OnOk, IsTrue};
ghost use Rattle.std.specs.Map.{values_of};
ghost use Rattle.lf_context.specs.Tables.{are_named, table_without, table_with};

use lf_base::{Memory, Text, TryCopy};
use lf_model::{TermDef, TermDefList, TermTable};
use std::alloc::Global;
use std::collections::BTreeMap;

/// A term table whose terms stand at their names.
#[derive(Drop)]
pub struct Drafted {
    pub vocab: Option<Text>,
    pub language: Option<Text>,
    pub terms: BTreeMap<Text, TermDef>,
    pub type_set: bool,
    ghost named: { IsTrue (are_named terms.entries) },
}

impl Drafted {
    ghost use Rattle.lf_context.specs.DraftView.{table_in};
    ghost use Rattle.def_contexts.specs.Table.{empty_table};

    /// The empty table. It keeps the allocator for its growth.
    pub fn new(alloc: Global) -> Drafted
        ensures { table_in result ≡ empty_table }
    {
        Drafted {
            vocab: None,
            language: None,
            terms: BTreeMap::new(alloc),
            type_set: false,
        }
    }

    /// Empties the table.
    pub fn clear(&mut self)
        ensures { table_in self.new ≡ empty_table }
    {
        self.vocab = None;
        self.language = None;
        self.terms.clear();
        self.type_set = false;
    }

    /// Takes the definition of a term out.
    pub fn forget(&mut self, name: &Text)
        ensures { table_in self.new ≡ table_without name.now (table_in self.old) }
    {
        if let Some(older) = self.terms.remove(name) {
            drop(older);
        }
    }

    /// Puts a definition in the place of its name.
    pub fn put(&mut self, alloc: Global, definition: TermDef) -> Result<(), Memory>
        ensures { OnOk result (table_in self.new ≡ table_with definition (table_in self.old)) }
    {
        let name = definition.name.copy(alloc)?;
        if let Some(older) = self.terms.insert(name, definition)? {
            drop(older);
        }
        Ok(())
    }

    /// The finished table.
    pub fn finish(self, alloc: Global) -> Result<TermTable, Memory>
        ensures { IfOk result (λ table. table ≡ table_in self) }
    {
        let Drafted {
            vocab,
            language,
            terms,
            type_set,
        } = self;
        Ok(TermTable {
            vocab,
            language,
            terms: in_order(alloc, terms)?,
            type_set,
        })
    }
}

// The definitions in byte order of their names.
fn in_order(alloc: Global, terms: BTreeMap<Text, TermDef>) -> Result<TermDefList, Memory>
    ensures { IfOk result (λ list. list ≡ values_of terms.entries) }
{
    let mut found = TermDefList::new(alloc);
    for definition in terms.into_values() {
        found.push(definition)?;
    }
    Ok(found)
}
