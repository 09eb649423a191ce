//! The terms of a table by their names, made once from it.
ghost use Rattle.std.specs.Prelude.{◌≡◌, ◌+◌, ◌<◌, IfOk, OnOk, is_some, length};
ghost use Rattle.std.specs.Option.{option_copied};
ghost use Rattle.def_selection.specs.Iris.{term_named};
ghost use Rattle.lf_select.specs.Names.{is_prefix_name, AreNamed, AreNamedFrom, ArePrefixes, ArePrefixesFrom};

use lf_base::{Memory, Text, TryCopy};
use lf_model::{TermDef, TermTable};
use std::alloc::Global;
use std::collections::BTreeMap;

/// The place of the first term of each name.
pub type Names = BTreeMap<Text, usize>;

/// The term of a name (JSON-LD 1.1 Processing Algorithms and API, section 4.1).
pub fn term_named<'a>(table: &'a TermTable, names: &Names, name: &Text) -> Option<&'a TermDef>
    requires { AreNamed table.now names.now }
    ensures { option_copied result ≡ term_named table.now name.now }
{
    match names.get(name) {
        Some(place) => table.terms.as_slice().get(*place),
        None => None,
    }
}

/// Whether a term that may be a prefix has a name.
pub fn is_prefix_name(table: &TermTable, prefixes: &Names, name: &Text) -> bool
    requires { ArePrefixes table.now prefixes.now }
    ensures { result ≡ is_prefix_name table.now.terms name.now }
{
    let _ = table;
    prefixes.contains_key(name)
}

// Adds the name of the term at a place.
fn add_name(alloc: Global, table: &TermTable, names: &mut Names, place: usize) -> Result<(), Memory>
    requires here { place < length table.now.terms }
    requires named { AreNamedFrom table.now names.old (place + 1) }
    ensures { OnOk result (AreNamedFrom table.now names.new place) }
{
    let term = &table.terms.as_slice()[place];
    names.insert(term.name.copy(alloc)?, place)?;
    Ok(())
}

// Adds the name of the term at a place, where the term may be a prefix.
fn add_prefix_name(
    alloc: Global,
    table: &TermTable,
    prefixes: &mut Names,
    place: usize,
) -> Result<(), Memory>
    requires here { place < length table.now.terms }
    requires named { ArePrefixesFrom table.now prefixes.old (place + 1) }
    ensures { OnOk result (ArePrefixesFrom table.now prefixes.new place) }
{
    let term = &table.terms.as_slice()[place];
    if term.prefix {
        prefixes.insert(term.name.copy(alloc)?, place)?;
    }
    Ok(())
}

/// The names of a table's terms. Its time grows as n log n in them and their bytes.
pub fn names_of(alloc: Global, table: &TermTable) -> Result<Names, Memory>
    ensures { IfOk result (λ names. AreNamed table.now names) }
{
    let mut names = BTreeMap::new(alloc);
    let mut place = table.terms.as_slice().len();
    while place > 0 {
        place -= 1;
        add_name(alloc, table, &mut names, place)?;
    }
    Ok(names)
}

/// The names of a table's terms that may be prefixes. Its time grows as n log n in them and their
/// bytes.
pub fn prefix_names_of(alloc: Global, table: &TermTable) -> Result<Names, Memory>
    ensures { IfOk result (λ prefixes. ArePrefixes table.now prefixes) }
{
    let mut prefixes = BTreeMap::new(alloc);
    let mut place = table.terms.as_slice().len();
    while place > 0 {
        place -= 1;
        add_prefix_name(alloc, table, &mut prefixes, place)?;
    }
    Ok(prefixes)
}
