//! For each IRI and slot the place of the term that comes first, made once from a table.
ghost use Rattle.std.specs.Prelude.{◌≡◌, ℕ, ◌+◌, ◌<◌, List, IfOk, OnOk, Some, ◌∷◌, if◌then◌else◌, ◌&&◌, length, slice_get};
ghost use Rattle.std.specs.Option.{option_copied};
ghost use Rattle.lf_rdf.specs.Equality.{text_eq};
ghost use Rattle.def_selection.specs.Chosen.{ranks_less};
ghost use Rattle.lf_select.specs.Keys.{key_eq};
ghost use Rattle.lf_select.specs.Shelves.{comes_first, place_at, term_at, term_in, Files, IsFiled, IsFiledFrom};
ghost use Rattle.lf_select.specs.declared.key.SlotKey.{SlotKey as Key};
ghost use Rattle.lf_model.specs.declared.table.TermDef.{TermDef};

use crate::key::{SlotKey, keys_of};
use lf_base::{Memory, Text, TryCopy};
use lf_model::{TermDef, TermTable};
use std::alloc::Global;
use std::collections::BTreeMap;

/// The places of one IRI's terms by their containers and slots.
pub type Shelf = BTreeMap<SlotKey, usize>;

/// The shelves of all IRIs.
pub type Shelves = BTreeMap<Text, Shelf>;

/// Whether a name is shorter than another, or as long and less.
pub fn comes_before(name: &str, other: &str) -> bool
    ensures { result ≡ ranks_less (length name.now ∷ name.now) (length other.now ∷ other.now) }
{
    name.len().cmp(&other.len()).then(name.cmp(other)).is_lt()
}

/// The term that is filed under a shelf's key.
pub fn term_in<'a>(terms: &'a [TermDef], shelf: &Shelf, key: &SlotKey) -> Option<&'a TermDef>
    ensures { option_copied result ≡ term_in terms.now shelf.now key.now }
{
    match shelf.get(key) {
        Some(place) => terms.get(*place),
        None => None,
    }
}

// Whether the term that is filed under an IRI's key comes before this one.
fn is_taken(terms: &[TermDef], shelves: &Shelves, iri: &Text, key: &SlotKey, term: &TermDef) -> bool
    ensures { result ≡ comes_first term.now (term_at terms.now shelves.now iri.now key.now) }
{
    match shelves.get(iri) {
        Some(shelf) => match term_in(terms, shelf, key) {
            Some(other) => comes_before(other.name.as_str(), term.name.as_str()),
            None => false,
        },
        None => false,
    }
}

// Files a place under an IRI and a key, in the place of an older one.
fn put_place(
    alloc: Global,
    shelves: &mut Shelves,
    iri: &Text,
    key: SlotKey,
    place: usize,
) -> Result<(), Memory>
    ensures { OnOk result ((q : List ℕ) (k : Key) → place_at shelves.new q k
        ≡ (if text_eq iri.now q && key_eq key k then Some place else place_at shelves.old q k)) }
{
    match shelves.get_mut(iri) {
        Some(shelf) => {
            shelf.insert(key, place)?;
        }
        None => {
            let mut shelf = BTreeMap::new(alloc);
            shelf.insert(key, place)?;
            shelves.insert(iri.copy(alloc)?, shelf)?;
        }
    }
    Ok(())
}

// Files a term under an IRI and a key, where no other term comes before it.
fn file(
    alloc: Global,
    terms: &[TermDef],
    shelves: &mut Shelves,
    iri: &Text,
    key: &SlotKey,
    place: usize,
) -> Result<(), Memory>
    requires { place < length terms.now }
    ensures { OnOk result (Files terms.now shelves.old shelves.new iri.now key.now place) }
{
    if is_taken(terms, shelves, iri, key, &terms[place]) {
        return Ok(());
    }
    put_place(alloc, shelves, iri, key.copy(alloc)?, place)
}

// Files a term under its IRI and each of its keys.
fn file_keys(
    alloc: Global,
    table: &TermTable,
    shelves: &mut Shelves,
    iri: &Text,
    place: usize,
) -> Result<(), Memory>
    requires here { place < length table.now.terms }
    requires filed { IsFiledFrom table.now shelves.old (place + 1) }
    ensures { OnOk result ((term : TermDef) → slice_get table.now.terms place ≡ Some term → term.iri ≡ Some iri.now
        → IsFiledFrom table.now shelves.new place) }
{
    let terms = table.terms.as_slice();
    let keys = keys_of(alloc, table, &terms[place])?;
    for key in keys.as_slice() {
        file(alloc, terms, shelves, iri, key, place)?;
    }
    Ok(())
}

// Files the term at a place, where it has an IRI.
fn file_term(
    alloc: Global,
    table: &TermTable,
    shelves: &mut Shelves,
    place: usize,
) -> Result<(), Memory>
    requires here { place < length table.now.terms }
    requires filed { IsFiledFrom table.now shelves.old (place + 1) }
    ensures { OnOk result (IsFiledFrom table.now shelves.new place) }
{
    match &table.terms.as_slice()[place].iri {
        Some(iri) => file_keys(alloc, table, shelves, iri, place),
        None => Ok(()),
    }
}

/// The shelves of a table. Its time grows as n log n in the terms and their bytes.
pub fn shelves_of(alloc: Global, table: &TermTable) -> Result<Shelves, Memory>
    ensures { IfOk result (λ shelves. IsFiled table.now shelves) }
{
    let mut shelves = BTreeMap::new(alloc);
    let mut place = table.terms.as_slice().len();
    while place > 0 {
        place -= 1;
        file_term(alloc, table, &mut shelves, place)?;
    }
    Ok(shelves)
}
