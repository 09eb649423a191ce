//! The terms that may be prefixes by their IRIs, and those of one IRI in order of their names, made
//! once from a table.
ghost use Rattle.std.specs.Prelude.{◌≡◌, ℕ, ◌+◌, ◌<◌, List, nat_eq, ◌&&◌, ◌||◌, IfOk, OnOk, Some, if◌then◌else◌, length};
ghost use Rattle.std.specs.List.{list_any};
ghost use Rattle.lf_rdf.specs.Equality.{text_eq};
ghost use Rattle.lf_select.specs.Prefixes.{prefix_at, rank_eq, ranked, AreGrouped, AreGroupedFrom};
ghost use Rattle.lf_select.specs.declared.prefixes.Ranked.{Ranked as Rank};

use lf_base::{Memory, Text, TryCopy};
use lf_model::TermTable;
use std::alloc::Global;
use std::collections::BTreeMap;

/// A name by its length and then its bytes.
#[derive(Debug, PartialEq, Eq, PartialOrd, Ord, Drop)]
pub struct Ranked {
    /// How many bytes the name has.
    length: usize,
    name: Text,
}

/// The places of terms in order of their names.
pub type Ranks = BTreeMap<Ranked, usize>;

/// The terms of IRIs, by the bytes of these.
pub type Groups = BTreeMap<Vec<u8>, Ranks>;

/// The terms that may be prefixes, and how many bytes their IRIs have.
#[derive(Drop)]
pub struct Prefixes {
    /// The terms by their IRIs.
    pub groups: Groups,
    /// The lengths of these IRIs in bytes, each once.
    pub lengths: Vec<usize>,
}

impl Ranked {
    // A name with its length.
    fn of(name: Text) -> Ranked
        ensures { result ≡ ranked name }
    {
        Ranked {
            length: name.as_str().len(),
            name,
        }
    }
}

// Puts a place under an IRI and a name.
fn put_prefix(
    alloc: Global,
    groups: &mut Groups,
    iri: &[u8],
    key: Ranked,
    place: usize,
) -> Result<(), Memory>
    ensures { OnOk result ((q : List ℕ) (k : Rank) → prefix_at groups.new q k
        ≡ (if text_eq iri.now q && rank_eq key k then Some place else prefix_at groups.old q k)) }
{
    match groups.get_mut(iri) {
        Some(ranks) => {
            ranks.insert(key, place)?;
        }
        None => {
            let mut ranks = BTreeMap::new(alloc);
            ranks.insert(key, place)?;
            groups.insert(Vec::from_slice(alloc, iri)?, ranks)?;
        }
    }
    Ok(())
}

// Adds a length, unless it is there.
fn add_length(lengths: &mut Vec<usize>, length: usize) -> Result<(), Memory>
    ensures { OnOk result ((n : ℕ) → list_any (λ m. nat_eq m n) lengths.new.items
        ≡ (nat_eq length n || list_any (λ m. nat_eq m n) lengths.old.items)) }
{
    if !lengths.as_slice().contains(&length) {
        lengths.push(length)?;
    }
    Ok(())
}

// Adds the term at a place, where it may be a prefix.
fn add_prefix(
    alloc: Global,
    table: &TermTable,
    prefixes: &mut Prefixes,
    place: usize,
) -> Result<(), Memory>
    requires here { place < length table.now.terms }
    requires grouped { AreGroupedFrom table.now prefixes.old.groups prefixes.old.lengths.items (place + 1) }
    ensures { OnOk result (AreGroupedFrom table.now prefixes.new.groups prefixes.new.lengths.items place) }
{
    let term = &table.terms.as_slice()[place];
    if term.prefix {
        if let Some(iri) = &term.iri {
            let bytes = iri.as_str().as_bytes();
            let key = Ranked::of(term.name.copy(alloc)?);
            put_prefix(alloc, &mut prefixes.groups, bytes, key, place)?;
            add_length(&mut prefixes.lengths, bytes.len())?;
        }
    }
    Ok(())
}

/// The terms of a table that may be prefixes. Its time grows as n log n in them and their bytes.
pub fn prefixes_of(alloc: Global, table: &TermTable) -> Result<Prefixes, Memory>
    ensures { IfOk result (λ prefixes. AreGrouped table.now prefixes.groups prefixes.lengths.items) }
{
    let mut prefixes = Prefixes {
        groups: BTreeMap::new(alloc),
        lengths: Vec::new(alloc),
    };
    let mut place = table.terms.as_slice().len();
    while place > 0 {
        place -= 1;
        add_prefix(alloc, table, &mut prefixes, place)?;
    }
    Ok(prefixes)
}
