//! The compact IRIs of an IRI, and the one that is used.
ghost use Rattle.std.specs.Prelude.{◌≡◌, ◌∷◌, ◌++◌, ℕ, IfOk, Some, take};
ghost use Rattle.std.specs.BTreeMap.{get};
ghost use Rattle.std.specs.Option.{option_copied};
ghost use Rattle.lf_base.specs.Ascii as ch;
ghost use Rattle.def_selection.specs.Chosen.{stands_for};
ghost use Rattle.def_selection.specs.Iris.{by_prefix, compact_iri, is_free, term_named};
ghost use Rattle.lf_select.specs.Names.{AreNamed};
ghost use Rattle.lf_select.specs.Prefixes.{rank_cmp, AreGrouped, IsPrefixAt};
ghost use Rattle.lf_select.specs.Shortest.{best_of, candidate_at, entries_at, group, nearer};
ghost use Rattle.lf_select.specs.declared.prefixes.Ranked.{Ranked as Rank};

use crate::names::{Names, term_named};
use crate::prefixes::{Prefixes, Ranks};
use crate::shelves::comes_before;
use crate::text::rest_after;
use lf_base::{Memory, Text};
use lf_model::{TermDef, TermTable};
use std::alloc::Global;

/// Whether a term stands for an IRI.
pub fn stands_for(iri: &Text, term: &TermDef) -> bool
    ensures { result ≡ stands_for iri.now term.now }
{
    match &term.iri {
        Some(own) => own.as_str() == iri.as_str(),
        None => false,
    }
}

// A compact IRI: the prefix, a colon and the rest.
fn joined(alloc: Global, prefix: &str, rest: &str) -> Result<Text, Memory>
    ensures { IfOk result (λ text. text ≡ prefix.now ++ ch.colon ∷ rest.now) }
{
    let mut text = String::from_str(alloc, prefix)?;
    text.push(':')?;
    text.push_str(rest)?;
    Text::from_string(text)
}

// The compact IRI that a term makes of an IRI (JSON-LD 1.1 Processing Algorithms and API, section
// 6.2.2, step 7).
fn compact_by(alloc: Global, iri: &Text, term: &TermDef) -> Result<Option<Text>, Memory>
    ensures { IfOk result (λ compact. compact ≡ compact_iri iri.now term.now) }
{
    if !term.prefix {
        return Ok(None);
    }
    match &term.iri {
        Some(start) => match rest_after(iri.as_str(), start.as_str()) {
            Some(rest) => Ok(Some(joined(alloc, term.name.as_str(), rest)?)),
            None => Ok(None),
        },
        None => Ok(None),
    }
}

// Whether a compact IRI may be used: it is no term, or, without a value, a term of this IRI.
fn is_free(table: &TermTable, names: &Names, iri: &Text, has_value: bool, compact: &Text) -> bool
    requires { AreNamed table.now names.now }
    ensures { result ≡ is_free iri.now has_value (term_named table.now compact.now) }
{
    match term_named(table, names, compact) {
        Some(term) => !has_value && stands_for(iri, term),
        None => true,
    }
}

// The compact IRI that the term at a place makes, where it may be used.
fn candidate_at(
    alloc: Global,
    table: &TermTable,
    names: &Names,
    iri: &Text,
    has_value: bool,
    place: usize,
) -> Result<Option<Text>, Memory>
    requires { AreNamed table.now names.now }
    ensures { IfOk result (λ compact. compact ≡ candidate_at table.now iri.now has_value place) }
{
    match table.terms.as_slice().get(place) {
        Some(term) => match compact_by(alloc, iri, term)? {
            Some(compact) => {
                if is_free(table, names, iri, has_value, &compact) {
                    Ok(Some(compact))
                } else {
                    Ok(None)
                }
            }
            None => Ok(None),
        },
        None => Ok(None),
    }
}

// The better of a compact IRI and the best so far.
fn nearer(compact: Option<Text>, best: Option<Text>) -> Option<Text>
    ensures { result ≡ nearer compact best }
{
    match compact {
        Some(compact) => match best {
            Some(best) => {
                if comes_before(best.as_str(), compact.as_str()) {
                    Some(best)
                } else {
                    Some(compact)
                }
            }
            None => Some(compact),
        },
        None => best,
    }
}

// The best of the compact IRIs that the terms of one IRI make: in order of their names the first
// that may be used.
fn first_free(
    alloc: Global,
    table: &TermTable,
    names: &Names,
    iri: &Text,
    has_value: bool,
    front: usize,
    ranks: &Ranks,
) -> Result<Option<Text>, Memory>
    requires named { AreNamed table.now names.now }
    requires prefixes { (key : Rank) (place : ℕ) → get rank_cmp ranks.now key ≡ Some place
        → IsPrefixAt table.now (take front iri.now) key place }
    ensures { IfOk result (λ compact. compact ≡ best_of table.now iri.now has_value ranks.now.entries) }
{
    let _ = front;
    for (_, place) in ranks.iter() {
        let compact = candidate_at(alloc, table, names, iri, has_value, *place)?;
        if compact.is_some() {
            return Ok(compact);
        }
    }
    Ok(None)
}

// The prefixes that stand for the front of an IRI of this length.
fn group<'a>(prefixes: &'a Prefixes, iri: &Text, front: usize) -> Option<&'a Ranks>
    ensures { option_copied result ≡ group prefixes.now.groups iri.now front }
{
    let bytes = iri.as_str().as_bytes();
    if front < bytes.len() {
        prefixes.groups.get(&bytes[..front])
    } else {
        None
    }
}

// The best of the compact IRIs by the prefixes that stand for the front of this length.
fn best_at(
    alloc: Global,
    table: &TermTable,
    names: &Names,
    prefixes: &Prefixes,
    iri: &Text,
    has_value: bool,
    front: usize,
) -> Result<Option<Text>, Memory>
    requires named { AreNamed table.now names.now }
    requires grouped { AreGrouped table.now prefixes.now.groups prefixes.now.lengths.items }
    ensures { IfOk result (λ compact.
        compact
        ≡ best_of table.now iri.now has_value (entries_at prefixes.now.groups iri.now front)) }
{
    match group(prefixes, iri, front) {
        Some(ranks) => first_free(alloc, table, names, iri, has_value, front, ranks),
        None => Ok(None),
    }
}

/// The shortest compact IRI that may be used, then the least. Its time grows with the number of
/// lengths of prefixes' IRIs, with the logarithm of the terms, and with the compact IRIs that are
/// terms and so may not be used.
pub fn by_prefix(
    alloc: Global,
    table: &TermTable,
    names: &Names,
    prefixes: &Prefixes,
    iri: &Text,
    has_value: bool,
) -> Result<Option<Text>, Memory>
    requires named { AreNamed table.now names.now }
    requires grouped { AreGrouped table.now prefixes.now.groups prefixes.now.lengths.items }
    ensures { IfOk result (λ compact. compact ≡ by_prefix table.now iri.now has_value) }
{
    let mut best = None;
    let mut at = prefixes.lengths.len();
    while at > 0 {
        at -= 1;
        let front = prefixes.lengths[at];
        let compact = best_at(alloc, table, names, prefixes, iri, has_value, front)?;
        best = nearer(compact, best);
    }
    Ok(best)
}
