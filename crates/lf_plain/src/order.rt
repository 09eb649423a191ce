//! The order of terms by their ids, and a term at its place in it.
ghost use Rattle.std.specs.Prelude.{◌≡◌, IfOk, OnOk};
ghost use Rattle.def_datasets.specs.Sorted.{put};
ghost use Rattle.def_datasets.specs.Order.{id_cmp};
ghost use Rattle.lf_plain.specs.Places.{IsPlace};

use lf_base::{Memory, TryCopy};
use lf_order::{by_parts, id_text};
use lf_rdf::Term;
use std::alloc::Global;
use std::cmp::Ordering;

/// Puts a copy of a term at its place by its id, where it isn't there yet. It takes a comparison
/// with each of the terms.
pub(crate) fn put_term(alloc: Global, terms: &mut Vec<Term>, term: &Term) -> Result<(), Memory>
    ensures { OnOk result (terms.new.items ≡ put id_cmp term.now terms.old.items) }
{
    match place_for(alloc, terms.as_slice(), term)? {
        Some(place) => {
            terms.insert(place, term.copy(alloc)?)?;
            Ok(())
        }
        None => Ok(()),
    }
}

// The place at which a term comes among others: none where it is there.
fn place_for(alloc: Global, terms: &[Term], term: &Term) -> Result<Option<usize>, Memory>
    ensures { IfOk result (λ place. IsPlace term.now terms.now place) }
{
    for (place, other) in terms.iter().enumerate() {
        match by_id(alloc, term, other)? {
            Ordering::Less => return Ok(Some(place)),
            Ordering::Equal => return Ok(None),
            Ordering::Greater => {}
        }
    }
    Ok(Some(terms.len()))
}

// How two terms stand by their ids, and then by kind and texts.
fn by_id(alloc: Global, one: &Term, two: &Term) -> Result<Ordering, Memory>
    ensures { IfOk result (λ order. order ≡ id_cmp one.now two.now) }
{
    let first = id_text(alloc, one)?;
    let second = id_text(alloc, two)?;
    Ok(first.cmp(&second).then(by_parts(one, two)))
}
