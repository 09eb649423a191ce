//! Nodes in order of their ids, from handles of them with repeats.
ghost use Rattle.std.specs.Prelude.{◌≡◌, ◌∷◌, [], ◌++◌, Bool, IfOk, OnOk};
ghost use Rattle.std.specs.List.{filter, list_any};
ghost use Rattle.lf_rdf.specs.declared.term.Term.{Term};
ghost use Rattle.def_datasets.specs.Sorted.{set_of};
ghost use Rattle.def_datasets.specs.Order.{id_cmp};
ghost use Rattle.def_datasets.specs.Terms.{is_node};

use crate::near::{Chunked, chunk_of, chunks_of, nearly_sorted};
use crate::shared::Shared;
use def_datasets::is_node;
use lf_base::Memory;
use lf_order::{ById, in_id_order};
use lf_rdf::{Term, TermList};
use std::alloc::Global;

/// A term more, where it is a node.
pub fn put_node(found: &mut Vec<Shared>, term: &Shared) -> Result<(), Memory>
    ensures { OnOk result (found.new.items ≡ found.old.items ++ filter is_node (term.now ∷ [])) }
{
    if !is_node(term.term()) {
        return Ok(());
    }
    found.push(term.share()?)?;
    Ok(())
}

// By kind and text, as most ids stand: those of blank nodes before those that begin with a small
// letter.
impl Chunked for Shared {
    fn chunk(&self, place: usize) -> u64 {
        match self.term() {
            Term::Iri(iri) => {
                if place == 0 {
                    return 1;
                }
                chunk_of(iri.as_str().as_bytes(), place - 1)
            }
            Term::Blank(label) => {
                if place == 0 {
                    return 0;
                }
                chunk_of(label.as_str().as_bytes(), place - 1)
            }
            Term::Literal { .. } => 0,
        }
    }

    fn chunks(&self) -> usize {
        match self.term() {
            Term::Iri(iri) => chunks_of(iri.as_str().as_bytes()).saturating_add(1),
            Term::Blank(label) => chunks_of(label.as_str().as_bytes()).saturating_add(1),
            Term::Literal { .. } => 1,
        }
    }
}

// The terms, each once, in order of their numbers.
fn each_once(found: Vec<Shared>) -> Result<Vec<Shared>, Memory>
    ensures { IfOk result
        (λ made. (test : Term → Bool) → list_any test made.items ≡ list_any test found.items) }
{
    let mut made = found;
    made.sort_by_key(|term| term.number())?;
    made.dedup();
    Ok(made)
}

/// The terms in order of their ids, each once. For n handles of k terms it takes n log n
/// comparisons of numbers, and goes over the ids of the k terms.
pub fn each_in_id_order(alloc: Global, found: Vec<Shared>) -> Result<TermList, Memory>
    ensures { IfOk result (λ terms. terms ≡ set_of id_cmp found.items) }
{
    let each = nearly_sorted(alloc, each_once(found)?)?;
    in_id_order(alloc, with_ids(alloc, each.as_slice())?)
}

fn with_ids(alloc: Global, terms: &[Shared]) -> Result<Vec<ById>, Memory>
    ensures { IfOk result (λ made. made.items ≡ terms.now) }
{
    let mut made = Vec::with_capacity(alloc, terms.len())?;
    for term in terms {
        made.push(ById::of(alloc, term.term())?)?;
    }
    Ok(made)
}
