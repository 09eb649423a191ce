//! Terms with their ids, put in order of ids, each once.
ghost use Rattle.std.specs.Prelude.{◌≡◌, ◌∷◌, [], ◌++◌, IfOk, OnOk};
ghost use Rattle.std.specs.List.{filter};
ghost use Rattle.lf_rdf.specs.Canonical.{id_of};
ghost use Rattle.def_datasets.specs.Sorted.{set_of};
ghost use Rattle.def_datasets.specs.Order.{id_cmp};
ghost use Rattle.def_datasets.specs.Terms.{is_node};

use crate::parts::by_parts;
use crate::sorted::sorted_set;
use def_datasets::is_node;
use lf_base::{Memory, Text, TryCopy};
use lf_rdf::{Term, TermList};
use std::alloc::Global;
use std::cmp::Ordering;
use std::marker::Model;

/// A term with its id.
#[derive(Drop)]
pub struct ById {
    id: Text,
    term: Term,
}

impl Model for ById {
    ghost use Rattle.std.specs.Prelude.{◌≡◌};
    ghost use Rattle.lf_rdf.specs.declared.term.Term.{Term};
    ghost use Rattle.lf_rdf.specs.Canonical.{id_of};

    ghost Value = { Term };

    ghost view = { λ t. t.term };

    ghost invariant = { λ t. t.id ≡ id_of t.term };
}

impl ById {
    /// A copy of a term, with its id.
    pub fn of(alloc: Global, term: &Term) -> Result<ById, Memory>
        ensures { IfOk result (λ made. made ≡ term.now) }
    {
        Ok(ById {
            id: id_text(alloc, term)?,
            term: term.copy(alloc)?,
        })
    }

    /// The term.
    pub fn into_term(self) -> Term
        ensures { result ≡ self }
    {
        let ById { id, term } = self;
        drop(id);
        term
    }
}

/// The id of a node: its IRI, or `_:` and its label; a literal has none.
pub fn id_text(alloc: Global, term: &Term) -> Result<Text, Memory>
    ensures { IfOk result (λ id. id ≡ id_of term.now) }
{
    match term {
        Term::Iri(iri) => iri.copy(alloc),
        Term::Blank(label) => blank_id(alloc, label.as_str()),
        Term::Literal { .. } => Text::of(alloc, ""),
    }
}

fn blank_id(alloc: Global, label: &str) -> Result<Text, Memory>
    ensures { IfOk result (λ id. id ≡ 95 ∷ 58 ∷ label.now) }
{
    let mut id = String::from_str(alloc, "_:")?;
    id.push_str(label)?;
    Text::from_string(id)
}

impl PartialEq for ById {
    ghost use Rattle.std.specs.Ordering.{eq_by_cmp};
    ghost use Rattle.std.specs.Cmp.{partial_equiv_from_equiv};
    ghost use Rattle.def_datasets.specs.Order.{id_cmp};
    ghost use Rattle.lf_order.specs.TotalOrders.{id_equivalence};

    ghost eq = { eq_by_cmp id_cmp };

    ghost laws = { partial_equiv_from_equiv id_equivalence };

    fn eq(&self, other: &ById) -> bool {
        self.cmp(other).is_eq()
    }
}

impl Eq for ById {
    ghost use Rattle.lf_order.specs.TotalOrders.{id_equivalence};

    ghost laws = { id_equivalence };
}

impl PartialOrd for ById {
    ghost use Rattle.std.specs.Ordering.{as_partial_cmp};
    ghost use Rattle.std.specs.Cmp.{partial_order_from_total};
    ghost use Rattle.def_datasets.specs.Order.{id_cmp};
    ghost use Rattle.lf_order.specs.TotalOrders.{id_total};

    ghost partial_cmp = { as_partial_cmp id_cmp };

    ghost laws = { partial_order_from_total id_total };

    fn partial_cmp(&self, other: &ById) -> Option<Ordering> {
        Some(self.cmp(other))
    }
}

impl Ord for ById {
    ghost use Rattle.std.proofs.Common.{refl};
    ghost use Rattle.def_datasets.specs.Order.{id_cmp};
    ghost use Rattle.lf_order.specs.TotalOrders.{id_total};

    ghost cmp = { id_cmp };

    ghost total = { id_total };

    ghost matches_partial_cmp = { λ x y. refl };

    ghost matches_eq = { λ x y. refl };

    fn cmp(&self, other: &ById) -> Ordering {
        self.id
            .cmp(&other.id)
            .then_with(|| by_parts(&self.term, &other.term))
    }
}

/// The terms in order of their ids, each once. It takes n log n comparisons of ids.
pub fn in_id_order(alloc: Global, found: Vec<ById>) -> Result<TermList, Memory>
    ensures { IfOk result (λ terms. terms ≡ set_of id_cmp found.items) }
{
    terms_of(alloc, sorted_set(found)?)
}

// The terms without their ids.
fn terms_of(alloc: Global, by_id: Vec<ById>) -> Result<TermList, Memory>
    ensures { IfOk result (λ terms. terms ≡ by_id.items) }
{
    let mut terms = Vec::with_capacity(alloc, by_id.len())?;
    for one in by_id {
        terms.push(one.into_term())?;
    }
    Ok(TermList::from_vec(terms))
}

/// A term more, where it is a node.
pub fn put_node(alloc: Global, found: &mut Vec<ById>, term: &Term) -> Result<(), Memory>
    ensures { OnOk result (found.new.items ≡ found.old.items ++ filter is_node (term.now ∷ [])) }
{
    if !is_node(term) {
        return Ok(());
    }
    found.push(ById::of(alloc, term)?)?;
    Ok(())
}
