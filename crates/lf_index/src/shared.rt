//! Terms that the rows of all versions share, each with a number by which most comparisons are
//! decided.
ghost use Rattle.std.specs.Prelude.{◌≡◌, ◌<◌, [], IfOk};
ghost use Rattle.lf_rdf.specs.declared.term.Term.TheVariants.{Iri};
ghost use Rattle.def_datasets.specs.Order.{parts_cmp, term_parts};
ghost use Rattle.lf_index.specs.Numbers.{mixed, number_of};
ghost use Rattle.lf_index.specs.Orders.{label_order, term_order};

use lf_base::{Memory, Same, Text, TryCopy};
use lf_order::by_parts;
use lf_rdf::Term;
use std::alloc::Global;
use std::cmp::Ordering;
use std::marker::Model;
use std::sync::Arc;

// The prime of the hash FNV-1 for 32 bits.
const FACTOR: u64 = 16777619;

// Numbers are below it, so that a step fits 64 bits.
const MODULUS: u64 = 4294967296;

/// A handle of a term, with its number. A copy costs a count.
#[derive(Drop)]
pub struct Shared {
    /// The FNV hash of the term's first text, 32 bits long.
    number: u64,
    term: Arc<Term>,
}

impl Model for Shared {
    ghost use Rattle.std.specs.Prelude.{◌≡◌};
    ghost use Rattle.std.specs.Arc.{arc_value};
    ghost use Rattle.lf_rdf.specs.declared.term.Term.{Term};
    ghost use Rattle.lf_index.specs.Numbers.{number_of};

    ghost Value = { Term };

    ghost view = { λ s. arc_value s.term };

    ghost invariant = { λ s. s.number ≡ number_of (arc_value s.term) };
}

impl Shared {
    /// A handle of a new copy of a term.
    pub fn of(alloc: Global, term: &Term) -> Result<Shared, Memory>
        ensures { IfOk result (λ shared. shared ≡ term.now) }
    {
        Shared::numbered(alloc, term, number_of(term))
    }

    /// A handle of a new copy of a term, whose number is known.
    pub fn numbered(alloc: Global, term: &Term, number: u64) -> Result<Shared, Memory>
        requires { number ≡ number_of term.now }
        ensures { IfOk result (λ shared. shared ≡ term.now) }
    {
        Ok(Shared {
            number,
            term: Arc::new(alloc, term.copy(alloc)?)?,
        })
    }

    /// The number of the term.
    pub fn number(&self) -> u64
        ensures { result ≡ number_of self.now }
    {
        self.number
    }

    /// The same term.
    pub fn share(&self) -> Result<Shared, Memory>
        ensures { IfOk result (λ shared. shared ≡ self.now) }
    {
        Ok(Shared {
            number: self.number,
            term: Arc::try_clone(&self.term)?,
        })
    }

    /// The term.
    pub fn term(&self) -> &Term
        ensures { result.now ≡ self.now }
    {
        &self.term
    }

    /// How two terms stand by their numbers, and then by their parts.
    pub fn order(&self, other: &Shared) -> Ordering
        ensures { result ≡ term_order self.now other.now }
    {
        self.number
            .cmp(&other.number)
            .then_with(|| by_texts(&self.term, &other.term))
    }
}

// How two terms of one number stand by their parts. Mostly they are equal, and equality takes less
// time than order.
#[tactic(auto, using(crate::proofs::OrderLemmas::parts_tie))]
fn by_texts(one: &Term, two: &Term) -> Ordering
    ensures { result ≡ parts_cmp (term_parts one.now) (term_parts two.now) }
{
    if one.is(two) {
        return Ordering::Equal;
    }
    by_parts(one, two)
}

impl Same for Shared {
    fn is(&self, other: &Shared) -> bool {
        self.number == other.number && self.term.is(&other.term)
    }
}

impl PartialEq for Shared {
    ghost use Rattle.std.specs.Ordering.{eq_by_cmp};
    ghost use Rattle.std.specs.Cmp.{partial_equiv_from_equiv};
    ghost use Rattle.lf_index.specs.Orders.{term_order};
    ghost use Rattle.lf_index.specs.TotalOrders.{term_equivalence};

    ghost eq = { eq_by_cmp term_order };

    ghost laws = { partial_equiv_from_equiv term_equivalence };

    fn eq(&self, other: &Shared) -> bool {
        self.is(other)
    }
}

impl Eq for Shared {
    ghost use Rattle.lf_index.specs.TotalOrders.{term_equivalence};

    ghost laws = { term_equivalence };
}

impl PartialOrd for Shared {
    ghost use Rattle.std.specs.Ordering.{as_partial_cmp};
    ghost use Rattle.std.specs.Cmp.{partial_order_from_total};
    ghost use Rattle.lf_index.specs.Orders.{term_order};
    ghost use Rattle.lf_index.specs.TotalOrders.{term_total};

    ghost partial_cmp = { as_partial_cmp term_order };

    ghost laws = { partial_order_from_total term_total };

    fn partial_cmp(&self, other: &Shared) -> Option<Ordering> {
        Some(self.order(other))
    }
}

impl Ord for Shared {
    ghost use Rattle.std.proofs.Common.{refl};
    ghost use Rattle.lf_index.specs.Orders.{term_order};
    ghost use Rattle.lf_index.specs.TotalOrders.{term_total};

    ghost cmp = { term_order };

    ghost total = { term_total };

    ghost matches_partial_cmp = { λ x y. refl };

    ghost matches_eq = { λ x y. refl };

    fn cmp(&self, other: &Shared) -> Ordering {
        self.order(other)
    }
}

/// How two graph labels stand, the default graph first.
pub fn label_order(one: &Option<Shared>, two: &Option<Shared>) -> Ordering
    ensures { result ≡ label_order one.now two.now }
{
    match one {
        None => match two {
            None => Ordering::Equal,
            Some(_) => Ordering::Less,
        },
        Some(name) => match two {
            None => Ordering::Greater,
            Some(other) => name.order(other),
        },
    }
}

/// The number of a term.
pub fn number_of(term: &Term) -> u64
    ensures { result ≡ number_of term.now }
{
    match term {
        Term::Iri(iri) => mixed(0, iri.as_str().as_bytes()),
        Term::Blank(label) => mixed(1, label.as_str().as_bytes()),
        Term::Literal { lexical, .. } => mixed(2, lexical.as_str().as_bytes()),
    }
}

// A number and the bytes of a text.
#[tactic(auto, unfolding(crate::specs::Numbers::mixed))]
fn mixed(first: u64, text: &[u8]) -> u64
    requires { first < 4294967296 }
    ensures { result ≡ mixed first text.now }
{
    let mut number = first;
    for byte in text {
        number = (number * FACTOR + u64::from(*byte)) % MODULUS;
    }
    number
}

/// The least term: the empty IRI. It stands before every term, so a row with it begins the rows of
/// its other terms.
pub fn least(alloc: Global) -> Result<Shared, Memory>
    ensures { IfOk result (λ shared. shared ≡ Iri []) }
{
    let term = Term::Iri(Text::of(alloc, "")?);
    Ok(Shared {
        number: number_of(&term),
        term: Arc::new(alloc, term)?,
    })
}
