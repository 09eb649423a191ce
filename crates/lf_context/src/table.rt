//! Term definitions that are looked up by name.
ghost use Rattle.std.specs.Prelude.{◌≡◌, IfOk, OnErr, IsTrue, None, slice_get};
ghost use Rattle.std.specs.Ordering.{nat_cmp};
ghost use Rattle.std.specs.Cmp.Lexicographic.{slice_cmp};
ghost use Rattle.def_contexts.specs.Expansion.{find_term};
ghost use Rattle.def_contexts.specs.TableLaws.{ascends};

use crate::draft::Drafted;
use lf_base::Text;
use lf_model::{TermDef, TermTable};
use std::cmp::Ordering;

/// Term definitions by name.
pub trait Terms {
    ghost use Rattle.std.specs.Prelude.{◌≡◌, List};
    ghost use Rattle.std.specs.Option.{option_copied};
    ghost use Rattle.lf_model.specs.declared.table.TermDef.{TermDef};
    ghost use Rattle.def_contexts.specs.Expansion.{find_term};

    ghost terms: { Self → List TermDef };

    /// What must hold for a look-up.
    ghost is_ready: { Self → Type 0 };

    /// The definition of a name.
    fn find(&self, name: &Text) -> Option<&TermDef>
        requires { is_ready self.now }
        ensures { option_copied result ≡ find_term name.now (terms self.now) };
}

impl Terms for Drafted {
    ghost use Rattle.lf_context.specs.DraftView.{table_in};

    ghost terms = { λ draft. (table_in draft).terms };

    ghost is_ready = { λ _. Unit {0} };

    fn find(&self, name: &Text) -> Option<&TermDef> {
        self.terms.get(name)
    }
}

impl Terms for TermTable {
    ghost use Rattle.std.specs.Prelude.{IsTrue};
    ghost use Rattle.def_contexts.specs.TableLaws.{ascends};

    ghost terms = { λ table. table.terms };

    ghost is_ready = { λ table. IsTrue (ascends table.terms) };

    fn find(&self, name: &Text) -> Option<&TermDef> {
        match place_of(self.terms.as_slice(), name) {
            Ok(place) => self.terms.at(place as u64),
            Err(_) => None,
        }
    }
}

// Where the definition of a name stands among definitions in byte order of their names, or would
// stand.
fn place_of(terms: &[TermDef], name: &Text) -> Result<usize, usize>
    requires { IsTrue (ascends terms.now) }
    ensures found { IfOk result (λ place. slice_get terms.now place ≡ find_term name.now terms.now) }
    ensures absent { OnErr result (find_term name.now terms.now ≡ None) }
{
    terms.binary_search_by(|term| order_beside(term, name))
}

// How the definition's name stands to a name.
fn order_beside(term: &TermDef, name: &Text) -> Ordering
    ensures { result ≡ slice_cmp nat_cmp term.now.name name.now }
{
    term.name.as_str().cmp(name.as_str())
}
