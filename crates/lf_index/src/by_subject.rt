//! Rows in order of subject, graph, predicate and object.
ghost use Rattle.std.specs.Prelude.{◌≡◌};
ghost use Rattle.std.specs.Arc.{arc_value};

use crate::row::Row;
use crate::scan::Keyed;
use lf_base::{Memory, Same};
use std::cmp::Ordering;
use std::marker::Model;
use std::sync::Arc;

/// A row that stands by its subject first.
#[derive(Drop)]
pub struct BySubject {
    /// The number of the row's subject, by which most comparisons are decided without a look at the
    /// row.
    number: u64,
    row: Arc<Row>,
}

impl Model for BySubject {
    ghost use Rattle.std.specs.Arc.{arc_value};
    ghost use Rattle.std.specs.Prelude.{◌≡◌};
    ghost use Rattle.lf_rdf.specs.declared.quad.Quad.{Quad};
    ghost use Rattle.lf_index.specs.Numbers.{number_of};

    ghost Value = { Quad };

    ghost view = { λ k. arc_value k.row };

    ghost invariant = { λ k. k.number ≡ number_of (arc_value k.row).subject };
}

impl BySubject {
    /// The key of a row.
    pub fn of(row: Arc<Row>) -> BySubject
        ensures { result ≡ arc_value row }
    {
        let number = row.subject.number();
        BySubject { number, row }
    }
}

impl Keyed for BySubject {
    ghost quad = { λ q. q };

    fn row(&self) -> &Row {
        &self.row
    }

    fn handle(&self) -> Result<Arc<Row>, Memory> {
        Ok(Arc::try_clone(&self.row)?)
    }
}

impl PartialEq for BySubject {
    ghost use Rattle.std.specs.Ordering.{eq_by_cmp};
    ghost use Rattle.lf_index.specs.Orders.{subject_order};
    ghost use Rattle.lf_index.specs.TotalOrders.{subject_equivalence};
    ghost use Rattle.std.specs.Cmp.{partial_equiv_from_equiv};

    ghost eq = { eq_by_cmp subject_order };

    ghost laws = { partial_equiv_from_equiv subject_equivalence };

    fn eq(&self, other: &BySubject) -> bool {
        self.row.is(&other.row)
    }
}

impl Eq for BySubject {
    ghost use Rattle.lf_index.specs.TotalOrders.{subject_equivalence};

    ghost laws = { subject_equivalence };
}

impl PartialOrd for BySubject {
    ghost use Rattle.std.specs.Ordering.{as_partial_cmp};
    ghost use Rattle.std.specs.Cmp.{partial_order_from_total};
    ghost use Rattle.lf_index.specs.Orders.{subject_order};
    ghost use Rattle.lf_index.specs.TotalOrders.{subject_total};

    ghost partial_cmp = { as_partial_cmp subject_order };

    ghost laws = { partial_order_from_total subject_total };

    fn partial_cmp(&self, other: &BySubject) -> Option<Ordering> {
        Some(self.cmp(other))
    }
}

impl Ord for BySubject {
    ghost use Rattle.std.proofs.Common.{refl};
    ghost use Rattle.lf_index.specs.Orders.{subject_order};
    ghost use Rattle.lf_index.specs.TotalOrders.{subject_total};

    ghost cmp = { subject_order };

    ghost total = { subject_total };

    ghost matches_partial_cmp = { λ x y. refl };

    ghost matches_eq = { λ x y. refl };

    fn cmp(&self, other: &BySubject) -> Ordering {
        match self.number.cmp(&other.number) {
            Ordering::Less => Ordering::Less,
            Ordering::Equal => self.row.subject_order(&other.row),
            Ordering::Greater => Ordering::Greater,
        }
    }
}
