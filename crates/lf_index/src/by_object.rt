//! Rows in order of object, kind, predicate, graph and subject.
ghost use Rattle.std.specs.Prelude.{◌≡◌};
ghost use Rattle.std.specs.Arc.{arc_value};

use crate::row::Row;
use crate::scan::Keyed;
use lf_base::{Memory, Same};
use std::cmp::Ordering;
use std::marker::Model;
use std::sync::Arc;

/// A row that stands by its object first.
#[derive(Drop)]
pub struct ByObject {
    /// The number of the row's object, by which most comparisons are decided without a look at the
    /// row.
    number: u64,
    row: Arc<Row>,
}

impl Model for ByObject {
    ghost use Rattle.std.specs.Arc.{arc_value};
    ghost use Rattle.std.specs.Prelude.{◌≡◌};
    ghost use Rattle.lf_rdf.specs.declared.quad.Quad.{Quad};
    ghost use Rattle.lf_index.specs.Numbers.{number_of};

    ghost Value = { Quad };

    ghost view = { λ k. arc_value k.row };

    ghost invariant = { λ k. k.number ≡ number_of (arc_value k.row).object };
}

impl ByObject {
    /// The key of a row.
    pub fn of(row: Arc<Row>) -> ByObject
        ensures { result ≡ arc_value row }
    {
        let number = row.object.number();
        ByObject { number, row }
    }

    /// How two keys stand by the numbers of their objects and predicates. It reads no text, and
    /// decides most of their order.
    pub fn order_by_numbers(&self, other: &ByObject) -> Ordering {
        self.number.cmp(&other.number).then_with(|| {
            self.row
                .predicate
                .number()
                .cmp(&other.row.predicate.number())
        })
    }
}

impl Keyed for ByObject {
    ghost quad = { λ q. q };

    fn row(&self) -> &Row {
        &self.row
    }

    fn handle(&self) -> Result<Arc<Row>, Memory> {
        Ok(Arc::try_clone(&self.row)?)
    }
}

impl PartialEq for ByObject {
    ghost use Rattle.std.specs.Ordering.{eq_by_cmp};
    ghost use Rattle.lf_index.specs.Orders.{object_order};
    ghost use Rattle.lf_index.specs.TotalOrders.{object_equivalence};
    ghost use Rattle.std.specs.Cmp.{partial_equiv_from_equiv};

    ghost eq = { eq_by_cmp object_order };

    ghost laws = { partial_equiv_from_equiv object_equivalence };

    fn eq(&self, other: &ByObject) -> bool {
        self.row.is(&other.row)
    }
}

impl Eq for ByObject {
    ghost use Rattle.lf_index.specs.TotalOrders.{object_equivalence};

    ghost laws = { object_equivalence };
}

impl PartialOrd for ByObject {
    ghost use Rattle.std.specs.Ordering.{as_partial_cmp};
    ghost use Rattle.std.specs.Cmp.{partial_order_from_total};
    ghost use Rattle.lf_index.specs.Orders.{object_order};
    ghost use Rattle.lf_index.specs.TotalOrders.{object_total};

    ghost partial_cmp = { as_partial_cmp object_order };

    ghost laws = { partial_order_from_total object_total };

    fn partial_cmp(&self, other: &ByObject) -> Option<Ordering> {
        Some(self.cmp(other))
    }
}

impl Ord for ByObject {
    ghost use Rattle.std.proofs.Common.{refl};
    ghost use Rattle.lf_index.specs.Orders.{object_order};
    ghost use Rattle.lf_index.specs.TotalOrders.{object_total};

    ghost cmp = { object_order };

    ghost total = { object_total };

    ghost matches_partial_cmp = { λ x y. refl };

    ghost matches_eq = { λ x y. refl };

    fn cmp(&self, other: &ByObject) -> Ordering {
        match self.number.cmp(&other.number) {
            Ordering::Less => Ordering::Less,
            Ordering::Equal => self.row.object_order(&other.row),
            Ordering::Greater => Ordering::Greater,
        }
    }
}
