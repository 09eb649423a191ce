//! Rows in order of graph, subject, predicate and object.
ghost use Rattle.std.specs.Prelude.{◌≡◌};
ghost use Rattle.std.specs.Arc.{arc_value};

use crate::row::Row;
use crate::scan::Keyed;
use lf_base::{Memory, Same};
use std::cmp::Ordering;
use std::marker::Model;
use std::sync::Arc;

/// A row that stands by its graph first.
#[derive(Drop)]
pub struct ByGraph {
    row: Arc<Row>,
}

impl Model for ByGraph {
    ghost use Rattle.std.specs.Arc.{arc_value};
    ghost use Rattle.lf_rdf.specs.declared.quad.Quad.{Quad};

    ghost Value = { Quad };

    ghost view = { λ k. arc_value k.row };
}

impl ByGraph {
    /// The key of a row.
    pub fn of(row: Arc<Row>) -> ByGraph
        ensures { result ≡ arc_value row }
    {
        ByGraph { row }
    }
}

impl Keyed for ByGraph {
    ghost quad = { λ q. q };

    fn row(&self) -> &Row {
        &self.row
    }

    fn handle(&self) -> Result<Arc<Row>, Memory> {
        Ok(Arc::try_clone(&self.row)?)
    }
}

impl PartialEq for ByGraph {
    ghost use Rattle.std.specs.Ordering.{eq_by_cmp};
    ghost use Rattle.lf_index.specs.Orders.{graph_order};
    ghost use Rattle.lf_index.specs.TotalOrders.{graph_equivalence};
    ghost use Rattle.std.specs.Cmp.{partial_equiv_from_equiv};

    ghost eq = { eq_by_cmp graph_order };

    ghost laws = { partial_equiv_from_equiv graph_equivalence };

    fn eq(&self, other: &ByGraph) -> bool {
        self.row.is(&other.row)
    }
}

impl Eq for ByGraph {
    ghost use Rattle.lf_index.specs.TotalOrders.{graph_equivalence};

    ghost laws = { graph_equivalence };
}

impl PartialOrd for ByGraph {
    ghost use Rattle.std.specs.Ordering.{as_partial_cmp};
    ghost use Rattle.std.specs.Cmp.{partial_order_from_total};
    ghost use Rattle.lf_index.specs.Orders.{graph_order};
    ghost use Rattle.lf_index.specs.TotalOrders.{graph_total};

    ghost partial_cmp = { as_partial_cmp graph_order };

    ghost laws = { partial_order_from_total graph_total };

    fn partial_cmp(&self, other: &ByGraph) -> Option<Ordering> {
        Some(self.cmp(other))
    }
}

impl Ord for ByGraph {
    ghost use Rattle.std.proofs.Common.{refl};
    ghost use Rattle.lf_index.specs.Orders.{graph_order};
    ghost use Rattle.lf_index.specs.TotalOrders.{graph_total};

    ghost cmp = { graph_order };

    ghost total = { graph_total };

    ghost matches_partial_cmp = { λ x y. refl };

    ghost matches_eq = { λ x y. refl };

    fn cmp(&self, other: &ByGraph) -> Ordering {
        self.row.graph_order(&other.row)
    }
}
