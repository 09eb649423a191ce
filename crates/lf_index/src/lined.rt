//! Rows of an answer with their canonical lines, and the answer in line order.
ghost use Rattle.std.specs.Prelude.{◌≡◌, IfOk};
ghost use Rattle.std.specs.Arc.{arc_value};
ghost use Rattle.def_datasets.specs.Dataset.{dataset_of};

use crate::lines::line_of;
use crate::near::{Chunked, chunk_of, chunks_of, nearly_sorted};
use crate::parts::rows_by_parts;
use crate::row::Row;
use lf_base::{Memory, Same};
use lf_order::sorted_set;
use lf_rdf::{Quad, QuadList};
use std::alloc::Global;
use std::cmp::Ordering;
use std::marker::Model;
use std::sync::Arc;

/// A row with its canonical line.
#[derive(Drop)]
pub struct Lined {
    line: Vec<u8>,
    row: Arc<Row>,
}

impl Model for Lined {
    ghost use Rattle.std.specs.Prelude.{◌≡◌};
    ghost use Rattle.std.specs.Arc.{arc_value};
    ghost use Rattle.lf_rdf.specs.declared.quad.Quad.{Quad};
    ghost use Rattle.lf_rdf.specs.Canonical.{line as line_of_quad};

    ghost Value = { Quad };

    ghost view = { λ l. arc_value l.row };

    ghost invariant = { λ l. l.line.items ≡ line_of_quad (arc_value l.row) };
}

impl Lined {
    /// A row with its line.
    pub fn of(alloc: Global, row: Arc<Row>) -> Result<Lined, Memory>
        ensures { IfOk result (λ lined. lined ≡ arc_value row) }
    {
        let line = line_of(alloc, &row)?;
        Ok(Lined { line, row })
    }

    // The quad of the row.
    fn quad(&self, alloc: Global) -> Result<Quad, Memory>
        ensures { IfOk result (λ quad. quad ≡ self.now) }
    {
        self.row.quad(alloc)
    }
}

// By the bytes of the line.
impl Chunked for Lined {
    fn chunk(&self, place: usize) -> u64 {
        chunk_of(self.line.as_slice(), place)
    }

    fn chunks(&self) -> usize {
        chunks_of(self.line.as_slice())
    }
}

impl PartialEq for Lined {
    ghost use Rattle.std.specs.Ordering.{eq_by_cmp};
    ghost use Rattle.std.specs.Cmp.{partial_equiv_from_equiv};
    ghost use Rattle.def_datasets.specs.Order.{quad_cmp};
    ghost use Rattle.lf_index.specs.TotalOrders.{quad_equivalence};

    ghost eq = { eq_by_cmp quad_cmp };

    ghost laws = { partial_equiv_from_equiv quad_equivalence };

    fn eq(&self, other: &Lined) -> bool {
        self.row.is(&other.row)
    }
}

impl Eq for Lined {
    ghost use Rattle.lf_index.specs.TotalOrders.{quad_equivalence};

    ghost laws = { quad_equivalence };
}

impl PartialOrd for Lined {
    ghost use Rattle.std.specs.Ordering.{as_partial_cmp};
    ghost use Rattle.std.specs.Cmp.{partial_order_from_total};
    ghost use Rattle.def_datasets.specs.Order.{quad_cmp};
    ghost use Rattle.lf_index.specs.TotalOrders.{quad_total};

    ghost partial_cmp = { as_partial_cmp quad_cmp };

    ghost laws = { partial_order_from_total quad_total };

    fn partial_cmp(&self, other: &Lined) -> Option<Ordering> {
        Some(self.cmp(other))
    }
}

impl Ord for Lined {
    ghost use Rattle.std.proofs.Common.{refl};
    ghost use Rattle.def_datasets.specs.Order.{quad_cmp};
    ghost use Rattle.lf_index.specs.TotalOrders.{quad_total};

    ghost cmp = { quad_cmp };

    ghost total = { quad_total };

    ghost matches_partial_cmp = { λ x y. refl };

    ghost matches_eq = { λ x y. refl };

    fn cmp(&self, other: &Lined) -> Ordering {
        self.line
            .as_slice()
            .cmp(other.line.as_slice())
            .then_with(|| rows_by_parts(&self.row, &other.row))
    }
}

/// The quads in line order, each once. For n quads it takes n log n comparisons of numbers, and
/// goes over the lines.
pub fn in_line_order(alloc: Global, found: Vec<Lined>) -> Result<QuadList, Memory>
    ensures { IfOk result (λ quads. quads ≡ dataset_of found.items) }
{
    let lined = sorted_set(nearly_sorted(alloc, found)?)?;
    quads_of(alloc, lined.as_slice())
}

// The quads without their lines.
fn quads_of(alloc: Global, lined: &[Lined]) -> Result<QuadList, Memory>
    ensures { IfOk result (λ quads. quads ≡ lined.now) }
{
    let mut quads = Vec::with_capacity(alloc, lined.len())?;
    for one in lined {
        quads.push(one.quad(alloc)?)?;
    }
    Ok(QuadList::from_vec(quads))
}
