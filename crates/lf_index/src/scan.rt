//! Scans of the rows of an order, from a place on as far as a question reaches.
ghost use Rattle.std.specs.Arc.{arc_value};
ghost use Rattle.std.specs.Prelude.{◌≡◌, ◌++◌, IfOk, OnOk, map};
ghost use Rattle.def_datasets.specs.Questions.{nodes_in};
ghost use Rattle.lf_ptree.specs.Ranges.{pairs_left};
ghost use Rattle.lf_index.specs.Reach.{nodes_reached, reached};

use crate::lined::Lined;
use crate::nodes::put_node;
use crate::reach::{reaches, tells_type};
use crate::row::Row;
use crate::shared::Shared;
use lf_base::Memory;
use lf_ptree::Pairs;
use lf_rdf::Question;
use std::alloc::Global;
use std::sync::Arc;

/// A key that holds a row.
pub trait Keyed {
    ghost use Rattle.lf_rdf.specs.declared.quad.Quad.{Quad};

    /// The quad of the row.
    ghost quad: { Self → Quad };

    /// The row.
    fn row(&self) -> &Row
        ensures { result.now ≡ quad self.now };

    /// A handle of the row.
    fn handle(&self) -> Result<Arc<Row>, Memory>
        ensures { IfOk result (λ row. arc_value row ≡ quad self.now) };
}

/// The quads of a scan for a question.
pub fn quads_reached<K: Keyed>(
    alloc: Global,
    pairs: Pairs<'_, K, ()>,
    question: &Question,
) -> Result<Vec<Lined>, Memory>
    ensures { IfOk result (λ found.
        found.items ≡ reached question.now (map (λ e. K.quad e.0) (pairs_left pairs.entry))) }
{
    let mut found = Vec::new(alloc);
    for pair in pairs {
        let row = pair.0.row();
        if !reaches(question, row) {
            return Ok(found);
        }
        found.push(Lined::of(alloc, pair.0.handle()?)?)?;
    }
    Ok(found)
}

/// The nodes of the quads of a scan.
pub fn nodes_reached<K: Keyed>(
    alloc: Global,
    pairs: Pairs<'_, K, ()>,
    question: &Question,
) -> Result<Vec<Shared>, Memory>
    ensures { IfOk result (λ found.
        found.items
        ≡ nodes_reached question.now (map (λ e. K.quad e.0) (pairs_left pairs.entry))) }
{
    let mut found = Vec::new(alloc);
    for pair in pairs {
        let row = pair.0.row();
        if !reaches(question, row) {
            return Ok(found);
        }
        put_nodes(&mut found, row)?;
    }
    Ok(found)
}

// The nodes that a quad puts into its graph.
fn put_nodes(found: &mut Vec<Shared>, row: &Row) -> Result<(), Memory>
    ensures { OnOk result (found.new.items ≡ found.old.items ++ nodes_in row.now) }
{
    put_node(found, &row.subject)?;
    if tells_type(row) {
        return Ok(());
    }
    put_node(found, &row.object)
}
