//! The first quads of an index, whose orders are sorted at once.
ghost use Rattle.std.specs.Prelude.{◌≡◌, Bool, IfOk, map};
ghost use Rattle.std.specs.Arc.{arc_value};
ghost use Rattle.std.specs.List.{flat_map, list_any};
ghost use Rattle.std.specs.List.Sorted.{IsStrictlySortedBy};
ghost use Rattle.lf_rdf.specs.declared.quad.Quad.{Quad};
ghost use Rattle.def_datasets.specs.Dataset.{additions, dataset_of};
ghost use Rattle.def_datasets.specs.Terms.{label_terms};
ghost use Rattle.lf_ptree.specs.Pairs.{keys};

use crate::by_graph::ByGraph;
use crate::by_object::ByObject;
use crate::by_subject::BySubject;
use crate::index::Index;
use crate::recent::Recent;
use crate::row::Row;
use crate::scan::Keyed;
use crate::shared::Shared;
use lf_base::Memory;
use lf_order::sorted_set;
use lf_ptree::PMap;
use lf_rdf::Signed;
use std::alloc::Global;
use std::sync::Arc;

/// The index of the quads that lines add.
pub fn index_of_added(alloc: Global, lines: &[Signed]) -> Result<Index, Memory>
    ensures { IfOk result (λ index. index ≡ dataset_of (additions lines.now)) }
{
    let rows = rows_added(alloc, lines)?;
    let names = sorted_set(labels(alloc, rows.as_slice())?)?;
    let subjects = sorted_set(keys_by_subject(alloc, rows)?)?;
    let objects = sorted_set(by_numbers(keys_by_object(alloc, subjects.as_slice())?)?)?;
    let graphs = sorted_set(keys_by_graph(alloc, subjects.as_slice())?)?;
    let count = subjects.len() as u64;
    Ok(Index {
        by_subject: set_of_keys(alloc, subjects)?,
        by_object: set_of_keys(alloc, objects)?,
        by_graph: set_of_keys(alloc, graphs)?,
        names: set_of_keys(alloc, names)?,
        count,
    })
}

// The rows of the quads that lines add.
fn rows_added(alloc: Global, lines: &[Signed]) -> Result<Vec<Arc<Row>>, Memory>
    ensures { IfOk result (λ rows. map arc_value rows.items ≡ additions lines.now) }
{
    let mut recent = Recent::of(alloc, lines.len())?;
    let mut rows = Vec::new(alloc);
    for line in lines {
        if line.add {
            let row = Row::through(alloc, &mut recent, &line.quad)?;
            rows.push(Arc::new(alloc, row)?)?;
        }
    }
    Ok(rows)
}

fn keys_by_subject(alloc: Global, rows: Vec<Arc<Row>>) -> Result<Vec<BySubject>, Memory>
    ensures { IfOk result (λ keys. keys.items ≡ map arc_value rows.items) }
{
    let mut keys = Vec::with_capacity(alloc, rows.len())?;
    for row in rows {
        keys.push(BySubject::of(row))?;
    }
    Ok(keys)
}

fn keys_by_object(alloc: Global, subjects: &[BySubject]) -> Result<Vec<ByObject>, Memory>
    ensures { IfOk result (λ keys. keys.items ≡ subjects.now) }
{
    let mut keys = Vec::with_capacity(alloc, subjects.len())?;
    for key in subjects {
        keys.push(ByObject::of(key.handle()?))?;
    }
    Ok(keys)
}

// Keys that come in order of subjects, nearly in order of objects. A sort reads the texts of all
// that it compares whose objects have one number, and many quads may have one object; behind this
// one it only goes over the keys.
fn by_numbers(keys: Vec<ByObject>) -> Result<Vec<ByObject>, Memory>
    ensures { IfOk result
        (λ made. (test : Quad → Bool) → list_any test made.items ≡ list_any test keys.items) }
{
    let mut made = keys;
    made.sort_by(|one, two| one.order_by_numbers(two))?;
    Ok(made)
}

// Keys that come in order of subjects. In each graph they stand so already, and a sort finds this
// out by going over them.
fn keys_by_graph(alloc: Global, subjects: &[BySubject]) -> Result<Vec<ByGraph>, Memory>
    ensures { IfOk result (λ keys. keys.items ≡ subjects.now) }
{
    let mut keys = Vec::with_capacity(alloc, subjects.len())?;
    for key in subjects {
        keys.push(ByGraph::of(key.handle()?))?;
    }
    Ok(keys)
}

// The graph labels of rows.
fn labels(alloc: Global, rows: &[Arc<Row>]) -> Result<Vec<Shared>, Memory>
    ensures { IfOk result
        (λ names. names.items ≡ flat_map (λ q. label_terms q.graph) (map arc_value rows.now)) }
{
    let mut names = Vec::new(alloc);
    for row in rows {
        if let Some(name) = &row.graph {
            names.push(name.share()?)?;
        }
    }
    Ok(names)
}

// The set of keys that stand in order.
fn set_of_keys<K: Ord + Drop>(alloc: Global, sorted: Vec<K>) -> Result<PMap<K, ()>, Memory>
    requires { IsStrictlySortedBy K.cmp sorted.items }
    ensures { IfOk result (λ made. keys made ≡ sorted.items) }
{
    let mut pairs = Vec::with_capacity(alloc, sorted.len())?;
    for key in sorted {
        pairs.push((key, ()))?;
    }
    PMap::from_sorted(alloc, pairs)
}
