//! The order of quads by the kinds and texts of their terms, which tells any two apart.
ghost use Rattle.std.specs.Prelude.{◌≡◌};
ghost use Rattle.def_datasets.specs.Order.{label_parts, parts_cmp, parts_order};

use crate::row::Row;
use crate::shared::Shared;
use lf_order::by_parts;
use std::cmp::Ordering;

// How two graph labels stand by kind and texts, the default graph first.
fn labels_by_parts(one: &Option<Shared>, two: &Option<Shared>) -> Ordering
    ensures { result ≡ parts_cmp (label_parts one.now) (label_parts two.now) }
{
    match one {
        None => match two {
            None => Ordering::Equal,
            Some(_) => Ordering::Less,
        },
        Some(name) => match two {
            None => Ordering::Greater,
            Some(other) => by_parts(name.term(), other.term()),
        },
    }
}

/// How the quads of two rows stand by their terms.
pub fn rows_by_parts(one: &Row, two: &Row) -> Ordering
    ensures { result ≡ parts_order one.now two.now }
{
    by_parts(one.subject.term(), two.subject.term()).then(by_parts(
        one.predicate.term(),
        two.predicate.term(),
    ).then(by_parts(one.object.term(), two.object.term()).then(labels_by_parts(
        &one.graph, &two.graph,
    ))))
}
