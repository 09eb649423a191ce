//! Where the scan for a question begins: at the least row with the terms that the question names.
ghost use Rattle.std.specs.Prelude.{◌≡◌, IfOk};
ghost use Rattle.std.specs.Option.{option_copied};
ghost use Rattle.lf_index.specs.Low.{lowest_graph, lowest_object, lowest_subject};

use crate::by_graph::ByGraph;
use crate::by_object::ByObject;
use crate::by_subject::BySubject;
use crate::row::{Row, shared_label};
use crate::shared::{Shared, least};
use lf_base::Memory;
use lf_rdf::Term;
use std::alloc::Global;
use std::sync::Arc;

/// The least row with a subject and a graph label.
pub fn lowest_subject(
    alloc: Global,
    subject: &Term,
    label: Option<&Term>,
) -> Result<BySubject, Memory>
    ensures { IfOk result (λ low. low ≡ lowest_subject subject.now (option_copied label.entry)) }
{
    let row = Row {
        subject: Shared::of(alloc, subject)?,
        predicate: least(alloc)?,
        object: least(alloc)?,
        graph: shared_label(alloc, label)?,
    };
    Ok(BySubject::of(Arc::new(alloc, row)?))
}

/// The least row with an object, a predicate and a graph label.
pub fn lowest_object(
    alloc: Global,
    object: &Term,
    predicate: Shared,
    label: Option<&Term>,
) -> Result<ByObject, Memory>
    ensures { IfOk result (λ low. low ≡ lowest_object object.now predicate (option_copied label.entry)) }
{
    let row = Row {
        subject: least(alloc)?,
        predicate,
        object: Shared::of(alloc, object)?,
        graph: shared_label(alloc, label)?,
    };
    Ok(ByObject::of(Arc::new(alloc, row)?))
}

/// The least row with a graph label.
pub fn lowest_graph(alloc: Global, label: Option<&Term>) -> Result<ByGraph, Memory>
    ensures { IfOk result (λ low. low ≡ lowest_graph (option_copied label.entry)) }
{
    let row = Row {
        subject: least(alloc)?,
        predicate: least(alloc)?,
        object: least(alloc)?,
        graph: shared_label(alloc, label)?,
    };
    Ok(ByGraph::of(Arc::new(alloc, row)?))
}
