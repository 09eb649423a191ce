//! The four shared terms of a quad, and how two rows stand in each order.
ghost use Rattle.std.specs.Prelude.{◌≡◌, IfOk, IsTrue};
ghost use Rattle.std.specs.Option.{option_copied};
ghost use Rattle.lf_index.specs.Orders.{graph_order, kinds, object_order, subject_order};

use crate::reach::tells_type;
use crate::recent::Recent;
use crate::shared::{Shared, label_order};
use lf_base::{Memory, Same, TryCopy};
use lf_rdf::{Quad, Term};
use std::alloc::Global;
use std::cmp::Ordering;
use std::marker::Model;

/// A quad whose terms are shared. It stands in all orders of all versions that have it.
#[derive(Drop)]
pub struct Row {
    pub subject: Shared,
    pub predicate: Shared,
    pub object: Shared,
    pub graph: Option<Shared>,
}

impl Model for Row {
    ghost use Rattle.lf_rdf.specs.declared.quad.Quad.{Quad};

    ghost Value = { Quad };

    ghost view = { λ r. record { subject = r.subject; predicate = r.predicate; object = r.object; graph = r.graph } };
}

impl Row {
    /// The row of a quad.
    pub fn of(alloc: Global, quad: &Quad) -> Result<Row, Memory>
        ensures { IfOk result (λ row. row ≡ quad.now) }
    {
        Ok(Row {
            subject: Shared::of(alloc, &quad.subject)?,
            predicate: Shared::of(alloc, &quad.predicate)?,
            object: Shared::of(alloc, &quad.object)?,
            graph: shared_label(alloc, quad.graph.as_ref())?,
        })
    }

    /// The row of a quad, whose terms are shared with other rows where they came lately.
    pub fn through(alloc: Global, recent: &mut Recent, quad: &Quad) -> Result<Row, Memory>
        ensures { IfOk result (λ row. row ≡ quad.now) }
    {
        Ok(Row {
            subject: recent.shared(alloc, &quad.subject)?,
            predicate: recent.shared(alloc, &quad.predicate)?,
            object: recent.shared(alloc, &quad.object)?,
            graph: recent_label(alloc, recent, &quad.graph)?,
        })
    }

    /// The quad.
    pub fn quad(&self, alloc: Global) -> Result<Quad, Memory>
        ensures { IfOk result (λ quad. quad ≡ self.now) }
    {
        Ok(Quad {
            subject: self.subject.term().copy(alloc)?,
            predicate: self.predicate.term().copy(alloc)?,
            object: self.object.term().copy(alloc)?,
            graph: label(alloc, &self.graph)?,
        })
    }

    /// By subject, graph, predicate and object.
    pub fn subject_order(&self, other: &Row) -> Ordering
        ensures { result ≡ subject_order self.now other.now }
    {
        self.subject
            .order(&other.subject)
            .then_with(|| label_order(&self.graph, &other.graph))
            .then_with(|| self.predicate.order(&other.predicate))
            .then_with(|| self.object.order(&other.object))
    }

    /// By object, kind, predicate, graph and subject.
    pub fn object_order(&self, other: &Row) -> Ordering
        ensures { result ≡ object_order self.now other.now }
    {
        self.object
            .order(&other.object)
            .then_with(|| kind_order(self, other))
            .then_with(|| self.predicate.order(&other.predicate))
            .then_with(|| label_order(&self.graph, &other.graph))
            .then_with(|| self.subject.order(&other.subject))
    }

    /// By graph, subject, predicate and object.
    pub fn graph_order(&self, other: &Row) -> Ordering
        ensures { result ≡ graph_order self.now other.now }
    {
        label_order(&self.graph, &other.graph)
            .then_with(|| self.subject.order(&other.subject))
            .then_with(|| self.predicate.order(&other.predicate))
            .then_with(|| self.object.order(&other.object))
    }
}

impl Same for Row {
    fn is(&self, other: &Row) -> bool {
        numbers_agree(self, other)
            && self.subject.is(&other.subject)
            && self.predicate.is(&other.predicate)
            && self.object.is(&other.object)
            && self.graph.is(&other.graph)
    }
}

// Whether the numbers of the terms of two rows agree, as those of equal rows do. It reads no text.
fn numbers_agree(one: &Row, two: &Row) -> bool
    ensures { one.now ≡ two.now → IsTrue result }
{
    one.object.number() == two.object.number()
        && one.predicate.number() == two.predicate.number()
        && one.subject.number() == two.subject.number()
}

// How two rows stand by whether they tell a type: those that don't come first.
fn kind_order(one: &Row, two: &Row) -> Ordering
    ensures { result ≡ kinds one.now two.now }
{
    tells_type(one).cmp(&tells_type(two))
}

/// A shared label, where there is one.
pub fn shared_label(alloc: Global, label: Option<&Term>) -> Result<Option<Shared>, Memory>
    ensures { IfOk result (λ shared. shared ≡ option_copied label.entry) }
{
    match label {
        Some(name) => Ok(Some(Shared::of(alloc, name)?)),
        None => Ok(None),
    }
}

// A shared label, where there is one.
fn recent_label(
    alloc: Global,
    recent: &mut Recent,
    label: &Option<Term>,
) -> Result<Option<Shared>, Memory>
    ensures { IfOk result (λ shared. shared ≡ label.now) }
{
    match label {
        Some(name) => Ok(Some(recent.shared(alloc, name)?)),
        None => Ok(None),
    }
}

// A copy of a label, where there is one.
fn label(alloc: Global, shared: &Option<Shared>) -> Result<Option<Term>, Memory>
    ensures { IfOk result (λ label. label ≡ shared.now) }
{
    match shared {
        Some(name) => Ok(Some(name.term().copy(alloc)?)),
        None => Ok(None),
    }
}
