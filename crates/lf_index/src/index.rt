//! The index that callers see: three orders of one version's quads, and the names of its graphs.
ghost use Rattle.std.specs.Prelude.{◌≡◌, [], ◌∷◌, true, false, length, IfOk, IsTrue};
ghost use Rattle.lf_rdf.specs.Equality.{quad_eq};
ghost use Rattle.def_datasets.specs.Sorted.{without};
ghost use Rattle.def_datasets.specs.Dataset.{holds, is_dataset, with_quad};
ghost use Rattle.lf_index.specs.Applied.{latest};

use crate::by_graph::ByGraph;
use crate::by_object::ByObject;
use crate::by_subject::BySubject;
use crate::names::{with_name, without_name};
use crate::row::Row;
use crate::scan::Keyed;
use crate::shared::Shared;
use lf_base::Memory;
use lf_ptree::PMap;
use lf_rdf::Quad;
use std::alloc::Global;
use std::marker::Model;
use std::sync::Arc;

/// The quads of a version. Contracts see them as a dataset: a list without repeats, in order of
/// canonical lines.
///
/// An index doesn't change: `apply` gives another one, which shares with this one what both have.
#[derive(Drop)]
pub struct Index {
    pub(crate) by_subject: PMap<BySubject, ()>,
    pub(crate) by_object: PMap<ByObject, ()>,
    pub(crate) by_graph: PMap<ByGraph, ()>,
    /// The labels of the named graphs that have quads.
    pub(crate) names: PMap<Shared, ()>,
    pub(crate) count: u64,
}

impl Model for Index {
    ghost use Rattle.std.specs.Prelude.{List};
    ghost use Rattle.lf_rdf.specs.declared.quad.Quad.{Quad};
    ghost use Rattle.lf_index.specs.Indexed.{IsIndexed, quads_of};

    ghost Value = { List Quad };

    ghost view = { λ i. quads_of i.by_subject };

    ghost invariant = { λ i. IsIndexed i.by_subject i.by_object i.by_graph i.names i.count };
}

impl Index {
    /// The index of no quads.
    pub fn new(alloc: Global) -> Result<Index, Memory>
        ensures { IfOk result (λ index. index ≡ []) }
    {
        Ok(Index {
            by_subject: PMap::new(alloc),
            by_object: PMap::new(alloc),
            by_graph: PMap::new(alloc),
            names: PMap::new(alloc),
            count: 0,
        })
    }

    /// How many quads there are.
    pub fn len(&self) -> u64
        ensures { result ≡ length self.now }
    {
        let _ = &self.by_subject;
        self.count
    }

    /// The same index. It copies four roots.
    pub(crate) fn share(&self, alloc: Global) -> Result<Index, Memory>
        ensures { IfOk result (λ index. index ≡ self.now) }
    {
        Ok(Index {
            by_subject: self.by_subject.share(alloc)?,
            by_object: self.by_object.share(alloc)?,
            by_graph: self.by_graph.share(alloc)?,
            names: self.names.share(alloc)?,
            count: self.count,
        })
    }

    /// The quads of an index stand in line order and without repeats. It does nothing.
    pub fn is_dataset(&self)
        ensures { IsTrue (is_dataset self.now) }
    {
        let _ = &self.by_subject;
    }

    // Whether there is a quad.
    fn has(&self, key: &BySubject) -> bool
        ensures { result ≡ holds self.now key.now }
    {
        self.by_subject.get(key).is_some()
    }

    /// The index with a quad more; none where the quad is there.
    pub(crate) fn with(&self, alloc: Global, quad: &Quad) -> Result<Option<Index>, Memory>
        ensures { IfOk result (λ made. latest made self.now ≡ with_quad quad.now self.now) }
    {
        self.is_dataset();
        let keys = keys_of(alloc, quad)?;
        if self.has(&keys.subject) {
            return Ok(None);
        }
        Ok(Some(self.with_new(alloc, keys)?))
    }

    // The index with a quad more, which isn't there.
    fn with_new(&self, alloc: Global, keys: Keys) -> Result<Index, Memory>
        requires object { keys.object ≡ keys.subject }
        requires graph { keys.graph ≡ keys.subject }
        requires absent { holds self.now keys.subject ≡ false }
        ensures { IfOk result (λ index. index ≡ with_quad keys.subject self.now) }
    {
        if self.count == u64::MAX {
            return Err(Memory);
        }
        let Keys {
            subject,
            object,
            graph,
        } = keys;
        let names = with_name(alloc, &self.names, graph.row())?;
        Ok(Index {
            by_subject: self.by_subject.insert(alloc, subject, ())?,
            by_object: self.by_object.insert(alloc, object, ())?,
            by_graph: self.by_graph.insert(alloc, graph, ())?,
            names,
            count: self.count + 1,
        })
    }

    /// The index without a quad; none where the quad isn't there.
    pub(crate) fn without(&self, alloc: Global, quad: &Quad) -> Result<Option<Index>, Memory>
        ensures { IfOk result (λ made. latest made self.now ≡ without quad_eq self.now (quad.now ∷ [])) }
    {
        self.is_dataset();
        let keys = keys_of(alloc, quad)?;
        if !self.has(&keys.subject) {
            return Ok(None);
        }
        Ok(Some(self.without_old(alloc, &keys)?))
    }

    // The index without a quad that is there.
    fn without_old(&self, alloc: Global, keys: &Keys) -> Result<Index, Memory>
        requires object { keys.now.object ≡ keys.now.subject }
        requires graph { keys.now.graph ≡ keys.now.subject }
        requires present { holds self.now keys.now.subject ≡ true }
        ensures { IfOk result (λ index. index ≡ without quad_eq self.now (keys.now.subject ∷ [])) }
    {
        self.by_subject.ascends();
        self.by_object.ascends();
        self.by_graph.ascends();
        self.names.ascends();
        let by_graph = self.by_graph.remove(alloc, &keys.graph)?;
        let names = without_name(alloc, &self.names, &by_graph, keys.graph.row())?;
        Ok(Index {
            by_subject: self.by_subject.remove(alloc, &keys.subject)?,
            by_object: self.by_object.remove(alloc, &keys.object)?,
            by_graph,
            names,
            count: self.count.saturating_sub(1),
        })
    }
}

// A quad's key in each order.
#[derive(Drop)]
struct Keys {
    subject: BySubject,
    object: ByObject,
    graph: ByGraph,
}

fn keys_of(alloc: Global, quad: &Quad) -> Result<Keys, Memory>
    ensures subject { IfOk result (λ keys. keys.subject ≡ quad.now) }
    ensures object { IfOk result (λ keys. keys.object ≡ quad.now) }
    ensures graph { IfOk result (λ keys. keys.graph ≡ quad.now) }
{
    let row = Arc::new(alloc, Row::of(alloc, quad)?)?;
    Ok(Keys {
        subject: BySubject::of(Arc::try_clone(&row)?),
        object: ByObject::of(Arc::try_clone(&row)?),
        graph: ByGraph::of(row),
    })
}
