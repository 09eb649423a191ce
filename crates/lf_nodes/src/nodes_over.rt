//! The nodes that are seen by asking an oracle.
ghost use Rattle.std.specs.Prelude.{◌≡◌};

use crate::members::members_of;
use crate::pointing::pointing_by;
use crate::view::view_of;
use lf_base::{Memory, Steps};
use lf_model::NodeView;
use lf_oracle::{Nodes, Oracle, names_graph};
use lf_rdf::{GraphRef, Term, TermList};
use std::alloc::Global;
use std::sync::ledger::Ledger;

/// The nodes of the dataset that an oracle answers about. Each call asks anew.
#[derive(Drop)]
pub struct NodesOver<'a, O: Oracle> {
    /// The oracle that is asked.
    pub oracle: &'a mut O,
}

impl<'a, O: Oracle> NodesOver<'a, O> {
    /// The nodes over an oracle. It takes no memory.
    pub fn new(oracle: &'a mut O) -> NodesOver<'a, O>
        ensures same_reference { result.oracle.ghost_name ≡ oracle.entry.ghost_name }
        ensures same { result.oracle.now ≡ oracle.old }
    {
        NodesOver { oracle }
    }
}

impl<O: Oracle> Nodes for NodesOver<'_, O> {
    ghost quads = { λ nodes. O.quads nodes.oracle.now };

    ghost told = { λ nodes. O.told nodes.oracle.now };

    /// The view of a node. For a key with n quads there it takes some n log n comparisons of texts,
    /// up to four questions and those for a cell of the node, and for each object that is a blank
    /// node those for a cell, and for its list.
    fn node<L: Ledger>(
        &mut self,
        alloc: Global,
        graph: &GraphRef,
        id: &Term,
        steps: &mut Steps<L>,
    ) -> Result<Option<NodeView>, Memory> {
        let found = view_of(alloc, &mut *self.oracle, graph, id, steps)?;
        Ok(found)
    }

    /// The keys of a graph. One question gives its nodes; only of blank nodes and of `rdf:nil` are
    /// more asked. For the merged graph the nodes of each graph are asked for, and of each node of
    /// the default graph whether it names one.
    fn members<L: Ledger>(
        &mut self,
        alloc: Global,
        graph: &GraphRef,
        steps: &mut Steps<L>,
    ) -> Result<TermList, Memory> {
        let found = members_of(alloc, &mut *self.oracle, graph, steps)?;
        Ok(found)
    }

    /// The keys that point at a node. One question gives the quads that may, those for a cell tell
    /// whether the node is one, and only under `rdf:first` and `rdf:rest` are the subjects tested
    /// too.
    fn pointing<L: Ledger>(
        &mut self,
        alloc: Global,
        graph: &GraphRef,
        property: &Term,
        id: &Term,
        steps: &mut Steps<L>,
    ) -> Result<TermList, Memory> {
        let found = pointing_by(alloc, &mut *self.oracle, graph, property, id, steps)?;
        Ok(found)
    }

    /// Whether a quad lies in the graph of this name, by one question.
    fn names_graph<L: Ledger>(
        &mut self,
        alloc: Global,
        name: &Term,
        steps: &mut Steps<L>,
    ) -> Result<bool, Memory> {
        let found = names_graph(alloc, &mut *self.oracle, name, steps)?;
        Ok(found)
    }
}
