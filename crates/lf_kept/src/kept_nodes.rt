//! The nodes that are seen by asking an oracle, each view asked for once.
ghost use Rattle.std.specs.Prelude.{◌≡◌};

use crate::entry::{KeptViews, again, first_view, keep_dear};
use crate::key::key_of;
use crate::telling::Telling;
use lf_base::{Memory, Steps, TryCopy};
use lf_model::NodeView;
use lf_nodes::{members_of, pointing_by};
use lf_oracle::{Nodes, Oracle, names_graph};
use lf_rdf::{GraphRef, QuestionList, Term, TermList};
use std::alloc::Global;
use std::collections::BTreeMap;
use std::marker::Model;
use std::sync::ledger::Ledger;

/// The nodes of the dataset that an oracle answers about, as framing sees them (JSON-LD 1.1
/// Framing, section 4.1). A view that took more than one question is kept, and given again with as
/// many steps; its questions are asked once. So for the trees of all nodes of a dataset the oracle
/// is asked once for the uses of a node, however many refer to it. The questions aren't told.
///
/// What is kept is a view for each graph and node that was asked for and has no quads of its own
/// there, or that refers to blank nodes or is one: its properties with their values, whose texts
/// are shared with the answers, and a name of its own. Nothing of it is given back before the end.
/// Contracts see the quads.
#[derive(Drop)]
pub struct KeptNodes<O: Oracle> {
    pub(crate) telling: Telling<O>,
    pub(crate) kept: KeptViews,
}

impl<O: Oracle> Model for KeptNodes<O> {
    ghost use Rattle.std.specs.Prelude.{List};
    ghost use Rattle.lf_rdf.specs.declared.quad.Quad.{Quad};
    ghost use Rattle.lf_kept.specs.Views.{AllKept};

    ghost Value = { List Quad };

    ghost view = { λ nodes. O.quads nodes.telling.oracle };

    ghost invariant = { λ nodes. AllKept (O.quads nodes.telling.oracle) nodes.kept };
}

impl<O: Oracle> KeptNodes<O> {
    /// The nodes over an oracle, with no view kept. It takes no memory.
    pub fn new(alloc: Global, oracle: O) -> KeptNodes<O>
        ensures { result ≡ O.quads oracle }
    {
        KeptNodes {
            telling: Telling {
                oracle,
                asked: QuestionList::new(alloc),
            },
            kept: BTreeMap::new(alloc),
        }
    }
}

impl<O: Oracle> Nodes for KeptNodes<O> {
    ghost use Rattle.std.specs.Prelude.{None};

    ghost quads = { λ nodes. nodes };

    ghost told = { λ nodes. None };

    /// The view of a node: asked for as [`view_of`](lf_nodes::view_of) does, then kept where that
    /// took more than one question. When a kept one is asked for again, it takes a search among n
    /// views, some log n comparisons of numbers, a copy of the view, and a tick for each question of
    /// the first time.
    fn node<L: Ledger>(
        &mut self,
        alloc: Global,
        graph: &GraphRef,
        id: &Term,
        steps: &mut Steps<L>,
    ) -> Result<Option<NodeView>, Memory> {
        let key = key_of(alloc, graph, id)?;
        match again(alloc, &self.kept, &key, graph, id, steps)? {
            Some(found) => Ok(found),
            None => {
                let first = first_view(alloc, &mut self.telling, graph, id, steps)?;
                let found = keep_dear(alloc, &mut self.kept, key, first)?;
                Ok(found)
            }
        }
    }

    /// The keys of a graph, asked for each time.
    fn members<L: Ledger>(
        &mut self,
        alloc: Global,
        graph: &GraphRef,
        steps: &mut Steps<L>,
    ) -> Result<TermList, Memory> {
        let found = members_of(alloc, &mut self.telling.oracle, graph, steps)?;
        Ok(found)
    }

    /// The keys that point at a node, asked for each time.
    fn pointing<L: Ledger>(
        &mut self,
        alloc: Global,
        graph: &GraphRef,
        property: &Term,
        id: &Term,
        steps: &mut Steps<L>,
    ) -> Result<TermList, Memory> {
        let found = pointing_by(alloc, &mut self.telling.oracle, graph, property, id, steps)?;
        Ok(found)
    }

    /// Whether a quad lies in the graph of this name, asked for each time.
    fn names_graph<L: Ledger>(
        &mut self,
        alloc: Global,
        name: &Term,
        steps: &mut Steps<L>,
    ) -> Result<bool, Memory> {
        let found = names_graph(alloc, &mut self.telling.oracle, name, steps)?;
        Ok(found)
    }
}
