//! The trait of node views; matching and embedding call it.
ghost use Rattle.std.specs.Prelude.{◌≡◌, ℕ, List, [], ◌∷◌, Option, IfOk, option_map};
ghost use Rattle.lf_rdf.specs.declared.quad.Quad.{Quad};
ghost use Rattle.lf_rdf.specs.declared.question.Question.{Question};
ghost use Rattle.def_datasets.specs.Questions.{named};
ghost use Rattle.def_datasets.specs.Views.{keys, view_of};
ghost use Rattle.lf_oracle.specs.Asking.{Learns};
ghost use Rattle.lf_oracle.specs.Nearby.{IsNamed, IsNearMembers, IsNearOne, IsOfNode, IsPointing};
ghost use Rattle.lf_oracle.specs.NodeViews.{pointing_at, view_data};

use lf_base::{Memory, Steps};
use lf_model::NodeView;
use lf_rdf::{GraphRef, Term, TermList};
use std::alloc::Global;
use std::sync::ledger::Ledger;

/// The nodes of the graphs of a dataset, as framing sees them (JSON-LD 1.1 Framing, section 4.1).
///
/// Each call asks some questions. What it gives, every dataset gives that answers these questions
/// alike.
pub trait Nodes {
    /// The quads whose nodes are seen.
    ghost quads: { Self → List Quad };

    /// The questions that were asked, in order, where they are told.
    ghost told: { Self → Option (List Question) };

    /// The view of a node, or none where it is no key of the graph.
    fn node<L: Ledger>(
        &mut self,
        alloc: Global,
        graph: &GraphRef,
        id: &Term,
        steps: &mut Steps<L>,
    ) -> Result<Option<NodeView>, Memory>
        ensures view { IfOk result (λ found.
            Learns (IsNearOne (quads self.old) (IsOfNode graph.now id.now)) (quads self.old)
            (told self.old) (told self.new) steps.old steps.new
            (λ dataset. view_of dataset graph.now id.now) (option_map view_data found)) }
        ensures quads_stay { quads self.new ≡ quads self.old };

    /// The keys of a graph, in order of their ids.
    fn members<L: Ledger>(
        &mut self,
        alloc: Global,
        graph: &GraphRef,
        steps: &mut Steps<L>,
    ) -> Result<TermList, Memory>
        ensures keys { IfOk result (λ found.
            Learns (IsNearMembers (quads self.old) graph.now) (quads self.old) (told self.old)
            (told self.new) steps.old steps.new (λ dataset. keys dataset graph.now) found) }
        ensures quads_stay { quads self.new ≡ quads self.old };

    /// The keys of a graph whose view has the reference to a node under a property, in order of
    /// their ids.
    fn pointing<L: Ledger>(
        &mut self,
        alloc: Global,
        graph: &GraphRef,
        property: &Term,
        id: &Term,
        steps: &mut Steps<L>,
    ) -> Result<TermList, Memory>
        ensures keys { IfOk result (λ found.
            Learns (IsNearOne (quads self.old)
            (IsPointing (quads self.old) graph.now property.now id.now)) (quads self.old)
            (told self.old) (told self.new) steps.old steps.new
            (λ dataset. pointing_at dataset graph.now property.now id.now) found) }
        ensures quads_stay { quads self.new ≡ quads self.old };

    /// Whether a quad lies in the graph of this name.
    fn names_graph<L: Ledger>(
        &mut self,
        alloc: Global,
        name: &Term,
        steps: &mut Steps<L>,
    ) -> Result<bool, Memory>
        ensures names { IfOk result (λ found.
            Learns (IsNearOne (quads self.old) (IsNamed name.now)) (quads self.old)
            (told self.old) (told self.new) steps.old steps.new
            (λ dataset. named dataset name.now) found) }
        ensures quads_stay { quads self.new ≡ quads self.old };
}
