//! The outcome of a term by a frame: the public call of this crate.
ghost use Rattle.std.specs.Prelude.{◌≡◌, [], IfOk, true};
ghost use Rattle.lf_oracle.specs.Asking.{Learns};
ghost use Rattle.lf_oracle.specs.Nearby.{IsOfNode};
ghost use Rattle.lf_oracle.specs.NodeViews.{view_data};
ghost use Rattle.def_nested.specs.Unfolding.{nested, nested_frame};
ghost use Rattle.def_framing.specs.Nearness.{reversed_in};
ghost use Rattle.def_framing.specs.Outcome.{depth_limit, outcome, outcome_in, outcome_of_result};
ghost use Rattle.def_framing.specs.OutcomeBridge.{outcome_data};
ghost use Rattle.def_framing.specs.Results.{at_first};
ghost use Rattle.def_framing.specs.Views.{of_dataset};
ghost use Rattle.lf_embed.specs.Cycle.{embed_viewed};
ghost use Rattle.lf_embed.specs.Embeds.{IsNearBy, IsNearTo, IsOfNodeOrView};
ghost use Rattle.lf_embed.specs.Walks.{path_of, state_of};

use crate::choices::framed_graph;
use crate::embed::embed_viewed;
use crate::form::Form;
use crate::walk::{Stop, Walk};
use lf_base::{Memory, Steps};
use lf_match::view_matches;
use lf_model::{Frame, NodeView, Outcome};
use lf_oracle::Nodes;
use lf_rdf::{GraphRef, Term};
use std::alloc::Global;
use std::sync::ledger::Ledger;

/// The most nodes on a path from the root of a tree, the root included.
pub const DEPTH_LIMIT: u32 = 256;

/// The outcome of a term by a frame (JSON-LD 1.1 Framing, section 4.2.1: the top frame selects
/// nodes of the framed graph): the term is no key, it doesn't match, its tree, or the limit of
/// items or of depth that its tree is past.
///
/// A node is viewed once for each visit. For a tree of n items it takes some n log n comparisons of
/// texts, for each node that it holds one with each step of the path, and for each property of a
/// node one with each property of its frame. The questions are near the term, where the predicates
/// of the dataset are IRIs.
pub fn tree<N: Nodes, L: Ledger>(
    alloc: Global,
    nodes: &mut N,
    frame: &Frame,
    x: &Term,
    steps: &mut Steps<L>,
) -> Result<Outcome, Memory>
    ensures outcome { IfOk result (λ made.
        Learns (IsNearTo (N.quads nodes.old) (reversed_in (nested_frame frame.now)) x.now)
        (N.quads nodes.old) (N.told nodes.old) (N.told nodes.new) steps.old steps.new
        (λ dataset. outcome (of_dataset dataset) frame.now x.now) (outcome_data made)) }
    ensures quads_stay { N.quads nodes.new ≡ N.quads nodes.old }
{
    let graph = framed_graph(frame.top_graph);
    let made = outcome_in(alloc, nodes, &graph, x, frame, steps);
    drop(graph);
    made
}

// The outcome of a term by the top map of a frame, in the framed graph.
fn outcome_in<N: Nodes, L: Ledger>(
    alloc: Global,
    nodes: &mut N,
    graph: &GraphRef,
    x: &Term,
    frame: &Frame,
    steps: &mut Steps<L>,
) -> Result<Outcome, Memory>
    ensures outcome { IfOk result (λ made.
        Learns (IsNearBy (N.quads nodes.old) (reversed_in (nested frame.now.nodes 0))
        (IsOfNode graph.now x.now)) (N.quads nodes.old) (N.told nodes.old)
        (N.told nodes.new) steps.old steps.new (λ dataset.
        outcome_in (of_dataset dataset) (nested frame.now.nodes 0) graph.now x.now)
        (outcome_data made)) }
    ensures quads_stay { N.quads nodes.new ≡ N.quads nodes.old }
{
    match nodes.node(alloc, graph, x, steps)? {
        None => Ok(Outcome::NotKey),
        Some(view) => {
            if view_matches(alloc, nodes, graph, x, &view, frame, 0, steps)? {
                new_tree(alloc, nodes, graph, x, &view, frame, steps)
            } else {
                Ok(Outcome::NoMatch)
            }
        }
    }
}

// The tree of a key that matches, embedded free with nothing embedded before and an empty path.
fn new_tree<N: Nodes, L: Ledger>(
    alloc: Global,
    nodes: &mut N,
    graph: &GraphRef,
    x: &Term,
    view: &NodeView,
    frame: &Frame,
    steps: &mut Steps<L>,
) -> Result<Outcome, Memory>
    ensures outcome { IfOk result (λ made.
        Learns (IsNearBy (N.quads nodes.old) (reversed_in (nested frame.now.nodes 0))
        (IsOfNodeOrView graph.now x.now (view_data view.now))) (N.quads nodes.old)
        (N.told nodes.old) (N.told nodes.new) steps.old steps.new
        (λ dataset.
        outcome_of_result (embed_viewed (of_dataset dataset) depth_limit graph.now x.now
        (nested frame.now.nodes 0) true (view_data view.now) [] at_first))
        (outcome_data made)) }
    ensures quads_stay { N.quads nodes.new ≡ N.quads nodes.old }
{
    let mut walk = Walk::new(alloc);
    let made = top_tree(alloc, nodes, graph, x, view, frame, &mut walk, steps);
    drop(walk);
    made
}

// The same, by a walk that is made already.
fn top_tree<N: Nodes, L: Ledger>(
    alloc: Global,
    nodes: &mut N,
    graph: &GraphRef,
    x: &Term,
    view: &NodeView,
    frame: &Frame,
    walk: &mut Walk,
    steps: &mut Steps<L>,
) -> Result<Outcome, Memory>
    ensures outcome { IfOk result (λ made.
        Learns (IsNearBy (N.quads nodes.old) (reversed_in (nested frame.now.nodes 0))
        (IsOfNodeOrView graph.now x.now (view_data view.now))) (N.quads nodes.old)
        (N.told nodes.old) (N.told nodes.new) steps.old steps.new
        (λ dataset.
        outcome_of_result (embed_viewed (of_dataset dataset) depth_limit graph.now x.now
        (nested frame.now.nodes 0) true (view_data view.now) (path_of walk.old)
        (state_of walk.old))) (outcome_data made)) }
    ensures quads_stay { N.quads nodes.new ≡ N.quads nodes.old }
{
    match embed_viewed(
        alloc,
        nodes,
        graph,
        x,
        view,
        frame,
        Form::Row(0),
        true,
        DEPTH_LIMIT,
        walk,
        steps,
    ) {
        Ok(tree) => Ok(Outcome::Matched(tree)),
        Err(Stop::Over(limit)) => Ok(Outcome::Over(limit)),
        Err(Stop::Memory) => Err(Memory),
    }
}
