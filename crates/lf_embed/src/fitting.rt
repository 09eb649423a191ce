//! Which nodes and values fit a sub-frame, by the row that it is; embedding calls it.
ghost use Rattle.std.specs.Prelude.{◌≡◌, IfOk};
ghost use Rattle.lf_model.specs.ValueBridge.{value_data};
ghost use Rattle.lf_oracle.specs.Asking.{Learns};
ghost use Rattle.lf_oracle.specs.NodeViews.{view_data};
ghost use Rattle.lf_match.specs.NearNodes.{IsNearOneFor, IsOfValue, IsOfView};
ghost use Rattle.lf_match.specs.Viewed.{matches_viewed};
ghost use Rattle.def_framing.specs.Matching.{accepts};
ghost use Rattle.def_framing.specs.Views.{of_dataset};
ghost use Rattle.lf_embed.specs.Forms.{form_of};

use crate::form::Form;
use lf_base::{Memory, Steps};
use lf_match::{accepts, view_matches};
use lf_model::{Frame, NodeView, Value};
use lf_oracle::Nodes;
use lf_rdf::{GraphRef, Term};
use std::alloc::Global;
use std::sync::ledger::Ledger;

/// Whether a sub-frame matches a node of a graph, by a view of it (JSON-LD 1.1 Framing, section
/// 4.2.2).
pub fn form_matches<N: Nodes, L: Ledger>(
    alloc: Global,
    nodes: &mut N,
    graph: &GraphRef,
    id: &Term,
    view: &NodeView,
    frame: &Frame,
    form: Form,
    steps: &mut Steps<L>,
) -> Result<bool, Memory>
    ensures matched { IfOk result (λ found.
        Learns (IsNearOneFor (N.quads nodes.old) (form_of frame.now.nodes form)
        (IsOfView graph.now (view_data view.now))) (N.quads nodes.old) (N.told nodes.old)
        (N.told nodes.new) steps.old steps.new (λ dataset.
        matches_viewed (of_dataset dataset) graph.now (form_of frame.now.nodes form) id.now
        (view_data view.now)) found) }
    ensures quads_stay { N.quads nodes.new ≡ N.quads nodes.old }
{
    match form {
        Form::Absent => Ok(false),
        Form::Wild(_) => Ok(true),
        Form::Row(at) => view_matches(alloc, nodes, graph, id, view, frame, at, steps),
    }
}

/// Whether a sub-frame accepts a value in a graph (JSON-LD 1.1 Framing, section 4.2.2).
pub fn form_accepts<N: Nodes, L: Ledger>(
    alloc: Global,
    nodes: &mut N,
    graph: &GraphRef,
    value: &Value,
    frame: &Frame,
    form: Form,
    steps: &mut Steps<L>,
) -> Result<bool, Memory>
    ensures accepted { IfOk result (λ found.
        Learns (IsNearOneFor (N.quads nodes.old) (form_of frame.now.nodes form)
        (IsOfValue graph.now (value_data value.now))) (N.quads nodes.old) (N.told nodes.old)
        (N.told nodes.new) steps.old steps.new (λ dataset.
        accepts (of_dataset dataset) graph.now (form_of frame.now.nodes form)
        (value_data value.now)) found) }
    ensures quads_stay { N.quads nodes.new ≡ N.quads nodes.old }
{
    match form {
        Form::Absent => Ok(false),
        Form::Wild(_) => Ok(true),
        Form::Row(at) => accepts(alloc, nodes, graph, value, frame, at, steps),
    }
}
