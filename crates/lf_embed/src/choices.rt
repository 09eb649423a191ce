//! What embedding chooses without asking: the types of a node, which references are taken, and
//! whether a graph may be entered.
ghost use Rattle.std.specs.Prelude.{◌≡◌, ◌&&◌, Bool, IfOk, IfSome, is_some, not};
ghost use Rattle.std.specs.Option.{option_map};
ghost use Rattle.lf_rdf.specs.declared.question.GraphRef.{GraphRef};
ghost use Rattle.lf_rdf.specs.declared.term.Term.{Term};
ghost use Rattle.lf_model.specs.ValueData.{reference};
ghost use Rattle.lf_oracle.specs.NodeViews.{view_data};
ghost use Rattle.def_nested.specs.Nested.{flags_of, within_of};
ghost use Rattle.def_framing.specs.Matching.{accepts, matches};
ghost use Rattle.def_framing.specs.Outcome.{framed_graph};
ghost use Rattle.def_framing.specs.Steps.{as_reference, graph_frame, is_merged, seen, types_by};
ghost use Rattle.def_framing.specs.Views.{Views};
ghost use Rattle.lf_embed.specs.Choices.{enters_by, taken_by};
ghost use Rattle.lf_embed.specs.Forms.{form_of};
ghost use Rattle.lf_embed.specs.Walks.{path_of, state_of};

use crate::form::{Form, flags_for, graph_form, plain_flags};
use crate::walk::Walk;
use lf_base::{Memory, TryCopy};
use lf_model::{Frame, FrameKind, NodeView, PropList, TypeTest};
use lf_rdf::{GraphRef, Term, TermList};
use std::alloc::Global;

/// Which references a sub-frame takes.
#[derive(Clone, Copy, Debug)]
pub enum ReferenceRule {
    /// No reference.
    Never,
    /// Each reference, as a wildcard does.
    Always,
    /// Those to nodes that the sub-frame matches.
    Matching,
}

/// Whether a node is output as a reference; one that is embedded free isn't.
pub fn is_left(
    alloc: Global,
    free: bool,
    frame: &Frame,
    form: Form,
    graph: &GraphRef,
    id: &Term,
    walk: &Walk,
) -> Result<bool, Memory>
    ensures { IfOk result (λ left.
        left
        ≡ (not free
        && as_reference (flags_of (form_of frame.now.nodes form)).embed
        (record { graph = graph.now; id = id.now }) (path_of walk.now)
        (state_of walk.now))) }
{
    if free {
        Ok(false)
    } else {
        walk.is_referred(alloc, flags_for(frame, form).embed, graph, id)
    }
}

/// The view of a node; what is no key has no types and no properties.
pub fn seen_view(alloc: Global, id: &Term, found: Option<NodeView>) -> Result<NodeView, Memory>
    ensures { IfOk result (λ view. view_data view ≡ seen id.now (option_map view_data found)) }
{
    match found {
        Some(view) => Ok(view),
        None => Ok(NodeView {
            id: id.copy(alloc)?,
            types: TermList::new(alloc),
            props: PropList::new(alloc),
        }),
    }
}

/// The types of a node's output: its own, or the frame's type default where it has none.
pub fn types_for(
    alloc: Global,
    frame: &Frame,
    form: Form,
    types: &TermList,
) -> Result<TermList, Memory>
    ensures { IfOk result
        (λ given. given ≡ types_by (flags_of (form_of frame.now.nodes form)).types types.now) }
{
    match form {
        Form::Absent => types.copy(alloc),
        Form::Wild(_) => types.copy(alloc),
        Form::Row(at) => match frame.nodes.at(at as u64) {
            None => types.copy(alloc),
            Some(row) => given_types(alloc, &row.types, types),
        },
    }
}

// The types of a node, or those of a type default where it has none.
fn given_types(alloc: Global, test: &TypeTest, types: &TermList) -> Result<TermList, Memory>
    ensures { IfOk result (λ given. given ≡ types_by test.now types.now) }
{
    match test {
        TypeTest::Absent => types.copy(alloc),
        TypeTest::Any => types.copy(alloc),
        TypeTest::Never => types.copy(alloc),
        TypeTest::OneOf(_) => types.copy(alloc),
        TypeTest::Fallback(fallback) => match types.as_slice().first() {
            None => fallback.copy(alloc),
            Some(_) => types.copy(alloc),
        },
    }
}

/// Which references a sub-frame takes (JSON-LD 1.1 Framing, section 4.2.2).
pub fn reference_rule(frame: &Frame, form: Form) -> ReferenceRule
    ensures { (views : Views) (graph : GraphRef) (id : Term) →
        accepts views graph (form_of frame.now.nodes form) (reference id)
        ≡ taken_by result (matches views graph (form_of frame.now.nodes form) id) }
{
    match form {
        Form::Absent => ReferenceRule::Never,
        Form::Wild(_) => ReferenceRule::Always,
        Form::Row(at) => match frame.nodes.at(at as u64) {
            None => ReferenceRule::Never,
            Some(row) => match row.kind {
                FrameKind::Wild => ReferenceRule::Always,
                FrameKind::Node => ReferenceRule::Matching,
                FrameKind::Value(_) => ReferenceRule::Never,
                FrameKind::List(_) => ReferenceRule::Never,
            },
        },
    }
}

/// The sub-frame for the nodes of the graph that a node names, unless that graph isn't entered
/// whatever it names.
pub fn entering(graph: &GraphRef, id: &Term, frame: &Frame, form: Form, walk: &Walk) -> Option<Form>
    ensures sub { IfSome result (λ sub.
        form_of frame.now.nodes sub ≡ graph_frame (within_of (form_of frame.now.nodes form))) }
    ensures enters { (named : Bool) →
        enters_by named graph.now id.now (form_of frame.now.nodes form) (path_of walk.now)
        ≡ (named && is_some result) }
{
    if !walk.is_outside(id) {
        return None;
    }
    match graph_form(frame, form) {
        Some(sub) => Some(sub),
        None => {
            if is_merged(graph) {
                None
            } else {
                Some(Form::Wild(plain_flags()))
            }
        }
    }
}

// Whether a graph is all graphs merged.
fn is_merged(graph: &GraphRef) -> bool
    ensures { result ≡ is_merged graph.now }
{
    match graph {
        GraphRef::Default => false,
        GraphRef::Named(_) => false,
        GraphRef::Merged => true,
    }
}

/// The framed graph: the default graph where the frame has `@graph` at its top, else all graphs
/// merged.
pub fn framed_graph(top_graph: bool) -> GraphRef
    ensures { result ≡ framed_graph top_graph }
{
    if top_graph {
        GraphRef::Default
    } else {
        GraphRef::Merged
    }
}
