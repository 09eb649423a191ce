//! What the entries of a map say of a node before its properties are tried; `matching` calls it.
ghost use Rattle.std.specs.Prelude.{◌≡◌, not};
ghost use Rattle.std.specs.List.{list_any};
ghost use Rattle.def_nested.specs.Unfolding.{above, nested, row_flags};
ghost use Rattle.def_framing.specs.Matching.{is_empty};
ghost use Rattle.def_framing.specs.Views.{values_under};
ghost use Rattle.lf_oracle.specs.NodeViews.{view_data};
ghost use Rattle.lf_match.specs.Rows.{all_verdict, fits_verdict, is_unwanted, may_lack, props_verdict, verdict_of};

use crate::rows::{asks_id, asks_types, id_fits, later_row, row_has_default, types_fit};
use crate::view::values_under;
use lf_model::{Frame, FrameNode, FrameProp, FramePropList, NodeView};
use lf_rdf::Term;

/// What a map's entries say of a node.
#[derive(Clone, Copy, Debug, PartialEq, Eq)]
pub enum Verdict {
    Refused,
    Matched,
    /// The node matches where each property does or may be missing.
    AllProps,
    /// The node matches where a property does.
    AnyProp,
}

/// The verdict of the map `at` on a node (JSON-LD 1.1 Framing, section 4.2.2).
pub fn row_verdict(frame: &Frame, at: u32, row: &FrameNode, s: &Term, view: &NodeView) -> Verdict
    ensures { result
        ≡ verdict_of (list_any
        (is_unwanted (above at (nested frame.now.nodes)) (view_data view.now))
        row.now.props) (is_empty row.now.props) (row_flags row.now) s.now view.now.types }
{
    if any_unwanted(frame, at, &row.props, view) {
        Verdict::Refused
    } else if row.require_all {
        all_fitting(id_fits(&row.ids, s) && types_fit(&row.types, &view.types))
    } else if asks_id(&row.ids) {
        fitting(id_fits(&row.ids, s))
    } else if asks_types(&row.types) {
        fitting(types_fit(&row.types, &view.types))
    } else {
        by_props(&row.props)
    }
}

fn all_fitting(fits: bool) -> Verdict
    ensures { result ≡ all_verdict fits }
{
    if fits {
        Verdict::AllProps
    } else {
        Verdict::Refused
    }
}

fn fitting(fits: bool) -> Verdict
    ensures { result ≡ fits_verdict fits }
{
    if fits {
        Verdict::Matched
    } else {
        Verdict::Refused
    }
}

fn by_props(props: &FramePropList) -> Verdict
    ensures { result ≡ props_verdict (is_empty props.now) }
{
    match props.as_slice().first() {
        None => Verdict::Matched,
        Some(_) => Verdict::AnyProp,
    }
}

fn any_unwanted(frame: &Frame, at: u32, props: &FramePropList, view: &NodeView) -> bool
    ensures { result
        ≡ list_any (is_unwanted (above at (nested frame.now.nodes)) (view_data view.now))
        props.now }
{
    props
        .as_slice()
        .iter()
        .any(|prop| unwanted(frame, at, prop, view))
}

// A property that is to be absent stands in the view.
fn unwanted(frame: &Frame, at: u32, prop: &FrameProp, view: &NodeView) -> bool
    ensures { result ≡ is_unwanted (above at (nested frame.now.nodes)) (view_data view.now) prop.now }
{
    match later_row(frame, at, prop.frame) {
        None => has_property(view, prop),
        Some(_) => false,
    }
}

/// Whether a view has a frame's property.
pub fn has_property(view: &NodeView, prop: &FrameProp) -> bool
    ensures { result ≡ not (is_empty (values_under (view_data view.now) prop.now.property)) }
{
    match values_under(view, &prop.property).first() {
        None => false,
        Some(_) => true,
    }
}

/// Whether a node lacks a property whose sub-frame has a default.
pub fn lacks(frame: &Frame, at: u32, prop: &FrameProp, view: &NodeView) -> bool
    ensures { result ≡ may_lack (above at (nested frame.now.nodes)) (view_data view.now) prop.now }
{
    match later_row(frame, at, prop.frame) {
        None => false,
        Some(sub) => row_has_default(frame, sub) && !has_property(view, prop),
    }
}
