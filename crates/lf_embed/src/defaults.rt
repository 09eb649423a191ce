//! The defaults of a node: the properties of the frame of which no value was output. Embedding
//! calls it; it asks nothing.
ghost use Rattle.std.specs.Prelude.{◌≡◌, ◌≤◌, [], IfSome, OnOk, filter, map};
ghost use Rattle.std.specs.List.{list_any};
ghost use Rattle.lf_model.specs.TreeBridge.{entry_data, property_data};
ghost use Rattle.def_nested.specs.Nested.{flags_of, props_list};
ghost use Rattle.def_nested.specs.Unfolding.{above, build_props, nested};
ghost use Rattle.def_framing.specs.Parts.{default_entries, default_next, default_part, takes_default};
ghost use Rattle.def_framing.specs.Results.{through};
ghost use Rattle.lf_rdf.specs.Equality.{text_eq};
ghost use Rattle.lf_embed.specs.Forms.{form_of};
ghost use Rattle.lf_embed.specs.Runs.{default_step, run_of};
ghost use Rattle.lf_embed.specs.Walks.{path_of, state_of};

use crate::entries::{fallback_entries, null_entry};
use crate::form::{Form, is_omitted, numbered};
use crate::walk::{Stop, Walk};
use lf_base::{Same, Text, TryCopy};
use lf_model::{Frame, FrameProp, FramePropList, TreeProp, TreePropList, TreeValueList};
use std::alloc::Global;

/// Each property of the frame that takes its default, in order (JSON-LD 1.1 Framing, section
/// 4.2.3).
pub fn default_part(
    alloc: Global,
    frame: &Frame,
    form: Form,
    values: &TreePropList,
    walk: &mut Walk,
) -> Result<TreePropList, Stop>
    ensures run { IfSome (run_of (map property_data) result (state_of walk.new))
        (λ r.
        r
        ≡ default_part (form_of frame.now.nodes form) (map property_data values.now)
        (state_of walk.old)) }
    ensures path { path_of walk.new ≡ path_of walk.old }
    ensures grows { OnOk result ((state_of walk.old).count ≤ (state_of walk.new).count) }
{
    form_defaults(alloc, frame, form, values, walk)
}

// The defaults of a sub-frame; only a map of the table has properties.
fn form_defaults(
    alloc: Global,
    frame: &Frame,
    form: Form,
    values: &TreePropList,
    walk: &mut Walk,
) -> Result<TreePropList, Stop>
    ensures run { IfSome (run_of (map property_data) result (state_of walk.new))
        (λ r.
        r
        ≡ default_part (form_of frame.now.nodes form) (map property_data values.now)
        (state_of walk.old)) }
    ensures path { path_of walk.new ≡ path_of walk.old }
{
    match form {
        Form::Absent => Ok(TreePropList::new(alloc)),
        Form::Wild(_) => Ok(TreePropList::new(alloc)),
        Form::Row(at) => match frame.nodes.at(at as u64) {
            None => Ok(TreePropList::new(alloc)),
            Some(row) => default_props(alloc, frame, form, at, &row.props, values, walk),
        },
    }
}

// The defaults of these properties of the map `at`, in order.
fn default_props(
    alloc: Global,
    frame: &Frame,
    form: Form,
    at: u32,
    props: &FramePropList,
    values: &TreePropList,
    walk: &mut Walk,
) -> Result<TreePropList, Stop>
    ensures run { IfSome (run_of (map property_data) result (state_of walk.new))
        (λ r.
        r
        ≡ through default_next [] (filter
        (takes_default (form_of frame.now.nodes form) (map property_data values.now))
        (props_list (build_props (above at (nested frame.now.nodes)) props.now)))
        (state_of walk.old)) }
    ensures path { path_of walk.new ≡ path_of walk.old }
{
    let mut done = TreePropList::new(alloc);
    for prop in props.as_slice() {
        match next_default(alloc, frame, form, at, prop, values, &mut done, walk) {
            Err(stop) => return Err(stop),
            Ok(()) => {}
        }
    }
    Ok(done)
}

// One more property of the map `at` takes its default, or is passed over.
fn next_default(
    alloc: Global,
    frame: &Frame,
    form: Form,
    at: u32,
    prop: &FrameProp,
    values: &TreePropList,
    done: &mut TreePropList,
    walk: &mut Walk,
) -> Result<(), Stop>
    ensures run { IfSome (run_of (λ u. map property_data done.new) result (state_of walk.new))
        (λ r.
        r
        ≡ default_step (form_of frame.now.nodes form) (map property_data values.now)
        (above at (nested frame.now.nodes)) (map property_data done.old) prop.now
        (state_of walk.old)) }
    ensures path { path_of walk.new ≡ path_of walk.old }
{
    let sub = numbered(frame, at, prop.frame);
    if takes_default(frame, form, sub, &prop.property, values) {
        add_default(alloc, frame, sub, &prop.property, done, walk)
    } else {
        Ok(())
    }
}

// A property takes the default values of its sub-frame.
#[tactic(auto, using(lf_model::proofs::TreeLemmas::tree_cases))]
fn add_default(
    alloc: Global,
    frame: &Frame,
    sub: Form,
    property: &Text,
    done: &mut TreePropList,
    walk: &mut Walk,
) -> Result<(), Stop>
    ensures run { IfSome (run_of (λ u. map property_data done.new) result (state_of walk.new))
        (λ r.
        r
        ≡ default_next (map property_data done.old)
        (property.now, form_of frame.now.nodes sub) (state_of walk.old)) }
    ensures path { path_of walk.new ≡ path_of walk.old }
{
    match form_fallback(alloc, frame, sub, walk) {
        Err(stop) => Err(stop),
        Ok(entries) => {
            done.push(TreeProp {
                property: property.copy(alloc)?,
                values: entries,
            })?;
            Ok(())
        }
    }
}

// The default values that a sub-frame states, or null.
fn form_fallback(
    alloc: Global,
    frame: &Frame,
    sub: Form,
    walk: &mut Walk,
) -> Result<TreeValueList, Stop>
    ensures run { IfSome (run_of (map entry_data) result (state_of walk.new)) (λ r.
        r
        ≡ default_entries (flags_of (form_of frame.now.nodes sub)).fallback
        (state_of walk.old)) }
    ensures path { path_of walk.new ≡ path_of walk.old }
{
    match sub {
        Form::Absent => null_entry(alloc, walk),
        Form::Wild(_) => null_entry(alloc, walk),
        Form::Row(at) => match frame.nodes.at(at as u64) {
            None => null_entry(alloc, walk),
            Some(row) => fallback_entries(alloc, &row.fallback, walk),
        },
    }
}

// A property takes its default where no value of it was output and it isn't omitted.
fn takes_default(
    frame: &Frame,
    form: Form,
    sub: Form,
    property: &Text,
    values: &TreePropList,
) -> bool
    ensures { result
        ≡ takes_default (form_of frame.now.nodes form) (map property_data values.now)
        (property.now, form_of frame.now.nodes sub) }
{
    !was_output(values, property) && !is_omitted(frame, form, sub)
}

// Whether a value of a property was output.
fn was_output(values: &TreePropList, property: &Text) -> bool
    ensures { result ≡ list_any (λ made. text_eq made.0 property.now) (map property_data values.now) }
{
    any_output(values, property)
}

// The same, over the properties as the program holds them.
fn any_output(values: &TreePropList, property: &Text) -> bool
    ensures { result ≡ list_any (λ made. text_eq (property_data made).0 property.now) values.now }
{
    values.as_slice().iter().any(|made| is_for(made, property))
}

// Whether an output is of this property.
#[tactic(auto, using(lf_model::proofs::TreeLemmas::tree_cases))]
fn is_for(made: &TreeProp, property: &Text) -> bool
    ensures { result ≡ text_eq (property_data made.now).0 property.now }
{
    made.property.is(property)
}
