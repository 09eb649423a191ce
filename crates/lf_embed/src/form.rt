//! By which sub-frame the values of a property, the items of a list and the nodes of a graph are
//! output; embedding calls it.
ghost use Rattle.std.specs.Prelude.{◌≡◌};
ghost use Rattle.std.specs.Option.{option_map};
ghost use Rattle.def_nested.specs.Nested.{flags_of, plain, props_list, within_of};
ghost use Rattle.def_nested.specs.Unfolding.{above, build_props, nested, sub_frame};
ghost use Rattle.def_framing.specs.Steps.{is_omitted, is_output, item_frame, stated, sub_at, sub_for};
ghost use Rattle.lf_rdf.specs.Equality.{text_eq};
ghost use Rattle.lf_embed.specs.Forms.{form_of, heir, list_item, within_frame};

use lf_base::{Same, Text};
use lf_match::later_row;
use lf_model::{Embed, Frame, FrameKind, FrameProp, FramePropList};

/// A sub-frame: match-none, a map of the frame's table by its number, or a wildcard with flags
/// alone.
#[derive(Clone, Copy, Debug)]
pub enum Form {
    /// Match-none: the property is to be absent.
    Absent,
    /// The map with this number in the frame's table.
    Row(u32),
    /// A wildcard that takes over these flags.
    Wild(WildFlags),
}

/// The flags of a wildcard (JSON-LD 1.1 Framing, section 4.1: the object embed, explicit inclusion
/// and require all flags).
#[derive(Clone, Copy, Debug)]
pub struct WildFlags {
    /// Whether a node is embedded always, once in each tree, or never.
    pub embed: Embed,
    /// Whether only the properties that the frame states are output.
    pub explicit: bool,
    /// Whether each property of the frame must match, or one of them.
    pub require_all: bool,
}

/// The flags of a wildcard that states none.
pub fn plain_flags() -> WildFlags
    ensures { result ≡ heir plain }
{
    WildFlags {
        embed: Embed::Once,
        explicit: false,
        require_all: false,
    }
}

/// The flags of a sub-frame that a wildcard takes over.
pub fn flags_for(frame: &Frame, form: Form) -> WildFlags
    ensures { result ≡ heir (flags_of (form_of frame.now.nodes form)) }
{
    match form {
        Form::Absent => plain_flags(),
        Form::Wild(flags) => flags,
        Form::Row(at) => match frame.nodes.at(at as u64) {
            None => plain_flags(),
            Some(row) => WildFlags {
                embed: row.embed,
                explicit: row.explicit,
                require_all: row.require_all,
            },
        },
    }
}

/// The sub-frame that a number names for the map `at`.
pub fn numbered(frame: &Frame, at: u32, number: Option<u32>) -> Form
    ensures { form_of frame.now.nodes result ≡ sub_frame (above at (nested frame.now.nodes)) number }
{
    match later_row(frame, at, number) {
        None => Form::Absent,
        Some(later) => Form::Row(later),
    }
}

/// The sub-frame that a frame states for a property.
pub fn stated_form(frame: &Frame, form: Form, property: &Text) -> Option<Form>
    ensures { option_map (form_of frame.now.nodes) result
        ≡ stated (form_of frame.now.nodes form) property.now }
{
    match form {
        Form::Absent => None,
        Form::Wild(_) => None,
        Form::Row(at) => match frame.nodes.at(at as u64) {
            None => None,
            Some(row) => stated_in(frame, at, &row.props, property),
        },
    }
}

// The sub-frame of the first of these properties of the map `at` that has this name.
fn stated_in(frame: &Frame, at: u32, props: &FramePropList, property: &Text) -> Option<Form>
    ensures { option_map (form_of frame.now.nodes) result
        ≡ sub_at property.now
        (props_list (build_props (above at (nested frame.now.nodes)) props.now)) }
{
    for prop in props.as_slice() {
        if is_named(prop, property) {
            return Some(numbered(frame, at, prop.frame));
        }
    }
    None
}

// Whether a property of a frame has this name.
fn is_named(prop: &FrameProp, property: &Text) -> bool
    ensures { result ≡ text_eq prop.now.property property.now }
{
    prop.property.is(property)
}

/// The sub-frame by which a property's values are output: the stated one, or a wildcard with the
/// frame's own flags.
pub fn sub_form(frame: &Frame, form: Form, property: &Text) -> Form
    ensures { form_of frame.now.nodes result ≡ sub_for (form_of frame.now.nodes form) property.now }
{
    match stated_form(frame, form, property) {
        Some(sub) => sub,
        None => Form::Wild(flags_for(frame, form)),
    }
}

/// Whether a property is output: with `@explicit` only those that the frame states.
pub fn is_output(frame: &Frame, form: Form, property: &Text) -> bool
    ensures { result ≡ is_output (form_of frame.now.nodes form) property.now }
{
    match stated_form(frame, form, property) {
        Some(_) => true,
        None => !flags_for(frame, form).explicit,
    }
}

/// The frame for the items of a list: the item pattern, a wildcard, or the wild sub-frame itself.
pub fn item_form(frame: &Frame, form: Form) -> Form
    ensures { form_of frame.now.nodes result ≡ item_frame (form_of frame.now.nodes form) }
{
    match form {
        Form::Absent => Form::Absent,
        Form::Wild(flags) => Form::Wild(flags),
        Form::Row(at) => match frame.nodes.at(at as u64) {
            None => Form::Absent,
            Some(row) => match row.kind {
                FrameKind::Wild => Form::Row(at),
                FrameKind::Node => Form::Row(at),
                FrameKind::Value(_) => Form::Row(at),
                FrameKind::List(item) => list_item_form(frame, at, item),
            },
        },
    }
}

// The frame for the items of a list under a list pattern of the map `at`; without an item pattern it
// is a wildcard.
fn list_item_form(frame: &Frame, at: u32, item: Option<u32>) -> Form
    ensures { form_of frame.now.nodes result ≡ list_item frame.now.nodes at item }
{
    match item {
        None => Form::Wild(plain_flags()),
        Some(_) => numbered(frame, at, item),
    }
}

/// The sub-frame of `@graph`, where the frame has it.
pub fn graph_form(frame: &Frame, form: Form) -> Option<Form>
    ensures { option_map (form_of frame.now.nodes) result
        ≡ within_frame (within_of (form_of frame.now.nodes form)) }
{
    match form {
        Form::Absent => None,
        Form::Wild(_) => None,
        Form::Row(at) => match frame.nodes.at(at as u64) {
            None => None,
            Some(row) => match row.graph {
                None => None,
                Some(sub) => Some(numbered(frame, at, Some(sub))),
            },
        },
    }
}

/// Whether a property takes no default, by its sub-frame's `@omitDefault` where stated, else by the
/// frame's.
pub fn is_omitted(frame: &Frame, form: Form, sub: Form) -> bool
    ensures { result ≡ is_omitted (form_of frame.now.nodes form) (form_of frame.now.nodes sub) }
{
    match omit_flag(frame, sub) {
        Some(omit) => omit,
        None => match omit_flag(frame, form) {
            Some(omit) => omit,
            None => false,
        },
    }
}

// The `@omitDefault` of a sub-frame, where it is stated.
fn omit_flag(frame: &Frame, form: Form) -> Option<bool>
    ensures { result ≡ (flags_of (form_of frame.now.nodes form)).omit_default }
{
    match form {
        Form::Absent => None,
        Form::Wild(_) => None,
        Form::Row(at) => match frame.nodes.at(at as u64) {
            None => None,
            Some(row) => row.omit_default,
        },
    }
}
