//! Embedding: the outcome of a term by a frame (JSON-LD 1.1 Framing, section 4).
#![tactic(auto)]

mod all_terms;
mod choices;
mod defaults;
mod embed;
mod entries;
mod fitting;
mod form;
#[cfg(test)]
mod frames_made;
mod outcomes;
mod parts;
mod place;
#[cfg(test)]
mod tests;
#[cfg(test)]
mod trees_shown;
mod walk;

pub use all_terms::{FramedKeys, framed_keys, outcome_among, outcomes_of};
pub use choices::{
    ReferenceRule, entering, framed_graph, is_left, reference_rule, seen_view, types_for,
};
pub use defaults::default_part;
pub use entries::{emit_literal, fallback_entries, null_entry, refer};
pub use fitting::{form_accepts, form_matches};
pub use form::{
    Form, WildFlags, flags_for, graph_form, is_omitted, is_output, item_form, numbered,
    plain_flags, stated_form, sub_form,
};
pub use outcomes::{DEPTH_LIMIT, tree};
pub use parts::{add_property, add_reverse, assemble, node_value, push_entry, push_tree};
pub use place::{Place, same_graph};
pub use walk::{ITEM_LIMIT, Stop, Walk};
