//! Datasets and their versions, terms and uses, questions and their answers, list cells and node
//! views: the definitions that every layer of framing speaks of, and their laws.
#![tactic(auto)]

mod cell_laws;
mod legible_laws;
mod near_laws;
mod predicates;
mod question_laws;
mod value_laws;
mod version_laws;
mod view_laws;

pub use cell_laws::{
    cell_nodes, cells_are_least, cells_are_proper, cells_are_used_once, proper_nodes,
    proper_nodes_are_least, rounds_suffice,
};
pub use legible_laws::{
    ids_order_nodes, ids_tell_nodes, lines_order_quads, lines_tell_quads, texts_order_terms,
    texts_tell_terms,
};
pub use near_laws::{near_is_least, near_of_near};
pub use predicates::{is_blank, is_node, is_use, lies_in, tells_type, touches};
pub use question_laws::{
    answers_reply, members_in_order, terms_in_order, terms_stand_in_quads, touching_quads_decide,
    untouched_answers, untouched_by_patch,
};
pub use value_laws::{
    cell_values, items_in_order, literal_values, nil_value, reference_values, steps_suffice,
};
pub use version_laws::{
    idle_patch_changes_nothing, lines_in_any_order, next_version, patch_decides_quads,
    patch_keeps_order, quads_decide, versions_are_datasets, versions_stay,
};
pub use view_laws::{
    keys_are_listed, keys_have_views, keys_in_order, merged_keys, objects_are_told,
    objects_in_order, pointing_in_order, pointing_is_told, properties_are_told,
    properties_in_order, shared_objects, types_are_told, types_in_order, view_steps_suffice,
};
