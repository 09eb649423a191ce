//! Matching and embedding: which nodes a frame selects, and the trees that it makes of them
//! (JSON-LD 1.1 Framing, section 4).
#![tactic(auto)]

mod laws;

pub use laws::{
    counts_its_items, empty_matches_keys, entered_graph_is_new, matched_is_key, never_is_never,
    node_frame_accepts_matches, once_is_once, path_is_left_alone, present_is_refused,
    room_is_enough, same_views_same_tree, tree_is_within_depth, tree_is_within_limit,
    wild_accepts_all,
};
