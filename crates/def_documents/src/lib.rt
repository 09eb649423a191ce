//! Compaction of framed trees, pruning of blank ids, and the printed document.
#![tactic(auto)]

mod laws;
mod limits;

pub use laws::{
    compacted_is_ordered, counts_add_up, first_excess_decides, first_limit_decides,
    items_within_limit, keys_are_of_entries, keys_ascend, pruning_keeps_items,
    pruning_keeps_others, pruning_may_be_idle, pruning_removes_once, refused_as_confused,
    text_within_limit,
};
pub use limits::{byte_limit, item_limit};
