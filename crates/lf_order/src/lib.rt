//! Terms put in order: by their ids, and by their canonical texts.
#![tactic(auto)]

mod by_id;
mod parts;
mod sorted;
mod texts;

pub use by_id::{ById, id_text, in_id_order, put_node};
pub use parts::by_parts;
pub use sorted::sorted_set;
pub use texts::{put_term, text_of};
