//! Turns over any rota: one board is taken, brought to its version and given back.
#![tactic(auto)]

mod laws;
mod turn;

pub use laws::{
    home_was_published, lone_turns_publish, newer_is_published, published_stands_last,
    superseded_was_changed,
};
pub use turn::one_turn;
