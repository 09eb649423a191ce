//! Turns: which frame is brought to the newest version next, and what comes of a board that is
//! given back.
#![tactic(auto)]

mod laws;
mod turned;

pub use laws::{given_back_is_allowed, next_is_first, nobody_waits};
pub use turned::{Given, Turned};
