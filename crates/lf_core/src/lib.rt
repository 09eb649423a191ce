//! The state: one history, and what replaying it gives.
#![tactic(auto)]

mod committing;
mod core_desk;
mod entries;
mod frames;
mod job;
mod limits;
mod putting;
mod ready;
mod registering;
mod sharing;
mod state;
#[cfg(test)]
mod tests;
#[cfg(test)]
mod turn_tests;
mod turns;

pub use core_desk::CoreDesk;
pub use job::Job;
pub use ready::{Lent, Ready};
pub use state::State;
