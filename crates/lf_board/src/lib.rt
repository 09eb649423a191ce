//! Boards: what a frame came to over a version, and its document.
#![tactic(auto)]

mod board;
mod evaluated;
mod home;
#[cfg(test)]
mod tests;

pub use board::{Board, Turn};
pub use home::HomeBoard;
