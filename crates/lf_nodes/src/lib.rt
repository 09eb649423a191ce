//! The nodes of a dataset's graphs over any oracle: the views that framing sees.
#![tactic(auto)]

mod asking;
mod entries;
mod home;
mod keys;
mod members;
mod merged;
mod nodes_over;
mod pointing;
#[cfg(test)]
mod tests;
mod values;
mod view;

pub use members::members_of;
pub use nodes_over::NodesOver;
pub use pointing::pointing_by;
pub use view::view_of;
