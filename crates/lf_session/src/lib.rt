//! Sessions: one stream of requests served over a desk (RFC 9112).
#![tactic(auto)]

mod answer;
mod bodies;
mod commits;
mod documents;
mod ended;
mod law;
mod registering;
mod reply;
mod request;
mod send;
mod serve;
#[cfg(test)]
mod tests;
mod texts;
mod turning;

pub use ended::Ended;
pub use law::{
    bodies_are_json, first_session, gets_are_answered, lone_turns_publish, refreshes_are_answered,
    replies_tell_what_was_made, sessions_hold, streams_end_as_told, whole_streams_are_served,
    worked_ends,
};
pub use serve::serve_stream;
