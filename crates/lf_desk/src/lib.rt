//! Desks: what a session calls to read and change one history.
#![tactic(auto)]

mod desk;
mod laws;
mod name;
mod refusals;
mod rota;

pub use desk::Desk;
pub use laws::{accepts_allowed_frames, accepts_allowed_patches, same_text_again};
pub use name::is_frame_name;
pub use refusals::{CommitErr, RegisterErr};
pub use rota::Rota;
