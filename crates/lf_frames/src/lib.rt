//! Frames read from their texts, and the document of a text over a dataset.
#![tactic(auto)]

mod error;
mod laws;
mod read;
#[cfg(test)]
mod tests;

pub use error::FrameTextErr;
pub use laws::{accepts_frames, documents_are_scratch, read_frames_give_documents};
pub use read::{MOST_FRAME_BYTES, read_frame};
