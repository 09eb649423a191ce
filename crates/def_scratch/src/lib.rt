//! The document of a frame and a dataset, computed from scratch (JSON-LD 1.1 Framing, section 4).
#![tactic(auto)]

mod laws;

pub use laws::{
    frame_errors_decide, frame_gives_document_of_its_meaning, frame_gives_document_of_its_text,
    outcomes_give_the_document, same_views_same_document, worked_frame,
};
