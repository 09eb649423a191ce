//! Histories: the operations of a state in order, which of them are legal, and what replaying them
//! gives.
#![tactic(auto)]

mod laws;
mod live;
mod operation;

pub use laws::{
    absent_until_registered, allowed_is_legal, commit_makes_version, datasets_stay,
    fitting_boards_are_versions, fitting_jobs_fit_on, gone_once_retired, live_frames_step,
    live_is_named, live_once_registered, only_commits_make_versions, others_stay_live,
    patch_lines_in_any_order, patch_texts_in_any_order, prefix_is_legal, published_is_last,
    published_was_committed, text_numbers_are_one, text_numbers_rise,
};
pub use live::Live;
pub use operation::{Operation, OperationList};
