//! The limits of a history, as a registration and a commit meet them.
ghost use Rattle.std.specs.Prelude.{◌≡◌, ◌≤◌, length};
ghost use Rattle.def_histories.specs.Legal.{most_frame_bytes};
ghost use Rattle.lf_desk.specs.RegisterAnswer.{limits_answer};
ghost use Rattle.lf_core.specs.Checks.{history_answer};

use crate::state::State;
use lf_desk::{CommitErr, RegisterErr};
use lf_model::Counted;

// The most commits of a history.
const MOST_COMMITS: u64 = 65_536;

// The most registrations of a history.
const MOST_REGISTRATIONS: u64 = 65_536;

// The most bytes of all patch texts and frame texts of a history.
const MOST_TEXT_BYTES: u64 = 268_435_456;

/// The most live frames.
pub const MOST_FRAMES: u64 = 16;

/// What the limits say of a text that may be registered under a name.
#[tactic(auto, unfolding(def_histories::specs::Legal::most_frame_bytes, def_histories::specs::Legal::most_frames, def_histories::specs::Legal::most_registrations, def_histories::specs::Legal::most_text_bytes))]
pub fn check_registration(state: &State, name: &str, text: &str) -> Result<bool, RegisterErr>
    requires short { length text.now ≤ most_frame_bytes }
    ensures { result ≡ limits_answer state.now.history name.now text.now }
{
    if state.others(name) >= MOST_FRAMES {
        return Err(RegisterErr::TooManyFrames {
            have: MOST_FRAMES,
            would: MOST_FRAMES + 1,
        });
    }
    if state.registrations() >= MOST_REGISTRATIONS {
        return Err(RegisterErr::HistoryFull {
            of: Counted::Registrations,
            have: state.registrations(),
            limit: MOST_REGISTRATIONS,
        });
    }
    if state.text_bytes() + text.len() as u64 > MOST_TEXT_BYTES {
        return Err(RegisterErr::HistoryFull {
            of: Counted::Bytes,
            have: state.text_bytes(),
            limit: MOST_TEXT_BYTES,
        });
    }
    Ok(true)
}

/// What the limits on commits and bytes say of a patch of so many bytes.
#[tactic(auto, unfolding(def_histories::specs::Legal::most_commits, def_histories::specs::Legal::most_text_bytes))]
pub fn check_commit(state: &State, bytes: u64) -> Result<(), CommitErr>
    ensures { result ≡ history_answer state.now.history bytes }
{
    if state.versions() >= MOST_COMMITS {
        return Err(CommitErr::HistoryFull {
            of: Counted::Commits,
            have: state.versions(),
            limit: MOST_COMMITS,
        });
    }
    if bytes > MOST_TEXT_BYTES || state.text_bytes() + bytes > MOST_TEXT_BYTES {
        return Err(CommitErr::HistoryFull {
            of: Counted::Bytes,
            have: state.text_bytes(),
            limit: MOST_TEXT_BYTES,
        });
    }
    Ok(())
}
