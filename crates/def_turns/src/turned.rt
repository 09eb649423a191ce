//! What comes of a turn.
use lf_base::Text;

/// What came of a turn, or of a board that was given back.
#[derive(Debug, Drop)]
pub enum Turned {
    /// No frame waits for a turn.
    Idle,
    /// The frame's document of this version was published.
    Published {
        frame: Text,
        version: u64,
    },
    /// The board is at home again, with the version that it has. That isn't newer than the
    /// published one.
    Home {
        frame: Text,
        version: Option<u64>,
    },
    /// The board's text is no longer live under its name. `then` is its text number, and `now` the
    /// live one.
    Superseded {
        frame: Text,
        then: u64,
        now: Option<u64>,
    },
}

/// What would come of a board that was given back.
#[derive(Clone, Copy, Debug, PartialEq, Eq)]
pub enum Given {
    Publishes,
    GoesHome,
    IsSuperseded,
}
