//! What a value of a frame was read as.

/// A value stands for null and is dropped, is match-none, or is the sub-frame of a number.
#[derive(Clone, Copy, Debug)]
pub enum Found {
    Dropped,
    MatchNone,
    Numbered(u32),
}
