//! Why a desk refuses a patch or a frame.
use lf_base::{Memory, Text, TryCopy};
use lf_model::{Counted, LdError};
use std::alloc::Global;
use thiserror::Error;

/// Why a patch was not committed. The conditions come in the order in which they are tried.
#[derive(Clone, Copy, Debug, PartialEq, Eq, Error)]
pub enum CommitErr {
    /// The history has 65,536 commits, or the texts with this one would have more than 268,435,456
    /// bytes. `have` is what it counts before the patch.
    #[error("history full: {have} of {limit} {of}")]
    HistoryFull { of: Counted, have: u64, limit: u64 },
    /// The version would have more than 400,000 quads.
    #[error("too many quads: {have}, and {would} with the patch")]
    TooManyQuads { have: u64, would: u64 },
    #[error("out of memory")]
    Memory,
}

impl From<Memory> for CommitErr {
    ghost use Rattle.std.specs.Prelude.{◌≡◌};
    ghost use Rattle.lf_desk.specs.declared.refusals.CommitErr.{CommitErr};

    ghost from_gives = { λ _ r. r ≡ CommitErr.Memory };

    fn from(_refused: Memory) -> CommitErr {
        CommitErr::Memory
    }
}

/// Why a frame was not registered. The conditions come in the order in which they are tried.
#[derive(Debug, Drop, Error)]
pub enum RegisterErr {
    /// The name isn't 1 to 64 letters, digits, `_` and `-`.
    #[error("bad name")]
    BadName,
    /// The text has more than 65,536 bytes.
    #[error("frame too long: {length} bytes")]
    FrameTooLong { length: u64 },
    #[error("not JSON")]
    NotJson,
    /// A number of the frame that is no whole number within range, by the JSON pointer of the
    /// first.
    #[error("fractional number at {}", .path.as_str())]
    Fractional { path: Text },
    /// The first error of the context or of the frame.
    #[error("{0}")]
    Ld(LdError),
    /// 16 other names are live.
    #[error("too many frames: {have}, and {would} with this one")]
    TooManyFrames { have: u64, would: u64 },
    /// The history has 65,536 registrations, or the texts with this one would have more than
    /// 268,435,456 bytes.
    #[error("history full: {have} of {limit} {of}")]
    HistoryFull { of: Counted, have: u64, limit: u64 },
    #[error("out of memory")]
    Memory,
}

impl From<Memory> for RegisterErr {
    ghost use Rattle.std.specs.Prelude.{◌≡◌};
    ghost use Rattle.lf_desk.specs.declared.refusals.RegisterErr.{RegisterErr};

    ghost from_gives = { λ _ r. r ≡ RegisterErr.Memory };

    fn from(_refused: Memory) -> RegisterErr {
        RegisterErr::Memory
    }
}

impl TryCopy for RegisterErr {
    fn copy(&self, alloc: Global) -> Result<RegisterErr, Memory> {
        match self {
            RegisterErr::BadName => Ok(RegisterErr::BadName),
            RegisterErr::FrameTooLong { length } => Ok(RegisterErr::FrameTooLong {
                length: *length,
            }),
            RegisterErr::NotJson => Ok(RegisterErr::NotJson),
            RegisterErr::Fractional { path } => Ok(RegisterErr::Fractional {
                path: path.copy(alloc)?,
            }),
            RegisterErr::Ld(error) => Ok(RegisterErr::Ld(*error)),
            RegisterErr::TooManyFrames { have, would } => Ok(RegisterErr::TooManyFrames {
                have: *have,
                would: *would,
            }),
            RegisterErr::HistoryFull { of, have, limit } => Ok(RegisterErr::HistoryFull {
                of: *of,
                have: *have,
                limit: *limit,
            }),
            RegisterErr::Memory => Ok(RegisterErr::Memory),
        }
    }
}
