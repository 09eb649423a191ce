//! Why a text is no frame.
use lf_base::{Memory, Text};
use lf_model::LdError;
use thiserror::Error;

/// Why a text is no frame. The conditions stand in the order in which they are tried.
#[derive(Debug, Drop, Error)]
pub enum FrameTextErr {
    /// It isn't UTF-8, or no JSON text (RFC 8259), or nested deeper than 127 levels.
    #[error("not JSON")]
    NotJson,
    /// A number that is no whole number from -2^63 to 2^64 - 1, by the JSON pointer of the first
    /// (RFC 6901).
    #[error("fractional number at {}", .path.as_str())]
    Fractional { path: Text },
    /// The first error of the context or of the frame (JSON-LD 1.1 Framing, section 5.3).
    #[error("{0}")]
    Ld(LdError),
    #[error("out of memory")]
    Memory,
}

impl From<Memory> for FrameTextErr {
    ghost use Rattle.std.specs.Prelude.{◌≡◌};
    ghost use Rattle.lf_frames.specs.declared.error.FrameTextErr.TheVariants as err;

    ghost from_gives = { λ _ e. e ≡ err.Memory };

    fn from(_refused: Memory) -> FrameTextErr {
        FrameTextErr::Memory
    }
}
