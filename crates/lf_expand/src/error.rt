//! Why a frame is refused.
use lf_base::Memory;
use lf_model::LdError;
use thiserror::Error;

/// Why a JSON value gives no frame.
#[derive(Clone, Copy, Debug, PartialEq, Eq, Error)]
pub enum FrameErr {
    /// The context or the frame is refused (JSON-LD 1.1 Processing Algorithms and API, section 9.6;
    /// JSON-LD 1.1 Framing, section 5.3).
    #[error("{0}")]
    Ld(LdError),
    #[error("out of memory")]
    Memory,
}

impl From<Memory> for FrameErr {
    ghost use Rattle.std.specs.Prelude.{◌≡◌};
    ghost use Rattle.lf_expand.specs.declared.error.FrameErr.{FrameErr};
    ghost use Rattle.lf_expand.specs.declared.error.FrameErr.TheVariants as err;

    ghost from_gives = { λ _ r. r ≡ err.Memory };

    fn from(_refused: Memory) -> FrameErr {
        FrameErr::Memory
    }
}

impl From<LdError> for FrameErr {
    ghost use Rattle.std.specs.Prelude.{◌≡◌};
    ghost use Rattle.lf_expand.specs.declared.error.FrameErr.{FrameErr};
    ghost use Rattle.lf_expand.specs.declared.error.FrameErr.TheVariants as err;

    ghost from_gives = { λ error r. r ≡ err.Ld error };

    fn from(error: LdError) -> FrameErr {
        FrameErr::Ld(error)
    }
}
