//! Why a context is refused.
use lf_base::Memory;
use lf_model::LdError;
use thiserror::Error;

/// Why a context has no term table.
#[derive(Clone, Copy, Debug, PartialEq, Eq, Error)]
pub enum ContextErr {
    /// The context is refused (JSON-LD 1.1 Processing Algorithms and API, section 9.6).
    #[error("{0}")]
    Ld(LdError),
    #[error("out of memory")]
    Memory,
}

impl From<Memory> for ContextErr {
    ghost use Rattle.std.specs.Prelude.{◌≡◌};
    ghost use Rattle.lf_context.specs.declared.error.ContextErr.{ContextErr};

    ghost from_gives = { λ _ r. r ≡ ContextErr.Memory };

    fn from(_refused: Memory) -> ContextErr {
        ContextErr::Memory
    }
}

impl From<LdError> for ContextErr {
    ghost use Rattle.std.specs.Prelude.{◌≡◌};
    ghost use Rattle.lf_context.specs.declared.error.ContextErr.{ContextErr};

    ghost from_gives = { λ error r. r ≡ ContextErr.Ld error };

    fn from(error: LdError) -> ContextErr {
        ContextErr::Ld(error)
    }
}
