//! Why a tree isn't compacted.
ghost use Rattle.std.specs.Prelude.{◌≡◌};
ghost use Rattle.lf_model.specs.declared.error.LdError.TheVariants as ld;
ghost use Rattle.lf_select.specs.declared.error.SelectErr.{SelectErr as Refusal};
ghost use Rattle.lf_select.specs.declared.error.SelectErr.TheVariants as s;
ghost use Rattle.lf_compact.specs.declared.error.CompactErr.TheVariants as e;
ghost use Rattle.lf_compact.specs.Answers.{raised};

use lf_base::Memory;
use lf_model::LdError;
use lf_select::SelectErr;
use std::alloc::AllocFailed;
use thiserror::Error;

/// Why a tree isn't compacted (JSON-LD 1.1 Processing Algorithms and API, section 5.1).
#[derive(Clone, Copy, Debug, PartialEq, Eq, Error)]
pub enum CompactErr {
    /// An IRI would be read as a compact one: `IRI confused with prefix` is the only error of
    /// compaction.
    #[error("{0}")]
    Ld(LdError),
    #[error("out of memory")]
    Memory,
}

impl From<Memory> for CompactErr {
    ghost from_gives = { λ _ r. r ≡ e.Memory };

    fn from(_none: Memory) -> CompactErr {
        CompactErr::Memory
    }
}

impl<T: Drop> From<AllocFailed<T>> for CompactErr {
    ghost from_gives = { λ _ r. r ≡ e.Memory };

    fn from(_refused: AllocFailed<T>) -> CompactErr {
        CompactErr::Memory
    }
}

impl From<SelectErr> for CompactErr {
    ghost from_gives = { λ refusal r. r ≡ raised refusal };

    fn from(refusal: SelectErr) -> CompactErr {
        match refusal {
            SelectErr::Confused => CompactErr::Ld(LdError::IriConfusedWithPrefix),
            SelectErr::Memory => CompactErr::Memory,
        }
    }
}
