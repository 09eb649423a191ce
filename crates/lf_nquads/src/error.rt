//! Why a text, or a line of it, isn't read.
use def_patch_texts::LineKind;
use lf_base::Memory;
use std::alloc::AllocError;
use thiserror::Error;

/// Why a text isn't read as a patch.
#[derive(Clone, Copy, Debug, PartialEq, Eq, Error)]
pub enum LineErr {
    /// The first line that isn't in the grammar, counted from 1, and what is wrong with it.
    #[error("line {line} isn't a line of a patch text")]
    Bad { line: u64, kind: LineKind },
    /// No memory was found.
    #[error("out of memory")]
    Memory,
}

impl From<Memory> for LineErr {
    ghost use Rattle.std.specs.Prelude.{◌≡◌};
    ghost use Rattle.lf_nquads.specs.declared.error.LineErr.TheVariants as e;

    ghost from_gives = { λ _ r. r ≡ e.Memory };

    fn from(_refused: Memory) -> LineErr {
        LineErr::Memory
    }
}

/// Why a line isn't read, as the readers of its parts tell it.
#[derive(Clone, Copy, Debug, PartialEq, Eq)]
pub enum Fault {
    Bad(LineKind),
    Memory,
}

impl From<Memory> for Fault {
    ghost use Rattle.std.specs.Prelude.{◌≡◌};
    ghost use Rattle.lf_nquads.specs.declared.error.Fault.TheVariants as e;

    ghost from_gives = { λ _ r. r ≡ e.Memory };

    fn from(_refused: Memory) -> Fault {
        Fault::Memory
    }
}

impl From<AllocError> for Fault {
    ghost use Rattle.std.specs.Prelude.{◌≡◌};
    ghost use Rattle.lf_nquads.specs.declared.error.Fault.TheVariants as e;

    ghost from_gives = { λ _ r. r ≡ e.Memory };

    fn from(_refused: AllocError) -> Fault {
        Fault::Memory
    }
}
