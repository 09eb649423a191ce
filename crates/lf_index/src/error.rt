//! Why a patch isn't applied.
use lf_base::Memory;
use thiserror::Error;

/// Why a patch isn't applied.
#[derive(Clone, Copy, Debug, PartialEq, Eq, Error)]
pub enum ApplyErr {
    /// The version would have more than 400,000 quads.
    #[error("too many quads: {have} now, {would} then")]
    TooManyQuads { have: u64, would: u64 },
    #[error("out of memory")]
    Memory,
}

impl From<Memory> for ApplyErr {
    ghost use Rattle.std.specs.Prelude.{◌≡◌};
    ghost use Rattle.lf_index.specs.declared.error.ApplyErr.TheVariants as e;

    ghost from_gives = { λ _ r. r ≡ e.Memory };

    fn from(_refused: Memory) -> ApplyErr {
        ApplyErr::Memory
    }
}
