//! Why a version isn't made.
use lf_base::Memory;
use lf_model::Counted;
use thiserror::Error;

/// Why a patch makes no version, in the order in which the causes are tried.
#[derive(Clone, Copy, Debug, PartialEq, Eq, Error)]
pub enum VersionErr {
    /// There are 65,536 commits already.
    #[error("history full: {have} of {limit} {of}")]
    HistoryFull { of: Counted, have: u64, limit: u64 },
    /// The version would have more than 400,000 quads.
    #[error("too many quads: {have} now, {would} then")]
    TooManyQuads { have: u64, would: u64 },
    #[error("out of memory")]
    Memory,
}

impl From<Memory> for VersionErr {
    ghost use Rattle.std.specs.Prelude.{◌≡◌};
    ghost use Rattle.lf_versions.specs.declared.error.VersionErr.TheVariants as e;

    ghost from_gives = { λ _ r. r ≡ e.Memory };

    fn from(_refused: Memory) -> VersionErr {
        VersionErr::Memory
    }
}
