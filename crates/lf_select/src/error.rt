//! Why an IRI isn't compacted.
ghost use Rattle.std.specs.Prelude.{◌≡◌};
ghost use Rattle.lf_select.specs.declared.error.SelectErr.TheVariants as e;

use lf_base::Memory;
use thiserror::Error;

/// Why an IRI isn't compacted (JSON-LD 1.1 Processing Algorithms and API, section 6.2).
#[derive(Clone, Copy, Debug, PartialEq, Eq, Error)]
pub enum SelectErr {
    /// The IRI would be read as a compact one.
    #[error("IRI confused with prefix")]
    Confused,
    #[error("out of memory")]
    Memory,
}

impl From<Memory> for SelectErr {
    ghost from_gives = { λ _ r. r ≡ e.Memory };

    fn from(_none: Memory) -> SelectErr {
        SelectErr::Memory
    }
}
