//! The answer of a call to the outside that failed.
ghost use Rattle.std.specs.Prelude.{◌≡◌};
ghost use Rattle.lf_io.specs.Faults.{risen};

use thiserror::Error;

/// The outside failed. The object's count of faults says so too.
#[derive(Clone, Copy, Debug, PartialEq, Eq, Error)]
#[error("the outside failed")]
pub struct Failed;

/// A count after one more. It stands still at the last `u64`.
#[tactic(auto, unfolding(crate::specs::Faults::risen))]
pub(crate) fn one_more(count: u64) -> u64
    ensures { result ≡ risen count }
{
    count.saturating_add(1)
}
