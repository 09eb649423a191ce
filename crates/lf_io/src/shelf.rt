//! The trait of shelves, which give a file's bytes by its name.
ghost use Rattle.std.specs.Prelude.{◌≡◌, ◌<◌, ◌≤◌, ℕ, List, length, Option, IfOk, IsErrOf};
ghost use Rattle.lf_io.specs.declared.shelf.ShelfErr.TheVariants.{Memory};
ghost use Rattle.lf_io.specs.Files.{Files, MayHold, is_there, count_after_take, refusals_after_take};

use std::alloc::{AllocError, Global};
use thiserror::Error;

/// Why a file wasn't taken.
#[derive(Clone, Copy, Debug, PartialEq, Eq, Error)]
pub enum ShelfErr {
    /// It isn't there or can't be read.
    #[error("the file can't be read")]
    Failed,
    /// It is longer than the limit.
    #[error("the file is too long")]
    TooLong,
    /// No memory was found.
    #[error("out of memory")]
    Memory,
}

impl From<AllocError> for ShelfErr {
    ghost from_gives = { λ _ e. e ≡ Memory };

    fn from(_: AllocError) -> ShelfErr {
        ShelfErr::Memory
    }
}

/// Where files are read.
pub trait Shelf {
    /// The files by name, where the shelf tells them.
    ghost files: { Self → Option Files };

    /// How often a take failed.
    ghost faults: { Self → ℕ };

    /// How often a take of a name that is there failed, on a shelf that tells its files.
    ghost refusals: { Self → ℕ };

    /// The bytes of a file, which are at most `limit` many.
    fn take(&mut self, alloc: Global, name: &str, limit: u64) -> Result<Vec<u8>, ShelfErr>
        ensures bytes { IfOk result (λ taken. MayHold (files self.old) name.now taken.items) }

        // `TooLong` comes exactly where the file is longer than the limit.
        ensures within { IfOk result (λ taken. length taken.items ≤ limit) }
        ensures too_long { IsErrOf result ShelfErr.TooLong
            → (bytes : List ℕ) × MayHold (files self.old) name.now bytes × (limit < length bytes) }

        // A take changes no file, and a shelf that tells its files goes on telling them.
        ensures unchanged { files self.new ≡ files self.old }

        // It fails only where the count of faults rose, or stands at its end.
        ensures cause { faults self.new ≡ count_after_take (faults self.old) result }
        ensures refusal { refusals self.new
            ≡ refusals_after_take (is_there (files self.old) name.now) (refusals self.old) result };
}
