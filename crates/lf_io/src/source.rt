//! The trait of sources, and the reading of all bytes up to a limit.
ghost use Rattle.std.specs.Prelude.{◌≡◌, ◌+◌, ◌^◌, ◌<◌, ◌≤◌, ℕ, List, [], length, take, Option, Some, IfOk, OnOk, OnErr, IsErrOf};
ghost use Rattle.lf_io.specs.Bytes.{prepended, HasEnded};
ghost use Rattle.lf_io.specs.Faults.{count_after};
ghost use Rattle.lf_io.specs.Files.{count_after_take};

use crate::failed::Failed;
use crate::shelf::ShelfErr;
use std::alloc::Global;

/// How many bytes are read at once, here and where messages are read.
pub const PIECE: usize = 4096;

/// Where bytes come from.
pub trait Source {
    /// The bytes that are left, where the source tells them.
    ghost left: { Self → Option (List ℕ) };

    /// How many bytes were taken.
    ghost taken: { Self → ℕ };

    /// How often a read failed.
    ghost faults: { Self → ℕ };

    /// Takes bytes from the front of what is left. 0 bytes into a buffer that has room are the end
    /// of the input.
    fn read(&mut self, buf: &mut [u8]) -> Result<usize, Failed>
        ensures within { IfOk result (λ n. n ≤ length buf.new) }

        // The bytes that were taken stood first, and a source that tells what is left goes on
        // telling it.
        ensures bytes { IfOk result (λ n. left self.old
            ≡ prepended (take n buf.new) (left self.new)) }
        ensures count { IfOk result (λ n. taken self.new ≡ taken self.old + n) }

        // Where what is left is told, the end comes exactly where nothing is left.
        ensures end { IfOk result (λ n. n ≡ 0 → 0 < length buf.new → HasEnded (left self.new)) }
        ensures ended { IfOk result (λ n. left self.old ≡ Some [] → n ≡ 0) }

        // A source gives at most 2^63 bytes in its life.
        ensures life { OnOk result (taken self.new ≤ 2 ^ 63) }

        // A failed read takes nothing.
        ensures untaken { OnErr result (left self.new ≡ left self.old) }
        ensures uncounted { OnErr result (taken self.new ≡ taken self.old) }

        // It fails only where the count of faults rose, or stands at its end.
        ensures cause { faults self.new ≡ count_after (faults self.old) result };
}

/// All the bytes that are left, where they are at most `limit` many.
#[tactic(auto, using(crate::proofs::Told::prepended_nothing, crate::proofs::Told::prepended_twice))]
pub fn read_all<S: Source>(alloc: Global, source: &mut S, limit: u64) -> Result<Vec<u8>, ShelfErr>
    ensures bytes { IfOk result (λ bytes. S.left source.old
        ≡ prepended bytes.items (S.left source.new)) }
    ensures ended { OnOk result (HasEnded (S.left source.new)) }
    ensures count { IfOk result (λ bytes. S.taken source.new
        ≡ S.taken source.old + length bytes.items) }
    ensures within { IfOk result (λ bytes. length bytes.items ≤ limit) }

    // `TooLong` comes exactly where more than `limit` bytes were read.
    ensures too_long { IsErrOf result ShelfErr.TooLong → (bytes : List ℕ) × (limit < length bytes)
        × (S.left source.old ≡ prepended bytes (S.left source.new))
        × (S.taken source.new ≡ S.taken source.old + length bytes) }
    ensures cause { S.faults source.new ≡ count_after_take (S.faults source.old) result }
{
    let mut bytes = Vec::new(alloc);
    let mut piece = [0u8; PIECE];
    loop {
        let count = match source.read(&mut piece) {
            Ok(count) => count,
            Err(Failed) => return Err(ShelfErr::Failed),
        };
        if count == 0 {
            return Ok(bytes);
        }
        bytes.extend_from_slice(&piece[..count])?;
        if bytes.len() as u64 > limit {
            return Err(ShelfErr::TooLong);
        }
    }
}
