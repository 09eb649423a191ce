//! The trait of sinks, and the writing of all bytes.
ghost use Rattle.std.specs.Prelude.{◌≡◌, ◌<◌, ◌≤◌, ℕ, List, length, take, Option, IfOk, OnOk, OnErr};
ghost use Rattle.lf_io.specs.Bytes.{appended};
ghost use Rattle.lf_io.specs.Faults.{count_after};

use crate::failed::Failed;

/// Where bytes go.
pub trait Sink {
    /// The bytes that the sink holds, where it tells them.
    ghost held: { Self → Option (List ℕ) };

    /// How often a write failed.
    ghost faults: { Self → ℕ };

    /// Adds bytes from the front of these.
    fn write(&mut self, bytes: &[u8]) -> Result<usize, Failed>
        ensures within { IfOk result (λ n. n ≤ length bytes.now) }

        // A write that takes nothing of a piece that isn't empty is a failed one.
        ensures some { IfOk result (λ n. 0 < length bytes.now → 0 < n) }

        // The bytes that were taken stand last, and a sink that tells what it holds goes on telling
        // it.
        ensures bytes { IfOk result (λ n. held self.new
            ≡ appended (held self.old) (take n bytes.now)) }

        // A failed write adds nothing.
        ensures unchanged { OnErr result (held self.new ≡ held self.old) }

        // It fails only where the count of faults rose, or stands at its end.
        ensures cause { faults self.new ≡ count_after (faults self.old) result };
}

/// Writes all the bytes, piece by piece. Where a write fails, the pieces before it stand.
#[tactic(auto, using(crate::proofs::Told::appended_nothing, crate::proofs::Told::appended_next, crate::proofs::Told::appended_whole))]
pub fn write_all<K: Sink>(sink: &mut K, bytes: &[u8]) -> Result<(), Failed>
    ensures written { OnOk result (K.held sink.new ≡ appended (K.held sink.old) bytes.now) }
    ensures cut { OnErr result ((n : ℕ) × (n < length bytes.now)
        × (K.held sink.new ≡ appended (K.held sink.old) (take n bytes.now))) }
    ensures cause { K.faults sink.new ≡ count_after (K.faults sink.old) result }
{
    let mut done = 0;
    while done < bytes.len() {
        let (_, rest) = bytes.split_at(done);
        match sink.write(rest) {
            Ok(count) => done += count,
            Err(Failed) => return Err(Failed),
        }
    }
    Ok(())
}
