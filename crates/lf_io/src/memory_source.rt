//! A source in memory, which gives its bytes in pieces.
ghost use Rattle.std.specs.Prelude.{◌≡◌, ◌↔◌, ◌+◌, ◌^◌, ◌<◌, ◌≤◌, [], length, take, drop, min, Some, IfOk, OnOk, OnErr, IsErr, IsTrue};

use crate::calls::Calls;
use crate::failed::Failed;
use crate::source::Source;

/// A source that gives the bytes of a list, in pieces of a largest length. Chosen calls of it fail.
#[derive(Debug, Drop)]
pub struct MemorySource {
    /// All bytes, those that were taken first.
    bytes: Vec<u8>,
    /// How many bytes were taken.
    taken: usize,
    /// How many bytes a read gives at most.
    piece: usize,
    /// The reads, of which those with chosen numbers fail.
    calls: Calls,
    ghost within: { taken ≤ length bytes.items },
    ghost some: { 0 < piece },
}

impl MemorySource {
    ghost use Rattle.lf_io.specs.Memory.{bytes_left, bytes_taken, source_calls, source_piece};

    /// A source of these bytes.
    pub fn new(bytes: Vec<u8>, piece: usize, calls: Calls) -> MemorySource
        requires { 0 < piece }
        ensures left { bytes_left result ≡ bytes.items }
        ensures taken { bytes_taken result ≡ 0 }
        ensures piece { source_piece result ≡ piece }
        ensures calls { source_calls result ≡ calls }
    {
        MemorySource {
            bytes,
            taken: 0,
            piece,
            calls,
        }
    }
}

impl Source for MemorySource {
    ghost use Rattle.lf_io.specs.Bytes.{prepended, HasEnded};
    ghost use Rattle.lf_io.specs.Calls.{call_faults, calls_made, failing_calls, fails_next};
    ghost use Rattle.lf_io.specs.Faults.{count_after, risen};
    ghost use Rattle.lf_io.specs.Memory.{bytes_left, bytes_taken, source_calls, source_piece};

    ghost left = { λ s. Some (drop s.taken s.bytes.items) };

    ghost taken = { λ s. s.taken };

    ghost faults = { λ s. call_faults s.calls };

    fn read(&mut self, buf: &mut [u8]) -> Result<usize, Failed>
        // It fails exactly where this call is one that fails, and else gives the longest piece that
        // it can.
        ensures fails { IsErr result ↔ IsTrue (fails_next (source_calls self.old)) }
        ensures piece { IfOk result (λ n. n ≡ min (min (source_piece self.old) (length buf.new))
            (length (bytes_left self.old))) }
        ensures same_piece { source_piece self.new ≡ source_piece self.old }
        ensures made { calls_made (source_calls self.new)
            ≡ risen (calls_made (source_calls self.old)) }
        ensures same_calls { failing_calls (source_calls self.new)
            ≡ failing_calls (source_calls self.old) }

        // What a source ensures.
        ensures within { IfOk result (λ n. n ≤ length buf.new) }
        ensures bytes { IfOk result (λ n. Some (bytes_left self.old)
            ≡ prepended (take n buf.new) (Some (bytes_left self.new))) }
        ensures count { IfOk result (λ n. bytes_taken self.new ≡ bytes_taken self.old + n) }
        ensures end { IfOk result (λ n. n ≡ 0 → 0 < length buf.new
            → HasEnded (Some (bytes_left self.new))) }
        ensures ended { IfOk result (λ n. Some (bytes_left self.old) ≡ Some [] → n ≡ 0) }
        ensures life { OnOk result (bytes_taken self.new ≤ 2 ^ 63) }
        ensures untaken { OnErr result (Some (bytes_left self.new) ≡ Some (bytes_left self.old)) }
        ensures uncounted { OnErr result (bytes_taken self.new ≡ bytes_taken self.old) }
        ensures cause { call_faults (source_calls self.new)
            ≡ count_after (call_faults (source_calls self.old)) result }
    {
        self.calls.make()?;
        let (_, left) = self.bytes.split_at(self.taken);
        let count = self.piece.min(buf.len()).min(left.len());
        let (piece, _) = left.split_at(count);
        buf[..count].copy_from_slice(piece);
        self.taken += count;
        Ok(count)
    }
}
