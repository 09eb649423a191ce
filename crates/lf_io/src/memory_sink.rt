//! A sink in memory, which takes its room when it is made.
ghost use Rattle.std.specs.Prelude.{◌≡◌, ◌↔◌, ◌-◌, ◌||◌, ◌<◌, ◌≤◌, [], length, take, min, not, Some, IfOk, OnErr, IsErr, IsTrue, vec_capacity};

use crate::calls::Calls;
use crate::failed::Failed;
use crate::sink::Sink;
use lf_base::Memory;
use std::alloc::Global;

/// A sink that keeps its bytes, in pieces of a largest length, until its room is full. Chosen
/// calls of it fail.
#[derive(Debug, Drop)]
pub struct MemorySink {
    /// All that was written.
    bytes: Vec<u8>,
    /// How many bytes it holds at most.
    room: usize,
    /// How many bytes a write takes at most.
    piece: usize,
    /// The writes, of which those with chosen numbers fail.
    calls: Calls,
    ghost within: { length bytes.items ≤ room },
    ghost taken: { room ≤ vec_capacity bytes },
    ghost some: { 0 < piece },
}

impl MemorySink {
    ghost use Rattle.lf_io.specs.Memory.{bytes_held, room_of, sink_calls, sink_piece};

    /// A sink that holds nothing and takes its room.
    pub fn new(alloc: Global, room: usize, piece: usize, calls: Calls) -> Result<MemorySink, Memory>
        requires { 0 < piece }
        ensures held { IfOk result (λ sink. bytes_held sink ≡ []) }
        ensures room { IfOk result (λ sink. room_of sink ≡ room) }
        ensures piece { IfOk result (λ sink. sink_piece sink ≡ piece) }
        ensures calls { IfOk result (λ sink. sink_calls sink ≡ calls) }
    {
        Ok(MemorySink {
            bytes: Vec::with_capacity(alloc, room)?,
            room,
            piece,
            calls,
        })
    }

    /// The bytes that it holds.
    pub fn bytes(&self) -> &[u8]
        ensures { result.now ≡ bytes_held self.now }
    {
        self.bytes.as_slice()
    }
}

impl Sink for MemorySink {
    ghost use Rattle.lf_io.specs.Bytes.{appended};
    ghost use Rattle.lf_io.specs.Calls.{call_faults, calls_made, failing_calls, fails_next};
    ghost use Rattle.lf_io.specs.Faults.{count_after, risen};
    ghost use Rattle.lf_io.specs.Memory.{bytes_held, room_of, sink_calls, sink_piece, piece_fits};

    ghost held = { λ s. Some s.bytes.items };

    ghost faults = { λ s. call_faults s.calls };

    fn write(&mut self, bytes: &[u8]) -> Result<usize, Failed>
        // It fails exactly where this call is one that fails or nothing fits, and else takes the
        // longest piece that fits.
        ensures fails { IsErr result
            ↔ IsTrue (fails_next (sink_calls self.old) || not (piece_fits self.old bytes.now)) }
        ensures piece { IfOk result (λ n. n ≡ min (min (sink_piece self.old) (length bytes.now))
            (room_of self.old - length (bytes_held self.old))) }
        ensures same_piece { sink_piece self.new ≡ sink_piece self.old }
        ensures same_room { room_of self.new ≡ room_of self.old }
        ensures made { calls_made (sink_calls self.new) ≡ risen (calls_made (sink_calls self.old)) }
        ensures same_calls { failing_calls (sink_calls self.new)
            ≡ failing_calls (sink_calls self.old) }

        // What a sink ensures.
        ensures within { IfOk result (λ n. n ≤ length bytes.now) }
        ensures some { IfOk result (λ n. 0 < length bytes.now → 0 < n) }
        ensures bytes { IfOk result (λ n. Some (bytes_held self.new)
            ≡ appended (Some (bytes_held self.old)) (take n bytes.now)) }
        ensures unchanged { OnErr result (Some (bytes_held self.new) ≡ Some (bytes_held self.old)) }
        ensures cause { call_faults (sink_calls self.new)
            ≡ count_after (call_faults (sink_calls self.old)) result }
    {
        self.calls.make()?;
        let count = self
            .piece
            .min(bytes.len())
            .min(self.room - self.bytes.len());
        if count == 0 && !bytes.is_empty() {
            return Err(self.calls.fail());
        }
        let (piece, _) = bytes.split_at(count);
        match self.bytes.extend_from_slice(piece) {
            Ok(()) => Ok(count),
            Err(_) => unreachable!(),
        }
    }
}
