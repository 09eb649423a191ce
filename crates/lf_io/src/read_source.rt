//! A source over std's `Read`.
ghost use Rattle.std.specs.Prelude.{◌≡◌, ◌≤◌, length, None, IfSome};

use crate::failed::{Failed, one_more};
use crate::source::Source;
use std::io::{ErrorKind, Read};

/// How many bytes a source gives in its life.
const LIFE: u64 = 1 << 63;

/// How often a read that was interrupted is made again.
const TRIES: u32 = 1 << 20;

/// A source over a reader of std. It counts its bytes and tells nothing of what is left.
#[derive(Debug, Drop)]
pub struct ReadSource<R> {
    /// The reader.
    inner: R,
    /// How many bytes were taken of it.
    taken: u64,
    /// How many reads failed.
    faults: u64,
}

impl<R> ReadSource<R> {
    ghost use Rattle.lf_io.specs.Real.{reader_taken, reader_faults};

    /// A source over this reader, of which nothing was taken.
    pub fn new(inner: R) -> ReadSource<R>
        ensures taken { reader_taken result ≡ 0 }
        ensures faults { reader_faults result ≡ 0 }
    {
        ReadSource {
            inner,
            taken: 0,
            faults: 0,
        }
    }
}

// The next bytes of a reader, or none where it failed.
fn next_bytes<R: Read>(reader: &mut R, buf: &mut [u8]) -> Option<usize>
    ensures { IfSome result (λ n. n ≤ length buf.new) }
{
    for _ in 0..TRIES {
        match reader.read(buf) {
            Ok(count) => return Some(count),
            Err(error) => {
                if error.kind() != ErrorKind::Interrupted {
                    return None;
                }
            }
        }
    }
    None
}

impl<R: Read> Source for ReadSource<R> {
    ghost left = { λ _. None };

    ghost taken = { λ s. s.taken };

    ghost faults = { λ s. s.faults };

    fn read(&mut self, buf: &mut [u8]) -> Result<usize, Failed> {
        if let Some(count) = next_bytes(&mut self.inner, buf) {
            if self.taken <= LIFE && count as u64 <= LIFE - self.taken {
                self.taken += count as u64;
                return Ok(count);
            }
        }
        self.faults = one_more(self.faults);
        Err(Failed)
    }
}
