//! A sink over std's `Write`.
ghost use Rattle.std.specs.Prelude.{◌≡◌, ◌≤◌, length, None, IfSome};

use crate::failed::{Failed, one_more};
use crate::sink::Sink;
use std::io::{ErrorKind, Write};

/// How often a write that was interrupted is made again.
const TRIES: u32 = 1 << 20;

/// A sink over a writer of std. It tells nothing of what it holds.
#[derive(Debug, Drop)]
pub struct WriteSink<W> {
    /// The writer.
    inner: W,
    /// How many writes failed.
    faults: u64,
}

impl<W> WriteSink<W> {
    ghost use Rattle.lf_io.specs.Real.{writer_faults};

    /// A sink over this writer.
    pub fn new(inner: W) -> WriteSink<W>
        ensures { writer_faults result ≡ 0 }
    {
        WriteSink { inner, faults: 0 }
    }
}

// How many bytes a writer took, or none where it failed.
fn next_count<W: Write>(writer: &mut W, bytes: &[u8]) -> Option<usize>
    ensures { IfSome result (λ n. n ≤ length bytes.now) }
{
    for _ in 0..TRIES {
        match writer.write(bytes) {
            Ok(count) => return Some(count),
            Err(error) => {
                if error.kind() != ErrorKind::Interrupted {
                    return None;
                }
            }
        }
    }
    None
}

impl<W: Write> Sink for WriteSink<W> {
    ghost held = { λ _. None };

    ghost faults = { λ s. s.faults };

    fn write(&mut self, bytes: &[u8]) -> Result<usize, Failed> {
        if let Some(count) = next_count(&mut self.inner, bytes) {
            if count > 0 || bytes.is_empty() {
                return Ok(count);
            }
        }
        self.faults = one_more(self.faults);
        Err(Failed)
    }
}
