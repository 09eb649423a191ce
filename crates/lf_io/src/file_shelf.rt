//! The shelf of the file system.
ghost use Rattle.std.specs.Prelude.{◌≡◌, ◌<◌, ◌≤◌, ℕ, List, length, None, IfOk, IsErrOf};

use crate::failed::one_more;
use crate::read_source::ReadSource;
use crate::shelf::{Shelf, ShelfErr};
use crate::source::read_all;
use std::alloc::Global;
use std::fs;
use std::rt::Files;

/// A shelf over the files of the system. It tells nothing of them.
#[derive(Debug, Drop)]
pub struct FileShelf<'a, R> {
    /// The runtime whose files these are.
    rt: &'a R,
    /// How many takes failed.
    faults: u64,
}

impl<'a, R> FileShelf<'a, R> {
    ghost use Rattle.lf_io.specs.Real.{take_faults};

    /// A shelf over the files of this runtime.
    pub fn new(rt: &'a R) -> FileShelf<'a, R>
        ensures { take_faults result ≡ 0 }
    {
        FileShelf { rt, faults: 0 }
    }
}

// The bytes of a file, which are at most `limit` many.
fn read_file<R: Files>(rt: &R, alloc: Global, name: &str, limit: u64) -> Result<Vec<u8>, ShelfErr>
    ensures within { IfOk result (λ bytes. length bytes.items ≤ limit) }
    ensures too_long { IsErrOf result ShelfErr.TooLong → (bytes : List ℕ) × (limit < length bytes) }
{
    match fs::open(rt, name) {
        Ok(file) => read_all(alloc, &mut ReadSource::new(file), limit),
        Err(_) => Err(ShelfErr::Failed),
    }
}

impl<'a, R: Files> Shelf for FileShelf<'a, R> {
    ghost files = { λ _. None };

    ghost faults = { λ s. s.faults };

    ghost refusals = { λ _. 0 };

    fn take(&mut self, alloc: Global, name: &str, limit: u64) -> Result<Vec<u8>, ShelfErr> {
        match read_file(self.rt, alloc, name, limit) {
            Ok(bytes) => Ok(bytes),
            Err(ShelfErr::Failed) => {
                self.faults = one_more(self.faults);
                Err(ShelfErr::Failed)
            }
            Err(ShelfErr::TooLong) => Err(ShelfErr::TooLong),
            Err(ShelfErr::Memory) => Err(ShelfErr::Memory),
        }
    }
}
