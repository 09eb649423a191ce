//! A shelf in memory, for tests.
ghost use Rattle.std.specs.Prelude.{◌≡◌, ◌↔◌, ◌||◌, ◌<◌, ◌≤◌, List, ℕ, length, Some, IsTrue, IfOk, IsErrOf, is_none};

use crate::calls::Calls;
use crate::failed::one_more;
use crate::file::File;
use crate::shelf::{Shelf, ShelfErr};
use lf_base::ListOf;
use std::alloc::Global;

/// A shelf of files in memory. Chosen calls of it fail.
#[derive(Debug, Drop)]
pub struct MemoryShelf {
    /// Of several with one name the first counts.
    files: ListOf<File>,
    /// The takes, of which those with chosen numbers fail.
    calls: Calls,
    /// How many takes of names that are there failed.
    refusals: u64,
}

impl MemoryShelf {
    ghost use Rattle.lf_io.specs.MemoryFiles.{shelf_files, shelf_calls, shelf_refusals};

    /// A shelf of these files.
    pub fn new(files: ListOf<File>, calls: Calls) -> MemoryShelf
        ensures files { shelf_files result ≡ files }
        ensures calls { shelf_calls result ≡ calls }
        ensures refusals { shelf_refusals result ≡ 0 }
    {
        MemoryShelf {
            files,
            calls,
            refusals: 0,
        }
    }
}

impl Shelf for MemoryShelf {
    ghost use Rattle.lf_io.specs.Calls.{call_faults, calls_made, failing_calls, fails_next};
    ghost use Rattle.lf_io.specs.Faults.{risen};
    ghost use Rattle.lf_io.specs.Files.{MayHold, is_there, count_after_take, refusals_after_take};
    ghost use Rattle.lf_io.specs.MemoryFiles.{by_name, shelf_files, shelf_calls, shelf_refusals};

    ghost files = { λ s. Some (by_name s.files) };

    ghost faults = { λ s. call_faults s.calls };

    ghost refusals = { λ s. s.refusals };

    fn take(&mut self, alloc: Global, name: &str, limit: u64) -> Result<Vec<u8>, ShelfErr>
        // It fails exactly where this call is one that fails or no file has the name.
        ensures fails { IsErrOf result ShelfErr.Failed
            ↔ IsTrue (fails_next (shelf_calls self.old)
            || is_none (by_name (shelf_files self.old) name.now)) }
        // Memory is wanted only for a file that is there and within the limit.
        ensures memory { IsErrOf result ShelfErr.Memory
            → (bytes : List ℕ) × (by_name (shelf_files self.old) name.now ≡ Some bytes)
            × (length bytes ≤ limit) }
        ensures made { calls_made (shelf_calls self.new)
            ≡ risen (calls_made (shelf_calls self.old)) }
        ensures same_calls { failing_calls (shelf_calls self.new)
            ≡ failing_calls (shelf_calls self.old) }

        // What a shelf ensures.
        ensures bytes { IfOk result (λ taken.
            MayHold (Some (by_name (shelf_files self.old))) name.now taken.items) }
        ensures within { IfOk result (λ taken. length taken.items ≤ limit) }
        ensures too_long { IsErrOf result ShelfErr.TooLong
            → (bytes : List ℕ) × MayHold (Some (by_name (shelf_files self.old))) name.now bytes
            × (limit < length bytes) }
        ensures unchanged { Some (by_name (shelf_files self.new))
            ≡ Some (by_name (shelf_files self.old)) }
        ensures cause { call_faults (shelf_calls self.new)
            ≡ count_after_take (call_faults (shelf_calls self.old)) result }
        ensures refusal { shelf_refusals self.new
            ≡ refusals_after_take (is_there (Some (by_name (shelf_files self.old))) name.now)
            (shelf_refusals self.old) result }
    {
        let made = self.calls.make();
        match File::find(self.files.as_slice(), name) {
            Some(file) => {
                if made.is_err() {
                    self.refusals = one_more(self.refusals);
                    return Err(ShelfErr::Failed);
                }
                if file.bytes.len() > limit {
                    return Err(ShelfErr::TooLong);
                }
                Ok(file.bytes.as_slice().to_vec(alloc)?)
            }
            None => {
                if made.is_ok() {
                    self.calls.fail();
                }
                Err(ShelfErr::Failed)
            }
        }
    }
}
