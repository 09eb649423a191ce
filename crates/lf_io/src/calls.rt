//! The calls that an object in memory was told to fail, counted as they come.
ghost use Rattle.std.specs.Prelude.{◌≡◌, ◌↔◌, IsErr, IsTrue};

use crate::failed::{Failed, one_more};

/// The calls of an object in memory.
#[derive(Debug, Drop)]
pub struct Calls {
    /// The numbers of the calls that fail, counted from 0.
    failing: Vec<u64>,
    /// How many calls were made.
    made: u64,
    /// How many calls failed.
    faults: u64,
}

impl Calls {
    ghost use Rattle.lf_io.specs.Faults.{risen, count_after};
    ghost use Rattle.lf_io.specs.Calls.{fails_next, failing_calls, calls_made, call_faults};

    /// No call was made yet. The calls with these numbers fail.
    pub fn new(failing: Vec<u64>) -> Calls
        ensures failing { failing_calls result ≡ failing.items }
        ensures made { calls_made result ≡ 0 }
        ensures faults { call_faults result ≡ 0 }
    {
        Calls {
            failing,
            made: 0,
            faults: 0,
        }
    }

    /// Makes a call, which fails where its number says so.
    pub fn make(&mut self) -> Result<(), Failed>
        ensures fails { IsErr result ↔ IsTrue (fails_next self.old) }
        ensures made { calls_made self.new ≡ risen (calls_made self.old) }
        ensures cause { call_faults self.new ≡ count_after (call_faults self.old) result }
        ensures same { failing_calls self.new ≡ failing_calls self.old }
    {
        let fails = self.failing.contains(&self.made);
        self.made = one_more(self.made);
        if fails {
            return Err(self.fail());
        }
        Ok(())
    }

    /// Counts a fault of a call that was made.
    pub fn fail(&mut self) -> Failed
        ensures made { calls_made self.new ≡ calls_made self.old }
        ensures cause { call_faults self.new ≡ risen (call_faults self.old) }
        ensures same { failing_calls self.new ≡ failing_calls self.old }
    {
        self.faults = one_more(self.faults);
        Failed
    }
}
