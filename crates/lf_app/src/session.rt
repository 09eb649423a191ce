//! The word `session`: one stream, served from the empty history on. `run_words` calls it.
ghost use Rattle.std.specs.Prelude.{◌≡◌};
ghost use Rattle.lf_session.specs.Session.{reads_failed, writes_failed};
ghost use Rattle.lf_app.specs.Sessions.{RunsSession, status_of};

use lf_base::Memory;
use lf_core::{CoreDesk, State};
use lf_io::{Sink, Source};
use lf_session::{Ended, serve_stream};
use std::alloc::Global;

/// The number of the seat that commits data files and serves the stream.
pub const SEAT: u64 = 0;

/// Serves one stream from the empty history on.
#[tactic(auto, using(crate::proofs::Sessions::runs_nothing, crate::proofs::Sessions::runs_session))]
pub fn run_session<S: Source, K: Sink>(alloc: Global, input: &mut S, output: &mut K) -> Ended
    ensures runs { RunsSession (record {
      left_before = S.left input.old;
      left_after = S.left input.new;
      held_before = K.held output.old;
      held_after = K.held output.new;
    }) result }
    ensures reads { S.faults input.new ≡ reads_failed (S.faults input.old) result }
    ensures writes { K.faults output.new ≡ writes_failed (K.faults output.old) result }
{
    let state = match State::new(alloc) {
        Ok(state) => state,
        Err(Memory) => return Ended::Memory,
    };
    let mut desk = CoreDesk::new(state, SEAT);
    serve_stream(alloc, &mut desk, input, output)
}

/// The exit status for the end of a stream.
pub fn status_of(ended: Ended) -> u8
    ensures { result ≡ status_of ended }
{
    match ended {
        Ended::Clean => 0,
        Ended::Asked => 0,
        Ended::Bad(_) => 11,
        Ended::CutShort => 10,
        Ended::ReadFault => 3,
        Ended::WriteFault => 4,
        Ended::Memory => 9,
    }
}
