//! The body of a message, read into the buffers (RFC 9112, section 6).
ghost use Rattle.std.specs.Prelude.{◌≡◌, ◌+◌, ◌-◌, ◌^◌, ◌<◌, ◌≤◌, ◌++◌, ℕ, List, Some, length, OnOk, OnErr, Err, IsErrOf, vec_capacity};
ghost use Rattle.lf_io.specs.Bytes.{prepended, HasEnded};
ghost use Rattle.lf_http.specs.Bodies.{ReadsBody, count_after_body};
ghost use Rattle.lf_http.specs.Reading.{to_come};

use crate::buffers::{Buffers, drop_front};
use lf_base::Memory;
use lf_io::{Failed, PIECE, Source};
use thiserror::Error;

/// Why no body was read.
#[derive(Clone, Copy, Debug, PartialEq, Eq, Error)]
pub enum BodyErr {
    /// The input ended inside the body.
    #[error("the input ended inside a body")]
    CutShort,
    /// A read failed.
    #[error("a read failed")]
    ReadFault,
    /// No memory was found.
    #[error("out of memory")]
    Memory,
}

impl From<Memory> for BodyErr {
    ghost use Rattle.std.specs.Prelude.{◌≡◌};
    ghost use Rattle.lf_http.specs.declared.body.BodyErr.TheVariants as e;

    ghost from_gives = { λ _ r. r ≡ e.Memory };

    fn from(_refused: Memory) -> BodyErr {
        BodyErr::Memory
    }
}

// Reads pieces behind the body until it has its length. The room of a piece is taken before the
// piece is read, so that no byte is lost for want of memory.
#[tactic(auto, using(lf_io::proofs::Told::prepended_nothing, lf_io::proofs::Told::prepended_twice))]
fn fill<S: Source>(source: &mut S, body: &mut Vec<u8>, count: usize) -> Result<(), BodyErr>
    requires { length body.old.items ≤ count }
    ensures whole { OnOk result (length body.new.items ≡ count) }
    ensures bytes { prepended body.old.items (S.left source.old)
        ≡ prepended body.new.items (S.left source.new) }
    ensures cut { IsErrOf result BodyErr.CutShort → length body.new.items < count }
    ensures faulted { IsErrOf result BodyErr.ReadFault → length body.new.items < count }
    ensures end { IsErrOf result BodyErr.CutShort → HasEnded (S.left source.new) }
    ensures some { IsErrOf result BodyErr.Memory → 0 < count }
    ensures fewer { (2 ^ 63) - S.taken source.new ≤ (2 ^ 63) - S.taken source.old }
    ensures cause { S.faults source.new ≡ count_after_body (S.faults source.old) result }
{
    let mut piece = [0u8; PIECE];
    while body.len() < count {
        let room = PIECE.min(count - body.len());
        match body.reserve(room) {
            Ok(()) => (),
            Err(_) => return Err(BodyErr::Memory),
        }
        let more = match source.read(&mut piece[..room]) {
            Ok(more) => more,
            Err(Failed) => return Err(BodyErr::ReadFault),
        };
        if more == 0 {
            return Err(BodyErr::CutShort);
        }
        match body.extend_from_slice(&piece[..more]) {
            Ok(()) => (),
            Err(_) => unreachable!(),
        }
    }
    Ok(())
}

// Moves bytes from the front of those that are pending into the body.
fn take_pending(pending: &mut Vec<u8>, body: &mut Vec<u8>, count: usize) -> Result<(), BodyErr>
    requires { count ≤ length pending.old.items }
    ensures taken { pending.old.items ≡ body.new.items ++ pending.new.items }
    ensures len { OnOk result (length body.new.items ≡ count) }
    ensures memory { OnErr result (result ≡ Err BodyErr.Memory) }
    ensures some { OnErr result (0 < count) }
    ensures shorter { length pending.new.items ≤ length pending.old.items }
    ensures capacity { vec_capacity pending.new ≡ vec_capacity pending.old }
{
    body.clear();
    match body.extend_from_slice(&pending[..count]) {
        Ok(()) => (),
        Err(_) => return Err(BodyErr::Memory),
    }
    drop_front(pending, count);
    Ok(())
}

/// Reads a body of this length: first the bytes that are pending, and then those of the source.
#[tactic(auto, using(lf_io::proofs::Told::prepended_nothing, lf_io::proofs::Told::prepended_twice))]
pub fn read_body<S: Source>(
    source: &mut S,
    buffers: &mut Buffers,
    count: u64,
) -> Result<(), BodyErr>
    // The body is what stood first in the stream, and the rest stays.
    ensures whole { OnOk result (length buffers.new.body ≡ count) }
    ensures bytes { OnOk result (prepended buffers.old.pending (S.left source.old)
        ≡ prepended (buffers.new.body ++ buffers.new.pending) (S.left source.new)) }

    // Whatever is answered, the bytes that were taken stand in the body and before what is left.
    ensures taken { prepended buffers.old.pending (S.left source.old)
        ≡ prepended (buffers.new.body ++ buffers.new.pending) (S.left source.new) }

    // `CutShort` comes only where the input ended inside the body.
    ensures cut { IsErrOf result BodyErr.CutShort → length buffers.new.body < count }
    ensures end { IsErrOf result BodyErr.CutShort → HasEnded (S.left source.new) }
    ensures all { IsErrOf result BodyErr.CutShort
        → prepended buffers.old.pending (S.left source.old)
        ≡ prepended buffers.new.body (S.left source.new) }

    // Where a read failed, the body isn't whole, and all bytes that were taken stand in it.
    ensures faulted { IsErrOf result BodyErr.ReadFault → length buffers.new.body < count }
    ensures faulted_all { IsErrOf result BodyErr.ReadFault
        → prepended buffers.old.pending (S.left source.old)
        ≡ prepended buffers.new.body (S.left source.new) }

    // Where the source tells what is left, the answer follows from it, unless a read failed or
    // memory was missing.
    ensures told { (told : List ℕ) → S.left source.old ≡ Some told
        → ReadsBody count (buffers.old.pending ++ told) buffers.new.body result }

    // Memory is wanted only for a body that isn't empty.
    ensures some { IsErrOf result BodyErr.Memory → 0 < count }

    // Where the bytes that are pending are enough, nothing is read.
    ensures unread { count ≤ length buffers.old.pending → source.new ≡ source.old }

    // Reading leaves no more to come.
    ensures fewer { to_come (S.taken source.new) buffers.new.pending
        ≤ to_come (S.taken source.old) buffers.old.pending }

    // `ReadFault` comes exactly where a read failed.
    ensures cause { S.faults source.new ≡ count_after_body (S.faults source.old) result }
    ensures name { buffers.new.name ≡ buffers.old.name }
    ensures reply { buffers.new.reply ≡ buffers.old.reply }
{
    let count = count as usize;
    let ready = count.min(buffers.pending.len());
    match take_pending(&mut buffers.pending, &mut buffers.body, ready) {
        Ok(()) => (),
        Err(e) => return Err(e),
    }
    if ready == count {
        return Ok(());
    }
    fill(source, &mut buffers.body, count)
}
