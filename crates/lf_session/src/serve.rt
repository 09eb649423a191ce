//! One stream served, request by request.
ghost use Rattle.std.specs.Prelude.{◌≡◌, ◌<◌, ◌≤◌, ℕ, length, IsTrue, List, Option, Err, Some, None};
ghost use Rattle.lf_http.specs.Judge.{longest_body};
ghost use Rattle.lf_http.specs.Reading.{to_come, count_after_head};
ghost use Rattle.lf_http.specs.Reply.{is_named};
ghost use Rattle.lf_http.specs.declared.head.Head.{Head};
ghost use Rattle.lf_session.specs.Boards.{boards_of};
ghost use Rattle.lf_session.specs.Exchanges.{greatest_told};
ghost use Rattle.lf_session.specs.Replies.{refusal};
ghost use Rattle.lf_session.specs.Session.{refused, no_room, reads_failed, writes_failed};
ghost use Rattle.lf_session.specs.Served.{IsServed, Serves, Replies, last_of, SendsLast, reads_after, writes_after};
ghost use Rattle.lf_session.specs.Shown.{shown};

use crate::answer::answer;
use crate::ended::Ended;
use crate::reply::{Reply, out_of_memory, refusal};
use crate::request::asked_by;
use crate::send::send;
use lf_base::Memory;
use lf_desk::Rota;
use lf_http::{BodyErr, Buffers, Head, HeadErr, Method, read_body, read_head};
use lf_io::{Failed, Sink, Source};
use std::alloc::Global;

// The greatest number told, where an optional number is told too.
fn greatest_told(need: u64, number: Option<u64>) -> u64
    ensures { result ≡ greatest_told need number }
{
    match number {
        Some(number) => need.max(number),
        None => need,
    }
}

// Sends the reply to a refused head, after which the stream ends.
#[tactic(auto, using(crate::proofs::Serving::sends_whole, crate::proofs::Serving::sends_part))]
fn send_refusal<K: Sink>(output: &mut K, buffers: &mut Buffers, e: HeadErr, reply: &Reply) -> Ended
    requires named { IsTrue (is_named reply.now.status) }
    requires refused { refusal e ≡ Some (shown reply.now) }
    ensures ends { SendsLast (last_of e) (K.held output.old) (K.held output.new) result }
    ensures writes { K.faults output.new ≡ writes_failed (K.faults output.old) result }
    ensures reads { (count : ℕ) → reads_failed count result
        ≡ count_after_head {A = Head} count (Err e) }
{
    match send(output, buffers, Method::OtherMethod, true, reply) {
        Ok(()) => Ended::Bad(reply.status),
        Err(Failed) => Ended::WriteFault,
    }
}

// Ends the stream where the input ended or failed inside a head.
fn end_unsent(e: HeadErr) -> Ended
    requires { refusal e ≡ None }
    ensures ends { (held : Option (List ℕ)) → SendsLast (last_of e) held held result }
    ensures writes { (count : ℕ) → writes_failed count result ≡ count }
    ensures reads { (count : ℕ) → reads_failed count result
        ≡ count_after_head {A = Head} count (Err e) }
{
    match e {
        HeadErr::ReadFault => Ended::ReadFault,
        HeadErr::CutShort => Ended::CutShort,
        HeadErr::TooLarge => unreachable!(),
        HeadErr::BadHead => unreachable!(),
        HeadErr::LengthNeeded => unreachable!(),
        HeadErr::BodyTooLong => unreachable!(),
        HeadErr::Expectation => unreachable!(),
    }
}

// Ends the stream at a head that was refused.
fn refuse<K: Sink>(output: &mut K, buffers: &mut Buffers, e: HeadErr) -> Ended
    ensures ends { SendsLast (last_of e) (K.held output.old) (K.held output.new) result }
    ensures writes { K.faults output.new ≡ writes_failed (K.faults output.old) result }
    ensures reads { (count : ℕ) → reads_failed count result
        ≡ count_after_head {A = Head} count (Err e) }
{
    match refusal(e) {
        Some(reply) => send_refusal(output, buffers, e, &reply),
        None => end_unsent(e),
    }
}

// Ends the stream at a request for whose body no memory was found.
#[tactic(auto, using(crate::proofs::Serving::sends_whole, crate::proofs::Serving::sends_part))]
fn starve<K: Sink>(output: &mut K, buffers: &mut Buffers, head: &Head) -> Ended
    ensures ends { SendsLast (no_room head.entry.now) (K.held output.old) (K.held output.new)
        result }
    ensures writes { K.faults output.new ≡ writes_failed (K.faults output.old) result }
    ensures reads { (count : ℕ) → reads_failed count result ≡ count }
{
    match send(output, buffers, head.method, true, &out_of_memory()) {
        Ok(()) => Ended::Memory,
        Err(Failed) => Ended::WriteFault,
    }
}

// Answers a request that was read whole.
fn reply<D: Rota, K: Sink>(
    alloc: Global,
    desk: &mut D,
    output: &mut K,
    buffers: &mut Buffers,
    head: &Head,
    need: &mut u64,
) -> Option<Ended>
    requires short { length buffers.old.body ≤ longest_body }
    ensures replies { Replies (D.alone desk.old) (boards_of (D.away desk.old) (D.taken desk.old))
        (boards_of (D.away desk.new) (D.taken desk.new))
        (D.seat desk.old) need.old need.new head.entry.now buffers.old.name buffers.old.body
        (D.history desk.old) (D.history desk.new) (K.held output.old) (K.held output.new) result }
    ensures same_seat { D.seat desk.new ≡ D.seat desk.old }
    ensures same_alone { D.alone desk.new ≡ D.alone desk.old }
    ensures writes { K.faults output.new ≡ writes_after (K.faults output.old) result }
    ensures reads { (count : ℕ) → reads_after count result ≡ count }
    ensures pending { buffers.new.pending ≡ buffers.old.pending }
{
    let seen = greatest_told(*need, head.seen);
    let reply = answer(
        alloc,
        desk,
        asked_by(head),
        buffers.name(),
        buffers.body(),
        seen,
    );
    *need = greatest_told(seen, reply.version);
    match send(output, buffers, head.method, head.close, &reply) {
        Ok(()) => { if head.close { Some(Ended::Asked) } else { None } }
        Err(Failed) => Some(Ended::WriteFault),
    }
}

// Serves the next request, or ends the stream.
fn serve_next<D: Rota, S: Source, K: Sink>(
    alloc: Global,
    desk: &mut D,
    input: &mut S,
    output: &mut K,
    buffers: &mut Buffers,
    need: &mut u64,
) -> Option<Ended>
    ensures serves { Serves (D.alone desk.old) (boards_of (D.away desk.old) (D.taken desk.old))
        (boards_of (D.away desk.new) (D.taken desk.new))
        (D.seat desk.old) need.old need.new (D.history desk.old) (D.history desk.new)
        (record {
          left_before = S.left input.old;
          left_after = S.left input.new;
          held_before = K.held output.old;
          held_after = K.held output.new;
        })
        buffers.old.pending buffers.new.pending result }
    ensures same_seat { D.seat desk.new ≡ D.seat desk.old }
    ensures same_alone { D.alone desk.new ≡ D.alone desk.old }
    ensures reads { S.faults input.new ≡ reads_after (S.faults input.old) result }
    ensures writes { K.faults output.new ≡ writes_after (K.faults output.old) result }
    ensures fewer { result ≡ None →
        to_come (S.taken input.new) buffers.new.pending
        < to_come (S.taken input.old) buffers.old.pending }
{
    let head = match read_head(input, buffers) {
        Ok(Some(head)) => head,
        Ok(None) => return Some(Ended::Clean),
        Err(e) => return Some(refuse(output, buffers, e)),
    };
    match read_body(input, buffers, head.length) {
        Ok(()) => (),
        Err(BodyErr::CutShort) => return Some(Ended::CutShort),
        Err(BodyErr::ReadFault) => return Some(Ended::ReadFault),
        Err(BodyErr::Memory) => return Some(starve(output, buffers, &head)),
    }
    reply(alloc, desk, output, buffers, &head, need)
}

/// Serves one stream of requests over a desk (RFC 9112). Requests are answered one after another,
/// and a turn is made for each that asks for one.
pub fn serve_stream<D: Rota, S: Source, K: Sink>(
    alloc: Global,
    desk: &mut D,
    input: &mut S,
    output: &mut K,
) -> Ended
    // What was read and sent is a session over the desk's history. The seat's own operations in it
    // are those before and what the requests made, in order. A turn is one that the boards, and the
    // histories before and after it, allow.
    ensures served { IsServed (D.alone desk.old) (boards_of (D.away desk.old) (D.taken desk.old))
        (boards_of (D.away desk.new) (D.taken desk.new))
        (D.seat desk.old) (D.history desk.old) (D.history desk.new)
        (record {
          left_before = S.left input.old;
          left_after = S.left input.new;
          held_before = K.held output.old;
          held_after = K.held output.new;
        })
        result }
    ensures same_seat { D.seat desk.new ≡ D.seat desk.old }
    ensures same_alone { D.alone desk.new ≡ D.alone desk.old }

    // `ReadFault` and `WriteFault` come exactly where that object's count of faults rose, or stands
    // at its end.
    ensures reads { S.faults input.new ≡ reads_failed (S.faults input.old) result }
    ensures writes { K.faults output.new ≡ writes_failed (K.faults output.old) result }
{
    let mut buffers = match Buffers::new(alloc) {
        Ok(buffers) => buffers,
        Err(Memory) => return Ended::Memory,
    };
    let mut need = 0;
    loop {
        match serve_next(alloc, desk, input, output, &mut buffers, &mut need) {
            Some(ended) => return ended,
            None => (),
        }
    }
}
