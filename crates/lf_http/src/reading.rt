//! Pieces of a head are taken until `httparse` knows it whole, refuses it or a limit is passed.
//! `read_head` calls `next_head`.
ghost use Rattle.std.specs.Prelude.{◌≡◌, ◌+◌, ◌<◌, ◌≤◌, ℕ, List, Option, [], length, take, vec_capacity, Ok, None, IfOk, IfErr, IfSome, OnOk, OnErr};
ghost use Rattle.httparse.specs.Grammar.{RequestHead, ReadsRequest};
ghost use Rattle.httparse.specs.Spans.{IsRequestOf, IsRequestWithin};
ghost use Rattle.lf_io.specs.Bytes.{prepended, HasEnded};
ghost use Rattle.lf_io.specs.Faults.{count_after};
ghost use Rattle.lf_http.specs.Reading.{IsOpen, LacksHead, ReadsOn, count_after_head, to_come, longest_head, longest_piece, most_lines};

use crate::buffers::LONGEST_HEAD;
use crate::head::HeadErr;
use httparse::spans::{HeaderSpan, RequestSpans, parse_request};
use httparse::{Error, Status};
use lf_io::{Failed, PIECE, Source};

/// Reads a piece behind the bytes that are there.
#[tactic(auto, using(lf_io::proofs::Told::prepended_nothing, lf_io::proofs::Told::prepended_twice))]
pub(crate) fn read_more<S: Source>(
    source: &mut S,
    pending: &mut Vec<u8>,
    piece: &mut [u8],
) -> Result<usize, Failed>
    requires piece { length piece.old ≡ longest_piece }
    requires room { length pending.old.items < longest_head }
    requires capacity { longest_head ≤ vec_capacity pending.old }
    ensures bytes { prepended pending.old.items (S.left source.old)
        ≡ prepended pending.new.items (S.left source.new) }
    ensures piece { length piece.new ≡ longest_piece }
    ensures within { length pending.new.items ≤ longest_head }
    ensures capacity { longest_head ≤ vec_capacity pending.new }
    ensures kept { OnOk result (take (length pending.old.items) pending.new.items
        ≡ pending.old.items) }
    ensures longer { IfOk result (λ n. length pending.new.items ≡ length pending.old.items + n) }
    ensures piecewise { IfOk result (λ n. n ≤ longest_piece) }
    ensures end { IfOk result (λ n. n ≡ 0 → HasEnded (S.left source.new)) }
    ensures nothing { IfOk result (λ n. n ≡ 0 → pending.new.items ≡ pending.old.items) }
    ensures same { OnErr result (pending.new.items ≡ pending.old.items) }
    ensures fewer { to_come (S.taken source.new) pending.new.items
        ≤ to_come (S.taken source.old) pending.old.items }
    ensures cause { S.faults source.new ≡ count_after (S.faults source.old) result }
{
    let room = PIECE.min(LONGEST_HEAD - pending.len());
    match source.read(&mut piece[..room]) {
        Ok(count) => match pending.extend_from_slice(&piece[..count]) {
            Ok(()) => Ok(count),
            Err(_) => unreachable!(),
        },
        Err(Failed) => Err(Failed),
    }
}

// The head that the bytes begin with, if it is whole. None where they may still become one.
fn parse(bytes: &[u8], lines: &mut [HeaderSpan]) -> Result<Option<RequestSpans>, HeadErr>
    requires lines { length lines.old ≡ most_lines }
    requires within { length bytes.now ≤ longest_head }
    ensures room { length lines.new ≡ most_lines }
    ensures whole { IfOk result (λ o. IfSome o (λ spans. IsRequestOf bytes.now lines.new spans)) }
    ensures within { IfOk result (λ o. IfSome o (λ spans.
        IsRequestWithin bytes.now lines.new spans)) }
    ensures open { result ≡ Ok None → IsOpen bytes.now }
    ensures more { result ≡ Ok None → length bytes.now < longest_head }
    ensures refused { (left : Option (List ℕ)) → IfErr result (λ e. LacksHead bytes.now left e) }
    ensures some { OnErr result (0 < length bytes.now) }
    ensures unfailed { (count : ℕ) → count_after_head count result ≡ count }
{
    if bytes.is_empty() {
        return Ok(None);
    }
    match parse_request(bytes, lines) {
        Ok(Status::Complete(spans)) => Ok(Some(spans)),
        Ok(Status::Partial) => {
            if bytes.len() < LONGEST_HEAD {
                Ok(None)
            } else {
                Err(HeadErr::TooLarge)
            }
        }
        Err(Error::TooManyHeaders) => Err(HeadErr::TooLarge),
        Err(_) => Err(HeadErr::BadHead),
    }
}

// What is answered where the input has ended.
fn end_of_input(pending: &[u8]) -> Result<Option<RequestSpans>, HeadErr>
    requires open { IsOpen pending.now }
    requires short { length pending.now < longest_head }
    ensures none { IfOk result (λ o. (o ≡ None) × (pending.now ≡ [])) }
    ensures refused { (left : Option (List ℕ)) → HasEnded left
        → IfErr result (λ e. LacksHead pending.now left e) }
    ensures some { OnErr result (pending.now ≡ [] → ⊥) }
    ensures unfailed { (count : ℕ) → count_after_head count result ≡ count }
{
    if pending.is_empty() {
        Ok(None)
    } else {
        Err(HeadErr::CutShort)
    }
}

/// Reads until the bytes begin with a whole head.
pub(crate) fn next_head<S: Source>(
    source: &mut S,
    pending: &mut Vec<u8>,
    lines: &mut [HeaderSpan],
) -> Result<Option<RequestSpans>, HeadErr>
    requires lines { length lines.old ≡ most_lines }
    requires within { length pending.old.items ≤ longest_head }
    requires capacity { longest_head ≤ vec_capacity pending.old }
    ensures room { length lines.new ≡ most_lines }
    ensures bytes { prepended pending.old.items (S.left source.old)
        ≡ prepended pending.new.items (S.left source.new) }
    ensures within { length pending.new.items ≤ longest_head }
    ensures capacity { longest_head ≤ vec_capacity pending.new }
    ensures whole { IfOk result (λ o. IfSome o (λ spans.
        IsRequestOf pending.new.items lines.new spans)) }
    ensures spans { IfOk result (λ o. IfSome o (λ spans.
        IsRequestWithin pending.new.items lines.new spans)) }
    ensures none { result ≡ Ok None → pending.new.items ≡ [] }
    ensures end { result ≡ Ok None → HasEnded (S.left source.new) }
    ensures refused { IfErr result (λ e. LacksHead pending.new.items (S.left source.new) e) }
    ensures unread { (h : RequestHead) (rest : List ℕ) → ReadsRequest pending.old.items h rest
        → (source.new ≡ source.old) × (pending.new.items ≡ pending.old.items) }
    ensures onward { ReadsOn pending.old.items pending.new.items }
    ensures some { IfErr result (λ e. (e ≡ HeadErr.ReadFault → ⊥) → pending.new.items ≡ [] → ⊥) }
    ensures fewer { to_come (S.taken source.new) pending.new.items
        ≤ to_come (S.taken source.old) pending.old.items }
    ensures cause { S.faults source.new ≡ count_after_head (S.faults source.old) result }
{
    let mut piece = [0u8; PIECE];
    loop {
        match parse(pending, lines) {
            Err(e) => return Err(e),
            Ok(Some(spans)) => return Ok(Some(spans)),
            Ok(None) => (),
        }
        match read_more(source, pending, &mut piece) {
            Err(Failed) => return Err(HeadErr::ReadFault),
            Ok(count) => {
                if count == 0 {
                    return end_of_input(pending);
                }
            }
        }
    }
}
