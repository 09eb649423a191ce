//! The next head of a stream; the session calls it.
ghost use Rattle.std.specs.Prelude.{◌≡◌, ◌<◌, ◌≤◌, ◌++◌, ℕ, List, [], length, string_bytes, Ok, Err, Some, None, OnOk, OnSome, IfOk, IfErr, IfSome, OnErr, IsUtf8};
ghost use Rattle.std.specs.String.{string_capacity};
ghost use Rattle.httparse.specs.Grammar.{RequestHead, IsRequestHead, ReadsRequest, print_request};
ghost use Rattle.lf_io.specs.Bytes.{prepended, HasEnded};
ghost use Rattle.lf_http.specs.Judge.{judged, request_of};
ghost use Rattle.lf_http.specs.Reading.{IsRefused, IsBeyond, ReadsOn, as_read, count_after_head, name_of, to_come, longest_head, most_lines};

use crate::buffers::{Buffers, drop_front};
use crate::field::bytes_of;
use crate::head::{Head, HeadErr};
use crate::judge::{FRAMES_PATH, judge};
use crate::reading::next_head;
use lf_io::Source;

// Keeps what the target names.
fn keep_name(name: &mut String, target: &[u8])
    requires capacity { longest_head ≤ string_capacity name.old }
    requires short { length target.now ≤ longest_head }
    requires text { IsUtf8 target.now }
    ensures name { string_bytes name.new ≡ name_of target.now }
    ensures capacity { longest_head ≤ string_capacity name.new }
{
    name.clear();
    if target.starts_with(FRAMES_PATH) {
        let (_, behind) = target.split_at(FRAMES_PATH.len());
        match str::from_utf8(behind) {
            Ok(text) => match name.push_str(text) {
                Ok(()) => (),
                Err(_) => unreachable!(),
            },
            Err(_) => unreachable!(),
        }
    }
}

/// Reads the next head, and takes no memory (RFC 9112, section 2.2).
///
/// The bytes are parsed after every piece that comes, so that bytes that no head continues are
/// refused at once. A head costs its bytes for each of its pieces, which are of at most 4,096
/// bytes: for one that comes whole the time is linear in its length, for one of 16,384 bytes that
/// comes byte by byte some 134 million steps. The bytes behind the head, which are at most one
/// piece, are moved to the front.
pub fn read_head<S: Source>(source: &mut S, buffers: &mut Buffers) -> Result<Option<Head>, HeadErr>
    // An accepted head, with the empty lines before it, stood first in the stream, and is gone from
    // it.
    ensures head { IfOk result (λ o. IfSome o (λ head. (h : RequestHead) × IsRequestHead h
        × (prepended buffers.old.pending (S.left source.old)
        ≡ prepended (print_request h ++ buffers.new.pending) (S.left source.new))
        × (judged (request_of h) ≡ Ok head) × (buffers.new.name ≡ name_of h.target)
        × (length (print_request h) ≤ longest_head) × (length h.fields ≤ most_lines))) }

    // `None` comes where the input ended before the first byte of a message.
    ensures none { result ≡ Ok None → buffers.new.pending ≡ [] }
    ensures end { result ≡ Ok None → HasEnded (S.left source.new) }
    ensures nothing { result ≡ Ok None
        → prepended buffers.old.pending (S.left source.old) ≡ S.left source.new }

    // It is answered wherever nothing is left, unless a read failed.
    ensures ended { buffers.old.pending ≡ [] → S.left source.old ≡ Some []
        → (result ≡ Err HeadErr.ReadFault → ⊥) → result ≡ Ok None }

    // After a refusal the bytes stay.
    ensures refused { IfErr result (λ e. IsRefused buffers.new.pending (S.left source.new) e) }
    ensures unused { OnErr result (prepended buffers.old.pending (S.left source.old)
        ≡ prepended buffers.new.pending (S.left source.new)) }

    // More was read only where the bytes before each piece might still become a head, so that
    // `BadHead` comes at the first piece with which they can't.
    ensures onward { OnErr result (ReadsOn buffers.old.pending buffers.new.pending) }

    // Where they hold a whole head, its refusal is its own.
    ensures exact { (h : RequestHead) (rest : List ℕ)
        → ReadsRequest buffers.new.pending h rest → length h.fields ≤ most_lines
        → IfErr result (λ e. judged (request_of h) ≡ Err e) }
    ensures many { (h : RequestHead) (rest : List ℕ)
        → ReadsRequest buffers.new.pending h rest → most_lines < length h.fields
        → IfErr result (λ e. e ≡ HeadErr.TooLarge) }

    // A head within the limits that the stream begins with is found, however the source cuts its
    // pieces, and one beyond them is too large.
    ensures found { (h : RequestHead) (told rest : List ℕ) → S.left source.old ≡ Some told
        → ReadsRequest (buffers.old.pending ++ told) h rest
        → length (print_request h) ≤ longest_head → length h.fields ≤ most_lines
        → (result ≡ Err HeadErr.ReadFault → ⊥) → result ≡ as_read (judged (request_of h)) }
    ensures large { (h : RequestHead) (told rest : List ℕ) → S.left source.old ≡ Some told
        → ReadsRequest (buffers.old.pending ++ told) h rest → IsBeyond h
        → (result ≡ Err HeadErr.ReadFault → ⊥) → result ≡ Err HeadErr.TooLarge }
    // One that is cut is cut short: it lacks some bytes, and nothing is left behind the part that
    // came.
    ensures cut { (h : RequestHead) (told lacking : List ℕ) → S.left source.old ≡ Some told
        → (buffers.old.pending ++ told ≡ [] → ⊥) → (lacking ≡ [] → ⊥)
        → ReadsRequest ((buffers.old.pending ++ told) ++ lacking) h []
        → length (print_request h) ≤ longest_head → length h.fields ≤ most_lines
        → (result ≡ Err HeadErr.ReadFault → ⊥) → result ≡ Err HeadErr.CutShort }
    ensures rest { (h : RequestHead) (told rest : List ℕ) → S.left source.old ≡ Some told
        → ReadsRequest (buffers.old.pending ++ told) h rest
        → OnOk result (prepended buffers.new.pending (S.left source.new) ≡ Some rest) }

    // Where the bytes that are pending hold a whole head, nothing is read.
    ensures unread { (h : RequestHead) (rest : List ℕ)
        → ReadsRequest buffers.old.pending h rest → source.new ≡ source.old }

    // A source gives 2^63 bytes in its life, and each head uses some: there is an end of heads.
    ensures fewer { OnOk result (to_come (S.taken source.new) buffers.new.pending
        ≤ to_come (S.taken source.old) buffers.old.pending) }
    ensures used { IfOk result (λ o. OnSome o (to_come (S.taken source.new) buffers.new.pending
        < to_come (S.taken source.old) buffers.old.pending)) }

    // It fails exactly where the count of faults rose, or stands at its end.
    ensures cause { S.faults source.new ≡ count_after_head (S.faults source.old) result }

    // Without an accepted head the name stays, and the rest always does.
    ensures unnamed { OnErr result (buffers.new.name ≡ buffers.old.name) }
    ensures nameless { result ≡ Ok None → buffers.new.name ≡ buffers.old.name }
    ensures body { buffers.new.body ≡ buffers.old.body }
    ensures reply { buffers.new.reply ≡ buffers.old.reply }
{
    let spans = match next_head(source, &mut buffers.pending, &mut buffers.lines) {
        Ok(Some(spans)) => spans,
        Ok(None) => return Ok(None),
        Err(e) => return Err(e),
    };
    let head = match judge(&buffers.pending, &spans, &buffers.lines) {
        Ok(head) => head,
        Err(e) => return Err(e),
    };
    keep_name(&mut buffers.name, bytes_of(&buffers.pending, spans.path));
    drop_front(&mut buffers.pending, spans.len);
    Ok(Some(head))
}
