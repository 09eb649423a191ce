//! Replies sent.
ghost use Rattle.std.specs.Prelude.{◌≡◌, IsTrue, OnOk, OnErr};
ghost use Rattle.lf_io.specs.Bytes.{appended, AddsPart};
ghost use Rattle.lf_io.specs.Faults.{count_after};
ghost use Rattle.lf_http.specs.Reply.{is_named};
ghost use Rattle.lf_session.specs.Replies.{reply_bytes, sent_body};
ghost use Rattle.lf_session.specs.Shown.{shown};

use crate::reply::Reply;
use lf_http::{Buffers, Method, ReplyHead, reply_head};
use lf_io::{Failed, Sink, write_all};

// The body as it is sent to a request with this method.
fn sent_body<'a>(method: Method, body: &'a [u8]) -> &'a [u8]
    ensures { result.now ≡ sent_body method body.now }
{
    match method {
        Method::HeadOnly => b"",
        Method::Get => body,
        Method::Put => body,
        Method::Delete => body,
        Method::Post => body,
        Method::OtherMethod => body,
    }
}

/// Sends a reply to a request with this method. Takes no memory.
#[tactic(auto, using(lf_io::proofs::Told::appended_twice, lf_io::proofs::Told::part_of_first, lf_io::proofs::Told::part_of_second))]
pub fn send<K: Sink>(
    output: &mut K,
    buffers: &mut Buffers,
    method: Method,
    close: bool,
    reply: &Reply,
) -> Result<(), Failed>
    requires named { IsTrue (is_named reply.now.status) }
    ensures sent { OnOk result (K.held output.new
        ≡ appended (K.held output.old) (reply_bytes method close (shown reply.now))) }
    ensures cut { OnErr result (AddsPart (K.held output.old) (K.held output.new)
        (reply_bytes method close (shown reply.now))) }
    ensures cause { K.faults output.new ≡ count_after (K.faults output.old) result }
    ensures pending { buffers.new.pending ≡ buffers.old.pending }
{
    let body = reply.body.as_bytes();
    let head = ReplyHead {
        status: reply.status,
        ld_json: reply.ld_json,
        allow: reply.allow,
        version: reply.version,
        close,
        length: body.len() as u64,
    };
    reply_head(buffers, &head);
    match write_all(output, buffers.reply()) {
        Ok(()) => (),
        Err(Failed) => return Err(Failed),
    }
    match write_all(output, sent_body(method, body)) {
        Ok(()) => Ok(()),
        Err(Failed) => Err(Failed),
    }
}
