//! The memory of one stream: bytes that wait, the last name, body and reply.
ghost use Rattle.std.specs.Prelude.{◌≡◌, ◌≤◌, [], length, drop, vec_capacity, IfOk, IsTrue};
ghost use Rattle.lf_http.specs.Reply.{is_named, reply_text};
ghost use Rattle.lf_http.specs.Reading.{longest_head, most_lines};

use crate::reply::{ReplyHead, write_reply};
use crate::short_text::ShortText;
use httparse::spans::{EMPTY_HEADER_SPAN, HeaderSpan};
use lf_base::Memory;
use std::alloc::Global;
use std::marker::Model;

/// The longest head in bytes, with the empty lines before it.
pub(crate) const LONGEST_HEAD: usize = 16_384;

/// The most header lines of a head.
pub(crate) const MOST_LINES: usize = 64;

/// The memory in which the heads and bodies of one stream are read and its reply heads written.
#[derive(Drop)]
pub struct Buffers {
    /// The bytes that were read and not yet used, at most 16,384, with room for as many.
    pub(crate) pending: Vec<u8>,
    /// Where `httparse` writes which bytes a head's lines are: 64 places at all times.
    pub(crate) lines: Vec<HeaderSpan>,
    /// All of the last accepted head's target behind `/frames/`, with room for 16,384 bytes.
    pub(crate) name: String,
    /// The last body that was read, or the part of it that came.
    pub(crate) body: Vec<u8>,
    /// The last reply head.
    reply: ShortText,
}

impl Model for Buffers {
    ghost use Rattle.std.specs.Prelude.{◌≡◌, ◌≤◌, length, vec_capacity, string_bytes};
    ghost use Rattle.std.specs.String.{string_capacity};
    ghost use Rattle.lf_http.specs.Reading.{longest_head, most_lines};
    ghost use Rattle.lf_http.specs.Shown.{Shown};

    ghost Value = { Shown };

    ghost view = { λ b. record {
      pending = b.pending.items;
      name = string_bytes b.name;
      body = b.body.items;
      reply = b.reply.items;
    } };

    ghost invariant = { λ b. (longest_head ≤ vec_capacity b.pending)
        × (length b.pending.items ≤ longest_head)
        × (length b.lines.items ≡ most_lines)
        × (longest_head ≤ string_capacity b.name) };
}

impl Buffers {
    /// Takes the memory for heads and reply heads.
    pub fn new(alloc: Global) -> Result<Buffers, Memory>
        ensures { IfOk result (λ b. b ≡ record { pending = []; name = []; body = []; reply = [] }) }
    {
        Ok(Buffers {
            pending: Vec::with_capacity(alloc, LONGEST_HEAD)?,
            lines: Vec::from_elem(alloc, EMPTY_HEADER_SPAN, MOST_LINES)?,
            name: String::with_capacity(alloc, LONGEST_HEAD)?,
            body: Vec::new(alloc),
            reply: ShortText::new(),
        })
    }

    /// All of the target of the last accepted head behind `/frames/`.
    pub fn name(&self) -> &str
        ensures { result.now ≡ self.now.name }
    {
        self.name.as_str()
    }

    /// The last body that was read.
    pub fn body(&self) -> &[u8]
        ensures { result.now ≡ self.now.body }
    {
        self.body.as_slice()
    }

    /// The last reply head.
    pub fn reply(&self) -> &[u8]
        ensures { result.now ≡ self.now.reply }
    {
        self.reply.as_slice()
    }
}

/// Writes a reply head in place of the last.
pub fn reply_head(buffers: &mut Buffers, reply: &ReplyHead)
    requires { IsTrue (is_named reply.now.status) }
    ensures { buffers.new ≡ record buffers.old { reply = reply_text reply.now } }
{
    write_reply(&mut buffers.reply, reply);
}

/// Drops bytes from the front, which takes no memory.
pub(crate) fn drop_front(bytes: &mut Vec<u8>, count: usize)
    requires { count ≤ length bytes.old.items }
    ensures items { bytes.new.items ≡ drop count bytes.old.items }
    ensures capacity { vec_capacity bytes.new ≡ vec_capacity bytes.old }
{
    let left = bytes.len() - count;
    bytes.copy_within(count.., 0);
    bytes.truncate(left);
}
