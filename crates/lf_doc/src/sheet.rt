//! The text of a document as it is written, up to the limit of its bytes.
ghost use Rattle.std.specs.Prelude.{◌≡◌, ◌++◌, [], Some, IfOk, OnOk};
ghost use Rattle.std.specs.Str.{IsUtf8};
ghost use Rattle.def_printed.specs.JsonText.{json_string};
ghost use Rattle.lf_doc.specs.Sheets.{appended, doc_of, within};

use def_documents::byte_limit;
use json::Writer;
use lf_base::{Memory, Text};
use lf_model::{Doc, Limit};
use std::alloc::Global;
use std::marker::Model;
use std::mem;

/// A text under way. Contracts see it as its bytes, or as none where it passed the limit of a
/// document's bytes: then nothing more is kept.
#[derive(Drop)]
pub struct Sheet {
    bytes: Vec<u8>,
    /// Room in which strings are made: a `Writer` gets ready as many bytes again as it finds, up to
    /// a limit.
    room: Vec<u8>,
    over: bool,
}

impl Model for Sheet {
    ghost use Rattle.std.specs.Prelude.{List, ℕ, Option, Some, None, if◌then◌else◌};
    ghost use Rattle.std.specs.Coded.{coded_option, coded_list, coded_ℕ};
    ghost use Rattle.lf_doc.specs.Sheets.{IsKept};

    ghost Value = { Option (List ℕ) };

    ghost coded = { coded_option (coded_list coded_ℕ) };

    ghost view = { λ s. if s.over then None else Some s.bytes.items };

    ghost invariant = { λ s. IsKept s.bytes.items };
}

impl Sheet {
    /// The empty text.
    pub fn new(alloc: Global) -> Sheet
        ensures { result ≡ Some [] }
    {
        Sheet {
            bytes: Vec::new(alloc),
            room: Vec::new(alloc),
            over: false,
        }
    }

    // The text of these bytes, or nothing of them past the limit.
    fn of(bytes: Vec<u8>, room: Vec<u8>) -> Sheet
        requires { IsUtf8 bytes.items }
        ensures { result ≡ within bytes.items }
    {
        if bytes.len() as u64 > byte_limit() {
            let mut bytes = bytes;
            bytes.clear();
            Sheet {
                bytes,
                room,
                over: true,
            }
        } else {
            Sheet {
                bytes,
                room,
                over: false,
            }
        }
    }

    /// Writes these characters.
    pub fn append(&mut self, alloc: Global, text: &str) -> Result<(), Memory>
        ensures { OnOk result (self.new ≡ appended self.old text.now) }
    {
        if self.over {
            return Ok(());
        }
        let room = mem::replace(&mut self.room, Vec::new(alloc));
        let mut bytes = mem::replace(&mut self.bytes, Vec::new(alloc));
        bytes.extend_from_slice(text.as_bytes())?;
        *self = Sheet::of(bytes, room);
        Ok(())
    }

    /// Writes the JSON string of these characters (RFC 8259, section 7).
    pub fn string(&mut self, alloc: Global, text: &str) -> Result<(), Memory>
        ensures { OnOk result (self.new ≡ appended self.old (json_string text.now)) }
    {
        if self.over {
            return Ok(());
        }
        let room = mem::replace(&mut self.room, Vec::new(alloc));
        let quoted = quoted(room, text)?;
        let mut bytes = mem::replace(&mut self.bytes, Vec::new(alloc));
        bytes.extend_from_slice(quoted.as_slice())?;
        *self = Sheet::of(bytes, quoted);
        Ok(())
    }

    /// The document of the text, or the limit that it passed.
    pub fn doc(self) -> Result<Doc, Memory>
        ensures { IfOk result (λ doc. doc ≡ doc_of self) }
    {
        let Sheet { bytes, over, .. } = self;
        if over {
            return Ok(Doc::Over(Limit::DocumentBytes));
        }
        Ok(Doc::Bytes(Text::from_string(String::from_utf8(bytes).unwrap())?))
    }
}

// The JSON string of these characters, made in the room of other bytes.
fn quoted(room: Vec<u8>, text: &str) -> Result<Vec<u8>, Memory>
    ensures items { IfOk result (λ all. all.items ≡ json_string text.now) }
    ensures utf8 { OnOk result (IsUtf8 (json_string text.now)) }
{
    let mut room = room;
    room.clear();
    let mut out = Writer::new(room);
    out.string(text)?;
    Ok(out.into_inner())
}
