//! What a desk answers: refusals, looks, turns and notices.
use crate::document::Doc;
use lf_base::{ListOf, Memory, Text, TryCopy};
use std::alloc::Global;
use std::fmt;
use std::sync::Arc;

/// What a history counts against its limits.
#[derive(Clone, Copy, Debug, PartialEq, Eq)]
pub enum Counted {
    Commits,
    Registrations,
    /// The bytes of all texts.
    Bytes,
}

impl fmt::Display for Counted {
    fn fmt<W: fmt::Write>(&self, f: &mut fmt::Formatter<W>) -> fmt::Result {
        f.write_str(match self {
            Counted::Commits => "commits",
            Counted::Registrations => "registrations",
            Counted::Bytes => "bytes",
        })
    }
}

/// A version of a frame's document that was published.
#[derive(Debug, Drop)]
pub struct Notice {
    pub frame: Text,
    pub version: u64,
}

/// A list of notices.
pub type NoticeList = ListOf<Notice>;

impl TryCopy for Notice {
    fn copy(&self, alloc: Global) -> Result<Notice, Memory> {
        Ok(Notice {
            frame: self.frame.copy(alloc)?,
            version: self.version,
        })
    }
}

/// What stands at a frame's name for a caller that needs a version.
#[derive(Debug, Drop)]
pub enum Look {
    /// The newest published document, which is new enough.
    Document { doc: Arc<Doc>, version: u64 },
    /// No document is new enough yet.
    Pending { have: Option<u64>, need: u64 },
    /// No frame is registered by this name.
    Unknown,
}

/// The document of the newest version, which is not published.
#[derive(Debug, Drop)]
pub struct FramedNow {
    pub doc: Doc,
    pub version: u64,
}

impl TryCopy for FramedNow {
    fn copy(&self, alloc: Global) -> Result<FramedNow, Memory> {
        Ok(FramedNow {
            doc: self.doc.copy(alloc)?,
            version: self.version,
        })
    }
}
