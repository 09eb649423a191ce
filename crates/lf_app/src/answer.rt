//! What a run of `frame`, `check` or refused words has to say. The readers of files make these
//! values, and `print` prints them.
use def_patch_texts::LineKind;
use lf_base::Text;
use lf_model::{LdError, Limit};

/// Why a text is no frame, or has no document.
#[derive(Clone, Copy, Debug, PartialEq, Eq)]
pub enum Fault {
    /// It is no JSON text.
    NotJson,
    /// A number in it is no whole number within range.
    Fractional,
    /// The first error of the context, of the frame, or of its document.
    Ld(LdError),
}

/// A limit that was passed.
#[derive(Clone, Copy, Debug, PartialEq, Eq)]
pub enum Passed {
    /// The bytes of a frame file.
    FrameText,
    /// The bytes of a data file.
    PatchText,
    /// The commits of a history, one for each data file.
    Commits,
    /// The bytes of all data files.
    HistoryBytes,
    /// The quads of a version.
    Quads,
    /// A limit of the document.
    Document(Limit),
}

/// What a run has to say. Files go by their words.
#[derive(Debug, Drop)]
pub enum Said<'a> {
    /// The words are refused.
    Usage,
    CannotRead(&'a str),
    /// A data file's first bad line, counted from 1, and what is wrong with it.
    BadLine {
        file: &'a str,
        line: u64,
        kind: LineKind,
    },
    /// A frame file's text is no frame, or the document has an error.
    BadFrame {
        file: &'a str,
        why: Fault,
    },
    Over(Passed),
    /// The frame is accepted.
    Accepted,
    Document(Text),
    NoMemory,
}
