//! What a head says, and why one is refused.
use thiserror::Error;

/// The method of a request (RFC 9110, section 9).
#[derive(Clone, Copy, Debug, PartialEq, Eq)]
pub enum Method {
    Get,
    Put,
    Delete,
    Post,
    /// `HEAD`.
    HeadOnly,
    OtherMethod,
}

/// What a request is about. A target is compared byte for byte as it was sent.
#[derive(Clone, Copy, Debug, PartialEq, Eq)]
pub enum Target {
    /// `/frames/NAME`.
    FrameAt,
    /// `/patch`.
    PatchAt,
    /// `/version`.
    VersionAt,
    /// `/turn`.
    TurnAt,
    NoTarget,
}

/// What the head of an accepted request says.
#[derive(Clone, Copy, Debug, PartialEq, Eq)]
pub struct Head {
    /// Compared with case.
    pub method: Method,
    /// Compared byte for byte.
    pub target: Target,
    /// The length of the body in bytes, 0 without `Content-Length`.
    pub length: u64,
    /// Whether an `Expect` line of an HTTP/1.1 head was accepted.
    pub expects: bool,
    /// Whether each `Content-Encoding` line is `identity`.
    pub plain: bool,
    /// Whether the stream ends after this request.
    pub close: bool,
    /// The greatest number of a well-formed `Ld-Seen` line.
    pub seen: Option<u64>,
    /// Whether there is an `Ld-Seen` line that isn't well formed.
    pub bad_seen: bool,
    /// Whether an `Ld-Refresh` line is `now`.
    pub now: bool,
    /// Whether there is another `Ld-Refresh` line.
    pub bad_refresh: bool,
}

/// Why no head was given.
#[derive(Clone, Copy, Debug, PartialEq, Eq, Error)]
pub enum HeadErr {
    /// A read failed.
    #[error("a read failed")]
    ReadFault,
    /// The input ended inside the head.
    #[error("the input ended inside a head")]
    CutShort,
    /// The head is longer than 16,384 bytes or has more than 64 header lines.
    #[error("head too large")]
    TooLarge,
    /// The bytes are no head, or its `Host` or `Content-Length` lines are refused.
    #[error("bad head")]
    BadHead,
    /// A length is needed, or the body has another encoding of its length.
    #[error("length required")]
    LengthNeeded,
    /// The body is longer than 67,108,864 bytes.
    #[error("body too long")]
    BodyTooLong,
    /// An expectation that isn't met.
    #[error("expectation")]
    Expectation,
}
