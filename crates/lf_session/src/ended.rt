//! How a stream ends.
/// How a stream ended.
#[derive(Clone, Copy, Debug, PartialEq, Eq)]
pub enum Ended {
    /// The input ended between messages.
    Clean,
    /// The last request asked to close, or was of HTTP/1.0.
    Asked,
    /// A head was refused with this status.
    Bad(u16),
    /// The input ended inside a message.
    CutShort,
    /// A read failed.
    ReadFault,
    /// A write failed.
    WriteFault,
    /// No memory was found for the buffers, or for the body of a request.
    Memory,
}
