//! What can be wrong with a line.
/// What is wrong with the first bad line of a patch text.
#[derive(Clone, Copy, Debug, PartialEq, Eq)]
pub enum LineKind {
    /// It breaks the grammar in another way than those below.
    Syntax,
    /// An IRI in it is relative.
    RelativeIri,
    /// An escape in it names no character that may stand there.
    BadEscape,
    /// It isn't UTF-8.
    NotUtf8,
    /// It has more than 1,048,576 bytes.
    LineTooLong,
}
