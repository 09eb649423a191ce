//! A live frame: its text, its number and what was published of it.
use lf_base::Text;

/// A frame that is live under a name.
#[derive(Debug, Drop)]
pub struct Live {
    pub name: Text,
    /// The number of its registration, counted from 1.
    pub number: u64,
    pub text: Text,
    /// The version of its published document.
    pub published: Option<u64>,
}
