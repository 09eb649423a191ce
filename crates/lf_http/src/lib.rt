//! Heads and bodies of HTTP/1.1 messages, and heads of replies (RFC 9110, RFC 9112).
#![tactic(auto)]

mod body;
mod buffers;
mod field;
mod head;
mod judge;
mod law;
mod message;
mod number;
mod reading;
mod reply;
mod short_text;
#[cfg(test)]
mod tests;
mod word;

pub use body::{BodyErr, read_body};
pub use buffers::{Buffers, reply_head};
pub use head::{Head, HeadErr, Method, Target};
pub use law::readings_are_one;
pub use message::read_head;
pub use reply::{Allow, ReplyHead};
pub use short_text::{SHORT_ROOM, ShortText, put, put_number};
