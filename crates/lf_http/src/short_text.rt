//! Texts of a fixed room, which take no memory. Reply heads are put together in them, and by
//! sessions the bodies of short replies.
ghost use Rattle.std.specs.Prelude.{◌≡◌, ◌+◌, ◌≤◌, ◌++◌, length, decimal};
ghost use Rattle.lf_http.specs.ShortText.{short_room, number_room};

use arrayvec::ArrayVec;
use itoa::Buffer;

/// The room of a short text in bytes.
pub const SHORT_ROOM: usize = 320;

/// A text of at most 320 bytes.
pub type ShortText = ArrayVec<u8, SHORT_ROOM>;

/// Appends a text that has room.
pub fn put(text: &mut ShortText, more: &[u8])
    requires { length text.old.items + length more.now ≤ short_room }
    ensures items { text.new.items ≡ text.old.items ++ more.now }
    ensures len { length text.new.items ≡ length text.old.items + length more.now }
{
    for byte in more {
        text.push(*byte);
    }
}

/// Appends a number in decimal digits.
pub fn put_number(text: &mut ShortText, number: u64)
    requires { length text.old.items + number_room ≤ short_room }
    ensures items { text.new.items ≡ text.old.items ++ decimal number }
    ensures len { length text.new.items ≤ length text.old.items + number_room }
{
    put(text, Buffer::new().format(number).as_bytes());
}
