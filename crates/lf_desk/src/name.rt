//! Names of frames.
ghost use Rattle.std.specs.Prelude.{◌≡◌};
ghost use Rattle.std.specs.List.{list_all};
ghost use Rattle.def_histories.specs.Legal.{is_name_byte, is_frame_name};

// The most bytes of a name.
const MOST_NAME: usize = 64;

fn is_name_byte(byte: u8) -> bool
    ensures { result ≡ is_name_byte byte }
{
    (b'A' <= byte && byte <= b'Z')
        || (b'a' <= byte && byte <= b'z')
        || (b'0' <= byte && byte <= b'9')
        || byte == b'_'
        || byte == b'-'
}

fn are_name_bytes(name: &[u8]) -> bool
    ensures { result ≡ list_all is_name_byte name.now }
{
    name.iter().all(|byte| is_name_byte(*byte))
}

/// Whether a text is the name of a frame: 1 to 64 letters, digits, `_` and `-`.
#[tactic(auto, unfolding(def_histories::specs::Legal::most_name))]
pub fn is_frame_name(name: &[u8]) -> bool
    ensures { result ≡ is_frame_name name.now }
{
    1 <= name.len() && name.len() <= MOST_NAME && are_name_bytes(name)
}
