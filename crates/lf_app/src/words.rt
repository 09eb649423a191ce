//! The words of the command line. `run_words` reads them first.
ghost use Rattle.std.specs.Prelude.{◌≡◌, map, string_bytes};
ghost use Rattle.std.specs.List.{list_any};
ghost use Rattle.std.specs.Option.{option_map};
ghost use Rattle.lf_app.specs.Words.{begins_with_dash, frame_words, check_words, session_words, command_named, command_of, command_read};

/// What the words ask for. Files go by their words.
#[derive(Clone, Copy, Debug)]
pub enum Command<'a> {
    /// A frame file, and the one or more data files that are framed by it.
    Frame { frame: &'a str, files: &'a [String] },
    /// A frame file that is checked.
    Check { frame: &'a str },
    /// One stream is served.
    Session,
}

// Whether a word is refused wherever it comes.
fn begins_with_dash(word: &str) -> bool
    ensures { result ≡ begins_with_dash word.now }
{
    match word.as_bytes() {
        [byte, ..] => *byte == b'-',
        [] => false,
    }
}

// Whether one of the words is refused wherever it comes.
fn has_dash(words: &[String]) -> bool
    ensures { result ≡ list_any begins_with_dash (map string_bytes words.now) }
{
    for word in words {
        if begins_with_dash(word.as_str()) {
            return true;
        }
    }
    false
}

// The words behind `frame`.
fn frame_words(words: &[String]) -> Option<Command<'_>>
    ensures { option_map command_read result ≡ frame_words (map string_bytes words.now) }
{
    match words {
        [frame, files @ ..] => match files {
            [_, ..] => Some(Command::Frame {
                frame: frame.as_str(),
                files,
            }),
            [] => None,
        },
        [] => None,
    }
}

// The words behind `check`.
fn check_words(words: &[String]) -> Option<Command<'_>>
    ensures { option_map command_read result ≡ check_words (map string_bytes words.now) }
{
    match words {
        [frame] => Some(Command::Check {
            frame: frame.as_str(),
        }),
        _ => None,
    }
}

// The words behind `session`.
fn session_words(words: &[String]) -> Option<Command<'_>>
    ensures { option_map command_read result ≡ session_words (map string_bytes words.now) }
{
    match words {
        [] => Some(Command::Session),
        _ => None,
    }
}

// The command of a name and the words behind it.
fn command_named<'a>(name: &str, words: &'a [String]) -> Option<Command<'a>>
    ensures { option_map command_read result ≡ command_named name.now (map string_bytes words.now) }
{
    if name == "frame" {
        return frame_words(words);
    }
    if name == "check" {
        return check_words(words);
    }
    if name == "session" {
        return session_words(words);
    }
    None
}

/// What the words ask for. They are refused exactly where they are none of the lists of words that
/// there are, or one of them begins with `-`. Takes no memory.
pub fn read_words(words: &[String]) -> Option<Command<'_>>
    ensures { option_map command_read result ≡ command_of (map string_bytes words.now) }
{
    if has_dash(words) {
        return None;
    }
    match words {
        [name, rest @ ..] => command_named(name.as_str(), rest),
        [] => None,
    }
}
