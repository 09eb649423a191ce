//! A run of the program. `run_program` calls `run_words` over the real files and streams.
ghost use Rattle.std.specs.Prelude.{◌≡◌, true, false, map, string_bytes};
ghost use Rattle.lf_app.specs.Words.{command_of};
ghost use Rattle.lf_app.specs.Sessions.{is_session, IsRun};

use crate::answer::Said;
use crate::framing::{check_file, frame_files};
use crate::print::tell;
use crate::session::{run_session, status_of};
use crate::words::{Command, read_words};
use lf_io::{Shelf, Sink, Source};
use std::alloc::Global;

/// Runs the words, and gives the exit status of the program. Nothing is printed before what a
/// command has to say is known.
pub fn run_words<S: Source, K: Sink, F: Shelf>(
    alloc: Global,
    words: &[String],
    input: &mut S,
    output: &mut K,
    shelf: &mut F,
) -> u8
    // The run serves a stream, or says one thing, with the exit status that this has.
    ensures run { IsRun (record {
      words = map string_bytes words.now;
      files = F.files shelf.old;
      status = result;
      left_before = S.left input.old;
      left_after = S.left input.new;
      held_before = K.held output.old;
      held_after = K.held output.new;
      reads_before = S.faults input.old;
      reads_after = S.faults input.new;
      writes_before = K.faults output.old;
      writes_after = K.faults output.new;
      takes_before = F.faults shelf.old;
      takes_after = F.faults shelf.new;
      there_before = F.refusals shelf.old;
      there_after = F.refusals shelf.new;
    }) }

    // Only `session` takes anything of the input, and only other words take files. No words change
    // a file.
    ensures input { is_session (command_of (map string_bytes words.now)) ≡ false
        → input.new ≡ input.old }
    ensures shelf { is_session (command_of (map string_bytes words.now)) ≡ true
        → shelf.new ≡ shelf.old }
    ensures files { F.files shelf.new ≡ F.files shelf.old }
{
    match read_words(words) {
        Some(Command::Session) => status_of(run_session(alloc, input, output)),
        Some(Command::Frame { frame, files }) => {
            tell(output, &frame_files(alloc, shelf, frame, files))
        }
        Some(Command::Check { frame }) => tell(output, &check_file(alloc, shelf, frame)),
        None => tell(output, &Said::Usage),
    }
}
