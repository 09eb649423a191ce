//! What `main` does, over the runtime's words and files and the streams that it is handed. Each
//! program's `main` calls it.

use crate::run::run_words;
use lf_io::{FileShelf, ReadSource, WriteSink};
use std::io::{ErrorKind, Read, Write};
use std::process::ExitCode;
use std::rt::{Env, Files};
use std::{env, io};

/// The exit status for want of memory.
pub const NO_MEMORY: u8 = 9;

/// The bytes of stack that `main` gives the work. What is framed, compacted and printed by
/// recursion is at most 65,536 levels deep, since each level is an item of a tree; a level takes
/// some 1.2 KB in the deepest of these functions. Only what is used takes memory.
pub const STACK_BYTES: usize = 256 << 20;

// The words behind the program's name.
fn words_behind_name<R: Env + AllocGlobal>(rt: &R) -> io::Result<Vec<String>> {
    let mut words = env::args(rt)?;
    let _name = words.next();
    Ok(words.collect(rt.alloc())?)
}

/// Runs the words that the process was started with, over its files and these streams, and gives
/// its exit status.
pub fn run_program<R: Env + Files + AllocGlobal, I: Read + Drop, O: Write + Drop>(
    rt: &R,
    input: I,
    output: O,
) -> ExitCode {
    let alloc = rt.alloc();
    let words = match words_behind_name(rt) {
        Ok(words) => words,
        Err(error) => {
            // A word that isn't UTF-8 is refused as no word is.
            if error.kind() != ErrorKind::InvalidData {
                return ExitCode::from(NO_MEMORY);
            }
            Vec::new(alloc)
        }
    };
    let mut source = ReadSource::new(input);
    let mut sink = WriteSink::new(output);
    let mut shelf = FileShelf::new(rt);
    ExitCode::from(run_words(alloc, words.as_slice(), &mut source, &mut sink, &mut shelf))
}
