//! The program: its words, its commands and their answers.
#![tactic(auto)]

mod answer;
mod data_files;
mod frame_file;
mod framing;
mod laws;
#[cfg(test)]
mod limit_tests;
mod print;
mod program;
mod run;
mod session;
#[cfg(test)]
mod session_tests;
#[cfg(test)]
mod tests;
mod words;

pub use laws::{each_run_says_one_thing, files_are_framed, sessions_end_well};
pub use program::{NO_MEMORY, STACK_BYTES, run_program};
pub use run::run_words;
