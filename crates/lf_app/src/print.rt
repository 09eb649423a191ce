//! The texts of answers. `run_words` prints what a command has to say.
ghost use Rattle.std.specs.Prelude.{◌≡◌, map, OnOk, OnErr};
ghost use Rattle.lf_io.specs.Bytes.{appended, AddsPart};
ghost use Rattle.lf_io.specs.Faults.{count_after};
ghost use Rattle.lf_app.specs.Texts.{status_said, fault_name, passed_name, passed_number, in_row, six_texts, text_said};
ghost use Rattle.lf_app.specs.Counting.{answer_said};
ghost use Rattle.lf_app.specs.Runs.{IsPrinted};

use crate::answer::{Fault, Passed, Said};
use crate::data_files::PATCH_LIMIT;
use itoa::Buffer;
use lf_frames::MOST_FRAME_BYTES;
use lf_io::{Failed, Sink, write_all};
use lf_names::{kind_name, limit_name, limit_number};

/// The most commits of a history.
const MOST_COMMITS: u64 = 65_536;

/// The most bytes of the texts of a history.
const MOST_TEXT_BYTES: u64 = 268_435_456;

/// The most quads of a version.
const MOST_QUADS: u64 = 400_000;

/// The line that names the words that there are.
const USAGE: &str =
    "usage: ldframes frame FRAME DATA.. or check FRAME or load SEED N or session [NAME=PATH].. or serve PORT WORKERS [NAME=PATH]..";

/// The exit status of a run whose output failed.
const OUTPUT_FAILED: u8 = 4;

// What is wrong with a frame.
#[tactic(auto, unfolding(crate::specs::Texts::fault_name))]
fn fault_name(why: &Fault) -> &str
    ensures { result.now ≡ fault_name why.now }
{
    match why {
        Fault::NotJson => "not JSON",
        Fault::Fractional => "fractional number",
        Fault::Ld(error) => error.name(),
    }
}

// The name of a limit.
#[tactic(auto, unfolding(crate::specs::Texts::passed_name))]
fn passed_name(limit: Passed) -> &'static str
    ensures { result.now ≡ passed_name limit }
{
    match limit {
        Passed::FrameText => "frame text",
        Passed::PatchText => "patch text",
        Passed::Commits => "commits",
        Passed::HistoryBytes => "history bytes",
        Passed::Quads => "quads",
        Passed::Document(limit) => limit_name(limit),
    }
}

// The number of a limit.
#[tactic(auto, unfolding(crate::specs::Texts::passed_number, def_histories::specs::Legal::most_frame_bytes, def_histories::specs::Legal::most_commits, def_histories::specs::Legal::most_text_bytes, def_histories::specs::Legal::most_quads))]
fn passed_number(limit: Passed) -> u64
    ensures { result ≡ passed_number limit }
{
    match limit {
        Passed::FrameText => MOST_FRAME_BYTES as u64,
        Passed::PatchText => PATCH_LIMIT,
        Passed::Commits => MOST_COMMITS,
        Passed::HistoryBytes => MOST_TEXT_BYTES,
        Passed::Quads => MOST_QUADS,
        Passed::Document(limit) => limit_number(limit),
    }
}

// Prints texts in a row, until a write fails.
fn print_row<K: Sink>(output: &mut K, texts: &[&str]) -> Result<(), Failed>
    ensures printed { OnOk result
        (K.held output.new ≡ appended (K.held output.old) (in_row (map (λ t. t.now) texts.now))) }
    ensures cut { OnErr result
        (AddsPart (K.held output.old) (K.held output.new) (in_row (map (λ t. t.now) texts.now))) }
    ensures cause { K.faults output.new ≡ count_after (K.faults output.old) result }
{
    for text in texts {
        match write_all(output, text.as_bytes()) {
            Ok(()) => {}
            Err(Failed) => return Err(Failed),
        }
    }
    Ok(())
}

// Prints up to six texts in a row, until a write fails. Empty ones fill the places behind.
fn print_texts<'t, K: Sink>(
    output: &mut K,
    one: &'t str,
    two: &'t str,
    three: &'t str,
    four: &'t str,
    five: &'t str,
    six: &'t str,
) -> Result<(), Failed>
    ensures printed { OnOk result (K.held output.new
        ≡ appended (K.held output.old)
        (in_row (six_texts one.now two.now three.now four.now five.now six.now))) }
    ensures cut { OnErr result (AddsPart (K.held output.old) (K.held output.new)
        (in_row (six_texts one.now two.now three.now four.now five.now six.now))) }
    ensures cause { K.faults output.new ≡ count_after (K.faults output.old) result }
{
    print_row(output, &[one, two, three, four, five, six])
}

// Prints what a run has to say, until a write fails.
#[tactic(auto, unfolding(crate::specs::Texts::usage_line))]
fn print_said<K: Sink>(output: &mut K, said: &Said<'_>) -> Result<(), Failed>
    ensures printed { OnOk result
        (K.held output.new ≡ appended (K.held output.old) (text_said (answer_said said.now))) }
    ensures cut { OnErr result
        (AddsPart (K.held output.old) (K.held output.new) (text_said (answer_said said.now))) }
    ensures cause { K.faults output.new ≡ count_after (K.faults output.old) result }
{
    match said {
        Said::Usage => print_texts(output, USAGE, "\n", "", "", "", ""),
        Said::CannotRead(file) => print_texts(output, "cannot read ", file, "\n", "", "", ""),
        Said::BadLine { file, line, kind } => {
            let mut buffer = Buffer::new();
            let number = buffer.format(*line);
            print_texts(output, file, " line ", number, ": ", kind_name(*kind), "\n")
        }
        Said::BadFrame { file, why } => {
            print_texts(output, file, ": ", fault_name(why), "\n", "", "")
        }
        Said::Over(limit) => {
            let mut buffer = Buffer::new();
            let number = buffer.format(passed_number(*limit));
            print_texts(
                output,
                "limit: ",
                passed_name(*limit),
                " ",
                number,
                "\n",
                "",
            )
        }
        Said::Accepted => print_texts(output, "ok", "\n", "", "", "", ""),
        Said::Document(text) => print_texts(output, text.as_str(), "\n", "", "", "", ""),
        Said::NoMemory => Ok(()),
    }
}

// The exit status of a run that says this.
fn status_said(said: &Said<'_>) -> u8
    ensures { result ≡ status_said (answer_said said.now) }
{
    match said {
        Said::Accepted => 0,
        Said::Document(_) => 0,
        Said::Usage => 2,
        Said::CannotRead(_) => 5,
        Said::BadLine { .. } => 6,
        Said::BadFrame { .. } => 7,
        Said::Over(_) => 8,
        Said::NoMemory => 9,
    }
}

/// Prints what a run has to say, and gives its exit status.
#[tactic(auto, using(crate::proofs::Rows::printed_whole, crate::proofs::Rows::printed_part))]
pub fn tell<K: Sink>(output: &mut K, said: &Said<'_>) -> u8
    ensures { IsPrinted result (answer_said said.now) (K.held output.old) (K.held output.new)
        (K.faults output.old) (K.faults output.new) }
{
    match print_said(output, said) {
        Ok(()) => status_said(said),
        Err(Failed) => OUTPUT_FAILED,
    }
}
