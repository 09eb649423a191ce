//! Patch texts: lines that each state a signed quad or are skipped.
ghost use Rattle.std.specs.Prelude.{◌≡◌, ◌≤◌, ◌⊎◌, ℕ, List, length, take, drop, IfOk, IsErrOf, Ok, Err};
ghost use Rattle.std.specs.List.{prefix_len, AllByRecursion};
ghost use Rattle.std.specs.Option.{option_copied};
ghost use Rattle.lf_rdf.specs.declared.quad.Signed.{Signed as SignedShape};
ghost use Rattle.def_patch_texts.specs.declared.kind.LineKind.{LineKind as KindShape};
ghost use Rattle.def_patch_texts.specs.PatchText.{IsPatchText};
ghost use Rattle.def_patch_texts.specs.BadLine.{IsBadLine};
ghost use Rattle.def_patch_texts.specs.Given.{IsGiven};
ghost use Rattle.lf_nquads.specs.Patches.{text_limit, is_inside, Judges, Takes, behind_end, IfBad};

use crate::error::{Fault, LineErr};
use crate::statement::read_line;
use def_patch_texts::LineKind;
use lf_rdf::{Patch, Signed, SignedList};
use std::alloc::Global;
use std::str;

// The most bytes of a line, without its end.
const LINE_LIMIT: usize = 1_048_576;

// How many bytes stand before the end of the first line.
fn line_len(text: &[u8]) -> usize
    ensures { result ≡ prefix_len is_inside text.now }
{
    for (place, byte) in text.iter().enumerate() {
        if *byte == b'\r' || *byte == b'\n' {
            return place;
        }
    }
    text.len()
}

// What stands behind the end of a line, where it has one.
fn behind(end: &[u8]) -> Option<&[u8]>
    ensures { option_copied result ≡ behind_end end.now }
{
    let (first, rest) = end.split_first()?;
    if *first != b'\r' {
        return Some(rest);
    }
    match rest.split_first() {
        Some((second, after)) => {
            if *second == b'\n' {
                return Some(after);
            }
            Some(rest)
        }
        None => Some(rest),
    }
}

// What a line states, or nothing where it is skipped.
fn stated(alloc: Global, line: &[u8]) -> Result<Option<Signed>, Fault>
    ensures { Judges line.now result }
{
    if line.len() > LINE_LIMIT {
        return Err(Fault::Bad(LineKind::LineTooLong));
    }
    match str::from_utf8(line) {
        Ok(text) => read_line(alloc, text),
        Err(_) => Err(Fault::Bad(LineKind::NotUtf8)),
    }
}

// Puts what the line with this number states at the end of the list.
fn take_line(alloc: Global, line: &[u8], number: u64, lines: &mut SignedList) -> Result<(), LineErr>
    ensures { Takes line.now number lines.old result lines.new }
{
    match stated(alloc, line) {
        Ok(Some(signed)) => {
            lines.push(signed)?;
            Ok(())
        }
        Ok(None) => Ok(()),
        Err(Fault::Bad(kind)) => Err(LineErr::Bad { line: number, kind }),
        Err(Fault::Memory) => Err(LineErr::Memory),
    }
}

/// The signed quads that a patch text states, in the order of its lines, and how many bytes it has.
/// `LineErr::Bad` names the first line that isn't in the grammar, from 1 upwards, and what is wrong
/// with it. The text has at most 67,108,864 bytes.
pub fn read_patch(alloc: Global, bytes: &[u8]) -> Result<Patch, LineErr>
    requires { length bytes.now ≤ text_limit }
    ensures read { IfOk result (λ patch. IsPatchText bytes.now patch.lines) }
    ensures bytes { IfOk result (λ patch. patch.bytes ≡ length bytes.now) }
    ensures given { IfOk result (λ patch. AllByRecursion (λ line. IsGiven line.quad) patch.lines) }
    ensures bad { IfBad result (λ line kind. IsBadLine bytes.now line kind) }

    // Each list that the text states is answered, and so is each first bad line with its kind.
    ensures finds { (lines : List SignedShape) → IsPatchText bytes.now lines →
        IsErrOf result LineErr.Memory ⊎ (result ≡ Ok (record { lines = lines; bytes = length bytes.now })) }
    ensures names { (line : ℕ) (kind : KindShape) → IsBadLine bytes.now line kind →
        IsErrOf result LineErr.Memory ⊎ (result ≡ Err (LineErr.Bad line kind)) }
{
    let mut lines = SignedList::new(alloc);
    let mut number: u64 = 0;
    let mut text = bytes;
    'lines: loop {
        let (line, end) = text.split_at(line_len(text));
        number += 1;
        take_line(alloc, line, number, &mut lines)?;
        match behind(end) {
            Some(after) => text = after,
            None => break,
        }
    }
    Ok(Patch {
        lines,
        bytes: bytes.len() as u64,
    })
}
