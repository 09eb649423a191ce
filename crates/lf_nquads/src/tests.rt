//! Lines read and written, the first bad line, and the longest line.
use super::*;
use def_patch_texts::LineKind;
use lf_base::Memory;
use lf_rdf::{Patch, QuadList};
use std::alloc::Global;
use std::test::*;

// The most bytes of a patch text.
const TEXT_LIMIT: usize = 67_108_864;

// The most bytes of a line.
const LINE_LIMIT: usize = 1_048_576;

fn read(alloc: Global, text: &[u8]) -> Option<Patch> {
    if text.len() > TEXT_LIMIT {
        return None;
    }
    read_patch(alloc, text).ok()
}

fn first_bad(alloc: Global, text: &[u8]) -> Option<(u64, LineKind)> {
    if text.len() > TEXT_LIMIT {
        return None;
    }
    match read_patch(alloc, text) {
        Err(LineErr::Bad { line, kind }) => Some((line, kind)),
        _ => None,
    }
}

// The signs of a patch's lines, and their quads.
fn parts(alloc: Global, patch: Patch) -> Result<(String, QuadList), Memory> {
    let Patch { lines, bytes: _ } = patch;
    let mut signs = String::new(alloc);
    let mut quads = QuadList::new(alloc);
    for signed in lines.into_vec() {
        signs.push(if signed.add { '+' } else { '-' })?;
        quads.push(signed.quad)?;
    }
    Ok((signs, quads))
}

#[test]
fn reads_lines_and_writes_them(rt: HostRuntime) -> Result<(), Fail> {
    let alloc = rt.alloc();
    let rows = [
        (
            "<http://e/a><http://e/p>\"\\u0041\\n\"@EN-us.# c",
            "+",
            "<http://e/a> <http://e/p> \"A\\n\"@en-us .\n",
        ),
        (
            "- _:a.b <http://e/p> _:c.",
            "-",
            "_:a.b <http://e/p> _:c .\n",
        ),
        (
            "_:a..b <http://e/p> _:a..b .",
            "+",
            "_:a..b <http://e/p> _:a..b .\n",
        ),
        ("", "", ""),
        (" \t# nothing\r\r\n\n", "", ""),
        (
            "<a:b> <c:d> <e:f> <g:h> .\r+ <a:b> <c:d> <e:f> _:g.\n",
            "++",
            "<a:b> <c:d> <e:f> <g:h> .\n<a:b> <c:d> <e:f> _:g .\n",
        ),
        (
            "<a:\\U0001F600> <c:d> \"\\t\\b\\f\\r\\\"\\'\\\\\" .",
            "+",
            "<a:\u{1F600}> <c:d> \"\t\u{8}\u{C}\\r\\\"'\\\\\" .\n",
        ),
        (
            "<a:b> <c:d> \"5\" ^^ <http://www.w3.org/2001/XMLSchema#string> .",
            "+",
            "<a:b> <c:d> \"5\" .\n",
        ),
        (
            "\t<a:b>\t<c:d>\"\0\"^^<e:f>.",
            "+",
            "<a:b> <c:d> \"\0\"^^<e:f> .\n",
        ),
        (
            "<a:b> <c:é> \"é\" _:é·.é.",
            "+",
            "<a:b> <c:é> \"é\" _:é·.é .\n",
        ),
    ];
    for (text, signs, lines) in rows {
        let patch = read(alloc, text.as_bytes()).ok_or(lines)?;
        assert_eq!(rt; patch.bytes, text.len() as u64);
        let (found, quads) = parts(alloc, patch)?;
        assert_eq!(rt; found.as_str(), signs);
        let written = write_quads(alloc, &quads)?;
        assert_eq!(rt; written.as_str(), lines);
    }
    Ok(())
}

#[test]
fn names_the_first_bad_line(rt: HostRuntime) {
    let rows = [
        (
            "<http://e/a> <http://e/p> \"x\" .\n\n<http://e/a> <p> \"x\" .\n<",
            3,
            LineKind::RelativeIri,
        ),
        (
            "<http://e/\\u0020> <http://e/p> \"x\" .",
            1,
            LineKind::BadEscape,
        ),
        ("<a:b> <c:d> \"\\uD800\" .", 1, LineKind::BadEscape),
        ("<a:b> <c:d> \"\\uDFFF\" .", 1, LineKind::BadEscape),
        ("<a:b> <c:d> \"\\U00110000\" .", 1, LineKind::BadEscape),
        ("<a:b> <c:d> \"\\q\" .", 1, LineKind::BadEscape),
        ("<a:b> <c:d> \"\\", 1, LineKind::BadEscape),
        ("<a:b> <c:d> \"\\u12", 1, LineKind::BadEscape),
        ("<a:\\n> <c:d> \"x\" .", 1, LineKind::BadEscape),
        ("<a:b> <c:d> \"x", 1, LineKind::Syntax),
        ("<a:b> <c:d> \"x\"@en- .", 1, LineKind::Syntax),
        ("<a:b> <c:d> \"x\"@1 .", 1, LineKind::Syntax),
        ("<a:b> <c:d> _:a..b", 1, LineKind::Syntax),
        ("<a:b> <c:d> _:a.. .", 1, LineKind::Syntax),
        ("_:a. <c:d> <e:f> .", 1, LineKind::Syntax),
        ("_:- <c:d> <e:f> .", 1, LineKind::Syntax),
        ("<a:b> <c:d> <e:f> \"g\" .", 1, LineKind::Syntax),
        ("<a:b> \"c\" <e:f> .", 1, LineKind::Syntax),
        ("\"a\" <c:d> <e:f> .", 1, LineKind::Syntax),
        (
            "<a:b> <c:d> <e:f> . <a:b> <c:d> <e:f> .",
            1,
            LineKind::Syntax,
        ),
        ("+<a:b> <c:d> <e:f> .", 1, LineKind::Syntax),
        ("-\t<a:b> <c:d> <e:f> .", 1, LineKind::Syntax),
        (" + <a:b> <c:d> <e:f> .", 1, LineKind::Syntax),
        ("+ # a comment", 1, LineKind::Syntax),
        ("<a:b> <c:d> <e:f>", 1, LineKind::Syntax),
        ("<a:b c> <c:d> <e:f> .", 1, LineKind::Syntax),
        ("<a:b> <c:d> \"x\" ^ ^ <e:f> .", 1, LineKind::Syntax),
        ("\u{FEFF}<a:b> <c:d> <e:f> .", 1, LineKind::Syntax),
        ("\r\r\n\r\n<> <c:d> \"\\q", 4, LineKind::RelativeIri),
        ("<a:b\\u00e9\\", 1, LineKind::BadEscape),
        ("\0", 1, LineKind::Syntax),
    ];
    for (text, line, kind) in rows {
        let found = first_bad(rt.alloc(), text.as_bytes());
        assert!(rt;
            matches!(found, Some((at, what)) if at == line && what == kind),
            "{text}"
        );
    }
    let found = first_bad(rt.alloc(), b"# \xFF\n<");
    assert!(rt; matches!(found, Some((1, LineKind::NotUtf8))));
}

#[test]
fn lines_have_a_most(rt: HostRuntime) -> Result<(), Fail> {
    let alloc = rt.alloc();
    let mut text = vec![in alloc; b'#'; LINE_LIMIT]?;
    assert!(rt; matches!(read(alloc, text.as_slice()), Some(patch) if patch.lines.is_empty()));
    text.push(0xFF)?;
    let found = first_bad(alloc, text.as_slice());
    assert!(rt; matches!(found, Some((1, LineKind::LineTooLong))));
    Ok(())
}
