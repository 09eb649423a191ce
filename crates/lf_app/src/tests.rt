//! Runs of `frame`, `check` and refused words over files in memory.
use crate::run_words;
use lf_base::{ListOf, Memory, Text};
use lf_io::{Calls, File, MemoryShelf, MemorySink, MemorySource};
use std::alloc::Global;
use std::test::Fail;

const ROOM: usize = 70_000;

const PLAIN: &str = "<http://e/a> <http://e/p> \"x\" .\n";

const PLAIN_PRINTED: &str = "{\"@id\":\"http://e/a\",\"http://e/p\":\"x\"}\n";

const USAGE: &str =
    "usage: ldframes frame FRAME DATA.. or check FRAME or load SEED N or session [NAME=PATH].. or serve PORT WORKERS [NAME=PATH]..\n";

/// What the files `f`, `d` and `h` hold.
#[derive(Clone, Copy)]
pub struct Files<'a> {
    pub frame: &'a str,
    pub data: &'a str,
    pub more: &'a str,
}

/// How the outside behaves: the bytes that the output has room for, the length of the pieces that
/// it takes, and which of its calls and of the shelf's fail.
#[derive(Clone, Copy)]
pub struct Outside {
    pub room: usize,
    pub piece: usize,
    pub write: u64,
    pub take: u64,
}

/// An outside without faults.
pub const WELL: Outside = Outside {
    room: ROOM,
    piece: ROOM,
    write: u64::MAX,
    take: u64::MAX,
};

fn calls(alloc: Global, failing: u64) -> Result<Calls, Memory> {
    let mut numbers = Vec::new(alloc);
    numbers.push(failing)?;
    Ok(Calls::new(numbers))
}

fn shelf_of(alloc: Global, files: &Files<'_>, take: u64) -> Result<MemoryShelf, Memory> {
    let mut held = ListOf::new(alloc);
    for (name, text) in [("f", files.frame), ("d", files.data), ("h", files.more)] {
        held.push(File {
            name: Text::of(alloc, name)?,
            bytes: ListOf::from_vec(text.as_bytes().to_vec(alloc)?),
        })?;
    }
    Ok(MemoryShelf::new(held, calls(alloc, take)?))
}

/// The status of a run of these words, and what it printed.
pub fn run(
    alloc: Global,
    words: &[&str],
    files: &Files<'_>,
    outside: &Outside,
) -> Result<(u8, String), Memory> {
    let mut shelf = shelf_of(alloc, files, outside.take)?;
    let mut input = MemorySource::new(Vec::new(alloc), 1, calls(alloc, u64::MAX)?);
    let mut output = MemorySink::new(
        alloc,
        outside.room,
        outside.piece.max(1),
        calls(alloc, outside.write)?,
    )?;
    let mut owned = Vec::new(alloc);
    for word in words {
        owned.push(String::from_str(alloc, word)?)?;
    }
    let status = run_words(alloc, owned.as_slice(), &mut input, &mut output, &mut shelf);
    let printed = match String::from_utf8(output.bytes().to_vec(alloc)?) {
        Ok(printed) => printed,
        Err(_) => String::new(alloc),
    };
    Ok((status, printed))
}

// Whether a run over these files ends with this status and prints this line.
fn ends(
    alloc: Global,
    words: &[&str],
    files: &Files<'_>,
    status: u8,
    line: &str,
) -> Result<bool, Memory> {
    let (answered, printed) = run(alloc, words, files, &WELL)?;
    Ok(answered == status && printed.strip_suffix("\n") == Some(line))
}

// Whether a frame prints this document over a data file.
fn prints(alloc: Global, frame: &str, data: &str, document: &str) -> Result<bool, Memory> {
    let files = Files {
        frame,
        data,
        more: "",
    };
    ends(alloc, &["frame", "f", "d"], &files, 0, document)
}

// Whether a frame prints this document over two data files.
fn prints_of_two(
    alloc: Global,
    frame: &str,
    data: &str,
    more: &str,
    document: &str,
) -> Result<bool, Memory> {
    let files = Files { frame, data, more };
    ends(alloc, &["frame", "f", "d", "h"], &files, 0, document)
}

// Whether a frame's text is checked with this status and line.
fn checks(alloc: Global, frame: &str, status: u8, line: &str) -> Result<bool, Memory> {
    let files = Files {
        frame,
        data: "",
        more: "",
    };
    ends(alloc, &["check", "f"], &files, status, line)
}

#[test]
fn frames_are_checked(rt: HostRuntime) -> Result<(), Fail> {
    let alloc = rt.alloc();
    assert!(rt; checks(alloc, "{\"@context\":{\"@version\":1.1}}", 0, "ok")?);
    assert!(rt;
        checks(
            alloc,
            "{\"@embed\":\"@link\"}",
            7,
            "f: invalid @embed value"
        )?
    );
    assert!(rt;
        checks(
            alloc,
            "{\"@context\":\"http://e/c\"}",
            7,
            "f: loading remote context failed"
        )?
    );
    assert!(rt; checks(alloc, "{\"http://e/p\":2.5}", 7, "f: fractional number")?);
    assert!(rt; checks(alloc, "{", 7, "f: not JSON")?);
    assert!(rt;
        checks(
            alloc,
            "{\"@context\":{\"a\":{\"@id\":\"b:x\"},\"b\":{\"@id\":\"a:y\"}}}",
            7,
            "f: cyclic IRI mapping"
        )?
    );
    assert!(rt; checks(alloc, "[{},{}]", 7, "f: invalid frame")?);
    let mut long = String::new(alloc);
    for _ in 0..65_535u32 {
        long.push(' ')?;
    }
    long.push_str("{}")?;
    assert!(rt; checks(alloc, long.as_str(), 8, "limit: frame text 65536")?);
    assert!(rt; checks(alloc, long.get(1..).unwrap_or(""), 0, "ok")?);
    Ok(())
}

// Whether words are refused.
fn is_refused(alloc: Global, words: &[&str]) -> Result<bool, Memory> {
    let files = Files {
        frame: "{}",
        data: PLAIN,
        more: "",
    };
    let (status, text) = run(alloc, words, &files, &WELL)?;
    Ok(status == 2 && text.as_str() == USAGE)
}

#[test]
fn words_without_files_are_refused(rt: HostRuntime) -> Result<(), Fail> {
    let alloc = rt.alloc();
    assert!(rt; is_refused(alloc, &[])?);
    assert!(rt; is_refused(alloc, &["frame"])?);
    assert!(rt; is_refused(alloc, &["frame", "f"])?);
    assert!(rt; is_refused(alloc, &["check"])?);
    assert!(rt; is_refused(alloc, &["sessions"])?);
    assert!(rt; is_refused(alloc, &["serve", "7000", "1"])?);
    Ok(())
}

#[test]
fn words_beside_the_lists_are_refused(rt: HostRuntime) -> Result<(), Fail> {
    let alloc = rt.alloc();
    assert!(rt; is_refused(alloc, &["frame", "-f", "d"])?);
    assert!(rt; is_refused(alloc, &["frame", "f", "d", "-"])?);
    assert!(rt; is_refused(alloc, &["check", "f", "d"])?);
    assert!(rt; is_refused(alloc, &["session", "a"])?);
    assert!(rt; is_refused(alloc, &["session", "a=p"])?);
    assert!(rt; is_refused(alloc, &["-session"])?);
    Ok(())
}

// The conditions are tried in order: the words, the frame file, the frame, the data files one after
// another, the document.
#[test]
fn the_first_condition_decides(rt: HostRuntime) -> Result<(), Fail> {
    let alloc = rt.alloc();
    let two: &[&str] = &["frame", "f", "d", "h"];
    let bad = Files {
        frame: "{",
        data: "x\n",
        more: "y\n",
    };
    assert!(rt; ends(alloc, two, &bad, 7, "f: not JSON")?);
    assert!(rt; ends(alloc, &["frame", "g", "d", "h"], &bad, 5, "cannot read g")?);
    let good_frame = Files {
        frame: "{}",
        data: PLAIN,
        more: "<http://e/a> <http://e/p> \"x\" .\n\n<http://e/a> <p> \"x\" .\n",
    };
    assert!(rt; ends(alloc, two, &good_frame, 6, "h line 3: relative IRI")?);
    assert!(rt;
        ends(
            alloc,
            &["frame", "f", "e", "h"],
            &good_frame,
            5,
            "cannot read e"
        )?
    );
    assert!(rt;
        ends(
            alloc,
            &["frame", "f", "h", "e"],
            &good_frame,
            6,
            "h line 3: relative IRI"
        )?
    );
    let confused = Files {
        frame: "{\"@context\":{\"tag\":\"http://t/\"},\"@id\":\"http://e/a\"}",
        data: "<http://e/a> <http://e/n> \"A\" .\n",
        more: "<http://e/a> <http://e/p> <tag:x,1> .\n",
    };
    assert!(rt; ends(alloc, two, &confused, 7, "f: IRI confused with prefix")?);
    Ok(())
}

// Whether the file of this take, which fails, is named.
fn is_named(alloc: Global, take: u64, printed: &str) -> Result<bool, Memory> {
    let files = Files {
        frame: "{}",
        data: PLAIN,
        more: "",
    };
    let outside = Outside { take, ..WELL };
    let (status, text) = run(alloc, &["frame", "f", "d", "h"], &files, &outside)?;
    Ok(status == 5 && text.as_str() == printed)
}

#[test]
fn files_fail(rt: HostRuntime) -> Result<(), Fail> {
    let alloc = rt.alloc();
    assert!(rt; is_named(alloc, 0, "cannot read f\n")?);
    assert!(rt; is_named(alloc, 1, "cannot read d\n")?);
    assert!(rt; is_named(alloc, 2, "cannot read h\n")?);
    Ok(())
}

// Whether a run over an output that takes one byte at a time prints as far as the output goes,
// wherever that fails, and then ends with status 4.
fn is_printed_in_parts(
    alloc: Global,
    words: &[&str],
    whole: &str,
    status: u8,
) -> Result<bool, Memory> {
    let files = Files {
        frame: "{}",
        data: PLAIN,
        more: "x",
    };
    for write in 0..=whole.len() as u64 {
        let outside = Outside {
            piece: 1,
            write,
            ..WELL
        };
        let (answered, text) = run(alloc, words, &files, &outside)?;
        let wanted = if write < whole.len() as u64 {
            4
        } else {
            status
        };
        if answered != wanted || text.len() as u64 != write || !whole.starts_with(text.as_str()) {
            return Ok(false);
        }
    }
    Ok(true)
}

#[test]
fn an_output_fails_in_mid_text(rt: HostRuntime) -> Result<(), Fail> {
    let alloc = rt.alloc();
    assert!(rt; is_printed_in_parts(alloc, &["frame", "f", "d"], PLAIN_PRINTED, 0)?);
    assert!(rt; is_printed_in_parts(alloc, &["frame", "g", "d"], "cannot read g\n", 5)?);
    assert!(rt; is_printed_in_parts(alloc, &["frame", "f", "h"], "h line 1: syntax\n", 6)?);
    assert!(rt; is_printed_in_parts(alloc, &["frame", "h", "d"], "h: not JSON\n", 7)?);
    assert!(rt; is_printed_in_parts(alloc, &["frame", "-", "d"], USAGE, 2)?);
    Ok(())
}

#[test]
fn nodes_are_framed(rt: HostRuntime) -> Result<(), Fail> {
    let alloc = rt.alloc();
    // plain-quad
    assert!(rt;
        prints(
            alloc,
            "{}",
            "<http://e/a> <http://e/p> \"x\" .\n",
            "{\"@id\":\"http://e/a\",\"http://e/p\":\"x\"}"
        )?
    );
    // empty-data
    assert!(rt; prints(alloc, "{\"@type\":\"http://e/T\"}", "", "{}")?);
    // empty-data
    assert!(rt;
        prints(
            alloc,
            "{\"@context\":{\"@vocab\":\"http://e/\"}}",
            "",
            "{\"@context\":{\"@vocab\":\"http://e/\"}}"
        )?
    );
    // blank-pruned
    assert!(rt;
        prints(
            alloc,
            "{}",
            "_:b <http://e/p> \"1\" .\n<http://e/a> <http://e/p> \"2\" .\n",
            "{\"@graph\":[{\"http://e/p\":\"1\"},{\"@id\":\"http://e/a\",\"http://e/p\":\"2\"}]}"
        )?
    );
    // library
    assert!(rt;
        prints(
            alloc,
            "{\"@context\":{\"@version\":1.1,\"@vocab\":\"http://l/\",\"dc\":\"http://purl.org/dc/terms/\",\"creator\":{\"@id\":\"dc:creator\",\"@type\":\"@id\"},\"contains\":{\"@type\":\"@id\",\"@container\":\"@set\"}},\"@type\":\"Library\",\"contains\":{\"@type\":\"Book\"}}",
            "<http://l/lib> <http://www.w3.org/1999/02/22-rdf-syntax-ns#type> <http://l/Library> .\n<http://l/lib> <http://l/contains> <http://l/b1> .\n<http://l/b1> <http://www.w3.org/1999/02/22-rdf-syntax-ns#type> <http://l/Book> .\n<http://l/b1> <http://purl.org/dc/terms/title> \"Republic\"@en .\n<http://l/b1> <http://purl.org/dc/terms/creator> <http://l/plato> .\n",
            "{\"@context\":{\"@vocab\":\"http://l/\",\"contains\":{\"@container\":\"@set\",\"@type\":\"@id\"},\"creator\":{\"@id\":\"dc:creator\",\"@type\":\"@id\"},\"dc\":\"http://purl.org/dc/terms/\"},\"@id\":\"http://l/lib\",\"@type\":\"Library\",\"contains\":[{\"@id\":\"http://l/b1\",\"@type\":\"Book\",\"creator\":\"http://l/plato\",\"dc:title\":{\"@language\":\"en\",\"@value\":\"Republic\"}}]}"
        )?
    );
    // once-per-tree
    assert!(rt;
        prints(
            alloc,
            "{\"http://e/p\":{}}",
            "<http://e/a> <http://e/p> <http://e/c> .\n<http://e/a> <http://e/q> <http://e/c> .\n<http://e/b> <http://e/p> <http://e/c> .\n<http://e/c> <http://e/n> \"c\" .\n",
            "{\"@graph\":[{\"@id\":\"http://e/a\",\"http://e/p\":{\"@id\":\"http://e/c\",\"http://e/n\":\"c\"},\"http://e/q\":{\"@id\":\"http://e/c\"}},{\"@id\":\"http://e/b\",\"http://e/p\":{\"@id\":\"http://e/c\",\"http://e/n\":\"c\"}}]}"
        )?
    );
    // always-cycle
    assert!(rt;
        prints(
            alloc,
            "{\"@embed\":\"@always\"}",
            "<http://e/a> <http://e/p> <http://e/b> .\n<http://e/b> <http://e/p> <http://e/a> .\n",
            "{\"@graph\":[{\"@id\":\"http://e/a\",\"http://e/p\":{\"@id\":\"http://e/b\",\"http://e/p\":{\"@id\":\"http://e/a\"}}},{\"@id\":\"http://e/b\",\"http://e/p\":{\"@id\":\"http://e/a\",\"http://e/p\":{\"@id\":\"http://e/b\"}}}]}"
        )?
    );
    // named-graph
    assert!(rt;
        prints(
            alloc,
            "{\"@graph\":{}}",
            "<http://e/a> <http://e/p> \"1\" <http://e/g> .\n",
            "{\"@graph\":[{\"@id\":\"http://e/a\",\"http://e/p\":\"1\"}],\"@id\":\"http://e/g\"}"
        )?
    );
    // named-graph
    assert!(rt;
        prints(
            alloc,
            "{}",
            "<http://e/a> <http://e/p> \"1\" <http://e/g> .\n",
            "{\"@graph\":[{\"@id\":\"http://e/a\",\"http://e/p\":\"1\"},{\"@id\":\"http://e/g\"}]}"
        )?
    );
    // language-map
    assert!(rt;
        prints(
            alloc,
            "{\"@context\":{\"label\":{\"@id\":\"http://e/label\",\"@container\":\"@language\"}},\"@id\":\"http://e/a\"}",
            "<http://e/a> <http://e/label> \"x\"@en .\n<http://e/a> <http://e/label> \"y\"@EN-GB .\n<http://e/a> <http://e/label> \"z\" .\n",
            "{\"@context\":{\"label\":{\"@container\":\"@language\",\"@id\":\"http://e/label\"}},\"@id\":\"http://e/a\",\"label\":{\"@none\":\"z\",\"en\":\"x\",\"en-gb\":\"y\"}}"
        )?
    );
    // line-forms
    assert!(rt;
        prints(
            alloc,
            "{}",
            "<http://e/a><http://e/p>\"\\u0041\\n\"@EN-us.# c",
            "{\"@id\":\"http://e/a\",\"http://e/p\":{\"@language\":\"en-us\",\"@value\":\"A\\n\"}}"
        )?
    );
    Ok(())
}

// Whether a data file is refused by its first line, which has a bad escape.
fn has_bad_escape(alloc: Global, data: &str) -> Result<bool, Memory> {
    let files = Files {
        frame: "{}",
        data,
        more: "",
    };
    ends(
        alloc,
        &["frame", "f", "d"],
        &files,
        6,
        "d line 1: bad escape",
    )
}

// Labels with a dot inside and before the end of a quad, and escapes of what no IRI and
// no text has.
#[test]
fn lines_have_many_forms(rt: HostRuntime) -> Result<(), Fail> {
    let alloc = rt.alloc();
    assert!(rt;
        prints_of_two(
            alloc,
            "{}",
            "_:a.b <http://e/p> _:c .\n",
            "- _:a.b <http://e/p> _:c.",
            "{}"
        )?
    );
    assert!(rt; has_bad_escape(alloc, "<http://e/\\u0020> <http://e/p> \"x\" .\n")?);
    assert!(rt; has_bad_escape(alloc, "<http://e/a> <http://e/p> \"\\uD800\" .\n")?);
    Ok(())
}

#[test]
fn lists_are_output(rt: HostRuntime) -> Result<(), Fail> {
    let alloc = rt.alloc();
    // list-loses-cell
    assert!(rt;
        prints(
            alloc,
            "{\"@id\":\"http://e/a\"}",
            "<http://e/a> <http://e/l> _:c1 .\n_:c1 <http://www.w3.org/1999/02/22-rdf-syntax-ns#first> \"1\" .\n_:c1 <http://www.w3.org/1999/02/22-rdf-syntax-ns#rest> _:c2 .\n_:c2 <http://www.w3.org/1999/02/22-rdf-syntax-ns#first> \"2\" .\n_:c2 <http://www.w3.org/1999/02/22-rdf-syntax-ns#rest> _:c3 .\n_:c3 <http://www.w3.org/1999/02/22-rdf-syntax-ns#first> \"3\" .\n_:c3 <http://www.w3.org/1999/02/22-rdf-syntax-ns#rest> <http://www.w3.org/1999/02/22-rdf-syntax-ns#nil> .\n",
            "{\"@id\":\"http://e/a\",\"http://e/l\":{\"@list\":[\"1\",\"2\",\"3\"]}}"
        )?
    );
    // list-loses-cell
    assert!(rt;
        prints_of_two(
            alloc,
            "{\"@id\":\"http://e/a\"}",
            "<http://e/a> <http://e/l> _:c1 .\n_:c1 <http://www.w3.org/1999/02/22-rdf-syntax-ns#first> \"1\" .\n_:c1 <http://www.w3.org/1999/02/22-rdf-syntax-ns#rest> _:c2 .\n_:c2 <http://www.w3.org/1999/02/22-rdf-syntax-ns#first> \"2\" .\n_:c2 <http://www.w3.org/1999/02/22-rdf-syntax-ns#rest> _:c3 .\n_:c3 <http://www.w3.org/1999/02/22-rdf-syntax-ns#first> \"3\" .\n_:c3 <http://www.w3.org/1999/02/22-rdf-syntax-ns#rest> <http://www.w3.org/1999/02/22-rdf-syntax-ns#nil> .\n",
            "_:c2 <http://e/x> \"y\" .\n",
            "{\"@id\":\"http://e/a\",\"http://e/l\":{\"http://www.w3.org/1999/02/22-rdf-syntax-ns#first\":\"1\",\"http://www.w3.org/1999/02/22-rdf-syntax-ns#rest\":{\"http://e/x\":\"y\",\"http://www.w3.org/1999/02/22-rdf-syntax-ns#first\":\"2\",\"http://www.w3.org/1999/02/22-rdf-syntax-ns#rest\":{\"@list\":[\"3\"]}}}}"
        )?
    );
    // no-list
    assert!(rt;
        prints(
            alloc,
            "{\"@id\":\"http://e/a\"}",
            "<http://e/a> <http://e/l> _:c .\n_:c <http://www.w3.org/1999/02/22-rdf-syntax-ns#first> \"1\" .\n_:c <http://www.w3.org/1999/02/22-rdf-syntax-ns#rest> <http://www.w3.org/1999/02/22-rdf-syntax-ns#nil> .\n<http://e/b> <http://e/l> _:c <http://e/g> .\n",
            "{\"@id\":\"http://e/a\",\"http://e/l\":{\"http://www.w3.org/1999/02/22-rdf-syntax-ns#first\":\"1\",\"http://www.w3.org/1999/02/22-rdf-syntax-ns#rest\":{\"@list\":[]}}}"
        )?
    );
    // no-list
    assert!(rt;
        prints(
            alloc,
            "{}",
            "_:c <http://www.w3.org/1999/02/22-rdf-syntax-ns#first> _:c .\n_:c <http://www.w3.org/1999/02/22-rdf-syntax-ns#rest> <http://www.w3.org/1999/02/22-rdf-syntax-ns#nil> .\n",
            "{\"@id\":\"_:c\",\"http://www.w3.org/1999/02/22-rdf-syntax-ns#first\":{\"@id\":\"_:c\"},\"http://www.w3.org/1999/02/22-rdf-syntax-ns#rest\":{\"@list\":[]}}"
        )?
    );
    Ok(())
}

#[test]
fn frames_match_and_fill(rt: HostRuntime) -> Result<(), Fail> {
    let alloc = rt.alloc();
    // default-values
    assert!(rt;
        prints(
            alloc,
            "{\"@id\":\"http://e/a\",\"http://e/p\":{\"@value\":\"y\",\"@default\":\"d\"}}",
            "<http://e/a> <http://e/p> \"x\" .\n",
            "{\"@id\":\"http://e/a\",\"http://e/p\":\"d\"}"
        )?
    );
    // default-values
    assert!(rt;
        prints(
            alloc,
            "{\"@id\":\"http://e/a\",\"http://e/p\":{\"@value\":\"y\"}}",
            "<http://e/a> <http://e/p> \"x\" .\n",
            "{\"@id\":\"http://e/a\",\"http://e/p\":null}"
        )?
    );
    // default-values
    assert!(rt;
        prints(
            alloc,
            "{\"@context\":{\"p\":{\"@id\":\"http://e/p\",\"@container\":\"@set\"}},\"@id\":\"http://e/a\",\"p\":{\"@value\":\"y\"}}",
            "<http://e/a> <http://e/p> \"x\" .\n",
            "{\"@context\":{\"p\":{\"@container\":\"@set\",\"@id\":\"http://e/p\"}},\"@id\":\"http://e/a\",\"p\":[]}"
        )?
    );
    // match-none
    assert!(rt;
        prints(
            alloc,
            "{\"http://e/p\":[]}",
            "<http://e/a> <http://e/p> \"1\" .\n<http://e/b> <http://e/q> \"2\" .\n",
            "{\"@id\":\"http://e/b\",\"http://e/p\":null,\"http://e/q\":\"2\"}"
        )?
    );
    // match-none
    assert!(rt;
        prints(
            alloc,
            "{\"http://e/p\":{},\"http://e/q\":{}}",
            "<http://e/a> <http://e/p> \"1\" .\n<http://e/b> <http://e/q> \"2\" .\n",
            "{\"@graph\":[{\"@id\":\"http://e/a\",\"http://e/p\":\"1\",\"http://e/q\":null},{\"@id\":\"http://e/b\",\"http://e/p\":null,\"http://e/q\":\"2\"}]}"
        )?
    );
    // match-none
    assert!(rt;
        prints(
            alloc,
            "{\"@requireAll\":true,\"http://e/p\":{},\"http://e/q\":{}}",
            "<http://e/a> <http://e/p> \"1\" .\n<http://e/b> <http://e/q> \"2\" .\n",
            "{}"
        )?
    );
    // match-none
    assert!(rt;
        prints(
            alloc,
            "{\"@requireAll\":true,\"http://e/p\":{},\"http://e/q\":[]}",
            "<http://e/a> <http://e/p> \"1\" .\n<http://e/b> <http://e/q> \"2\" .\n",
            "{\"@id\":\"http://e/a\",\"http://e/p\":\"1\",\"http://e/q\":null}"
        )?
    );
    Ok(())
}

#[test]
fn files_are_applied_in_order(rt: HostRuntime) -> Result<(), Fail> {
    let alloc = rt.alloc();
    // shared-blank
    assert!(rt;
        prints(
            alloc,
            "{\"http://e/p\":{}}",
            "<http://e/a> <http://e/p> _:x .\n<http://e/b> <http://e/p> _:x .\n_:x <http://e/q> \"1\" .\n",
            "{\"@graph\":[{\"@id\":\"http://e/a\",\"http://e/p\":{\"@id\":\"_:x\",\"http://e/q\":\"1\"}},{\"@id\":\"http://e/b\",\"http://e/p\":{\"@id\":\"_:x\",\"http://e/q\":\"1\"}}]}"
        )?
    );
    // shared-blank
    assert!(rt;
        prints_of_two(
            alloc,
            "{\"http://e/p\":{}}",
            "<http://e/a> <http://e/p> _:x .\n<http://e/b> <http://e/p> _:x .\n_:x <http://e/q> \"1\" .\n",
            "- <http://e/b> <http://e/p> _:x .\n",
            "{\"@id\":\"http://e/a\",\"http://e/p\":{\"http://e/q\":\"1\"}}"
        )?
    );
    // reverse-arrives
    assert!(rt;
        prints(
            alloc,
            "{\"@id\":\"http://e/a\",\"@reverse\":{\"http://e/p\":{}}}",
            "<http://e/a> <http://e/n> \"A\" .\n",
            "{\"@id\":\"http://e/a\",\"http://e/n\":\"A\"}"
        )?
    );
    // reverse-arrives
    assert!(rt;
        prints_of_two(
            alloc,
            "{\"@id\":\"http://e/a\",\"@reverse\":{\"http://e/p\":{}}}",
            "<http://e/a> <http://e/n> \"A\" .\n",
            "<http://e/b> <http://e/p> <http://e/a> .\n",
            "{\"@id\":\"http://e/a\",\"@reverse\":{\"http://e/p\":{\"@id\":\"http://e/b\",\"http://e/p\":{\"@id\":\"http://e/a\"}}},\"http://e/n\":\"A\"}"
        )?
    );
    // idle-commits
    assert!(rt;
        prints_of_two(
            alloc,
            "{}",
            "<http://e/a> <http://e/p> \"x\" .\n",
            "- <http://e/a> <http://e/p> \"x\" .\n+ <http://e/a> <http://e/p> \"x\" .\n",
            "{\"@id\":\"http://e/a\",\"http://e/p\":\"x\"}"
        )?
    );
    // idle-commits
    assert!(rt;
        prints_of_two(
            alloc,
            "{}",
            "<http://e/a> <http://e/p> \"x\" .\n",
            "",
            "{\"@id\":\"http://e/a\",\"http://e/p\":\"x\"}"
        )?
    );
    // confused-prefix
    assert!(rt;
        prints_of_two(
            alloc,
            "{\"@context\":{\"tag\":\"http://t/\"},\"@id\":\"http://e/a\"}",
            "<http://e/a> <http://e/n> \"A\" .\n<http://e/a> <http://e/p> <tag:x,1> .\n",
            "- <http://e/a> <http://e/p> <tag:x,1> .\n",
            "{\"@context\":{\"tag\":\"http://t/\"},\"@id\":\"http://e/a\",\"http://e/n\":\"A\"}"
        )?
    );
    Ok(())
}
