//! Rows at the limits of trees, documents and histories, whose inputs are made here.
use crate::session_tests::{self, Streams, joined, session};
use crate::tests::{self, Files, Outside, run};
use itoa::Buffer;
use lf_base::Memory;
use std::alloc::Global;
use std::test::Fail;

// The bytes that the output has room for: as many as the longest document and replies here take.
const ROOM: usize = 8_000_000;

// Puts a quad by which a node has a number as its value.
fn put_value(data: &mut String, node: u32, value: u32) -> Result<(), Memory> {
    data.push_str("<http://e/n")?;
    data.push_str(Buffer::new().format(node))?;
    data.push_str("> <http://e/p> \"")?;
    data.push_str(Buffer::new().format(value))?;
    data.push_str("\" .\n")?;
    Ok(())
}

// Puts a quad by which a node names another.
fn put_link(data: &mut String, node: u32, other: u32) -> Result<(), Memory> {
    data.push_str("<http://e/n")?;
    data.push_str(Buffer::new().format(node))?;
    data.push_str("> <http://e/p> <http://e/n")?;
    data.push_str(Buffer::new().format(other))?;
    data.push_str("> .\n")?;
    Ok(())
}

// So many values of one node, each a number.
fn put_values(data: &mut String, node: u32, values: u32) -> Result<(), Memory> {
    for value in 0..values {
        put_value(data, node, value)?;
    }
    Ok(())
}

// So many nodes with so many values each, in N-Quads.
fn nodes(alloc: Global, count: u32, values: u32) -> Result<String, Memory> {
    let mut data = String::new(alloc);
    for node in 0..count {
        put_values(&mut data, node, values)?;
    }
    Ok(data)
}

// A chain of nodes, each of which names the next by so many links, in N-Quads.
fn chain(alloc: Global, links: u32) -> Result<String, Memory> {
    let mut data = String::new(alloc);
    for node in 0..links {
        put_link(&mut data, node, node.saturating_add(1))?;
    }
    Ok(data)
}

// The links of one node to all others of so many.
fn put_links(data: &mut String, node: u32, count: u32) -> Result<(), Memory> {
    for other in 0..count {
        if other != node {
            put_link(data, node, other)?;
        }
    }
    Ok(())
}

// So many nodes, each of which names all others, in N-Quads.
fn clique(alloc: Global, count: u32) -> Result<String, Memory> {
    let mut data = String::new(alloc);
    for node in 0..count {
        put_links(&mut data, node, count)?;
    }
    Ok(data)
}

// How often a byte occurs.
fn count_of(text: &[u8], wanted: u8) -> u64 {
    let mut count: u64 = 0;
    for byte in text {
        if *byte == wanted {
            count = count.saturating_add(1);
        }
    }
    count
}

// The status of a run that frames data, and what it printed.
fn framed(alloc: Global, frame: &str, data: &str) -> Result<(u8, String), Memory> {
    let files = Files {
        frame,
        data,
        more: "",
    };
    let outside = Outside {
        room: ROOM,
        piece: ROOM,
        ..tests::WELL
    };
    run(alloc, &["frame", "f", "d"], &files, &outside)
}

// Whether framing data gives a document, in which a byte occurs so often.
fn is_framed(alloc: Global, frame: &str, data: &str, byte: u8, times: u64) -> Result<bool, Memory> {
    let (status, printed) = framed(alloc, frame, data)?;
    Ok(status == 0 && printed.ends_with("}\n") && count_of(printed.as_bytes(), byte) == times)
}

// Whether framing data passes a limit, in words.
fn is_over(alloc: Global, frame: &str, data: &str, words: &str) -> Result<bool, Memory> {
    let (status, printed) = framed(alloc, frame, data)?;
    Ok(status == 8 && printed.as_str() == words)
}

// One node and its values are the items. Each key, id and value has two quotes.
#[test]
fn a_tree_has_at_most_so_many_items(rt: HostRuntime) -> Result<(), Fail> {
    let alloc = rt.alloc();
    let mut data = nodes(alloc, 1, 65_535)?;
    assert!(rt; is_framed(alloc, "{}", data.as_str(), b'"', 131_076)?);
    put_value(&mut data, 0, 65_535)?;
    assert!(rt; is_over(alloc, "{}", data.as_str(), "limit: tree items 65536\n")?);
    Ok(())
}

// A chain of 256 nodes, of which the last is met on the path of the first.
#[test]
fn a_path_has_at_most_so_many_nodes(rt: HostRuntime) -> Result<(), Fail> {
    let alloc = rt.alloc();
    let mut data = chain(alloc, 255)?;
    let (status, _) = framed(alloc, "{}", data.as_str())?;
    assert_eq!(rt; status, 0);
    put_link(&mut data, 255, 256)?;
    assert!(rt; is_over(alloc, "{}", data.as_str(), "limit: depth 256\n")?);
    Ok(())
}

// Each of the seven trees has 11,743 node objects, and they are in one graph.
#[test]
fn nodes_that_name_all_others_are_embedded_again_and_again(rt: HostRuntime) -> Result<(), Fail> {
    let alloc = rt.alloc();
    let always = "{\"@embed\":\"@always\"}";
    let seven = clique(alloc, 7)?;
    assert!(rt; is_framed(alloc, always, seven.as_str(), b'{', 82_202)?);
    let eight = clique(alloc, 8)?;
    assert!(rt; is_over(alloc, always, eight.as_str(), "limit: tree items 65536\n")?);
    Ok(())
}

// Four nodes of 65,535 values each are 262,144 items.
#[test]
fn a_document_has_at_most_so_many_items(rt: HostRuntime) -> Result<(), Fail> {
    let alloc = rt.alloc();
    let mut data = nodes(alloc, 4, 65_535)?;
    assert!(rt; is_framed(alloc, "{}", data.as_str(), b'"', 524_306)?);
    put_value(&mut data, 4, 1)?;
    assert!(rt; is_over(alloc, "{}", data.as_str(), "limit: document items 262144\n")?);
    Ok(())
}

// So many patches of no line, as requests of a session.
fn put_commits(input: &mut String, count: u32) -> Result<(), Memory> {
    for _ in 0..count {
        input.push_str("POST /patch HTTP/1.1\r\nHost: x\r\nContent-Length: 0\r\n\r\n")?;
    }
    Ok(())
}

const VERSION: &str = "GET /version HTTP/1.1\r\nHost: x\r\n\r\n";

const AT_LAST: &str =
    "HTTP/1.1 200 OK\r\nContent-Type: application/json\r\nLd-Version: 65536\r\nContent-Length: 17\r\n\r\n{\"version\":65536}";

const FULL: &str =
    "HTTP/1.1 507 Insufficient Storage\r\nContent-Type: application/json\r\nContent-Length: 66\r\n\r\n{\"error\":\"history full\",\"have\":65536,\"limit\":65536,\"of\":\"commits\"}";

// The last commit is accepted, and after the next, which is refused, all stays.
#[test]
fn a_history_has_at_most_so_many_commits(rt: HostRuntime) -> Result<(), Fail> {
    let alloc = rt.alloc();
    let mut input = String::new(alloc);
    put_commits(&mut input, 65_537)?;
    input.push_str(VERSION)?;
    let streams = Streams {
        room: ROOM,
        ..session_tests::WELL
    };
    let (status, sent) = session(alloc, input.as_str(), &streams)?;
    assert_eq!(rt; status, 0);
    let last = joined(alloc, &[AT_LAST, FULL, AT_LAST])?;
    assert!(rt; sent.ends_with(last.as_str()));
    Ok(())
}
