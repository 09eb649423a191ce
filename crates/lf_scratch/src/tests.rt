//! Worked frames over small data, and the documents that they print.
use crate::frame_dataset;
use lf_base::Memory;
use lf_expand::{FrameErr, expand_frame};
use lf_index::{ApplyErr, Index};
use lf_json::{JsonErr, read_json};
use lf_model::{Doc, Frame, LdError, Limit};
use lf_nquads::{LineErr, read_patch};
use lf_rdf::Patch;
use std::alloc::Global;
use std::test::Fail;

/// Whether a document is this text, or has the name of this error or limit.
fn is_shown(doc: &Doc, expected: &str) -> bool {
    match doc {
        Doc::Bytes(text) => text.as_str() == expected,
        Doc::Refused(LdError::IriConfusedWithPrefix) => expected == "IRI confused with prefix",
        Doc::Refused(_) => false,
        Doc::Over(Limit::Depth) => expected == "depth",
        Doc::Over(_) => false,
    }
}

fn prints_over(
    alloc: Global,
    index: &Index,
    frame: &Frame,
    expected: &str,
) -> Result<bool, Memory> {
    let doc = frame_dataset(alloc, index, frame)?;
    Ok(is_shown(&doc, expected))
}

fn read_data(alloc: Global, data: &str) -> Result<Patch, Memory> {
    if data.len() > 100_000 {
        return Err(Memory);
    }
    match read_patch(alloc, data.as_bytes()) {
        Ok(patch) => Ok(patch),
        Err(LineErr::Bad { .. }) => Err(Memory),
        Err(LineErr::Memory) => Err(Memory),
    }
}

fn index_of(alloc: Global, data: &str) -> Result<Index, Memory> {
    let patch = read_data(alloc, data)?;
    let empty = Index::new(alloc)?;
    let applied = empty.apply(alloc, &patch);
    drop(patch);
    drop(empty);
    match applied {
        Ok(index) => Ok(index),
        Err(ApplyErr::TooManyQuads { .. }) => Err(Memory),
        Err(ApplyErr::Memory) => Err(Memory),
    }
}

fn frame_of(alloc: Global, text: &str) -> Result<Frame, Memory> {
    match read_json(alloc, text.as_bytes()) {
        Ok(json) => {
            let read = expand_frame(alloc, &json);
            drop(json);
            match read {
                Ok(frame) => Ok(frame),
                Err(FrameErr::Ld(_)) => Err(Memory),
                Err(FrameErr::Memory) => Err(Memory),
            }
        }
        Err(JsonErr::NotJson) => Err(Memory),
        Err(JsonErr::Fractional { .. }) => Err(Memory),
        Err(JsonErr::Memory) => Err(Memory),
    }
}

fn prints_for(alloc: Global, frame: &Frame, data: &str, expected: &str) -> Result<bool, Memory> {
    match index_of(alloc, data) {
        Ok(index) => {
            let prints = prints_over(alloc, &index, frame, expected);
            drop(index);
            prints
        }
        Err(error) => Err(error),
    }
}

/// Whether the frame of a text prints this document over these quads.
fn prints(alloc: Global, frame: &str, data: &str, expected: &str) -> Result<bool, Memory> {
    match frame_of(alloc, frame) {
        Ok(frame) => {
            let prints = prints_for(alloc, &frame, data, expected);
            drop(frame);
            prints
        }
        Err(error) => Err(error),
    }
}

const LIBRARY: &str =
    "{\"@context\":{\"@version\":1.1,\"@vocab\":\"http://l/\",\"dc\":\"http://purl.org/dc/terms/\",\"creator\":{\"@id\":\"dc:creator\",\"@type\":\"@id\"},\"contains\":{\"@type\":\"@id\",\"@container\":\"@set\"}},\"@type\":\"Library\",\"contains\":{\"@type\":\"Book\"}}";

const SHELF: &str =
    "<http://l/lib> <http://www.w3.org/1999/02/22-rdf-syntax-ns#type> <http://l/Library> .\n<http://l/lib> <http://l/contains> <http://l/b1> .\n<http://l/b1> <http://www.w3.org/1999/02/22-rdf-syntax-ns#type> <http://l/Book> .\n<http://l/b1> <http://purl.org/dc/terms/title> \"Republic\"@en .\n<http://l/b1> <http://purl.org/dc/terms/creator> <http://l/plato> .\n";

#[test]
fn a_library(rt: HostRuntime) -> Result<(), Fail> {
    assert!(rt;
        prints(
            rt.alloc(),
            LIBRARY,
            SHELF,
            "{\"@context\":{\"@vocab\":\"http://l/\",\"contains\":{\"@container\":\"@set\",\"@type\":\"@id\"},\"creator\":{\"@id\":\"dc:creator\",\"@type\":\"@id\"},\"dc\":\"http://purl.org/dc/terms/\"},\"@id\":\"http://l/lib\",\"@type\":\"Library\",\"contains\":[{\"@id\":\"http://l/b1\",\"@type\":\"Book\",\"creator\":\"http://l/plato\",\"dc:title\":{\"@language\":\"en\",\"@value\":\"Republic\"}}]}"
        )?
    );
    Ok(())
}

#[test]
fn blank_nodes_counted_once_have_no_id(rt: HostRuntime) -> Result<(), Fail> {
    let alloc = rt.alloc();
    assert!(rt;
        prints(
            alloc,
            "{}",
            "_:b <http://e/p> \"1\" .\n<http://e/a> <http://e/p> \"2\" .\n",
            "{\"@graph\":[{\"http://e/p\":\"1\"},{\"@id\":\"http://e/a\",\"http://e/p\":\"2\"}]}"
        )?
    );
    assert!(rt;
        prints(
            alloc,
            "{\"http://e/p\":{}}",
            "<http://e/a> <http://e/p> _:x .\n<http://e/b> <http://e/p> _:x .\n_:x <http://e/q> \"1\" .\n",
            "{\"@graph\":[{\"@id\":\"http://e/a\",\"http://e/p\":{\"@id\":\"_:x\",\"http://e/q\":\"1\"}},{\"@id\":\"http://e/b\",\"http://e/p\":{\"@id\":\"_:x\",\"http://e/q\":\"1\"}}]}"
        )?
    );
    assert!(rt;
        prints(
            alloc,
            "{\"http://e/p\":{}}",
            "<http://e/a> <http://e/p> _:x .\n_:x <http://e/q> \"1\" .\n",
            "{\"@id\":\"http://e/a\",\"http://e/p\":{\"http://e/q\":\"1\"}}"
        )?
    );
    Ok(())
}

#[test]
fn a_language_map(rt: HostRuntime) -> Result<(), Fail> {
    assert!(rt;
        prints(
            rt.alloc(),
            "{\"@context\":{\"label\":{\"@id\":\"http://e/label\",\"@container\":\"@language\"}},\"@id\":\"http://e/a\"}",
            "<http://e/a> <http://e/label> \"x\"@en .\n<http://e/a> <http://e/label> \"y\"@EN-GB .\n<http://e/a> <http://e/label> \"z\" .\n",
            "{\"@context\":{\"label\":{\"@container\":\"@language\",\"@id\":\"http://e/label\"}},\"@id\":\"http://e/a\",\"label\":{\"@none\":\"z\",\"en\":\"x\",\"en-gb\":\"y\"}}"
        )?
    );
    Ok(())
}

#[test]
fn an_iri_confused_with_a_prefix(rt: HostRuntime) -> Result<(), Fail> {
    let alloc = rt.alloc();
    let frame = "{\"@context\":{\"tag\":\"http://t/\"},\"@id\":\"http://e/a\"}";
    assert!(rt;
        prints(
            alloc,
            frame,
            "<http://e/a> <http://e/n> \"A\" .\n<http://e/a> <http://e/p> <tag:x,1> .\n",
            "IRI confused with prefix"
        )?
    );
    assert!(rt;
        prints(
            alloc,
            frame,
            "<http://e/a> <http://e/n> \"A\" .\n",
            "{\"@context\":{\"tag\":\"http://t/\"},\"@id\":\"http://e/a\",\"http://e/n\":\"A\"}"
        )?
    );
    Ok(())
}

const ONE_QUAD: &str = "<http://e/a> <http://e/p> \"x\" .\n";

#[test]
fn default_values(rt: HostRuntime) -> Result<(), Fail> {
    let alloc = rt.alloc();
    assert!(rt;
        prints(
            alloc,
            "{\"@id\":\"http://e/a\",\"http://e/p\":{\"@value\":\"y\",\"@default\":\"d\"}}",
            ONE_QUAD,
            "{\"@id\":\"http://e/a\",\"http://e/p\":\"d\"}"
        )?
    );
    assert!(rt;
        prints(
            alloc,
            "{\"@id\":\"http://e/a\",\"http://e/p\":{\"@value\":\"y\"}}",
            ONE_QUAD,
            "{\"@id\":\"http://e/a\",\"http://e/p\":null}"
        )?
    );
    assert!(rt;
        prints(
            alloc,
            "{\"@context\":{\"p\":{\"@id\":\"http://e/p\",\"@container\":\"@set\"}},\"@id\":\"http://e/a\",\"p\":{\"@value\":\"y\"}}",
            ONE_QUAD,
            "{\"@context\":{\"p\":{\"@container\":\"@set\",\"@id\":\"http://e/p\"}},\"@id\":\"http://e/a\",\"p\":[]}"
        )?
    );
    Ok(())
}

fn put_name(data: &mut String, length: u64) -> Result<(), Memory> {
    data.push_str("<x:")?;
    for _letter in 0..length {
        data.push_str("a")?;
    }
    data.push_str(">")?;
    Ok(())
}

fn put_link(data: &mut String, from: u64, to: u64) -> Result<(), Memory> {
    put_name(data, from)?;
    data.push_str(" <x:p> ")?;
    put_name(data, to)?;
    data.push_str(" .\n")?;
    Ok(())
}

/// A chain of one node more than there are links, each with a name longer by a letter.
fn chain(alloc: Global, links: u64) -> Result<String, Memory> {
    let mut data = String::new(alloc);
    let mut next = 1;
    for link in 0..links {
        put_link(&mut data, link, next)?;
        next = link.saturating_add(2);
    }
    Ok(data)
}

/// Whether a node of a chain has this document, or limit.
fn chain_is(alloc: Global, links: u64, frame: &str, expected: &str) -> Result<bool, Memory> {
    let data = chain(alloc, links)?;
    prints(alloc, frame, data.as_str(), expected)
}

#[test]
fn a_tree_past_the_depth_decides(rt: HostRuntime) -> Result<(), Fail> {
    let alloc = rt.alloc();
    assert!(rt; chain_is(alloc, 256, "{}", "depth")?);
    assert!(rt; !chain_is(alloc, 255, "{}", "depth")?);
    assert!(rt;
        chain_is(
            alloc,
            256,
            "{\"@id\":\"x:aaa\",\"@embed\":\"@never\"}",
            "{\"@id\":\"x:aaa\",\"x:p\":{\"@id\":\"x:aaaa\"}}"
        )?
    );
    Ok(())
}
