//! Each error of a frame by its name, and frames read from their texts.
use crate::{FrameErr, expand_frame};
use lf_base::{Memory, Text};
use lf_json::{JsonErr, read_json};
use lf_model::{Frame, Json};
use std::alloc::Global;
use std::test::Fail;

// How many maps a frame has, and how many terms its context defines.
fn counts(alloc: Global, frame: &Frame) -> Result<Text, Memory> {
    let maps = frame.nodes.len();
    let terms = frame.table.terms.len();
    Text::from_string(format!(in alloc; "maps {maps}, terms {terms}")?)
}

// What a value comes to: the counts of its frame, or the error by its name.
fn frame_told(alloc: Global, json: &Json) -> Result<Text, Memory> {
    match expand_frame(alloc, json) {
        Ok(frame) => {
            let told = counts(alloc, &frame);
            drop(frame);
            told
        }
        Err(FrameErr::Ld(error)) => Text::of(alloc, error.name()),
        Err(FrameErr::Memory) => Err(Memory),
    }
}

// What a text comes to.
fn told(alloc: Global, bytes: &[u8]) -> Result<Text, Memory> {
    match read_json(alloc, bytes) {
        Ok(json) => {
            let told = frame_told(alloc, &json);
            drop(json);
            told
        }
        Err(JsonErr::NotJson) => Text::of(alloc, "not JSON"),
        Err(JsonErr::Fractional { path }) => Ok(path),
        Err(JsonErr::Memory) => Err(Memory),
    }
}

#[test]
fn each_error_of_frames_comes_by_its_name(rt: HostRuntime) -> Result<(), Fail> {
    let alloc = rt.alloc();
    let rows: [(&[u8], &str); 22] = [
        (
            b"{\"@context\":{\"id\":\"@id\"},\"@id\":{},\"id\":5}",
            "colliding keywords",
        ),
        (
            b"{\"@context\":{\"a\":{\"@id\":\"b:x\"},\"b\":{\"@id\":\"a:y\"}}}",
            "cyclic IRI mapping",
        ),
        (b"{\"@embed\":\"@link\"}", "invalid @embed value"),
        (b"{\"@id\":\"x\"}", "invalid @id value"),
        (
            b"{\"@reverse\":{\"http://e/p\":{\"@value\":\"x\"}}}",
            "invalid @reverse value",
        ),
        (b"{\"@context\":{\"@version\":1}}", "invalid @version value"),
        (
            b"{\"@context\":{\"a\":{\"@id\":\"http://e/a\",\"@container\":\"@index\"}}}",
            "invalid container mapping",
        ),
        (
            b"{\"@context\":{\"@language\":true}}",
            "invalid default language",
        ),
        (b"[{},{}]", "invalid frame"),
        (b"{\"@context\":{\"a\":\"x\"}}", "invalid IRI mapping"),
        (
            b"{\"@context\":{\"a\":\"@context\"}}",
            "invalid keyword alias",
        ),
        (
            b"{\"@context\":{\"a\":{\"@id\":\"http://e/a\",\"@language\":1}}}",
            "invalid language mapping",
        ),
        (
            b"{\"@context\":{\"@base\":\"http://e/\"}}",
            "invalid local context",
        ),
        (
            b"{\"@context\":{\"a\":{\"@id\":\"http://e/a\",\"@prefix\":null}}}",
            "invalid @prefix value",
        ),
        (
            b"{\"@context\":{\"a\":{\"@id\":\"http://e/a\",\"@reverse\":\"http://e/b\"}}}",
            "invalid reverse property",
        ),
        (
            b"{\"@context\":{\"\":\"http://e/\"}}",
            "invalid term definition",
        ),
        (
            b"{\"@context\":{\"a\":{\"@id\":\"http://e/a\",\"@type\":\"x\"}}}",
            "invalid type mapping",
        ),
        (b"{\"@type\":[null]}", "invalid type value"),
        (
            b"{\"http://e/p\":{\"@id\":{},\"@value\":\"x\"}}",
            "invalid value object",
        ),
        (
            b"{\"@context\":{\"@vocab\":\"x\"}}",
            "invalid vocab mapping",
        ),
        (
            b"{\"@context\":{\"@id\":\"http://e/\"}}",
            "keyword redefinition",
        ),
        (
            b"{\"@context\":\"http://e/c\"}",
            "loading remote context failed",
        ),
    ];
    for (bytes, wanted) in rows {
        let found = told(alloc, bytes)?;
        assert_eq!(rt; found.as_str(), wanted);
    }
    Ok(())
}

#[test]
fn frames_are_read_from_their_texts(rt: HostRuntime) -> Result<(), Fail> {
    let alloc = rt.alloc();
    let rows: [(&[u8], &str); 14] = [
        (b"{", "not JSON"),
        (b"{\"http://e/p\":2.5}", "/http:~1~1e~1p"),
        (b"{\"@context\":{\"@version\":1.1}}", "maps 1, terms 0"),
        (
            b"{\"@context\":{\"@version\":1.1,\"@vocab\":\"http://l/\",\"dc\":\"http://purl.org/dc/terms/\",\"creator\":{\"@id\":\"dc:creator\",\"@type\":\"@id\"},\"contains\":{\"@type\":\"@id\",\"@container\":\"@set\"}},\"@type\":\"Library\",\"contains\":{\"@type\":\"Book\"}}",
            "maps 2, terms 3",
        ),
        (
            b"{\"@id\":\"http://e/a\",\"http://e/p\":{\"@value\":\"y\",\"@default\":\"d\"}}",
            "maps 2, terms 0",
        ),
        (
            b"{\"@id\":\"http://e/a\",\"http://e/p\":{\"@value\":\"y\"}}",
            "maps 2, terms 0",
        ),
        (
            b"{\"@context\":{\"p\":{\"@id\":\"http://e/p\",\"@container\":\"@set\"}},\"@id\":\"http://e/a\",\"p\":{\"@value\":\"y\"}}",
            "maps 2, terms 1",
        ),
        (b"{\"http://e/p\":[]}", "maps 1, terms 0"),
        (b"{\"http://e/p\":{},\"http://e/q\":{}}", "maps 3, terms 0"),
        (
            b"{\"@requireAll\":true,\"http://e/p\":{},\"http://e/q\":{}}",
            "maps 3, terms 0",
        ),
        (
            b"{\"@requireAll\":true,\"http://e/p\":{},\"http://e/q\":[]}",
            "maps 2, terms 0",
        ),
        (
            b"{\"@id\":\"http://e/a\",\"@reverse\":{\"http://e/p\":{}}}",
            "maps 2, terms 0",
        ),
        (
            b"{\"@context\":{\"label\":{\"@id\":\"http://e/label\",\"@container\":\"@language\"}},\"@id\":\"http://e/a\"}",
            "maps 1, terms 1",
        ),
        (
            b"{\"@context\":{\"tag\":\"http://t/\"},\"@id\":\"http://e/a\"}",
            "maps 1, terms 1",
        ),
    ];
    for (bytes, wanted) in rows {
        let found = told(alloc, bytes)?;
        assert_eq!(rt; found.as_str(), wanted);
    }
    Ok(())
}
