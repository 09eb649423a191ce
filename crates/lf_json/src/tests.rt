//! What `serde_json` reads of numbers, keys and texts at their edges, and how deep.
use crate::{JsonErr, has_fraction, read_json, text};
use lf_base::{Memory, Text};
use lf_model::Json;
use std::alloc::Global;
use std::test::Fail;

// The compact text of a value that has one.
fn printed(alloc: Global, json: &Json) -> Result<Text, Memory> {
    if has_fraction(json) {
        Text::of(alloc, "has a fraction")
    } else {
        text(alloc, json)
    }
}

// What a text comes to: the compact text of its value, or the error in words.
fn answer(alloc: Global, bytes: &[u8]) -> Result<Text, Memory> {
    match read_json(alloc, bytes) {
        Ok(json) => {
            let answer = printed(alloc, &json);
            drop(json);
            answer
        }
        Err(JsonErr::NotJson) => Text::of(alloc, "not JSON"),
        Err(JsonErr::Fractional { path }) => Ok(path),
        Err(JsonErr::Memory) => Err(Memory),
    }
}

#[test]
fn texts_are_read_as_serde_json_reads_them(rt: HostRuntime) -> Result<(), Fail> {
    let alloc = rt.alloc();
    let rows: [(&[u8], &str); 26] = [
        (
            b" { \"b\" : [ 1 , true ] , \"a\" : null } ",
            "{\"a\":null,\"b\":[1,true]}",
        ),
        (b"{\"a\":1,\"a\":2}", "{\"a\":2}"),
        (b"{\"a\":1.5,\"a\":1}", "{\"a\":1}"),
        (b"18446744073709551615", "18446744073709551615"),
        (b"-9223372036854775808", "-9223372036854775808"),
        (b"\"\\u00e9\\ud83d\\ude00\\n\"", "\"é😀\\n\""),
        (b"{\"@version\":1.1}", "has a fraction"),
        (b"{\"@version\":18446744073709551616}", "has a fraction"),
        (b"-0", ""),
        (b"1.0", ""),
        (b"[0,1e2]", "/1"),
        (b"18446744073709551616", ""),
        (b"{\"a/b\":[{\"~\":0.5}]}", "/a~1b/0/~0"),
        (b"{\"b\":0.5,\"a\":[1,0.5]}", "/a/1"),
        (b"{\"@version\":[1.1]}", "/@version/0"),
        (b"1e309", "not JSON"),
        (b"01", "not JSON"),
        (b".5", "not JSON"),
        (b"\"\\ud800\"", "not JSON"),
        (b"\"\xff\"", "not JSON"),
        (b"\xef\xbb\xbf1", "not JSON"),
        (b"\"\n\"", "not JSON"),
        (b"1 2", "not JSON"),
        (b"", "not JSON"),
        (b"{\"a\":1,}", "not JSON"),
        (b"nul", "not JSON"),
    ];
    for (bytes, wanted) in rows {
        let found = answer(alloc, bytes)?;
        assert_eq!(rt; found.as_str(), wanted);
    }
    Ok(())
}

// As many arrays, one in another.
fn nested(alloc: Global, depth: usize) -> Result<Text, Memory> {
    let mut words = String::new(alloc);
    for _ in 0..depth {
        words.push('[')?;
    }
    for _ in 0..depth {
        words.push(']')?;
    }
    Text::from_string(words)
}

#[test]
fn nesting_past_127_levels_is_no_json(rt: HostRuntime) -> Result<(), Fail> {
    let alloc = rt.alloc();
    let most = nested(alloc, 127)?;
    let more = nested(alloc, 128)?;
    assert_eq!(rt;
        answer(alloc, most.as_str().as_bytes())?.as_str(),
        most.as_str()
    );
    assert_eq!(rt;
        answer(alloc, more.as_str().as_bytes())?.as_str(),
        "not JSON"
    );
    Ok(())
}
