//! Sessions over streams in memory.
ghost use Rattle.std.specs.Prelude.{◌<◌};

use crate::run_words;
use itoa::Buffer;
use lf_base::{ListOf, Memory};
use lf_io::{Calls, MemoryShelf, MemorySink, MemorySource};
use std::alloc::Global;
use std::test::Fail;

const ROOM: usize = 16_384;

/// How the source and the sink behave: the bytes that the sink has room for, the length of their
/// pieces, and which of their calls fails.
#[derive(Clone, Copy)]
pub struct Streams {
    pub room: usize,
    pub piece: usize,
    pub read: u64,
    pub write: u64,
}

/// Streams without faults.
pub const WELL: Streams = Streams {
    room: ROOM,
    piece: 4096,
    read: u64::MAX,
    write: u64::MAX,
};

const PATCH: &str =
    "POST /patch HTTP/1.1\r\nHost: x\r\nContent-Length: 32\r\n\r\n<http://e/a> <http://e/p> \"x\" .\n";

const PATCHED: &str =
    "HTTP/1.1 200 OK\r\nContent-Type: application/json\r\nLd-Version: 1\r\nContent-Length: 13\r\n\r\n{\"version\":1}";

const PUT: &str = "PUT /frames/a HTTP/1.1\r\nHost: x\r\nContent-Length: 2\r\n\r\n{}";

const CREATED: &str =
    "HTTP/1.1 201 Created\r\nContent-Type: application/json\r\nContent-Length: 13\r\n\r\n{\"frame\":\"a\"}";

const GET: &str = "GET /frames/a HTTP/1.1\r\nHost: x\r\n\r\n";

const PENDING: &str =
    "HTTP/1.1 202 Accepted\r\nContent-Type: application/json\r\nContent-Length: 22\r\n\r\n{\"have\":null,\"need\":1}";

const GET_NOW: &str = "GET /frames/a HTTP/1.1\r\nHost: x\r\nLd-Refresh: now\r\n\r\n";

const DOCUMENT: &str =
    "HTTP/1.1 200 OK\r\nContent-Type: application/ld+json\r\nLd-Version: 1\r\nContent-Length: 37\r\n\r\n{\"@id\":\"http://e/a\",\"http://e/p\":\"x\"}";

const TURN: &str = "POST /turn HTTP/1.1\r\nHost: x\r\n\r\n";

const PUBLISHED: &str =
    "HTTP/1.1 200 OK\r\nContent-Type: application/json\r\nContent-Length: 44\r\n\r\n{\"frame\":\"a\",\"turn\":\"published\",\"version\":1}";

const IDLE: &str =
    "HTTP/1.1 200 OK\r\nContent-Type: application/json\r\nContent-Length: 15\r\n\r\n{\"turn\":\"idle\"}";

const PATCHED_AGAIN: &str =
    "HTTP/1.1 200 OK\r\nContent-Type: application/json\r\nLd-Version: 2\r\nContent-Length: 13\r\n\r\n{\"version\":2}";

const CONFUSED: &str =
    "HTTP/1.1 422 Unprocessable Content\r\nContent-Type: application/json\r\nLd-Version: 1\r\nContent-Length: 36\r\n\r\n{\"error\":\"IRI confused with prefix\"}";

const TAGGED: &str =
    "HTTP/1.1 200 OK\r\nContent-Type: application/ld+json\r\nLd-Version: 2\r\nContent-Length: 68\r\n\r\n{\"@context\":{\"tag\":\"http://t/\"},\"@id\":\"http://e/a\",\"http://e/n\":\"A\"}";

fn calls(alloc: Global, failing: u64) -> Result<Calls, Memory> {
    let mut numbers = Vec::new(alloc);
    numbers.push(failing)?;
    Ok(Calls::new(numbers))
}

// The status of a session over this input, and what it sent.
fn session_of(alloc: Global, input: &[u8], streams: &Streams) -> Result<(u8, String), Memory> {
    let piece = streams.piece.max(1);
    let mut source = MemorySource::new(input.to_vec(alloc)?, piece, calls(alloc, streams.read)?);
    let mut sink = MemorySink::new(alloc, streams.room, piece, calls(alloc, streams.write)?)?;
    let mut shelf = MemoryShelf::new(ListOf::new(alloc), calls(alloc, u64::MAX)?);
    let mut words = Vec::new(alloc);
    words.push(String::from_str(alloc, "session")?)?;
    let status = run_words(alloc, words.as_slice(), &mut source, &mut sink, &mut shelf);
    let sent = match String::from_utf8(sink.bytes().to_vec(alloc)?) {
        Ok(sent) => sent,
        Err(_) => String::new(alloc),
    };
    Ok((status, sent))
}

/// The same of an input that is a text.
pub fn session(alloc: Global, input: &str, streams: &Streams) -> Result<(u8, String), Memory> {
    session_of(alloc, input.as_bytes(), streams)
}

// A request with a body.
fn sending(alloc: Global, what: &str, body: &str) -> Result<String, Memory> {
    let mut text = String::new(alloc);
    text.push_str(what)?;
    text.push_str(" HTTP/1.1\r\nHost: x\r\nContent-Length: ")?;
    text.push_str(Buffer::new().format(body.len() as u64))?;
    text.push_str("\r\n\r\n")?;
    text.push_str(body)?;
    Ok(text)
}

/// Texts, one after another.
pub fn joined(alloc: Global, texts: &[&str]) -> Result<String, Memory> {
    let mut all = String::new(alloc);
    for text in texts {
        all.push_str(text)?;
    }
    Ok(all)
}

// Whether a session over this input ends with this status and sends just this.
fn is_answered(alloc: Global, input: &str, status: u8, wanted: &str) -> Result<bool, Memory> {
    let (ended, sent) = session(alloc, input, &WELL)?;
    Ok(ended == status && sent.as_str() == wanted)
}

// Whether these requests get just these replies, and the stream ends clean.
fn are_answered(alloc: Global, requests: &[&str], replies: &[&str]) -> Result<bool, Memory> {
    let input = joined(alloc, requests)?;
    let wanted = joined(alloc, replies)?;
    is_answered(alloc, input.as_str(), 0, wanted.as_str())
}

// Whether a request is answered by this line of status and what follows it, and the stream ends
// clean.
fn is_refused(alloc: Global, input: &str, wanted: &str) -> Result<bool, Memory> {
    let whole = joined(alloc, &["HTTP/1.1 ", wanted])?;
    is_answered(alloc, input, 0, whole.as_str())
}

#[test]
fn a_first_session_comes_in_any_pieces(rt: HostRuntime) -> Result<(), Fail> {
    let alloc = rt.alloc();
    let input = joined(alloc, &[PATCH, PUT, GET, GET_NOW, TURN, GET, TURN])?;
    let wanted = joined(
        alloc,
        &[
            PATCHED, CREATED, PENDING, DOCUMENT, PUBLISHED, DOCUMENT, IDLE,
        ],
    )?;
    for piece in [1usize, 7, 4096] {
        let streams = Streams { piece, ..WELL };
        let (status, sent) = session(alloc, input.as_str(), &streams)?;
        assert_eq!(rt; status, 0);
        assert_eq!(rt; sent.as_str(), wanted.as_str());
    }
    Ok(())
}

#[test]
fn bad_heads_end_the_stream(rt: HostRuntime) -> Result<(), Fail> {
    let alloc = rt.alloc();
    assert!(rt;
        is_answered(
            alloc,
            "GET /version HTTP/1.1\r\n\r\nGET /version HTTP/1.1\r\nHost: x\r\n\r\n",
            11,
            "HTTP/1.1 400 Bad Request\r\nContent-Type: application/json\r\nConnection: close\r\nContent-Length: 20\r\n\r\n{\"error\":\"bad head\"}"
        )?
    );
    assert!(rt;
        is_answered(
            alloc,
            "PUT /frames/a HTTP/1.1\r\nHost: x\r\n\r\n{}",
            11,
            "HTTP/1.1 411 Length Required\r\nContent-Type: application/json\r\nConnection: close\r\nContent-Length: 27\r\n\r\n{\"error\":\"length required\"}"
        )?
    );
    assert!(rt;
        is_answered(
            alloc,
            "POST /patch HTTP/1.1\r\nHost: x\r\nContent-Length: 0\r\nExpect: 100-continue\r\n\r\n",
            11,
            "HTTP/1.1 417 Expectation Failed\r\nContent-Type: application/json\r\nConnection: close\r\nContent-Length: 23\r\n\r\n{\"error\":\"expectation\"}"
        )?
    );
    assert!(rt;
        is_answered(
            alloc,
            "POST /patch HTTP/1.1\r\nHost: x\r\nContent-Length: 67108865\r\n\r\n",
            11,
            "HTTP/1.1 413 Content Too Large\r\nContent-Type: application/json\r\nConnection: close\r\nContent-Length: 25\r\n\r\n{\"error\":\"body too long\"}"
        )?
    );
    assert!(rt;
        is_answered(
            alloc,
            "PATCH /version HTTP/1.1\r\nHost: x\r\n\r\n",
            0,
            "HTTP/1.1 405 Method Not Allowed\r\nContent-Type: application/json\r\nAllow: GET\r\nContent-Length: 30\r\n\r\n{\"error\":\"method not allowed\"}"
        )?
    );
    Ok(())
}

#[test]
fn requests_are_refused_by_their_form(rt: HostRuntime) -> Result<(), Fail> {
    let alloc = rt.alloc();
    assert!(rt;
        is_refused(
            alloc,
            "GET /nowhere HTTP/1.1\r\nHost: x\r\nContent-Encoding: gzip\r\n\r\n",
            "415 Unsupported Media Type\r\nContent-Type: application/json\r\nContent-Length: 28\r\n\r\n{\"error\":\"content encoding\"}"
        )?
    );
    assert!(rt;
        is_refused(
            alloc,
            "PATCH /turns HTTP/1.1\r\nHost: x\r\n\r\n",
            "404 Not Found\r\nContent-Type: application/json\r\nContent-Length: 24\r\n\r\n{\"error\":\"no such path\"}"
        )?
    );
    assert!(rt;
        is_refused(
            alloc,
            "GET /turn HTTP/1.1\r\nHost: x\r\n\r\n",
            "405 Method Not Allowed\r\nContent-Type: application/json\r\nAllow: POST\r\nContent-Length: 30\r\n\r\n{\"error\":\"method not allowed\"}"
        )?
    );
    assert!(rt;
        is_refused(
            alloc,
            "HEAD /frames/a HTTP/1.1\r\nHost: x\r\n\r\n",
            "405 Method Not Allowed\r\nContent-Type: application/json\r\nAllow: GET, PUT, DELETE\r\nContent-Length: 30\r\n\r\n"
        )?
    );
    Ok(())
}

#[test]
fn requests_are_refused_by_their_lines(rt: HostRuntime) -> Result<(), Fail> {
    let alloc = rt.alloc();
    assert!(rt;
        is_refused(
            alloc,
            "GET /version HTTP/1.1\r\nHost: x\r\nLd-Seen: one\r\nLd-Refresh: later\r\n\r\n",
            "400 Bad Request\r\nContent-Type: application/json\r\nContent-Length: 23\r\n\r\n{\"error\":\"bad Ld-Seen\"}"
        )?
    );
    assert!(rt;
        is_refused(
            alloc,
            "GET /version HTTP/1.1\r\nHost: x\r\nLd-Refresh: later\r\n\r\n",
            "400 Bad Request\r\nContent-Type: application/json\r\nContent-Length: 26\r\n\r\n{\"error\":\"bad Ld-Refresh\"}"
        )?
    );
    assert!(rt;
        is_refused(
            alloc,
            "GET /version HTTP/1.1\r\nHost: x\r\n\r\n",
            "200 OK\r\nContent-Type: application/json\r\nLd-Version: 0\r\nContent-Length: 13\r\n\r\n{\"version\":0}"
        )?
    );
    Ok(())
}

#[test]
fn requests_are_refused_by_what_there_is(rt: HostRuntime) -> Result<(), Fail> {
    let alloc = rt.alloc();
    assert!(rt;
        is_refused(
            alloc,
            "DELETE /frames/a HTTP/1.1\r\nHost: x\r\n\r\n",
            "404 Not Found\r\nContent-Type: application/json\r\nContent-Length: 25\r\n\r\n{\"error\":\"unknown frame\"}"
        )?
    );
    assert!(rt;
        is_refused(
            alloc,
            "GET /frames/a HTTP/1.1\r\nHost: x\r\n\r\n",
            "404 Not Found\r\nContent-Type: application/json\r\nContent-Length: 25\r\n\r\n{\"error\":\"unknown frame\"}"
        )?
    );
    assert!(rt;
        is_refused(
            alloc,
            "PUT /frames/a.b HTTP/1.1\r\nHost: x\r\nContent-Length: 2\r\n\r\n{}",
            "400 Bad Request\r\nContent-Type: application/json\r\nContent-Length: 20\r\n\r\n{\"error\":\"bad name\"}"
        )?
    );
    Ok(())
}

#[test]
fn frames_and_patches_are_refused(rt: HostRuntime) -> Result<(), Fail> {
    let alloc = rt.alloc();
    assert!(rt;
        is_refused(
            alloc,
            "PUT /frames/a HTTP/1.1\r\nHost: x\r\nContent-Length: 1\r\n\r\n{",
            "400 Bad Request\r\nContent-Type: application/json\r\nContent-Length: 20\r\n\r\n{\"error\":\"not JSON\"}"
        )?
    );
    assert!(rt;
        is_refused(
            alloc,
            "PUT /frames/a HTTP/1.1\r\nHost: x\r\nContent-Length: 16\r\n\r\n{\"http://p\":2.5}",
            "400 Bad Request\r\nContent-Type: application/json\r\nContent-Length: 50\r\n\r\n{\"error\":\"fractional number\",\"path\":\"/http:~1~1p\"}"
        )?
    );
    assert!(rt;
        is_refused(
            alloc,
            "PUT /frames/a HTTP/1.1\r\nHost: x\r\nContent-Length: 18\r\n\r\n{\"@embed\":\"@link\"}",
            "422 Unprocessable Content\r\nContent-Type: application/json\r\nContent-Length: 32\r\n\r\n{\"error\":\"invalid @embed value\"}"
        )?
    );
    assert!(rt;
        is_refused(
            alloc,
            "POST /patch HTTP/1.1\r\nHost: x\r\nContent-Length: 24\r\n\r\n\n\n<http://e/a> <p> \"x\" .",
            "400 Bad Request\r\nContent-Type: application/json\r\nContent-Length: 33\r\n\r\n{\"error\":\"relative IRI\",\"line\":3}"
        )?
    );
    Ok(())
}

#[test]
fn a_body_that_is_longer_than_told_is_a_bad_head(rt: HostRuntime) -> Result<(), Fail> {
    let alloc = rt.alloc();
    let input = joined(alloc, &[PUT, "{}\r\n\r\n"])?;
    let (status, sent) = session(alloc, input.as_str(), &WELL)?;
    assert_eq!(rt; status, 11);
    assert!(rt; sent.starts_with(CREATED));
    assert!(rt; sent.ends_with("{\"error\":\"bad head\"}"));
    Ok(())
}

// Puts a request that registers the empty frame under a name.
fn put_empty_frame(input: &mut String, name: char) -> Result<(), Memory> {
    input.push_str("PUT /frames/")?;
    input.push(name)?;
    input.push_str(" HTTP/1.1\r\nHost: x\r\nContent-Length: 2\r\n\r\n{}")?;
    Ok(())
}

#[test]
fn a_seventeenth_frame_is_one_too_many(rt: HostRuntime) -> Result<(), Fail> {
    let alloc = rt.alloc();
    let mut input = String::new(alloc);
    for name in b'a'..=b'q' {
        put_empty_frame(&mut input, char::from(name))?;
    }
    put_empty_frame(&mut input, 'a')?;
    input.push_str("DELETE /frames/a HTTP/1.1\r\nHost: x\r\n\r\n")?;
    let (status, sent) = session(alloc, input.as_str(), &WELL)?;
    assert_eq!(rt; status, 0);
    let head =
        "HTTP/1.1 200 OK\r\nContent-Type: application/json\r\nContent-Length: 13\r\n\r\n{\"frame\":\"a\"}";
    let refused =
        "HTTP/1.1 413 Content Too Large\r\nContent-Type: application/json\r\nContent-Length: 48\r\n\r\n{\"error\":\"too many frames\",\"have\":16,\"would\":17}";
    let last = joined(alloc, &[refused, head, head])?;
    assert!(rt; sent.ends_with(last.as_str()));
    Ok(())
}

#[test]
fn each_number_told_is_needed(rt: HostRuntime) -> Result<(), Fail> {
    let alloc = rt.alloc();
    let refused = "GET /nowhere HTTP/1.1\r\nHost: x\r\nLd-Seen: 7\r\n\r\n";
    let input = joined(alloc, &[PUT, refused, GET_NOW])?;
    let (status, sent) = session(alloc, input.as_str(), &WELL)?;
    assert_eq!(rt; status, 0);
    assert!(rt; sent.ends_with("{\"have\":null,\"need\":7}"));
    Ok(())
}

#[test]
fn a_request_that_asks_to_close_is_the_last(rt: HostRuntime) -> Result<(), Fail> {
    let alloc = rt.alloc();
    assert!(rt;
        is_answered(
            alloc,
            "GET /version HTTP/1.1\r\nHost: x\r\nConnection: x, Close\r\n\r\nGET /version HTTP/1.1\r\nHost: x\r\n\r\n",
            0,
            "HTTP/1.1 200 OK\r\nContent-Type: application/json\r\nLd-Version: 0\r\nConnection: close\r\nContent-Length: 13\r\n\r\n{\"version\":0}"
        )?
    );
    assert!(rt;
        is_answered(
            alloc,
            "GET /version HTTP/1.0\r\n\r\nGET /version HTTP/1.1\r\nHost: x\r\n\r\n",
            0,
            "HTTP/1.1 200 OK\r\nContent-Type: application/json\r\nLd-Version: 0\r\nConnection: close\r\nContent-Length: 13\r\n\r\n{\"version\":0}"
        )?
    );
    Ok(())
}

// So many bytes of the first session came: the end of the messages tried so far, whether one ends
// with the last byte that came, and what is sent.
#[derive(Drop)]
struct Came {
    bytes: usize,
    end: usize,
    whole: bool,
    sent: String,
}

// One message more, and its reply.
fn take(came: &mut Came, message: &str, reply: &str) -> Result<(), Memory> {
    came.end = came.end.saturating_add(message.len());
    if came.end <= came.bytes {
        came.sent.push_str(reply)?;
    }
    if came.end == came.bytes {
        came.whole = true;
    }
    Ok(())
}

// How much of the replies is sent where so many bytes of the first session came.
fn replies_to(alloc: Global, bytes: usize) -> Result<(bool, String), Memory> {
    let mut came = Came {
        bytes,
        end: 0,
        whole: bytes == 0,
        sent: String::new(alloc),
    };
    take(&mut came, PATCH, PATCHED)?;
    take(&mut came, PUT, CREATED)?;
    take(&mut came, GET, PENDING)?;
    take(&mut came, GET_NOW, DOCUMENT)?;
    Ok((came.whole, came.sent))
}

#[test]
fn a_stream_that_is_cut_is_answered_as_far_as_it_came(rt: HostRuntime) -> Result<(), Fail> {
    let alloc = rt.alloc();
    let input = joined(alloc, &[PATCH, PUT, GET, GET_NOW])?;
    for bytes in 0..input.len() {
        let Some(cut) = input.get(..bytes) else {
            continue;
        };
        let (whole, wanted) = replies_to(alloc, bytes)?;
        let (status, sent) = session(alloc, cut, &WELL)?;
        assert_eq!(rt; status, if whole { 0 } else { 10 });
        assert_eq!(rt; sent.as_str(), wanted.as_str());
    }
    Ok(())
}

#[test]
fn a_failed_read_ends_the_stream(rt: HostRuntime) -> Result<(), Fail> {
    let alloc = rt.alloc();
    let input = joined(alloc, &[PATCH, PUT, GET, GET_NOW])?;
    for call in 0..300u64 {
        let streams = Streams {
            piece: 1,
            read: call,
            ..WELL
        };
        let (_, wanted) = replies_to(alloc, call as usize)?;
        let (status, sent) = session(alloc, input.as_str(), &streams)?;
        let failed = call <= input.len() as u64;
        assert_eq!(rt; status, if failed { 3 } else { 0 });
        assert_eq!(rt; sent.as_str(), wanted.as_str());
    }
    Ok(())
}

#[test]
fn a_failed_write_ends_the_stream(rt: HostRuntime) -> Result<(), Fail> {
    let alloc = rt.alloc();
    let input = joined(alloc, &[PATCH, PUT, GET, GET_NOW])?;
    let all = joined(alloc, &[PATCHED, CREATED, PENDING, DOCUMENT])?;
    for call in 0..700u64 {
        let streams = Streams {
            piece: 1,
            write: call,
            ..WELL
        };
        let (status, sent) = session(alloc, input.as_str(), &streams)?;
        let failed = call < all.len() as u64;
        assert_eq!(rt; status, if failed { 4 } else { 0 });
        assert_eq!(rt; sent.len() as u64, call.min(all.len() as u64));
        assert!(rt; all.starts_with(sent.as_str()));
    }
    // The second write fails, after the first took ten bytes.
    let streams = Streams {
        piece: 10,
        write: 1,
        ..WELL
    };
    let (status, sent) = session(alloc, input.as_str(), &streams)?;
    assert_eq!(rt; status, 4);
    assert_eq!(rt; sent.as_str(), "HTTP/1.1 2");
    Ok(())
}

const VERSION: &str = "GET /version HTTP/1.1\r\nHost: x\r\n\r\n";

const BAD_THIRD_LINE: &str =
    "POST /patch HTTP/1.1\r\nHost: x\r\nContent-Length: 86\r\n\r\n<http://e/a> <http://e/p> \"x\" .\n<http://e/a> <http://e/q> \"y\" .\n<http://e/a> <p> \"x\" .";

const GOOD_THIRD_LINE: &str =
    "POST /patch HTTP/1.1\r\nHost: x\r\nContent-Length: 95\r\n\r\n<http://e/a> <http://e/p> \"x\" .\n<http://e/a> <http://e/q> \"y\" .\n<http://e/a> <http://e/p> \"x\" .";

// bad-third-line
#[test]
fn a_bad_line_leaves_the_version(rt: HostRuntime) -> Result<(), Fail> {
    let alloc = rt.alloc();
    assert!(rt;
        are_answered(
            alloc,
            &[BAD_THIRD_LINE, VERSION, GOOD_THIRD_LINE],
            &[
                "HTTP/1.1 400 Bad Request\r\nContent-Type: application/json\r\nContent-Length: 33\r\n\r\n{\"error\":\"relative IRI\",\"line\":3}",
                "HTTP/1.1 200 OK\r\nContent-Type: application/json\r\nLd-Version: 0\r\nContent-Length: 13\r\n\r\n{\"version\":0}",
                PATCHED,
            ]
        )?
    );
    Ok(())
}

const PUT_TAG: &str =
    "PUT /frames/a HTTP/1.1\r\nHost: x\r\nContent-Length: 51\r\n\r\n{\"@context\":{\"tag\":\"http://t/\"},\"@id\":\"http://e/a\"}";

const PATCH_TAG: &str =
    "POST /patch HTTP/1.1\r\nHost: x\r\nContent-Length: 70\r\n\r\n<http://e/a> <http://e/n> \"A\" .\n<http://e/a> <http://e/p> <tag:x,1> .\n";

const DELETE_TAG: &str =
    "POST /patch HTTP/1.1\r\nHost: x\r\nContent-Length: 39\r\n\r\n- <http://e/a> <http://e/p> <tag:x,1> .";

const PUBLISHED_SECOND: &str =
    "HTTP/1.1 200 OK\r\nContent-Type: application/json\r\nContent-Length: 44\r\n\r\n{\"frame\":\"a\",\"turn\":\"published\",\"version\":2}";

// What a turn published is an error, and the version that it has is told. Where the quad is
// deleted, the next turn publishes a text: confused-prefix.
#[test]
fn a_published_error_has_its_version(rt: HostRuntime) -> Result<(), Fail> {
    let alloc = rt.alloc();
    assert!(rt;
        are_answered(
            alloc,
            &[PUT_TAG, PATCH_TAG, TURN, GET, DELETE_TAG, TURN, GET],
            &[
                CREATED,
                PATCHED,
                PUBLISHED,
                CONFUSED,
                PATCHED_AGAIN,
                PUBLISHED_SECOND,
                TAGGED,
            ]
        )?
    );
    Ok(())
}

// The document of the newest version is an error, and the version that it has is told. Where the
// quad is deleted it is a text.
#[test]
fn an_error_of_a_document_has_its_version(rt: HostRuntime) -> Result<(), Fail> {
    let alloc = rt.alloc();
    assert!(rt;
        are_answered(
            alloc,
            &[PUT_TAG, PATCH_TAG, GET_NOW, DELETE_TAG, GET_NOW],
            &[CREATED, PATCHED, CONFUSED, PATCHED_AGAIN, TAGGED]
        )?
    );
    Ok(())
}

const PATCH_BACK: &str =
    "POST /patch HTTP/1.1\r\nHost: x\r\nContent-Length: 68\r\n\r\n- <http://e/a> <http://e/p> \"x\" .\n+ <http://e/a> <http://e/p> \"x\" .\n";

const PATCH_NOTHING: &str = "POST /patch HTTP/1.1\r\nHost: x\r\nContent-Length: 0\r\n\r\n";

const PATCHED_THIRD: &str =
    "HTTP/1.1 200 OK\r\nContent-Type: application/json\r\nLd-Version: 3\r\nContent-Length: 13\r\n\r\n{\"version\":3}";

const PUBLISHED_THIRD: &str =
    "HTTP/1.1 200 OK\r\nContent-Type: application/json\r\nContent-Length: 44\r\n\r\n{\"frame\":\"a\",\"turn\":\"published\",\"version\":3}";

const DOCUMENT_SECOND: &str =
    "HTTP/1.1 200 OK\r\nContent-Type: application/ld+json\r\nLd-Version: 2\r\nContent-Length: 37\r\n\r\n{\"@id\":\"http://e/a\",\"http://e/p\":\"x\"}";

const DOCUMENT_THIRD: &str =
    "HTTP/1.1 200 OK\r\nContent-Type: application/ld+json\r\nLd-Version: 3\r\nContent-Length: 37\r\n\r\n{\"@id\":\"http://e/a\",\"http://e/p\":\"x\"}";

// A patch that changes nothing makes a version, and a turn publishes its document under it:
// idle-commits.
#[test]
fn a_patch_that_changes_nothing_makes_a_version(rt: HostRuntime) -> Result<(), Fail> {
    let alloc = rt.alloc();
    assert!(rt;
        are_answered(
            alloc,
            &[
                PATCH,
                PUT,
                TURN,
                PATCH_BACK,
                TURN,
                GET,
                PATCH_NOTHING,
                TURN,
                GET,
                TURN
            ],
            &[
                PATCHED,
                CREATED,
                PUBLISHED,
                PATCHED_AGAIN,
                PUBLISHED_SECOND,
                DOCUMENT_SECOND,
                PATCHED_THIRD,
                PUBLISHED_THIRD,
                DOCUMENT_THIRD,
                IDLE,
            ]
        )?
    );
    Ok(())
}

const PUT_OTHER: &str = "PUT /frames/b HTTP/1.1\r\nHost: x\r\nContent-Length: 2\r\n\r\n{}";

const PATCH_OTHER: &str =
    "POST /patch HTTP/1.1\r\nHost: x\r\nContent-Length: 31\r\n\r\n<http://e/b> <http://e/p> \"y\" .";

const OTHER_CREATED: &str =
    "HTTP/1.1 201 Created\r\nContent-Type: application/json\r\nContent-Length: 13\r\n\r\n{\"frame\":\"b\"}";

const OTHER_PUBLISHED: &str =
    "HTTP/1.1 200 OK\r\nContent-Type: application/json\r\nContent-Length: 44\r\n\r\n{\"frame\":\"b\",\"turn\":\"published\",\"version\":1}";

const OTHER_PUBLISHED_SECOND: &str =
    "HTTP/1.1 200 OK\r\nContent-Type: application/json\r\nContent-Length: 44\r\n\r\n{\"frame\":\"b\",\"turn\":\"published\",\"version\":2}";

// The frame of the oldest document comes first, and among equals that of the least name.
#[test]
fn turns_go_by_age_and_by_name(rt: HostRuntime) -> Result<(), Fail> {
    let alloc = rt.alloc();
    assert!(rt;
        are_answered(
            alloc,
            &[PATCH, PUT_OTHER, TURN, PUT, PATCH_OTHER, TURN, TURN, TURN],
            &[
                PATCHED,
                OTHER_CREATED,
                OTHER_PUBLISHED,
                CREATED,
                PATCHED_AGAIN,
                PUBLISHED_SECOND,
                OTHER_PUBLISHED_SECOND,
                IDLE,
            ]
        )?
    );
    Ok(())
}

#[test]
fn a_frame_has_utf8_and_a_length(rt: HostRuntime) -> Result<(), Fail> {
    let alloc = rt.alloc();
    let (status, sent) = session_of(
        alloc,
        b"PUT /frames/a HTTP/1.1\r\nHost: x\r\nContent-Length: 3\r\n\r\n\"\xff\"",
        &WELL,
    )?;
    assert_eq!(rt; status, 0);
    assert_eq!(rt;
        sent.as_str(),
        "HTTP/1.1 400 Bad Request\r\nContent-Type: application/json\r\nContent-Length: 20\r\n\r\n{\"error\":\"not JSON\"}"
    );
    let mut long = String::new(alloc);
    for _ in 0..65_535u32 {
        long.push(' ')?;
    }
    long.push_str("{}")?;
    let input = sending(alloc, "PUT /frames/a", long.as_str())?;
    let (status, sent) = session(alloc, input.as_str(), &WELL)?;
    assert_eq!(rt; status, 0);
    assert_eq!(rt;
        sent.as_str(),
        "HTTP/1.1 413 Content Too Large\r\nContent-Type: application/json\r\nContent-Length: 41\r\n\r\n{\"error\":\"frame too long\",\"length\":65537}"
    );
    Ok(())
}
