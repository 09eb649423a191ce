//! Heads and bodies in any pieces, each refusal and its cause, and reply heads.
ghost use Rattle.std.specs.Prelude.{◌<◌, IsTrue};
ghost use Rattle.lf_http.specs.Reply.{is_named};

use crate::{
    Allow, BodyErr, Buffers, Head, HeadErr, Method, ReplyHead, Target, read_body, read_head,
    reply_head,
};
use lf_base::Memory;
use lf_io::{Calls, MemorySource};
use std::alloc::Global;
use std::test::Fail;

const STREAM: &[u8] =
    b"\r\nPUT /frames/a?b HTTP/1.1\r\nHost: a\r\nContent-Length: 2\r\nConnection: x, Close \r\nLd-Seen: 7\r\nld-seen: 12\r\n\r\n{}GET /version HTTP/1.0\r\n\r\n";

const MESSAGE: &[u8] = b"PUT /frames/a HTTP/1.0\r\nContent-Length: 8\r\n\r\n12345678";

// The number of a call that isn't made.
const NO_CALL: u64 = 1_000_000;

const GET_ONLY: &[u8] =
    b"HTTP/1.1 405 Method Not Allowed\r\nContent-Type: application/json\r\nAllow: GET\r\nLd-Version: 3\r\nConnection: close\r\nContent-Length: 30\r\n\r\n";

const POST_ONLY: &[u8] =
    b"HTTP/1.1 405 Method Not Allowed\r\nContent-Type: application/json\r\nAllow: POST\r\nLd-Version: 3\r\nConnection: close\r\nContent-Length: 30\r\n\r\n";

const FRAME_METHODS: &[u8] =
    b"HTTP/1.1 405 Method Not Allowed\r\nContent-Type: application/json\r\nAllow: GET, PUT, DELETE\r\nLd-Version: 3\r\nConnection: close\r\nContent-Length: 30\r\n\r\n";

const DOCUMENT: &[u8] =
    b"HTTP/1.1 200 OK\r\nContent-Type: application/ld+json\r\nLd-Version: 18446744073709551615\r\nContent-Length: 0\r\n\r\n";

fn source_of(alloc: Global, bytes: &[u8], piece: usize) -> Result<MemorySource, Fail>
    requires { 0 < piece }
{
    Ok(MemorySource::new(bytes.to_vec(alloc)?, piece, Calls::new(Vec::new(alloc))))
}

#[test]
fn heads_and_bodies_come_in_any_pieces(rt: HostRuntime) -> Result<(), Fail> {
    let alloc = rt.alloc();
    for piece in [1usize, 7, 4096] {
        let mut source = source_of(alloc, STREAM, piece)?;
        let Ok(mut buffers) = Buffers::new(alloc) else {
            assert!(rt; false);
            return Ok(());
        };
        let put = Head {
            method: Method::Put,
            target: Target::FrameAt,
            length: 2,
            expects: false,
            plain: true,
            close: true,
            seen: Some(12),
            bad_seen: false,
            now: false,
            bad_refresh: false,
        };
        assert_eq!(rt; read_head(&mut source, &mut buffers), Ok(Some(put)));
        assert_eq!(rt; buffers.name(), "a?b");
        assert_eq!(rt; read_body(&mut source, &mut buffers, 2), Ok(()));
        assert_eq!(rt; buffers.body(), b"{}".as_slice());
        let get = Head {
            method: Method::Get,
            target: Target::VersionAt,
            length: 0,
            expects: false,
            plain: true,
            close: true,
            seen: None,
            bad_seen: false,
            now: false,
            bad_refresh: false,
        };
        assert_eq!(rt; read_head(&mut source, &mut buffers), Ok(Some(get)));
        assert_eq!(rt; read_head(&mut source, &mut buffers), Ok(None));
    }
    Ok(())
}

// What a plain request for a frame says.
const PLAIN: Head = Head {
    method: Method::Get,
    target: Target::FrameAt,
    length: 0,
    expects: false,
    plain: true,
    close: false,
    seen: None,
    bad_seen: false,
    now: false,
    bad_refresh: false,
};

// The answer for the head of these bytes in pieces of this length.
fn head_of(alloc: Global, bytes: &[u8], piece: usize) -> Result<Result<Option<Head>, HeadErr>, Fail>
    requires { 0 < piece }
{
    let mut source = source_of(alloc, bytes, piece)?;
    match Buffers::new(alloc) {
        Ok(mut buffers) => Ok(read_head(&mut source, &mut buffers)),
        Err(Memory) => Ok(Ok(None)),
    }
}

// Whether the bytes are this head in any pieces, and cut short wherever they are cut.
fn is_head(alloc: Global, bytes: &[u8], head: Head) -> Result<bool, Fail> {
    for piece in [1usize, 7, 4096] {
        if head_of(alloc, bytes, piece)? != Ok(Some(head)) {
            return Ok(false);
        }
    }
    for cut in 0..bytes.len() {
        let (front, _) = bytes.split_at(cut);
        let wanted = if cut == 0 {
            Ok(None)
        } else {
            Err(HeadErr::CutShort)
        };
        if head_of(alloc, front, 1)? != wanted || head_of(alloc, front, 7)? != wanted {
            return Ok(false);
        }
    }
    Ok(true)
}

#[test]
fn methods_and_targets_are_read_as_they_are_sent(rt: HostRuntime) -> Result<(), Fail> {
    let alloc = rt.alloc();
    for (bytes, method, target) in [
        (
            b"GET /frames/ HTTP/1.1\r\nHost: a\r\n\r\n".as_slice(),
            Method::Get,
            Target::FrameAt,
        ),
        (
            b"PUT /framesx HTTP/1.1\r\nhOsT:\r\nContent-length: 0\r\n\r\n".as_slice(),
            Method::Put,
            Target::NoTarget,
        ),
        (
            b"\r\n\nDELETE /frames/a/b HTTP/1.1\nHost: a\n\n".as_slice(),
            Method::Delete,
            Target::FrameAt,
        ),
        (
            b"POST /patch HTTP/1.1\r\nHost: a\r\nCONTENT-LENGTH: 0\r\n\r\n".as_slice(),
            Method::Post,
            Target::PatchAt,
        ),
        (
            b"POST /turn HTTP/1.1\r\nHost: a\r\n\r\n".as_slice(),
            Method::Post,
            Target::TurnAt,
        ),
        (
            b"POST /turns HTTP/1.1\r\nHost: a\r\n\r\n".as_slice(),
            Method::Post,
            Target::NoTarget,
        ),
        (
            b"HEAD /version HTTP/1.1\r\nHost: a\r\n\r\n".as_slice(),
            Method::HeadOnly,
            Target::VersionAt,
        ),
        (
            b"get /version?x HTTP/1.1\r\nHost: a\r\n\r\n".as_slice(),
            Method::OtherMethod,
            Target::NoTarget,
        ),
    ] {
        let head = Head {
            method,
            target,
            ..PLAIN
        };
        assert!(rt; is_head(alloc, bytes, head)?);
    }
    Ok(())
}

// A request for a frame with these header lines.
fn with_lines(alloc: Global, version: &[u8], lines: &[u8]) -> Result<Vec<u8>, Fail> {
    let mut head = b"GET /frames/a HTTP/".as_slice().to_vec(alloc)?;
    head.extend_from_slice(version)?;
    head.extend_from_slice(b"\r\n".as_slice())?;
    head.extend_from_slice(lines)?;
    head.extend_from_slice(b"\r\n".as_slice())?;
    Ok(head)
}

#[test]
fn header_lines_say_what_a_request_asks(rt: HostRuntime) -> Result<(), Fail> {
    let alloc = rt.alloc();
    let closes = Head {
        close: true,
        ..PLAIN
    };
    let encoded = Head {
        plain: false,
        ..PLAIN
    };
    for (lines, head) in [
        (b"Connection: keep-alive,\tCLOSE ,x\r\n".as_slice(), closes),
        (b"Connection: x\r\nConnection: close\r\n".as_slice(), closes),
        (b"Connection: closed, keep close\r\n".as_slice(), PLAIN),
        (
            b"Content-Encoding: \t identity \r\ncontent-encoding:identity\r\n".as_slice(),
            PLAIN,
        ),
        (b"Content-Encoding: Identity\r\n".as_slice(), encoded),
        (
            b"Content-Encoding: identity\r\nContent-Encoding: gzip\r\n".as_slice(),
            encoded,
        ),
        (
            b"Content-Length: 000000000067108864\r\n".as_slice(),
            Head {
                length: 67_108_864,
                ..PLAIN
            },
        ),
        (
            b"Ld-Seen: 7\r\nLD-SEEN: 999999999999999999\r\nLd-Seen: 8\r\n".as_slice(),
            Head {
                seen: Some(999_999_999_999_999_999),
                ..PLAIN
            },
        ),
        (
            b"Ld-Seen: 1000000000000000000\r\nLd-Seen: 012\r\nLd-Seen:\r\n".as_slice(),
            Head {
                seen: Some(12),
                bad_seen: true,
                ..PLAIN
            },
        ),
        (
            b"Ld-Seen: -1\r\n".as_slice(),
            Head {
                bad_seen: true,
                ..PLAIN
            },
        ),
        (
            b"Ld-Refresh: now\r\n".as_slice(),
            Head { now: true, ..PLAIN },
        ),
        (
            b"Ld-Refresh: Now\r\n".as_slice(),
            Head {
                bad_refresh: true,
                ..PLAIN
            },
        ),
        (
            b"Ld-Refresh: later\r\nld-refresh: now\r\n".as_slice(),
            Head {
                now: true,
                bad_refresh: true,
                ..PLAIN
            },
        ),
    ] {
        let mut hosted = lines.to_vec(alloc)?;
        hosted.extend_from_slice(b"Host: a\r\n".as_slice())?;
        let newer = with_lines(alloc, b"1.1", &hosted)?;
        assert!(rt; is_head(alloc, &newer, head)?);
        let older = with_lines(alloc, b"1.0", lines)?;
        let last = Head {
            close: true,
            ..head
        };
        assert!(rt; is_head(alloc, &older, last)?);
    }
    Ok(())
}

#[test]
fn heads_are_refused_for_their_first_cause(rt: HostRuntime) -> Result<(), Fail> {
    let alloc = rt.alloc();
    for (bytes, cause) in [
        (
            b"GET /version HTTP/1.1\r\n\r\n".as_slice(),
            HeadErr::BadHead,
        ),
        (
            b"GET /version HTTP/1.1\r\nHost: a\r\nhost: a\r\n\r\n".as_slice(),
            HeadErr::BadHead,
        ),
        (
            b"PUT / HTTP/1.0\r\nContent-Length: 1\r\nContent-Length: 1\r\n\r\n".as_slice(),
            HeadErr::BadHead,
        ),
        (
            b"PUT /frames/a HTTP/1.0\r\nContent-Length: +1\r\n\r\n".as_slice(),
            HeadErr::BadHead,
        ),
        (
            b"PUT /frames/a HTTP/1.0\r\nContent-Length:\r\n\r\n".as_slice(),
            HeadErr::BadHead,
        ),
        (
            b"PUT / HTTP/1.0\r\nContent-Length: 0000000000000000001\r\n\r\n".as_slice(),
            HeadErr::BadHead,
        ),
        (
            b"GET / HTTP/1.1\r\nTransfer-Encoding: chunked\r\n\r\n".as_slice(),
            HeadErr::BadHead,
        ),
        (b"\0".as_slice(), HeadErr::BadHead),
        (b"GET / HTTP/1.2\r\n\r\n".as_slice(), HeadErr::BadHead),
        (
            b"PUT /frames/a HTTP/1.0\r\n\r\n".as_slice(),
            HeadErr::LengthNeeded,
        ),
        (
            b"POST /patch HTTP/1.0\r\n\r\n".as_slice(),
            HeadErr::LengthNeeded,
        ),
        (
            b"GET / HTTP/1.0\r\nTransfer-Encoding: x\r\nContent-Length: 67108865\r\n\r\n".as_slice(),
            HeadErr::LengthNeeded,
        ),
        (
            b"GET / HTTP/1.0\r\nContent-Length: 67108865\r\nExpect: x\r\n\r\n".as_slice(),
            HeadErr::BodyTooLong,
        ),
        (
            b"GET / HTTP/1.0\r\nExpect: 100-continue\r\n\r\n".as_slice(),
            HeadErr::Expectation,
        ),
        (b"GET / HTTP/1.0\r\n".as_slice(), HeadErr::CutShort),
    ] {
        for piece in [1usize, 7, 4096] {
            assert_eq!(rt; head_of(alloc, bytes, piece)?, Err(cause));
        }
    }
    Ok(())
}

// What reading one message answers.
#[derive(Clone, Copy, Debug, PartialEq, Eq)]
enum Answer {
    Whole,
    NoMessage,
    Head(HeadErr),
    Body(BodyErr),
}

fn read_message(source: &mut MemorySource, buffers: &mut Buffers) -> Answer {
    match read_head(source, buffers) {
        Ok(Some(head)) => match read_body(source, buffers, head.length) {
            Ok(()) => Answer::Whole,
            Err(e) => Answer::Body(e),
        },
        Ok(None) => Answer::NoMessage,
        Err(e) => Answer::Head(e),
    }
}

// The answer for these bytes in pieces of this length, where one call of the source fails.
fn message_of(alloc: Global, bytes: &[u8], piece: usize, call: u64) -> Result<Answer, Fail>
    requires { 0 < piece }
{
    let mut failing = Vec::new(alloc);
    failing.push(call)?;
    let mut source = MemorySource::new(bytes.to_vec(alloc)?, piece, Calls::new(failing));
    match Buffers::new(alloc) {
        Ok(mut buffers) => Ok(read_message(&mut source, &mut buffers)),
        Err(Memory) => Ok(Answer::Body(BodyErr::Memory)),
    }
}

#[test]
fn a_failed_read_is_answered_where_it_comes(rt: HostRuntime) -> Result<(), Fail> {
    let alloc = rt.alloc();
    for (call, wanted) in [
        (0u64, Answer::Head(HeadErr::ReadFault)),
        (1, Answer::Head(HeadErr::ReadFault)),
        (2, Answer::Head(HeadErr::ReadFault)),
        (3, Answer::Body(BodyErr::ReadFault)),
        (4, Answer::Whole),
    ] {
        assert_eq!(rt; message_of(alloc, MESSAGE, 16, call)?, wanted);
    }
    Ok(())
}

const BAD: &[u8] = b"GET /version HTTP/1.1\r\nBad Header: x\r\n";

// The call that would read on fails, and isn't made where no head continues the bytes.
#[test]
fn a_bad_head_is_refused_at_its_piece(rt: HostRuntime) -> Result<(), Fail> {
    let alloc = rt.alloc();
    for (piece, call, wanted) in [
        (23usize, 1u64, HeadErr::ReadFault),
        (23, 2, HeadErr::BadHead),
        (1, 26, HeadErr::ReadFault),
        (1, 27, HeadErr::BadHead),
    ] {
        assert_eq!(rt; message_of(alloc, BAD, piece, call)?, Answer::Head(wanted));
    }
    Ok(())
}

#[test]
fn a_message_cut_at_each_byte_is_cut_short(rt: HostRuntime) -> Result<(), Fail> {
    let alloc = rt.alloc();
    for cut in 0..MESSAGE.len() {
        let wanted = if cut == 0 {
            Answer::NoMessage
        } else if cut < 45 {
            Answer::Head(HeadErr::CutShort)
        } else {
            Answer::Body(BodyErr::CutShort)
        };
        let (front, _) = MESSAGE.split_at(cut);
        assert_eq!(rt; message_of(alloc, front, 1, NO_CALL)?, wanted);
        assert_eq!(rt; message_of(alloc, front, 7, NO_CALL)?, wanted);
    }
    Ok(())
}

// A head of 30 more bytes.
fn long_head(alloc: Global, more: usize) -> Result<Vec<u8>, Fail> {
    let mut head = b"GET /version HTTP/1.0\r\nA: ".as_slice().to_vec(alloc)?;
    for _ in 0..more {
        head.push(b'x')?;
    }
    head.extend_from_slice(b"\r\n\r\n".as_slice())?;
    Ok(head)
}

// The first bytes of a head that has no end.
fn open_head(alloc: Global, count: usize) -> Result<Vec<u8>, Fail> {
    let mut head = long_head(alloc, count)?;
    head.truncate(count);
    Ok(head)
}

fn head_of_lines(alloc: Global, count: usize) -> Result<Vec<u8>, Fail> {
    let mut head = b"GET /version HTTP/1.0\r\n".as_slice().to_vec(alloc)?;
    for _ in 0..count {
        head.extend_from_slice(b"A: b\r\n".as_slice())?;
    }
    head.extend_from_slice(b"\r\n".as_slice())?;
    Ok(head)
}

#[test]
fn heads_at_the_limits_are_read(rt: HostRuntime) -> Result<(), Fail> {
    let alloc = rt.alloc();
    for (head, wanted) in [
        (long_head(alloc, 16_354)?, Answer::Whole),
        (long_head(alloc, 16_355)?, Answer::Head(HeadErr::TooLarge)),
        (head_of_lines(alloc, 64)?, Answer::Whole),
        (head_of_lines(alloc, 65)?, Answer::Head(HeadErr::TooLarge)),
        (open_head(alloc, 16_383)?, Answer::Head(HeadErr::CutShort)),
        (open_head(alloc, 16_384)?, Answer::Head(HeadErr::TooLarge)),
    ] {
        assert_eq!(rt; message_of(alloc, &head, 1, NO_CALL)?, wanted);
        assert_eq!(rt; message_of(alloc, &head, 7, NO_CALL)?, wanted);
        assert_eq!(rt; message_of(alloc, &head, 4096, NO_CALL)?, wanted);
    }
    Ok(())
}

// Whether the plain reply of this status is this line and then what all of them have.
fn begins(buffers: &mut Buffers, status: u16, line: &[u8]) -> bool
    requires { IsTrue (is_named status) }
{
    let reply = ReplyHead {
        status,
        ld_json: false,
        allow: Allow::NoAllow,
        version: None,
        close: false,
        length: 7,
    };
    reply_head(buffers, &reply);
    match buffers.reply().strip_prefix(line) {
        Some(rest) => {
            rest == b"\r\nContent-Type: application/json\r\nContent-Length: 7\r\n\r\n".as_slice()
        }
        None => false,
    }
}

#[test]
#[tactic(auto, unfolding(crate::specs::Reply::reason))]
fn each_status_has_its_reason(rt: HostRuntime) -> Result<(), Fail> {
    let Ok(mut buffers) = Buffers::new(rt.alloc()) else {
        assert!(rt; false);
        return Ok(());
    };
    let b = &mut buffers;
    assert!(rt; begins(b, 200, b"HTTP/1.1 200 OK"));
    assert!(rt; begins(b, 201, b"HTTP/1.1 201 Created"));
    assert!(rt; begins(b, 202, b"HTTP/1.1 202 Accepted"));
    assert!(rt; begins(b, 400, b"HTTP/1.1 400 Bad Request"));
    assert!(rt; begins(b, 404, b"HTTP/1.1 404 Not Found"));
    assert!(rt; begins(b, 405, b"HTTP/1.1 405 Method Not Allowed"));
    assert!(rt; begins(b, 411, b"HTTP/1.1 411 Length Required"));
    assert!(rt; begins(b, 413, b"HTTP/1.1 413 Content Too Large"));
    assert!(rt; begins(b, 415, b"HTTP/1.1 415 Unsupported Media Type"));
    assert!(rt; begins(b, 417, b"HTTP/1.1 417 Expectation Failed"));
    assert!(rt; begins(b, 422, b"HTTP/1.1 422 Unprocessable Content"));
    assert!(rt; begins(b, 431, b"HTTP/1.1 431 Request Header Fields Too Large"));
    assert!(rt; begins(b, 503, b"HTTP/1.1 503 Service Unavailable"));
    assert!(rt; begins(b, 507, b"HTTP/1.1 507 Insufficient Storage"));
    Ok(())
}

#[test]
#[tactic(auto, unfolding(crate::specs::Reply::reason))]
fn reply_heads_have_their_lines_in_order(rt: HostRuntime) -> Result<(), Fail> {
    let Ok(mut buffers) = Buffers::new(rt.alloc()) else {
        assert!(rt; false);
        return Ok(());
    };
    for (allow, text) in [
        (Allow::Get, GET_ONLY),
        (Allow::Post, POST_ONLY),
        (Allow::GetPutDelete, FRAME_METHODS),
    ] {
        let reply = ReplyHead {
            status: 405,
            ld_json: false,
            allow,
            version: Some(3),
            close: true,
            length: 30,
        };
        reply_head(&mut buffers, &reply);
        assert_eq!(rt; buffers.reply(), text);
    }
    let reply = ReplyHead {
        status: 200,
        ld_json: true,
        allow: Allow::NoAllow,
        version: Some(u64::MAX),
        close: false,
        length: 0,
    };
    reply_head(&mut buffers, &reply);
    assert_eq!(rt; buffers.reply(), DOCUMENT);
    Ok(())
}
