//! Texts that are frames, and texts that are none, each with its reason.
use crate::{FrameTextErr, read_frame};
use std::alloc::Global;
use std::test::Fail;

// Whether a text comes to this, in words.
fn comes_to(alloc: Global, text: &[u8], words: &str) -> bool {
    match read_frame(alloc, text) {
        Ok(frame) => {
            drop(frame);
            words == "a frame"
        }
        Err(FrameTextErr::NotJson) => words == "not JSON",
        Err(FrameTextErr::Fractional { path }) => words == path.as_str(),
        Err(FrameTextErr::Ld(error)) => words == error.name(),
        Err(FrameTextErr::Memory) => false,
    }
}

#[test]
fn texts_are_frames_or_told_why_not(rt: HostRuntime) -> Result<(), Fail> {
    let alloc = rt.alloc();
    assert!(rt; comes_to(alloc, b"{\"@context\":{\"@version\":1.1}}", "a frame"));
    assert!(rt; comes_to(alloc, b"{", "not JSON"));
    assert!(rt; comes_to(alloc, b"\"\xff\"", "not JSON"));
    assert!(rt; comes_to(alloc, b"{\"http://e/p\":2.5}", "/http:~1~1e~1p"));
    assert!(rt; comes_to(alloc, b"{\"@embed\":\"@link\"}", "invalid @embed value"));
    Ok(())
}
