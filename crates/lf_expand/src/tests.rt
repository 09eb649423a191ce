//! The least frame, an empty map, and a value that is no map.
use crate::{FrameErr, expand_frame};
use lf_model::{Json, JsonMap, LdError};
use std::test::Fail;

#[test]
fn an_empty_map_is_a_frame_of_one_map(rt: HostRuntime) -> Result<(), Fail> {
    let alloc = rt.alloc();
    let json = Json::Map(JsonMap::new(alloc));
    match expand_frame(alloc, &json) {
        Ok(frame) => {
            let maps = frame.nodes.len();
            drop(frame);
            assert!(rt; maps == 1);
        }
        Err(_) => assert!(rt; false),
    }
    let refused = match expand_frame(alloc, &Json::Null) {
        Ok(frame) => {
            drop(frame);
            false
        }
        Err(FrameErr::Ld(error)) => error == LdError::InvalidFrame,
        Err(FrameErr::Memory) => false,
    };
    assert!(rt; refused);
    Ok(())
}
