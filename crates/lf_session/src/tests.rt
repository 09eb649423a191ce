//! Bodies of replies, byte for byte.
use crate::bodies::{
    bad_line_body, error_body, frame_too_long_body, history_full_body, home_body, idle_body,
    limit_body, pending_body, published_body, superseded_body, too_many_body, version_body,
};
use crate::texts::{fractional_text, frame_text};
use def_patch_texts::LineKind;
use lf_base::Text;
use lf_model::{Counted, Limit};
use std::test::Fail;

#[test]
fn bodies_are_json_texts(rt: HostRuntime) -> Result<(), Fail> {
    let alloc = rt.alloc();
    assert_eq!(rt;
        error_body(b"bad name").as_slice(),
        b"{\"error\":\"bad name\"}".as_slice()
    );
    assert_eq!(rt; version_body(7).as_slice(), b"{\"version\":7}".as_slice());
    assert_eq!(rt;
        pending_body(None, 12).as_slice(),
        b"{\"have\":null,\"need\":12}".as_slice()
    );
    assert_eq!(rt;
        pending_body(Some(3), 12).as_slice(),
        b"{\"have\":3,\"need\":12}".as_slice()
    );
    assert_eq!(rt;
        frame_too_long_body(65_537).as_slice(),
        b"{\"error\":\"frame too long\",\"length\":65537}".as_slice()
    );
    assert_eq!(rt;
        bad_line_body(LineKind::RelativeIri, 3).as_slice(),
        b"{\"error\":\"relative IRI\",\"line\":3}".as_slice()
    );
    assert_eq!(rt;
        too_many_body(b"frames", 16, 17).as_slice(),
        b"{\"error\":\"too many frames\",\"have\":16,\"would\":17}".as_slice()
    );
    assert_eq!(rt;
        history_full_body(Counted::Bytes, 9, 10).as_slice(),
        b"{\"error\":\"history full\",\"have\":9,\"limit\":10,\"of\":\"bytes\"}".as_slice()
    );
    assert_eq!(rt;
        limit_body(Limit::Depth).as_slice(),
        b"{\"error\":\"document limit\",\"limit\":\"depth\",\"number\":256}".as_slice()
    );
    let Ok(named) = frame_text(alloc, "a") else {
        assert!(rt; false);
        return Ok(());
    };
    assert_eq!(rt; named.as_str(), "{\"frame\":\"a\"}");
    Ok(())
}

#[test]
fn a_turn_is_told(rt: HostRuntime) -> Result<(), Fail> {
    assert_eq!(rt; idle_body().as_slice(), b"{\"turn\":\"idle\"}".as_slice());
    assert_eq!(rt;
        published_body(b"a", 1).as_slice(),
        b"{\"frame\":\"a\",\"turn\":\"published\",\"version\":1}".as_slice()
    );
    assert_eq!(rt;
        home_body(b"a").as_slice(),
        b"{\"frame\":\"a\",\"turn\":\"home\"}".as_slice()
    );
    assert_eq!(rt;
        superseded_body(b"a", 1, Some(2)).as_slice(),
        b"{\"frame\":\"a\",\"now\":2,\"then\":1,\"turn\":\"superseded\"}".as_slice()
    );
    assert_eq!(rt;
        superseded_body(b"a", 1, None).as_slice(),
        b"{\"frame\":\"a\",\"now\":null,\"then\":1,\"turn\":\"superseded\"}".as_slice()
    );
    Ok(())
}

#[test]
fn the_path_of_a_number_is_escaped(rt: HostRuntime) -> Result<(), Fail> {
    let alloc = rt.alloc();
    let Ok(path) = Text::of(alloc, "/a\"b") else {
        assert!(rt; false);
        return Ok(());
    };
    let Ok(body) = fractional_text(alloc, &path) else {
        assert!(rt; false);
        return Ok(());
    };
    assert_eq!(rt;
        body.as_str(),
        "{\"error\":\"fractional number\",\"path\":\"/a\\\"b\"}"
    );
    Ok(())
}
