//! A map that is filled out of order.
use crate::MapOf;
use lf_base::{Text, TryCopy};
use std::test::Fail;

#[test]
fn the_last_value_stands_in_key_order(rt: HostRuntime) -> Result<(), Fail> {
    let alloc = rt.alloc();
    let mut map = MapOf::<u64>::new(alloc);
    assert!(rt; map.is_empty());
    for (key, value) in [("b", 1), ("@id", 2), ("é", 3), ("b", 4), ("a", 5)] {
        map.put(Text::of(alloc, key)?, value)?;
    }
    let copied = map.copy(alloc)?;
    assert_eq!(rt; copied.len(), 4);
    for (place, (key, value)) in [("@id", 2u64), ("a", 5), ("b", 4), ("é", 3)]
        .iter()
        .enumerate()
    {
        assert!(rt;
            match copied.at(place as u64) {
                Some(entry) => entry.key.as_str() == *key && entry.value == *value,
                None => false,
            }
        );
        assert_eq!(rt; map.get(*key).copied(), Some(*value));
    }
    assert!(rt; copied.at(4).is_none() && map.get("c").is_none());
    assert_eq!(rt; map.as_slice().len(), 4);
    Ok(())
}
