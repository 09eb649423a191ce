//! Older versions stay, ranges end below their end, and versions move between threads.
use crate::{PMap, Pairs, Range};
use lf_base::Memory;
use std::alloc::Global;
use std::test::Fail;

// The even numbers below 2,000, each with its half.
fn evens(alloc: Global) -> Result<PMap<u32, u32>, Memory> {
    let mut map = PMap::<u32, u32>::new(alloc);
    for half in 0u32..1000 {
        // 7 and 1,000 have no common factor, so each half comes once and none in order.
        let mixed = half.wrapping_mul(7) % 1000;
        map = map.insert(alloc, mixed.wrapping_mul(2), mixed)?;
    }
    Ok(map)
}

fn count(pairs: Pairs<'_, u32, u32>) -> u32 {
    let mut count = 0u32;
    for _ in pairs {
        count = count.saturating_add(1);
    }
    count
}

fn count_below(range: Range<'_, u32, u32>) -> u32 {
    let mut count = 0u32;
    for _ in range {
        count = count.saturating_add(1);
    }
    count
}

// How many pairs there are from a key on, and their first key.
fn tail(map: &PMap<u32, u32>, low: u32) -> (u32, Option<u32>) {
    (
        count(map.from(&low)),
        map.from(&low).next().map(|pair| pair.0),
    )
}

#[test]
fn versions_stay(rt: HostRuntime) -> Result<(), Fail> {
    let alloc = rt.alloc();
    let kept = evens(alloc)?;
    let mut newest = kept.share(alloc)?;
    for key in 0u32..1500 {
        newest = newest.remove(alloc, &key)?;
    }
    newest = newest.insert(alloc, 1501, 7)?.insert(alloc, 1502, 8)?;
    for (low, count, first) in [
        (0u32, 251u32, Some(1500u32)),
        (1501, 250, Some(1501)),
        (1503, 248, Some(1504)),
        (1999, 0, None),
    ] {
        assert_eq!(rt; tail(&newest, low), (count, first));
    }
    assert_eq!(rt; newest.get(&1502).copied(), Some(8));
    assert_eq!(rt; newest.get(&1400).copied(), None);
    assert_eq!(rt; kept.get(&1502).copied(), Some(751));
    assert_eq!(rt; kept.get(&1501).copied(), None);
    assert_eq!(rt; tail(&kept, 0), (1000, Some(0)));
    Ok(())
}

#[test]
fn ranges_end_below(rt: HostRuntime) -> Result<(), Fail> {
    let alloc = rt.alloc();
    let map = evens(alloc)?;
    for (low, high, count) in [
        (0u32, 2000u32, 1000u32),
        (47, 49, 1),
        (1001, 1004, 1),
        (10, 10, 0),
        (1998, 9000, 1),
    ] {
        assert_eq!(rt; count_below(map.range(&low, &high)), count);
    }
    assert_eq!(rt; count(map.iter()), 1000);
    assert!(rt; !map.is_empty() && PMap::<u32, u32>::new(alloc).is_empty());
    Ok(())
}

// A map that is built at once.
fn built(alloc: Global) -> Result<PMap<u32, u32>, Memory> {
    let mut pairs = Vec::new(alloc);
    pairs.push((3u32, 30u32))?;
    pairs.push((5, 50))?;
    PMap::from_sorted(alloc, pairs)
}

fn may_move<T: Send + Sync>(_: &T) {}

#[test]
fn versions_move_between_threads(rt: HostRuntime) -> Result<(), Fail> {
    let map = built(rt.alloc())?;
    may_move(&map);
    assert_eq!(rt; map.get(&5).copied(), Some(50));
    Ok(())
}
