//! Versions that are kept, commits that change nothing, what changed between two versions, and a
//! full history.
ghost use Rattle.def_histories.specs.Jobs.{IsPrefix};
ghost use Rattle.lf_versions.specs.Commits.{lines_of};

use crate::{Version, VersionErr};
use lf_base::Memory;
use lf_nquads::read_patch;
use lf_rdf::{Patch, SignedList};
use std::alloc::Global;
use std::test::Fail;

// The patch of a text.
fn patch(alloc: Global, text: &str) -> Result<Patch, Memory> {
    if text.len() > 67_108_864 {
        return Err(Memory);
    }
    match read_patch(alloc, text.as_bytes()) {
        Ok(patch) => Ok(patch),
        Err(_) => Err(Memory),
    }
}

// The version after the patch of a text.
fn after(alloc: Global, version: &Version, text: &str) -> Result<Version, Memory> {
    match version.commit(alloc, 1, patch(alloc, text)?) {
        Ok(next) => Ok(next),
        Err(_) => Err(Memory),
    }
}

// How many quads differ from those of an older version, and how many there are.
fn sizes(alloc: Global, next: &Version, older: &Version) -> Result<(u64, u64), Memory>
    requires { IsPrefix (lines_of older.now) (lines_of next.now) }
{
    let delta = next.delta_since(alloc, older)?;
    Ok((delta.len(), next.index().len()))
}

// The same of the version after a text.
fn changed(alloc: Global, version: &Version, text: &str) -> Result<(u64, u64), Memory> {
    let patch = patch(alloc, text)?;
    match version.commit(alloc, 1, patch) {
        Ok(next) => {
            let told = sizes(alloc, &next, version);
            drop(next);
            told
        }
        Err(_) => Err(Memory),
    }
}

const STATEMENT: &str = "<http://e/a> <http://e/p> \"x\" .\n";

const AGAIN: &str = "- <http://e/a> <http://e/p> \"x\" .\n+ <http://e/a> <http://e/p> \"x\" .\n";

const GONE: &str = "- <http://e/a> <http://e/p> \"x\" .\n";

const MORE: &str = "<http://e/b> <http://e/p> \"x\" .\n<http://e/b> <http://e/p> \"x\" .\n";

// What patches on one quad change.
fn all_change(alloc: Global, one: &Version) -> Result<bool, Memory> {
    Ok(
        one.number() == 1
            && changed(alloc, one, AGAIN)? == (0, 1)
            && changed(alloc, one, "")? == (0, 1)
            && changed(alloc, one, GONE)? == (1, 0)
            && changed(alloc, one, MORE)? == (1, 2),
    )
}

#[test]
fn versions_are_kept(rt: HostRuntime) -> Result<(), Fail> {
    let alloc = rt.alloc();
    let none = Version::first(alloc)?;
    let one = after(alloc, &none, STATEMENT);
    assert_eq!(rt; none.number(), 0);
    drop(none);
    match one {
        Ok(one) => {
            let held = all_change(alloc, &one);
            drop(one);
            assert!(rt; held?);
            Ok(())
        }
        Err(refused) => Err(Fail::from(refused)),
    }
}

// Commits patches without lines until a commit is refused.
fn fill(alloc: Global, first: Version) -> Result<Version, VersionErr> {
    let mut last = first;
    for _ in 0..65_536 {
        let nothing = Patch {
            lines: SignedList::new(alloc),
            bytes: 0,
        };
        last = last.commit(alloc, 1, nothing)?;
    }
    Ok(last)
}

fn may_move<T: Send + Sync>(_: &T) {}

#[test]
fn a_history_is_full(rt: HostRuntime) -> Result<(), Fail> {
    let alloc = rt.alloc();
    let first = Version::first(alloc)?;
    may_move(&first);
    match fill(alloc, first) {
        Ok(full) => {
            assert_eq!(rt; full.number(), 65_536);
            let refused = after(alloc, &full, STATEMENT).is_err();
            drop(full);
            assert!(rt; refused);
            Ok(())
        }
        Err(_) => Err(Fail::from(Memory)),
    }
}
