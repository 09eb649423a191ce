//! A desk of one state: commits, registrations, retirements and looks, and each limit.
use crate::{CoreDesk, State};
use def_histories::{Operation, OperationList};
use lf_base::{Memory, Text, TryCopy};
use lf_desk::{CommitErr, Desk, RegisterErr};
use lf_model::{Counted, Doc, FramedNow, LdError, Look};
use lf_rdf::{Patch, Quad, Signed, SignedList, Term, xsd_string};
use std::alloc::Global;
use std::test::Fail;

const ALL: &str = "{}";

const TYPED: &str = "{\"@type\":\"http://e/T\"}";

const DOCUMENT: &str = "{\"@id\":\"http://e/a\",\"http://e/p\":\"x\"}";

const NAMES: [&str; 16] = [
    "a", "b", "c", "d", "e", "f", "g", "h", "i", "j", "k", "l", "m", "n", "o", "p",
];

fn desk(alloc: Global) -> Result<CoreDesk, Memory> {
    Ok(CoreDesk::new(State::new(alloc)?, 1))
}

// `<http://e/a> <http://e/p> "x" .`, or the same of a blank node with a label.
fn quad(alloc: Global, blank: Option<&str>) -> Result<Quad, Memory> {
    let subject = match blank {
        Some(label) => Term::Blank(Text::of(alloc, label)?),
        None => Term::Iri(Text::of(alloc, "http://e/a")?),
    };
    Ok(Quad {
        subject,
        predicate: Term::Iri(Text::of(alloc, "http://e/p")?),
        object: Term::Literal {
            lexical: Text::of(alloc, "x")?,
            datatype: xsd_string(alloc)?,
            language: None,
        },
        graph: None,
    })
}

// A patch of a line for each sign, of one quad.
fn patch(alloc: Global, signs: &[bool], blank: Option<&str>, bytes: u64) -> Result<Patch, Memory> {
    let mut lines = SignedList::new(alloc);
    for add in signs {
        lines.push(Signed {
            add: *add,
            quad: quad(alloc, blank)?,
        })?;
    }
    Ok(Patch { lines, bytes })
}

fn is_bad_name(alloc: Global, desk: &mut CoreDesk, name: &str) -> bool {
    matches!(desk.register(alloc, name, ALL), Err(RegisterErr::BadName))
}

fn is_new(alloc: Global, desk: &mut CoreDesk, name: &str, text: &str) -> bool {
    matches!(desk.register(alloc, name, text), Ok(true))
}

fn is_document(now: &Option<FramedNow>, version: u64, text: &str) -> bool {
    match now {
        Some(now) => match &now.doc {
            Doc::Bytes(bytes) => now.version == version && bytes.as_str() == text,
            Doc::Refused(_) => false,
            Doc::Over(_) => false,
        },
        None => false,
    }
}

#[test]
fn first_session(rt: HostRuntime) -> Result<(), Fail> {
    let alloc = rt.alloc();
    let mut desk = desk(alloc)?;
    let line = patch(alloc, &[true], None, 32)?;
    assert!(rt; matches!(desk.commit(alloc, line), Ok(1)));
    assert!(rt; is_new(alloc, &mut desk, "a", ALL));
    let pending = desk.look(alloc, "a", 1)?;
    assert!(rt;
        matches!(
            pending,
            Look::Pending {
                have: None,
                need: 1
            }
        )
    );
    assert!(rt; is_document(&desk.frame_now(alloc, "a")?, 1, DOCUMENT));
    assert!(rt; desk.frame_now(alloc, "b")?.is_none());
    assert!(rt; matches!(desk.look(alloc, "b", 0)?, Look::Unknown));
    let state = desk.into_state();
    assert!(rt; state.newest().number() == 1);
    assert!(rt; state.frame_of("a").is_some());
    Ok(())
}

#[test]
fn idle_commits(rt: HostRuntime) -> Result<(), Fail> {
    let alloc = rt.alloc();
    let mut desk = desk(alloc)?;
    assert!(rt; desk.newest() == 0 && is_new(alloc, &mut desk, "a", ALL));
    let first = patch(alloc, &[true], None, 32)?;
    assert!(rt; matches!(desk.commit(alloc, first), Ok(1)));
    let put_back = patch(alloc, &[false, true], None, 68)?;
    assert!(rt; matches!(desk.commit(alloc, put_back), Ok(2)));
    assert!(rt; is_document(&desk.frame_now(alloc, "a")?, 2, DOCUMENT));
    let empty = patch(alloc, &[], None, 0)?;
    assert!(rt; matches!(desk.commit(alloc, empty), Ok(3)));
    assert!(rt; is_document(&desk.frame_now(alloc, "a")?, 3, DOCUMENT));
    let away = patch(alloc, &[false], None, 34)?;
    assert!(rt; matches!(desk.commit(alloc, away), Ok(4)) && desk.newest() == 4);
    assert!(rt; is_document(&desk.frame_now(alloc, "a")?, 4, ALL));
    Ok(())
}

#[test]
fn history_full(rt: HostRuntime) -> Result<(), Fail> {
    let alloc = rt.alloc();
    let mut desk = desk(alloc)?;
    for _ in 0..65_536 {
        let empty = patch(alloc, &[], None, 0)?;
        assert!(rt; desk.commit(alloc, empty).is_ok());
    }
    let one_more = patch(alloc, &[], None, 0)?;
    let refused = desk.commit(alloc, one_more);
    assert!(rt;
        matches!(
            refused,
            Err(CommitErr::HistoryFull {
                of: Counted::Commits,
                have: 65_536,
                limit: 65_536
            })
        )
    );
    assert!(rt; desk.newest() == 65_536);
    Ok(())
}

#[test]
fn long_texts_are_refused(rt: HostRuntime) -> Result<(), Fail> {
    let alloc = rt.alloc();
    let mut desk = desk(alloc)?;
    let longest = patch(alloc, &[true], Some("b"), 268_435_456)?;
    assert!(rt; matches!(desk.commit(alloc, longest), Ok(1)));
    let one_more = patch(alloc, &[false], None, 1)?;
    let refused = desk.commit(alloc, one_more);
    assert!(rt;
        matches!(
            refused,
            Err(CommitErr::HistoryFull {
                of: Counted::Bytes,
                have: 268_435_456,
                limit: 268_435_456
            })
        )
    );
    assert!(rt; desk.newest() == 1);
    Ok(())
}

#[test]
fn frames_come_and_go(rt: HostRuntime) -> Result<(), Fail> {
    let alloc = rt.alloc();
    let mut desk = desk(alloc)?;
    assert!(rt; is_new(alloc, &mut desk, "f", ALL));
    assert!(rt; is_new(alloc, &mut desk, "f", TYPED));
    assert!(rt; matches!(desk.register(alloc, "f", TYPED), Ok(false)));
    assert!(rt; desk.retire(alloc, "f")? && !desk.retire(alloc, "f")?);
    assert!(rt; matches!(desk.look(alloc, "f", 0)?, Look::Unknown));
    assert!(rt; desk.into_state().frame_of("f").is_none());
    Ok(())
}

#[test]
fn names_and_texts_are_refused(rt: HostRuntime) -> Result<(), Fail> {
    let alloc = rt.alloc();
    let mut desk = desk(alloc)?;
    assert!(rt; is_bad_name(alloc, &mut desk, "") && is_bad_name(alloc, &mut desk, "a b"));
    let long = "0123456789_ABCDEFGHIJKLMNOPQRSTUVWXYZ-abcdefghijklmnopqrstuvwxyz";
    assert!(rt; is_new(alloc, &mut desk, long, ALL) && is_new(alloc, &mut desk, "a", ALL));
    let longer = "0123456789_ABCDEFGHIJKLMNOPQRSTUVWXYZ-abcdefghijklmnopqrstuvwxyz0";
    assert!(rt; is_bad_name(alloc, &mut desk, longer));
    assert!(rt; matches!(desk.register(alloc, "f", "{"), Err(RegisterErr::NotJson)));
    let refused = desk.register(alloc, "f", "{\"@embed\":\"@link\"}");
    assert!(rt; matches!(refused, Err(RegisterErr::Ld(LdError::InvalidEmbedValue))));
    Ok(())
}

#[test]
fn too_many_frames(rt: HostRuntime) -> Result<(), Fail> {
    let alloc = rt.alloc();
    let mut desk = desk(alloc)?;
    for name in NAMES {
        assert!(rt; is_new(alloc, &mut desk, name, ALL));
    }
    let refused = desk.register(alloc, "q", ALL);
    assert!(rt;
        matches!(
            refused,
            Err(RegisterErr::TooManyFrames {
                have: 16,
                would: 17
            })
        )
    );
    assert!(rt; matches!(desk.register(alloc, "p", ALL), Ok(false)));
    assert!(rt; !desk.retire(alloc, "q")?);
    Ok(())
}

#[test]
fn operations_are_copied(rt: HostRuntime) -> Result<(), Fail> {
    let alloc = rt.alloc();
    let mut made = OperationList::new(alloc);
    made.push(Operation::Commit {
        seat: 1,
        patch: patch(alloc, &[true], None, 32)?,
    })?;
    made.push(Operation::Register {
        seat: 1,
        name: Text::of(alloc, "a")?,
        text: Text::of(alloc, ALL)?,
    })?;
    made.push(Operation::Publish {
        name: Text::of(alloc, "a")?,
        version: 1,
    })?;
    made.push(Operation::Retire {
        seat: 1,
        name: Text::of(alloc, "a")?,
    })?;
    assert!(rt; made.copy(alloc)?.len() == 4);
    Ok(())
}
