//! A board from version to version: the documents of a worked row, by hand-made values of its
//! frame. Boards may move to another thread.
ghost use Rattle.std.specs.Prelude.{◌≡◌, ◌<◌, OnOk};
ghost use Rattle.def_histories.specs.Jobs.{IsPrefix};
ghost use Rattle.lf_versions.specs.Commits.{lines_of};
ghost use Rattle.lf_board.specs.Boards.{MayTurn, turned};

use crate::{Board, HomeBoard};
use lf_base::{Memory, Steps, Text};
use lf_model::{
    Doc, Embed, Frame, FrameKind, FrameNode, FrameNodeList, FrameProp, FramePropList,
    FrameReverseList, IdTest, Json, TermDefList, TermTable, TypeTest,
};
use lf_nquads::read_patch;
use lf_rdf::Patch;
use lf_versions::Version;
use std::alloc::Global;
use std::marker::Brand;
use std::sync::ledger::{Blank, Ledger};
use std::test::Fail;

// A map of a frame with these properties that states no more.
fn row(alloc: Global, props: FramePropList, kind: FrameKind) -> FrameNode {
    FrameNode {
        ids: IdTest::Absent,
        types: TypeTest::Absent,
        embed: Embed::Once,
        explicit: false,
        require_all: false,
        omit_default: None,
        props,
        reverse: FrameReverseList::new(alloc),
        graph: None,
        kind,
        fallback: None,
    }
}

// The frame `{"http://e/p":{}}`.
fn frame(alloc: Global) -> Result<Frame, Memory> {
    let mut props = FramePropList::new(alloc);
    props.push(FrameProp {
        property: Text::of(alloc, "http://e/p")?,
        frame: Some(1),
    })?;
    let mut nodes = FrameNodeList::new(alloc);
    nodes.push(row(alloc, props, FrameKind::Node))?;
    nodes.push(row(alloc, FramePropList::new(alloc), FrameKind::Wild))?;
    Ok(Frame {
        nodes,
        context: Json::Null,
        table: TermTable {
            vocab: None,
            language: None,
            terms: TermDefList::new(alloc),
            type_set: false,
        },
        top_graph: false,
    })
}

// The patch of a text.
fn patch(alloc: Global, text: &str) -> Result<Patch, Memory> {
    if text.len() > 67_108_864 {
        return Err(Memory);
    }
    match read_patch(alloc, text.as_bytes()) {
        Ok(patch) => Ok(patch),
        Err(_) => Err(Memory),
    }
}

const SHARED: &str =
    "<http://e/a> <http://e/p> _:x .\n<http://e/b> <http://e/p> _:x .\n_:x <http://e/q> \"1\" .\n";

const SHARED_DOCUMENT: &str =
    "{\"@graph\":[{\"@id\":\"http://e/a\",\"http://e/p\":{\"@id\":\"_:x\",\"http://e/q\":\"1\"}},{\"@id\":\"http://e/b\",\"http://e/p\":{\"@id\":\"_:x\",\"http://e/q\":\"1\"}}]}";

const ONE_LESS: &str = "- <http://e/b> <http://e/p> _:x .\n";

const PRUNED_DOCUMENT: &str = "{\"@id\":\"http://e/a\",\"http://e/p\":{\"http://e/q\":\"1\"}}";

// Whether the board's document has this text.
fn has_text(board: &Board, text: &str) -> bool {
    match board.doc() {
        Some(doc) => match &**doc {
            Doc::Bytes(bytes) => bytes.as_str() == text,
            Doc::Refused(_) => false,
            Doc::Over(_) => false,
        },
        None => false,
    }
}

// Turns a board to a version, and says whether it then has this document and evaluated so many
// terms.
fn turns_to<L: Ledger>(
    alloc: Global,
    board: &mut Board,
    to: &Version,
    text: &str,
    count: u64,
    steps: &mut Steps<L>,
) -> Result<bool, Memory>
    requires begun { MayTurn board.old to.now }
    ensures turned { OnOk result (board.new ≡ turned board.old.frame to.now) }
{
    let turn = board.turn(alloc, to, steps)?;
    let counted = turn.evaluated.len() == count;
    drop(turn);
    Ok(counted && has_text(board, text))
}

// Turns a board to two versions, the second after the first.
fn turn_twice<L: Ledger>(
    alloc: Global,
    board: &mut Board,
    one: &Version,
    two: &Version,
    steps: &mut Steps<L>,
) -> Result<bool, Memory>
    requires first { MayTurn board.old one.now }
    requires second { IsPrefix (lines_of one.now) (lines_of two.now) }
{
    let shared = turns_to(alloc, board, one, SHARED_DOCUMENT, 3, steps)?;
    let pruned = turns_to(alloc, board, two, PRUNED_DOCUMENT, 2, steps)?;
    Ok(shared && pruned)
}

// Whether a board at home that was turned to the second version wakes with the row's last document.
fn is_woken(home: HomeBoard) -> Result<bool, Memory> {
    match home.handle() {
        Ok(handle) => {
            let board = Board::wake(home, handle);
            let woken = board.version() == Some(2) && has_text(&board, PRUNED_DOCUMENT);
            drop(board);
            Ok(woken)
        }
        Err(Memory) => {
            drop(home);
            Err(Memory)
        }
    }
}

// A board of the row's frame that is turned to both versions.
fn turned_to_both<L: Ledger>(
    alloc: Global,
    one: &Version,
    two: &Version,
    steps: &mut Steps<L>,
) -> Result<bool, Memory>
    requires second { IsPrefix (lines_of one.now) (lines_of two.now) }
{
    let mut board = Board::new(frame(alloc)?);
    let held = turn_twice(alloc, &mut board, one, two, steps);
    let (home, handle) = board.rest();
    drop(handle);
    let woken = is_woken(home);
    Ok(held? && woken?)
}

// The second version behind the first.
fn of_second<L: Ledger>(
    alloc: Global,
    one: &Version,
    steps: &mut Steps<L>,
) -> Result<bool, Memory> {
    let patch = patch(alloc, ONE_LESS)?;
    match one.commit(alloc, 1, patch) {
        Ok(two) => {
            let held = turned_to_both(alloc, one, &two, steps);
            drop(two);
            held
        }
        Err(_) => Err(Memory),
    }
}

// The two versions of the row, and a board that is turned to each.
fn of_first<L: Ledger>(
    alloc: Global,
    none: &Version,
    steps: &mut Steps<L>,
) -> Result<bool, Memory> {
    let patch = patch(alloc, SHARED)?;
    match none.commit(alloc, 1, patch) {
        Ok(one) => {
            let held = of_second(alloc, &one, steps);
            drop(one);
            held
        }
        Err(_) => Err(Memory),
    }
}

// The same, with steps that are counted from nothing.
fn shared_blank<L: Ledger>(alloc: Global, none: &Version, blank: Blank) -> Result<bool, Memory>
    requires name { blank.name ≡ L.name }
    requires parts { blank.parts ≡ L.parts }
    requires one { 0 < blank.parts }
{
    let mut steps = Steps::<L>::of(blank);
    of_first(alloc, none, &mut steps)
}

#[test]
fn a_board_goes_from_version_to_version(rt: HostRuntime) -> Result<(), Fail> {
    let alloc = rt.alloc();
    let none = Version::first(alloc)?;
    let held = shared_blank::<Brand>(alloc, &none, Blank::new(1));
    drop(none);
    assert!(rt; held?);
    Ok(())
}

// What is of this type may move to another thread.
fn may_move<T: Send>(_: &T) {}

// Asks it of a board at work and at home.
fn moves(board: Board) {
    may_move(&board);
    let (home, handle) = board.rest();
    drop(handle);
    may_move(&home);
    drop(home);
}

#[test]
fn boards_may_move_between_threads(rt: HostRuntime) -> Result<(), Fail> {
    let alloc = rt.alloc();
    moves(Board::new(frame(alloc)?));
    assert!(rt; true);
    Ok(())
}
