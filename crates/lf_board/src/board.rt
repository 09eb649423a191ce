//! A board that is worked on: it brings its frame's document from version to version.
ghost use Rattle.std.specs.Prelude.{◌≡◌, IfOk, OnOk, OnErr};
ghost use Rattle.std.specs.Arc.{arc_value};
ghost use Rattle.std.specs.Option.{option_map, option_copied};
ghost use Rattle.def_datasets.specs.Terms.{terms};
ghost use Rattle.lf_versions.specs.Commits.{dataset};
ghost use Rattle.lf_board.specs.Boards.{MayTurn, document, number, turned, unturned};

use crate::home::HomeBoard;
use lf_base::{Memory, Steps};
use lf_model::{Doc, Frame};
use lf_rdf::TermList;
use lf_versions::Version;
use std::alloc::Global;
use std::marker::Model;
use std::sync::Arc;
use std::sync::ledger::Ledger;

/// The working record of one frame. Contracts see the frame, and the version that it was turned to,
/// if it was. By its type it has one outcome for each term of that version's dataset, and the
/// frame's document over it, from scratch.
///
/// It has two handles of the document, so that who keeps it may publish the document without taking
/// memory.
#[derive(Drop)]
pub struct Board {
    home: HomeBoard,
    /// The second handle of its document.
    handle: Option<Arc<Doc>>,
}

impl Model for Board {
    ghost use Rattle.std.specs.Prelude.{◌≡◌};
    ghost use Rattle.std.specs.Arc.{arc_value};
    ghost use Rattle.std.specs.Option.{option_map};
    ghost use Rattle.std.specs.Coded.{codes};
    ghost use Rattle.lf_model.specs.contracts.json.Json as json;
    ghost use Rattle.lf_board.specs.Boards.{Shown, document};

    ghost Value = { Shown };

    ghost coded = { Prim.hlevel (codes, json.the_row.coded) };

    ghost view = { λ b. b.home };

    ghost invariant = { λ b. option_map arc_value b.handle ≡ document b.home };
}

/// What a turn did.
#[derive(Debug, Drop)]
pub struct Turn {
    /// The terms of the version that were evaluated, in order of the ids.
    pub evaluated: TermList,
    /// How many terms of the version were carried from the older one.
    pub carried: u64,
}

impl Board {
    /// The board of a frame that wasn't turned yet. It takes no memory.
    pub fn new(frame: Frame) -> Board
        ensures { result ≡ unturned frame }
    {
        Board {
            home: HomeBoard::new(frame),
            handle: None,
        }
    }

    /// Turns it to a version, which its own commits begin. Then it has the frame's document over
    /// that version. On `Memory` it is as it was. So far each term is evaluated and none is
    /// carried.
    pub fn turn<L: Ledger>(
        &mut self,
        alloc: Global,
        to: &Version,
        steps: &mut Steps<L>,
    ) -> Result<Turn, Memory>
        requires begun { MayTurn self.old to.now }
        ensures turned { OnOk result (self.new ≡ turned self.old.frame to.now) }
        ensures kept { OnErr result (self.new ≡ self.old) }
        ensures evaluated { IfOk result (λ turn. turn.evaluated ≡ terms (dataset to.now)) }
        ensures carried { IfOk result (λ turn. turn.carried ≡ 0) }
    {
        let (evaluated, handle) = self.home.turn(alloc, to, steps)?;
        self.handle = Some(handle);
        Ok(Turn {
            evaluated,
            carried: 0,
        })
    }

    /// The number of its version.
    pub fn version(&self) -> Option<u64>
        ensures { result ≡ number self.now }
    {
        self.home.version()
    }

    /// Its document: that of its frame over its version's dataset, from scratch.
    pub fn doc(&self) -> Option<&Arc<Doc>>
        ensures { option_map arc_value (option_copied result) ≡ document self.now }
    {
        self.home.doc()
    }

    /// Its frame.
    pub fn frame(&self) -> &Frame
        ensures { result.now ≡ self.now.frame }
    {
        self.home.frame()
    }

    /// The board as it stays at home, and the second handle of its document. It takes no memory.
    pub fn rest(self) -> (HomeBoard, Option<Arc<Doc>>)
        ensures board { result.0 ≡ self }
        ensures handle { option_map arc_value result.1 ≡ document self }
    {
        let Board { home, handle } = self;
        (home, handle)
    }

    /// A board at home with one handle more of its document. It takes no memory.
    pub fn wake(home: HomeBoard, handle: Option<Arc<Doc>>) -> Board
        requires handle { option_map arc_value handle ≡ document home }
        ensures { result ≡ home }
    {
        Board { home, handle }
    }
}
