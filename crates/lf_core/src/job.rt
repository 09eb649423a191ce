//! Jobs: a board that was taken to be brought to a version.
ghost use Rattle.std.specs.Prelude.{◌≡◌, OnErr, OnOk};
ghost use Rattle.lf_board.specs.Boards.{MayTurn, number};
ghost use Rattle.lf_core.specs.Taken.{turned_job};

use lf_base::{Memory, Steps, Text};
use lf_board::Board;
use lf_versions::Version;
use std::alloc::Global;
use std::marker::Model;
use std::sync::ledger::Ledger;

/// A board that is away, and the version that it is to reach. Contracts see the frame's name, its
/// text number, the board and that version.
#[derive(Drop)]
pub struct Job {
    /// The name of the frame that the board is of.
    pub(crate) frame: Text,
    /// One handle more of the name, for the entry of a publication.
    pub(crate) name: Text,
    /// The number of the frame's text among all registrations, counted from 1.
    pub(crate) text_number: u64,
    pub(crate) board: Board,
    /// The version that the board is to reach: the newest when it was taken.
    pub(crate) to: Version,
}

impl Model for Job {
    ghost use Rattle.std.specs.Coded.{codes};
    ghost use Rattle.lf_model.specs.contracts.json.Json as json;
    ghost use Rattle.std.specs.Prelude.{◌≡◌};
    ghost use Rattle.lf_core.specs.Taken.{Taken};

    ghost Value = { Taken };

    ghost coded = { Prim.hlevel (codes, json.the_row.coded) };

    ghost view = { λ j. record {
      name = j.frame;
      number = j.text_number;
      board = j.board;
      target = j.to;
    } };

    ghost invariant = { λ j. j.name ≡ j.frame };
}

impl Job {
    /// The frame's name.
    pub fn frame(&self) -> &Text
        ensures { result.now ≡ self.now.name }
    {
        &self.frame
    }

    /// The number of the frame's text.
    pub fn text_number(&self) -> u64
        ensures { result ≡ self.now.number }
    {
        self.text_number
    }

    /// The number of the board's version.
    pub fn version(&self) -> Option<u64>
        ensures { result ≡ number self.now.board }
    {
        self.board.version()
    }

    /// The version that the board is to reach.
    pub fn to(&self) -> &Version
        ensures { result.now ≡ self.now.target }
    {
        &self.to
    }

    /// Turns the board to the version that it is to reach. On `Memory` the job is as it was.
    pub fn work<L: Ledger>(&mut self, alloc: Global, steps: &mut Steps<L>) -> Result<(), Memory>
        requires begun { MayTurn self.old.board self.old.target }
        ensures worked { OnOk result (self.new ≡ turned_job self.old) }
        ensures kept { OnErr result (self.new ≡ self.old) }
    {
        let _turn = self.board.turn(alloc, &self.to, steps)?;
        Ok(())
    }
}
