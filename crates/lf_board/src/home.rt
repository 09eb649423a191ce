//! A board at home, as a state keeps it.
ghost use Rattle.std.specs.Prelude.{◌≡◌, IfOk, OnOk, OnErr, Some};
ghost use Rattle.std.specs.Arc.{arc_value};
ghost use Rattle.std.specs.Option.{option_map, option_copied};
ghost use Rattle.def_datasets.specs.Terms.{terms};
ghost use Rattle.lf_versions.specs.Commits.{dataset};
ghost use Rattle.lf_board.specs.Boards.{MayTurn, document, number, turned, unturned};

use crate::evaluated::{Evaluated, evaluate};
use lf_base::{Memory, Steps};
use lf_model::{Doc, Frame};
use lf_rdf::TermList;
use lf_versions::Version;
use std::alloc::Global;
use std::marker::Model;
use std::sync::Arc;
use std::sync::ledger::Ledger;

/// A board without the second handle of its document. Contracts see its frame, and the version that
/// it was turned to, if it was.
#[derive(Drop)]
pub struct HomeBoard {
    frame: Frame,
    /// What the frame came to over the version that it was turned to last.
    evaluated: Option<Evaluated>,
}

impl Model for HomeBoard {
    ghost use Rattle.std.specs.Coded.{codes};
    ghost use Rattle.lf_model.specs.contracts.json.Json as json;
    ghost use Rattle.lf_board.specs.Boards.{IsOfIfSome, Shown, version_of};

    ghost Value = { Shown };

    ghost coded = { Prim.hlevel (codes, json.the_row.coded) };

    ghost view = { λ b. record { frame = b.frame; version = version_of b.evaluated } };

    ghost invariant = { λ b. IsOfIfSome b.frame b.evaluated };
}

impl HomeBoard {
    /// The board of a frame that wasn't turned yet. It takes no memory.
    pub fn new(frame: Frame) -> HomeBoard
        ensures { result ≡ unturned frame }
    {
        HomeBoard {
            frame,
            evaluated: None,
        }
    }

    /// Its frame.
    pub fn frame(&self) -> &Frame
        ensures { result.now ≡ self.now.frame }
    {
        &self.frame
    }

    /// The number of its version.
    pub fn version(&self) -> Option<u64>
        ensures { result ≡ number self.now }
    {
        match &self.evaluated {
            Some(made) => Some(made.version.number()),
            None => None,
        }
    }

    /// Its document: that of its frame over its version's dataset, from scratch.
    #[tactic(auto, using(crate::proofs::Documents::doc_is, crate::proofs::Documents::no_doc))]
    pub fn doc(&self) -> Option<&Arc<Doc>>
        ensures { option_map arc_value (option_copied result) ≡ document self.now }
    {
        match &self.evaluated {
            Some(made) => Some(&made.doc),
            None => None,
        }
    }

    /// One handle more of its document.
    #[tactic(auto, using(crate::proofs::Documents::doc_is, crate::proofs::Documents::no_doc))]
    pub fn handle(&self) -> Result<Option<Arc<Doc>>, Memory>
        ensures { IfOk result (λ handle. option_map arc_value handle ≡ document self.now) }
    {
        match &self.evaluated {
            Some(made) => Ok(Some(Arc::try_clone(&made.doc)?)),
            None => Ok(None),
        }
    }

    /// Turns it to a version, and gives the terms that were evaluated and one handle more of its
    /// document. On `Memory` it is as it was.
    #[tactic(auto, using(crate::proofs::Documents::doc_is))]
    pub fn turn<L: Ledger>(
        &mut self,
        alloc: Global,
        to: &Version,
        steps: &mut Steps<L>,
    ) -> Result<(TermList, Arc<Doc>), Memory>
        requires begun { MayTurn self.old to.now }
        ensures turned { OnOk result (self.new ≡ turned self.old.frame to.now) }
        ensures kept { OnErr result (self.new ≡ self.old) }
        ensures evaluated { IfOk result (λ done. done.0 ≡ terms (dataset to.now)) }
        ensures handle { IfOk result (λ done. Some (arc_value done.1) ≡ document self.new) }
    {
        let all = to.index().terms(alloc)?;
        let made = evaluate(alloc, &self.frame, to, &all, steps)?;
        let handle = Arc::try_clone(&made.doc)?;
        self.evaluated = Some(made);
        Ok((all, handle))
    }
}
