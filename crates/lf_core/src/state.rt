//! The state: one history and what replaying it gives. A session's desk and the command `frame`
//! call it.
ghost use Rattle.std.specs.Prelude.{◌≡◌, ◌≤◌, ◌+◌, [], ◌∷◌, ◌++◌, IfOk, OnOk, is_some, if◌then◌else◌};
ghost use Rattle.std.specs.Option.{option_copied, option_map};
ghost use Rattle.def_contexts.specs.FrameValues.{frame_meaning};
ghost use Rattle.def_scratch.specs.Scratch.{scratch_frame};
ghost use Rattle.lf_frames.specs.FrameTexts.{is_frame};
ghost use Rattle.def_histories.specs.declared.operation.Operation.TheVariants.{Retire};
ghost use Rattle.def_histories.specs.History.{commits, live, registrations, text_bytes};
ghost use Rattle.def_histories.specs.Legal.{IsLegal, most_text_bytes};
ghost use Rattle.def_histories.specs.Replay.{newest_dataset};
ghost use Rattle.lf_desk.specs.RegisterAnswer.{is_live_text, others};
ghost use Rattle.lf_desk.specs.Looks.{Looks, Frames};
ghost use Rattle.lf_core.specs.Entries.{commits_in};
ghost use Rattle.lf_core.specs.Held.{AreHeld, of_others};
ghost use Rattle.lf_core.specs.Looked.{IsPublished, LooksAt};
ghost use Rattle.lf_core.specs.Seat.{MeansLive};

use crate::entries::{Entry, add_place, enter};
use crate::frames::{Kept, find_kept, no_frames, others, take_name};
use lf_base::Memory;
use lf_model::{Doc, Frame, FramedNow, Look};
use lf_scratch::frame_dataset;
use lf_versions::Version;
use std::alloc::Global;
use std::marker::Model;
use std::sync::Arc;

/// The newest version, the live frames with their boards and published documents, and the history
/// that made them. Contracts see the history, the boards at home, and the places.
#[derive(Drop)]
pub struct State {
    pub(crate) newest: Version,
    /// In order of their registrations.
    pub(crate) frames: Vec<Kept>,
    /// With room for the retirement of each live frame, and for two entries for each place.
    pub(crate) history: Vec<Entry>,
    /// How many registrations there are.
    pub(crate) registrations: u64,
    /// How many bytes all patch texts and frame texts have.
    pub(crate) bytes: u64,
    /// How many operations may be put without more memory.
    pub(crate) places: usize,
}

impl Model for State {
    ghost use Rattle.std.specs.Coded.{codes};
    ghost use Rattle.std.specs.Prelude.{vec_capacity};
    ghost use Rattle.lf_model.specs.contracts.json.Json as json;
    ghost use Rattle.lf_core.specs.Entries.{operations};
    ghost use Rattle.lf_core.specs.Held.{Seen, boards_of};
    ghost use Rattle.lf_core.specs.Replayed.{IsReplayed};

    ghost Value = { Seen };

    ghost coded = { Prim.hlevel (codes, json.the_row.coded) };

    ghost view = { λ s. record {
      history = operations s.history.items;
      boards = boards_of s.frames.items;
      places = s.places;
    } };

    ghost invariant = { λ s. IsReplayed (operations s.history.items)
        s.newest s.frames.items s.registrations s.bytes s.places
        (vec_capacity s.history) (vec_capacity s.frames) };
}

impl State {
    /// The state of the empty history.
    pub fn new(alloc: Global) -> Result<State, Memory>
        ensures history { IfOk result (λ state. state.history ≡ []) }
        ensures boards { IfOk result (λ state. state.boards ≡ []) }
    {
        Ok(State {
            newest: Version::first(alloc)?,
            frames: no_frames(alloc)?,
            history: Vec::new(alloc),
            registrations: 0,
            bytes: 0,
            places: 0,
        })
    }

    /// Each board at home is that of a live text, and its version begins the history's commits. It
    /// does nothing.
    pub fn boards_are_of_live(&self)
        ensures { AreHeld self.now.history self.now.boards }
    {
        let _ = &self.history;
    }

    /// What a state has gone through is a legal history. It does nothing.
    pub fn history_is_legal(&self)
        ensures { IsLegal is_frame self.now.history }
    {
        let _ = &self.history;
    }

    /// The newest version.
    pub fn newest(&self) -> &Version
        ensures { result.now ≡ commits_in self.now.history }
    {
        &self.newest
    }

    /// The frame that is live under a name.
    pub fn frame_of(&self, name: &str) -> Option<&Frame>
        ensures { MeansLive (live self.now.history name.now)
            (option_map frame_meaning (option_copied result)) }
    {
        match find_kept(self.frames.as_slice(), name) {
            Some(kept) => Some(&kept.frame),
            None => None,
        }
    }

    /// What a caller finds at a name who needs a version: `Unknown` exactly where no frame is
    /// live under it, `Pending` exactly where its published version is none or below the needed
    /// one, else the published document. `Memory` comes only in place of a document.
    pub fn look(&self, name: &str, need: u64) -> Result<Look, Memory>
        ensures { Looks self.now.history name.now need result }
    {
        match find_kept(self.frames.as_slice(), name) {
            Some(kept) => look_at(kept, need),
            None => Ok(Look::Unknown),
        }
    }

    /// The document of a frame over the newest version, from scratch.
    pub fn document(&self, alloc: Global, frame: &Frame) -> Result<Doc, Memory>
        ensures { IfOk result (λ doc.
            doc ≡ scratch_frame frame.now (newest_dataset self.now.history)) }
    {
        Ok(frame_dataset(alloc, self.newest.index(), frame)?)
    }

    /// The document of the newest version for the frame that is live under a name. Its time is that
    /// of the document, and nothing is published.
    pub fn frame_now(&self, alloc: Global, name: &str) -> Result<Option<FramedNow>, Memory>
        ensures { Frames self.now.history name.now result }
    {
        match find_kept(self.frames.as_slice(), name) {
            Some(kept) => Ok(Some(FramedNow {
                doc: frame_dataset(alloc, self.newest.index(), &kept.frame)?,
                version: self.newest.number(),
            })),
            None => Ok(None),
        }
    }

    /// Whether a text is live under a name.
    pub(crate) fn is_live_text(&self, name: &str, text: &str) -> bool
        ensures { result ≡ is_live_text self.now.history name.now text.now }
    {
        match find_kept(self.frames.as_slice(), name) {
            Some(kept) => kept.live.text.as_str() == text,
            None => false,
        }
    }

    /// How many commits there are.
    pub(crate) fn versions(&self) -> u64
        ensures { result ≡ commits self.now.history }
    {
        self.newest.number()
    }

    /// How many other names are live.
    pub(crate) fn others(&self, name: &str) -> u64
        ensures { result ≡ others self.now.history name.now }
    {
        others(self.frames.as_slice(), name)
    }

    /// How many registrations there are.
    pub(crate) fn registrations(&self) -> u64
        ensures { result ≡ registrations self.now.history }
    {
        self.registrations
    }

    /// How many bytes all texts have.
    #[tactic(auto, unfolding(def_histories::specs::Legal::most_text_bytes))]
    pub(crate) fn text_bytes(&self) -> u64
        ensures told { result ≡ text_bytes self.now.history }
        ensures few { result ≤ most_text_bytes }
    {
        self.bytes
    }

    /// Leaves at least one place, for an operation that takes no memory, and changes nothing else.
    pub fn make_place(&mut self) -> Result<(), Memory>
        ensures history { self.new.history ≡ self.old.history }
        ensures boards { self.new.boards ≡ self.old.boards }
        ensures places { self.old.places ≤ self.new.places }
        ensures place { OnOk result (1 ≤ self.new.places) }
    {
        if self.places > 0 {
            return Ok(());
        }
        self.more_places()
    }

    /// Makes one place more.
    pub(crate) fn more_places(&mut self) -> Result<(), Memory>
        ensures history { self.new.history ≡ self.old.history }
        ensures boards { self.new.boards ≡ self.old.boards }
        ensures places { self.old.places ≤ self.new.places }
        ensures place { OnOk result (self.new.places ≡ self.old.places + 1) }
    {
        self.places = add_place(&mut self.history, self.places, self.frames.len())?;
        Ok(())
    }

    /// Ends a frame, its board and its document. Answers false exactly where no frame is live under
    /// the name. Takes no memory.
    pub fn retire(&mut self, seat: u64, name: &str) -> bool
        ensures answer { result ≡ is_some (live self.old.history name.now) }
        ensures entry { self.new.history
            ≡ (if result then self.old.history ++ Retire seat name.now ∷ []
            else self.old.history) }
        ensures boards { self.new.boards
            ≡ (if result then of_others name.now self.old.boards else self.old.boards) }
        ensures places { self.new.places ≡ self.old.places }
    {
        match take_name(&mut self.frames, name) {
            Some(name) => {
                enter(&mut self.history, Entry::Retire { seat, name });
                true
            }
            None => false,
        }
    }
}

// What is found at a live frame.
fn look_at(kept: &Kept, need: u64) -> Result<Look, Memory>
    requires shown { IsPublished kept.now }
    ensures { LooksAt kept.now need result }
{
    match kept.live.published {
        Some(version) => {
            if version < need {
                return Ok(Look::Pending {
                    have: Some(version),
                    need,
                });
            }
            match &kept.doc {
                Some(doc) => Ok(Look::Document {
                    doc: Arc::try_clone(doc)?,
                    version,
                }),
                None => unreachable!(),
            }
        }
        None => Ok(Look::Pending { have: None, need }),
    }
}
