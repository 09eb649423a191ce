//! Puts what is ready into a state.
ghost use Rattle.std.specs.Prelude.{◌≡◌, ◌≤◌, ◌+◌, [], ◌∷◌, ◌++◌, Some};
ghost use Rattle.std.specs.Arc.{arc_value};
ghost use Rattle.def_histories.specs.Legal.{IsLegal};
ghost use Rattle.lf_frames.specs.FrameTexts.{is_frame};
ghost use Rattle.lf_core.specs.Entries.{commits_in, committing};
ghost use Rattle.lf_core.specs.Held.{HasNewBoard, PutsBoards};
ghost use Rattle.lf_core.specs.Prepared.{FitsOn, IsNew, registering};

use crate::entries::{Entry, enter};
use crate::frames::{Kept, enter_frame, remove_name};
use crate::ready::{NewFrame, Prepared, Ready};
use crate::state::State;
use def_histories::Live;
use lf_versions::{Commit, Version};
use std::sync::Arc;

impl State {
    /// Makes an operation that is ready, in a place that there is. It takes no memory.
    pub fn put(&mut self, ready: Ready)
        requires fits { FitsOn self.old.history ready }
        requires place { 1 ≤ self.old.places }
        ensures entry { self.new.history ≡ self.old.history ++ ready.operation ∷ [] }
        ensures boards { PutsBoards self.old ready.operation self.new.boards }
        ensures places { self.old.places ≤ self.new.places + 1 }
    {
        let Ready { prepared } = ready;
        match prepared {
            Prepared::Commit { commit, version } => self.put_commit(commit, version),
            Prepared::Register(new) => self.put_frame(new),
        }
    }

    // Puts a commit and the version after it.
    fn put_commit(&mut self, commit: Arc<Commit>, version: Version)
        requires legal { IsLegal is_frame (self.old.history ++ committing (arc_value commit) ∷ []) }
        requires version { version
            ≡ commits_in (self.old.history ++ committing (arc_value commit) ∷ []) }
        requires place { 1 ≤ self.old.places }
        ensures entry { self.new.history ≡ self.old.history ++ committing (arc_value commit) ∷ [] }
        ensures boards { self.new.boards ≡ self.old.boards }
        ensures places { self.old.places ≤ self.new.places + 1 }
    {
        let bytes = commit.patch.bytes;
        enter(&mut self.history, Entry::Commit(commit));
        self.newest = version;
        self.bytes += bytes;
        self.places -= 1;
    }

    // Puts a registration.
    fn put_frame(&mut self, new: NewFrame)
        requires new { IsNew new }
        requires legal { IsLegal is_frame (self.old.history ++ registering new ∷ []) }
        requires place { 1 ≤ self.old.places }
        ensures entry { self.new.history ≡ self.old.history ++ registering new ∷ [] }
        ensures boards { HasNewBoard self.old new.name new.text self.new.boards }
        ensures places { self.old.places ≤ self.new.places + 1 }
    {
        let NewFrame {
            seat,
            name,
            text,
            live_name,
            live_text,
            frame,
            board,
        } = new;
        remove_name(&mut self.frames, name.as_str());
        self.registrations += 1;
        self.bytes += text.as_str().len() as u64;
        let live = Live {
            name: live_name,
            number: self.registrations,
            text: live_text,
            published: None,
        };
        enter_frame(
            &mut self.frames,
            Kept {
                live,
                frame,
                board: Some(board),
                doc: None,
            },
        );
        enter(&mut self.history, Entry::Register { seat, name, text });
        self.places -= 1;
    }
}
