//! The live frames of a state, in order of their registrations: found by name, left out, and put
//! behind the others.
ghost use Rattle.std.specs.Prelude.{◌≡◌, ◌<◌, ◌≤◌, [], ◌∷◌, ◌++◌, length, vec_len, vec_capacity, IfOk, IfSome, OnSome, is_some};
ghost use Rattle.std.specs.List.{position};
ghost use Rattle.std.specs.Option.{option_copied};
ghost use Rattle.lf_core.specs.Kept.{board_of, find_kept, has_name, updated, with_board, with_document, without_board, without_kept};

use crate::limits::MOST_FRAMES;
use def_histories::Live;
use lf_base::{Memory, Text};
use lf_board::HomeBoard;
use lf_model::{Doc, Frame};
use std::alloc::Global;
use std::sync::Arc;

/// A live frame, the frame that its text means, its board where that is at home, and its published
/// document.
#[derive(Drop)]
pub struct Kept {
    /// Its name, its text and the text's number, and the version of the published document.
    pub live: Live,
    /// What the text means.
    pub frame: Frame,
    /// None while a job has it.
    pub board: Option<HomeBoard>,
    /// The published document, where there is one: that of the version that `live` tells.
    pub doc: Option<Arc<Doc>>,
}

// Whether a frame has a name.
fn has_name(kept: &Kept, name: &str) -> bool
    ensures { result ≡ has_name name.now kept.now }
{
    name == kept.live.name.as_str()
}

/// The frame of a name.
pub fn find_kept<'a>(frames: &'a [Kept], name: &str) -> Option<&'a Kept>
    ensures { option_copied result ≡ find_kept name.now frames.now }
{
    frames.iter().find(|kept| has_name(kept, name))
}

/// How many frames have another name.
pub fn others(frames: &[Kept], name: &str) -> u64
    ensures { result ≡ length (without_kept name.now frames.now) }
{
    frames
        .iter()
        .filter(|kept| name != kept.live.name.as_str())
        .count() as u64
}

/// The place of the frame of a name.
pub fn place_of(frames: &[Kept], name: &str) -> Option<usize>
    ensures { result ≡ position (has_name name.now) frames.now }
{
    frames.iter().position(|kept| has_name(kept, name))
}

/// Leaves out the frames of a name.
pub fn remove_name(frames: &mut Vec<Kept>, name: &str)
    ensures left { frames.new.items ≡ without_kept name.now frames.old.items }
    ensures shorter { length frames.new.items ≤ length frames.old.items }
    ensures room { vec_capacity frames.new ≡ vec_capacity frames.old }
{
    frames.retain(|kept| !has_name(kept, name));
}

/// Leaves out the frames of a name, and gives the name as the first of them held it.
pub fn take_name(frames: &mut Vec<Kept>, name: &str) -> Option<Text>
    ensures found { is_some result ≡ is_some (find_kept name.now frames.old.items) }
    ensures taken { IfSome result (λ taken. taken ≡ name.now) }
    ensures left { frames.new.items ≡ without_kept name.now frames.old.items }
    ensures shorter { OnSome result (length frames.new.items < length frames.old.items) }
    ensures room { vec_capacity frames.new ≡ vec_capacity frames.old }
{
    let place = place_of(frames.as_slice(), name)?;
    let taken = name_of(frames.remove(place));
    remove_name(frames, name);
    Some(taken)
}

// The name of a frame that goes.
fn name_of(kept: Kept) -> Text
    ensures { result ≡ kept.live.name }
{
    let Kept {
        live,
        frame,
        board,
        doc,
    } = kept;
    drop(frame);
    drop(board);
    drop(doc);
    live.name
}

/// Puts a frame behind others that have a place for it.
pub fn enter_frame(frames: &mut Vec<Kept>, kept: Kept)
    requires place { vec_len frames.old < vec_capacity frames.old }
    ensures entered { frames.new.items ≡ frames.old.items ++ kept ∷ [] }
    ensures room { vec_capacity frames.old ≤ vec_capacity frames.new }
{
    let _ = frames.push(kept);
}

/// Takes the board of the frame of a name out, where it is at home.
pub fn take_home(frames: &mut Vec<Kept>, name: &str) -> Option<HomeBoard>
    ensures board { result ≡ board_of (find_kept name.now frames.old.items) }
    ensures left { frames.new.items ≡ updated name.now without_board frames.old.items }
    ensures room { vec_capacity frames.new ≡ vec_capacity frames.old }
{
    let place = place_of(frames.as_slice(), name)?;
    frames[place].board.take()
}

/// Puts a board at home at the frame of a name.
pub fn put_home(frames: &mut Vec<Kept>, name: &str, home: HomeBoard)
    ensures put { frames.new.items ≡ updated name.now (with_board home) frames.old.items }
    ensures room { vec_capacity frames.new ≡ vec_capacity frames.old }
{
    if let Some(place) = place_of(frames.as_slice(), name) {
        frames[place].board = Some(home);
    }
}

/// Puts a board at home at the frame of a name, and its document in place of the published one.
pub fn put_document(
    frames: &mut Vec<Kept>,
    name: &str,
    version: u64,
    doc: Option<Arc<Doc>>,
    home: HomeBoard,
)
    ensures put { frames.new.items
        ≡ updated name.now (with_document version doc home) frames.old.items }
    ensures room { vec_capacity frames.new ≡ vec_capacity frames.old }
{
    if let Some(place) = place_of(frames.as_slice(), name) {
        let kept = &mut frames[place];
        kept.live.published = Some(version);
        kept.doc = doc;
        kept.board = Some(home);
    }
}

/// No frames, with room for as many as may be live.
pub fn no_frames(alloc: Global) -> Result<Vec<Kept>, Memory>
    ensures none { IfOk result (λ frames. frames.items ≡ []) }
    ensures seats { IfOk result (λ frames. 16 ≤ vec_capacity frames) }
{
    let mut frames = Vec::new(alloc);
    frames.reserve(MOST_FRAMES as usize)?;
    Ok(frames)
}
