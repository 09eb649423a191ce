//! What the answers of a turn show.
ghost use Rattle.lf_pool.specs.Causes.{HomeWasPublished, LoneTurnsPublish, NewerIsPublished, PublishedStandsLast, SupersededWasChanged};

/// `Published` comes only with its publication as the last entry of the history.
#[tactic(auto, using(crate::proofs::Answering::published_stands_last))]
pub fn published_stands_last()
    ensures { PublishedStandsLast }
{}

/// `Home` comes only where a document of that frame was published in the meantime.
pub fn home_was_published()
    ensures { HomeWasPublished }
{}

/// `Superseded` comes only where the name was registered anew or retired in the meantime. It tells
/// the number of the text that is live after the turn, which isn't that of the board.
pub fn superseded_was_changed()
    ensures { SupersededWasChanged }
{}

/// A board that was turned is published where its text is still live and nothing as new is
/// published.
#[tactic(auto, using(crate::proofs::Answering::newer_is_published))]
pub fn newer_is_published()
    ensures { NewerIsPublished }
{}

/// A turn of a seat that is alone is idle only where no frame waits. Else it publishes the frame
/// that is next, unless no memory was found. As many boards are away after it as before.
#[tactic(auto, using(crate::proofs::Lone::lone_turns_publish))]
pub fn lone_turns_publish()
    ensures { LoneTurnsPublish }
{}
