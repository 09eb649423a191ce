//! The limits that outcomes meet before a document is made of them (JSON-LD 1.1 Framing, section
//! 4.1).
ghost use Rattle.std.specs.Prelude.{◌≡◌, map, length};
ghost use Rattle.def_framing.specs.OutcomeBridge.{outcome_data};
ghost use Rattle.def_documents.specs.Document.{gathered};
ghost use Rattle.lf_doc.specs.Gathering.{gathered_by, trees_of};
ghost use Rattle.lf_doc.specs.Room.{room_of};

use crate::items::tree_room;
use def_documents::item_limit;
use lf_model::{Limit, Outcome, OutcomeList};

/// The limit that decides, if any: outcome by outcome a limit, or the tree that takes the sum of
/// items above 262,144.
pub fn first_limit(outcomes: &OutcomeList) -> Option<Limit>
    ensures { gathered 0 (map outcome_data outcomes.now)
        ≡ gathered_by result (trees_of (map outcome_data outcomes.now)) }
{
    let mut room = item_limit();
    for outcome in outcomes.as_slice() {
        match outcome {
            Outcome::NotKey => {}
            Outcome::NoMatch => {}
            Outcome::Over(limit) => return Some(*limit),
            Outcome::Matched(tree) => match tree_room(tree, room) {
                Some(left) => room = left,
                None => return Some(Limit::DocumentItems),
            },
        }
    }
    None
}

/// The room for items that an outcome leaves of some room, or none where it decides the document:
/// by a limit of its own, or since its tree has more items than there is room. From the room of
/// 262,144 items on, what comes behind the first such outcome changes nothing, so whoever makes a
/// document's outcomes one after another may stop at it.
pub fn room_left(outcome: &Outcome, room: u64) -> Option<u64>
    ensures { result ≡ room_of (outcome_data outcome.now) room }
{
    match outcome {
        Outcome::NotKey => Some(room),
        Outcome::NoMatch => Some(room),
        Outcome::Over(_) => None,
        Outcome::Matched(tree) => tree_room(tree, room),
    }
}
