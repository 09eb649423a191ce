//! The compacted trees of a document (JSON-LD 1.1 Framing, section 4.1, and JSON-LD 1.1 Processing
//! Algorithms and API, section 5.1).
ghost use Rattle.std.specs.Prelude.{◌≡◌, ◌++◌, ◌∷◌, [], OnOk, map};
ghost use Rattle.lf_model.specs.JsonBridge.{json_data};
ghost use Rattle.lf_model.specs.TreeBridge.{tree_data};
ghost use Rattle.def_framing.specs.OutcomeBridge.{outcome_data};
ghost use Rattle.def_documents.specs.Document.{compact_all};
ghost use Rattle.def_documents.specs.Nodes.{compact};
ghost use Rattle.def_documents.specs.Pruning.{prune_node};
ghost use Rattle.lf_compact.specs.Answers.{Compacted};
ghost use Rattle.lf_tidy.specs.Counts.{count_in};
ghost use Rattle.lf_doc.specs.Gathering.{trees_of};
ghost use Rattle.lf_doc.specs.Maps.{CompactedAll};

use lf_base::Memory;
use lf_compact::{CompactErr, compact_with};
use lf_model::{Json, Outcome, OutcomeList, Tree};
use lf_select::Inverse;
use lf_tidy::{Counts, tidy};
use std::alloc::Global;

// A tree without the ids that are counted once, compacted.
fn tidied_map(
    alloc: Global,
    inverse: &Inverse,
    counts: &Counts,
    tree: &Tree,
) -> Result<Json, CompactErr>
    ensures { Compacted result
        (compact inverse.now (prune_node (count_in counts.now) (tree_data tree.now))) }
{
    let tree = tidy(alloc, tree, counts)?;
    compact_with(alloc, inverse, &tree)
}

// Adds a map at the end.
fn keep(maps: &mut Vec<Json>, found: Json) -> Result<(), Memory>
    ensures { OnOk result
        (map json_data maps.new.items ≡ map json_data maps.old.items ++ json_data found ∷ []) }
{
    maps.push(found)?;
    Ok(())
}

/// The compacted trees, or the error of the first that isn't compacted. Each tree borrows the one
/// inverse.
pub fn maps_of(
    alloc: Global,
    inverse: &Inverse,
    counts: &Counts,
    outcomes: &OutcomeList,
) -> Result<Vec<Json>, CompactErr>
    ensures { CompactedAll result (compact_all inverse.now
        (map (prune_node (count_in counts.now)) (trees_of (map outcome_data outcomes.now)))) }
{
    let mut maps = Vec::new(alloc);
    for outcome in outcomes.as_slice() {
        match outcome {
            Outcome::NotKey => {}
            Outcome::NoMatch => {}
            Outcome::Over(_) => {}
            Outcome::Matched(tree) => match tidied_map(alloc, inverse, counts, tree) {
                Ok(map) => keep(&mut maps, map)?,
                Err(error) => return Err(error),
            },
        }
    }
    Ok(maps)
}
