//! How often blank node labels stand in the trees of outcomes (JSON-LD 1.1 Framing, section 4.2).
ghost use Rattle.std.specs.Prelude.{◌≡◌, ℕ, List, IfOk, map};
ghost use Rattle.def_framing.specs.OutcomeBridge.{outcome_data};
ghost use Rattle.def_documents.specs.Pruning.{label_count};
ghost use Rattle.lf_tidy.specs.Counts.{count_in};
ghost use Rattle.lf_doc.specs.Gathering.{trees_of};

use lf_base::Memory;
use lf_model::{Outcome, OutcomeList};
use lf_tidy::{Counts, add_labels};
use std::alloc::Global;

/// How often each label stands in all trees together. Its time grows as n log n in the items.
pub fn labels_of(alloc: Global, outcomes: &OutcomeList) -> Result<Counts, Memory>
    ensures { IfOk result (λ counts. (label : List ℕ) → count_in counts label
        ≡ label_count (trees_of (map outcome_data outcomes.now)) label) }
{
    let mut counts = Counts::new(alloc);
    for outcome in outcomes.as_slice() {
        match outcome {
            Outcome::NotKey => {}
            Outcome::NoMatch => {}
            Outcome::Over(_) => {}
            Outcome::Matched(tree) => add_labels(alloc, &mut counts, tree)?,
        }
    }
    Ok(counts)
}
