//! The view of a node, kept with the number of its questions.
ghost use Rattle.std.specs.Prelude.{◌≡◌, ◌+◌, ◌↔◌, List, IfOk, IsTrue};
ghost use Rattle.lf_rdf.specs.declared.quad.Quad.{Quad};
ghost use Rattle.lf_kept.specs.Views.{AllKept, IsAgain, IsKept};

use crate::key::NodeKey;
use crate::telling::Telling;
use lf_base::{Memory, Same, Steps, TryCopy};
use lf_model::NodeView;
use lf_nodes::view_of;
use lf_oracle::Oracle;
use lf_rdf::{GraphRef, QuestionList, Term};
use std::alloc::Global;
use std::collections::BTreeMap;
use std::sync::ledger::Ledger;

/// What was found of a node in a graph, with the number of the questions that it took.
#[derive(Drop)]
pub struct Kept {
    pub(crate) graph: GraphRef,
    pub(crate) id: Term,
    pub(crate) found: Option<NodeView>,
    pub(crate) asked: u64,
}

// What took so many questions is asked for again rather than kept: by one question, for its own
// quads, a node is seen that has such quads and no blank node among their objects.
const CHEAP: u64 = 1;

/// What was found of nodes, by their keys.
pub(crate) type KeptViews = BTreeMap<NodeKey, Kept>;

fn is_same_graph(one: &GraphRef, two: &GraphRef) -> bool
    ensures { IsTrue result ↔ (one.now ≡ two.now) }
{
    match one {
        GraphRef::Default => match two {
            GraphRef::Default => true,
            GraphRef::Named(_) => false,
            GraphRef::Merged => false,
        },
        GraphRef::Named(name) => match two {
            GraphRef::Default => false,
            GraphRef::Named(other) => name.is(other),
            GraphRef::Merged => false,
        },
        GraphRef::Merged => match two {
            GraphRef::Default => false,
            GraphRef::Named(_) => false,
            GraphRef::Merged => true,
        },
    }
}

fn is_of(one: &Kept, graph: &GraphRef, id: &Term) -> bool
    ensures { IsTrue result ↔ ((one.now.graph ≡ graph.now) × (one.now.id ≡ id.now)) }
{
    is_same_graph(&one.graph, graph) && one.id.is(id)
}

// Counts so many questions.
fn tick_all<L: Ledger>(steps: &mut Steps<L>, asked: u64)
    ensures { steps.new ≡ steps.old + asked }
{
    let mut left = asked;
    'ticks: while left > 0 {
        steps.tick();
        left -= 1;
    }
}

/// What is kept of a node, with as many steps as it took when it was learnt. It takes a search, and
/// a copy of the view, which shares its texts.
pub(crate) fn again<L: Ledger>(
    alloc: Global,
    kept: &KeptViews,
    key: &NodeKey,
    graph: &GraphRef,
    id: &Term,
    steps: &mut Steps<L>,
) -> Result<Option<Option<NodeView>>, Memory>
    ensures { IfOk result (λ again.
        (dataset : List Quad) → AllKept dataset kept.now →
        IsAgain dataset graph.now id.now steps.old steps.new again) }
{
    match kept.get(key) {
        Some(one) => {
            let same = is_of(one, graph, id);
            if same {
                let found = one.found.copy(alloc)?;
                tick_all(steps, one.asked);
                return Ok(Some(found));
            }
            Ok(None)
        }
        None => Ok(None),
    }
}

/// Asks for the view of a node, and counts the questions.
pub(crate) fn first_view<O: Oracle, L: Ledger>(
    alloc: Global,
    telling: &mut Telling<O>,
    graph: &GraphRef,
    id: &Term,
    steps: &mut Steps<L>,
) -> Result<Kept, Memory>
    ensures kept { IfOk result (λ kept. IsKept (O.quads telling.old.oracle) kept) }
    ensures of { IfOk result (λ kept. (kept.graph ≡ graph.now) × (kept.id ≡ id.now)) }
    ensures counts { IfOk result (λ kept. steps.new ≡ steps.old + kept.asked) }
    ensures quads_stay { O.quads telling.new.oracle ≡ O.quads telling.old.oracle }
{
    telling.asked = QuestionList::new(alloc);
    let found = view_of(alloc, telling, graph, id, steps)?;
    let asked = telling.asked.len();
    let place = graph.copy(alloc)?;
    let node = id.copy(alloc)?;
    Ok(Kept {
        graph: place,
        id: node,
        found,
        asked,
    })
}

/// Gives what was learnt of a node, and keeps it where it isn't cheap to ask for again.
pub(crate) fn keep_dear(
    alloc: Global,
    kept: &mut KeptViews,
    key: NodeKey,
    first: Kept,
) -> Result<Option<NodeView>, Memory>
    ensures found { IfOk result (λ found. found ≡ first.found) }
    ensures kept { (dataset : List Quad) → AllKept dataset kept.old → IsKept dataset first →
        AllKept dataset kept.new }
{
    let found = first.found.copy(alloc)?;
    if first.asked <= CHEAP {
        return Ok(found);
    }
    kept.insert(key, first)?;
    Ok(found)
}
