//! The keys under which views are kept.
ghost use Rattle.std.specs.Prelude.{◌≡◌, ◌++◌, ◌∷◌, IfOk};
ghost use Rattle.lf_base.specs.Ascii.{space};
ghost use Rattle.lf_kept.specs.Keys.{node_name};

use lf_base::{Memory, Text};
use lf_order::id_text;
use lf_rdf::{GraphRef, Term};
use std::alloc::Global;

// The prime of the 64-bit Fowler-Noll-Vo hash.
const FACTOR: u64 = 1_099_511_628_211;

/// The name of a node in a graph, behind a number of it. Ids begin alike, so keys are in order of
/// their numbers first: most comparisons then read two numbers and no text.
#[derive(Debug, PartialEq, Eq, PartialOrd, Ord, Drop)]
pub struct NodeKey {
    number: u64,
    name: Text,
}

/// The key of a node in a graph. Where two nodes have one name, the view of the later one is kept.
pub(crate) fn key_of(alloc: Global, graph: &GraphRef, id: &Term) -> Result<NodeKey, Memory>
    ensures { IfOk result (λ key. key.name ≡ node_name graph.now id.now) }
{
    let name = name_of(alloc, graph, id)?;
    Ok(NodeKey {
        number: number_of(name.as_str().as_bytes()),
        name,
    })
}

// A number that depends on each byte.
fn number_of(bytes: &[u8]) -> u64 {
    let mut number = 0;
    for byte in bytes {
        number = (number ^ u64::from(*byte)).wrapping_mul(FACTOR);
    }
    number
}

fn name_of(alloc: Global, graph: &GraphRef, id: &Term) -> Result<Text, Memory>
    ensures { IfOk result (λ name. name ≡ node_name graph.now id.now) }
{
    let node = id_text(alloc, id)?;
    match graph {
        GraphRef::Default => Ok(node),
        GraphRef::Named(name) => {
            let place = id_text(alloc, name)?;
            with_space(alloc, place.as_str(), node.as_str())
        }
        GraphRef::Merged => with_space(alloc, "", node.as_str()),
    }
}

// Two texts with a space between them.
fn with_space(alloc: Global, one: &str, two: &str) -> Result<Text, Memory>
    ensures { IfOk result (λ both. both ≡ one.now ++ space ∷ two.now) }
{
    let mut both = String::from_str(alloc, one)?;
    both.push_str(" ")?;
    both.push_str(two)?;
    Text::from_string(both)
}
