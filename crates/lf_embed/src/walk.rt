//! What a tree has embedded and output so far, and the path to the node at hand. The functions of
//! embedding hand it on.
ghost use Rattle.std.specs.Prelude.{◌≡◌, [], ◌∷◌, ◌+◌, ◌<◌, IfErr, IfOk, OnOk, drop};
ghost use Rattle.std.specs.List.{list_any};
ghost use Rattle.lf_model.specs.declared.document.Limit.TheVariants.{TreeItems};
ghost use Rattle.def_framing.specs.Results.{at_first, entered, gives, is_in, item, item_limit, over};
ghost use Rattle.def_framing.specs.Steps.{as_reference, is_outside};
ghost use Rattle.def_framing.specs.Views.{graph_eq, place_eq};
ghost use Rattle.lf_embed.specs.Places.{place_data};
ghost use Rattle.lf_embed.specs.declared.walk.Stop.TheVariants.{Over};
ghost use Rattle.lf_rdf.specs.declared.question.GraphRef.TheVariants.{Named};
ghost use Rattle.lf_embed.specs.Walks.{path_of, state_of};

use crate::place::{Place, same_graph};
use indexmap::IndexSet;
use lf_base::{Memory, Same, TryCopy};
use lf_model::{Embed, Limit};
use lf_rdf::{GraphRef, Term};
use std::alloc::Global;

/// The most items of a tree: node objects, references included, literals, lists and default values.
pub const ITEM_LIMIT: u32 = 65_536;

/// Why there is no tree.
#[derive(Clone, Copy, Debug, PartialEq, Eq)]
pub enum Stop {
    /// The tree is past a limit.
    Over(Limit),
    /// No memory was found.
    Memory,
}

impl From<Memory> for Stop {
    ghost use Rattle.lf_embed.specs.declared.walk.Stop.TheVariants as stop;

    ghost from_gives = { λ _ r. r ≡ stop.Memory };

    fn from(_refused: Memory) -> Stop {
        Stop::Memory
    }
}

/// A walk through a tree. The set of embedded nodes keeps the order of insertion and is new for
/// each tree.
#[derive(Drop)]
pub struct Walk {
    // The nodes that this tree has embedded, the first first; each stands once.
    embedded: IndexSet<Place>,
    // The items of the tree so far, at most `ITEM_LIMIT`.
    count: u32,
    // The nodes from the tree's root to the node at hand.
    path: Vec<Place>,
}

impl Walk {
    /// Nothing is embedded and the path is empty.
    pub fn new(alloc: Global) -> Walk
        ensures state { state_of result ≡ at_first }
        ensures path { path_of result ≡ [] }
    {
        Walk {
            embedded: IndexSet::new(alloc),
            count: 0,
            path: Vec::new(alloc),
        }
    }

    /// Counts one more item. There is no room for item number 65,537.
    pub fn count_item(&mut self) -> Result<(), Stop>
        ensures counted { OnOk result (item (state_of self.old) ≡ gives tt (state_of self.new)) }
        ensures full { IfErr result (λ e. (e ≡ Over TreeItems) × (item (state_of self.old) ≡ over TreeItems)) }
        ensures path { path_of self.new ≡ path_of self.old }
        ensures room { OnOk result (((state_of self.old).count < item_limit)
            × ((state_of self.new).count ≡ (state_of self.old).count + 1)) }
    {
        if self.count < ITEM_LIMIT {
            self.count += 1;
            Ok(())
        } else {
            Err(Stop::Over(Limit::TreeItems))
        }
    }

    /// A node joins the embedded nodes and the path.
    pub fn enter(&mut self, alloc: Global, graph: &GraphRef, id: &Term) -> Result<(), Memory>
        ensures entered { OnOk result (state_of self.new
            ≡ entered (record { graph = graph.now; id = id.now }) (state_of self.old)) }
        ensures path { OnOk result
            (path_of self.new ≡ record { graph = graph.now; id = id.now } ∷ path_of self.old) }
    {
        let step = place_of(alloc, graph, id)?;
        let place = place_of(alloc, graph, id)?;
        self.path.push(step)?;
        self.embedded.insert(place)?;
        Ok(())
    }

    /// The last node leaves the path.
    pub fn leave(&mut self)
        ensures state { state_of self.new ≡ state_of self.old }
        ensures path { path_of self.new ≡ drop 1 (path_of self.old) }
    {
        let _last = self.path.pop();
    }

    /// Whether a node is on the path.
    pub fn is_on_path(&self, graph: &GraphRef, id: &Term) -> bool
        ensures { result ≡ is_in (path_of self.now) (record { graph = graph.now; id = id.now }) }
    {
        any_step(self.path.as_slice(), graph, id)
    }

    /// Whether no step of the path lies in the graph of this name.
    pub fn is_outside(&self, name: &Term) -> bool
        ensures { result ≡ is_outside (path_of self.now) name.now }
    {
        !any_in_graph(self.path.as_slice(), name)
    }

    /// Whether a node that isn't embedded free is output as a reference (JSON-LD 1.1 Framing,
    /// section 4.1: the object embed flag).
    pub fn is_referred(
        &self,
        alloc: Global,
        embed: Embed,
        graph: &GraphRef,
        id: &Term,
    ) -> Result<bool, Memory>
        ensures { IfOk result (λ referred.
            referred
            ≡ as_reference embed (record { graph = graph.now; id = id.now })
            (path_of self.now) (state_of self.now)) }
    {
        match embed {
            Embed::Never => Ok(true),
            Embed::Always => Ok(self.is_on_path(graph, id)),
            Embed::Once => {
                if self.is_on_path(graph, id) {
                    Ok(true)
                } else {
                    let place = place_of(alloc, graph, id)?;
                    Ok(self.is_embedded(&place))
                }
            }
        }
    }

    // Whether a node was embedded in this tree before.
    fn is_embedded(&self, place: &Place) -> bool
        ensures { result ≡ is_in (state_of self.now).embedded (place_data place.now) }
    {
        self.embedded.contains(place)
    }
}

// The place of a node in a graph.
fn place_of(alloc: Global, graph: &GraphRef, id: &Term) -> Result<Place, Memory>
    ensures { IfOk result (λ place. place_data place ≡ record { graph = graph.now; id = id.now }) }
{
    Ok(Place {
        graph: graph.copy(alloc)?,
        id: id.copy(alloc)?,
    })
}

// Whether a node is one of the steps of a path.
fn any_step(path: &[Place], graph: &GraphRef, id: &Term) -> bool
    ensures { result
        ≡ list_any
        (λ step. place_eq (record { graph = graph.now; id = id.now }) (place_data step))
        path.now }
{
    path.iter().any(|step| is_step(step, graph, id))
}

// Whether a step of a path lies in the graph of this name.
fn any_in_graph(path: &[Place], name: &Term) -> bool
    ensures { result ≡ list_any (λ step. graph_eq (Named name.now) step.graph) path.now }
{
    path.iter().any(|step| lies_in_graph(step, name))
}

// Whether a step is this node of this graph.
fn is_step(step: &Place, graph: &GraphRef, id: &Term) -> bool
    ensures { result ≡ place_eq (record { graph = graph.now; id = id.now }) (place_data step.now) }
{
    same_graph(graph, &step.graph) && id.is(&step.id)
}

// Whether a step lies in the graph of this name.
fn lies_in_graph(step: &Place, name: &Term) -> bool
    ensures { result ≡ graph_eq (Named name.now) step.now.graph }
{
    match &step.graph {
        GraphRef::Named(other) => name.is(other),
        GraphRef::Default => false,
        GraphRef::Merged => false,
    }
}
