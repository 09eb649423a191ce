//! The outcomes of many terms by a frame, as for all terms of a dataset: the keys of the framed
//! graph are asked for once.
ghost use Rattle.std.specs.Prelude.{◌≡◌, IfOk, IsTrue, map};
ghost use Rattle.lf_rdf.specs.declared.term.Term.{Term as TheTerm};
ghost use Rattle.lf_rdf.specs.Equality.{term_eq};
ghost use Rattle.def_datasets.specs.Sorted.{ascends, has};
ghost use Rattle.def_datasets.specs.Order.{id_cmp};
ghost use Rattle.def_datasets.specs.Views.{keys};
ghost use Rattle.def_framing.specs.Outcome.{framed_graph, outcome};
ghost use Rattle.def_framing.specs.OutcomeBridge.{outcome_data};
ghost use Rattle.def_framing.specs.Views.{of_dataset};

use crate::choices::framed_graph;
use crate::outcomes::tree;
use lf_base::{Memory, Steps};
use lf_model::{Frame, Outcome, OutcomeList};
use lf_oracle::Nodes;
use lf_order::ById;
use lf_rdf::{Term, TermList};
use std::alloc::Global;
use std::marker::Model;
use std::sync::ledger::Ledger;

/// The keys of the framed graph of a frame, in order of their ids.
#[derive(Drop)]
pub struct FramedKeys {
    terms: Vec<ById>,
}

impl Model for FramedKeys {
    ghost use Rattle.std.specs.Prelude.{List};
    ghost use Rattle.lf_rdf.specs.declared.term.Term.{Term};

    ghost Value = { List Term };

    ghost view = { λ k. k.terms.items };
}

// The terms with their ids.
fn with_ids(alloc: Global, terms: &[Term]) -> Result<Vec<ById>, Memory>
    ensures { IfOk result (λ made. made.items ≡ terms.now) }
{
    let mut made = Vec::with_capacity(alloc, terms.len())?;
    for term in terms {
        made.push(ById::of(alloc, term)?)?;
    }
    Ok(made)
}

// Whether a term is among terms in order of their ids, by halving.
fn is_among(alloc: Global, known: &[ById], term: &Term) -> Result<bool, Memory>
    requires { IsTrue (ascends id_cmp known.now) }
    ensures { IfOk result (λ found. found ≡ has term_eq known.now term.now) }
{
    let one = ById::of(alloc, term)?;
    let place = known.binary_search(&one);
    Ok(place.is_ok())
}

/// The keys of the framed graph of a frame, by one call. By them [`outcome_among`] tells the
/// outcomes of terms. They come in order, so none is compared with another.
pub fn framed_keys<N: Nodes, L: Ledger>(
    alloc: Global,
    nodes: &mut N,
    frame: &Frame,
    steps: &mut Steps<L>,
) -> Result<FramedKeys, Memory>
    ensures keys { IfOk result (λ known.
        known ≡ keys (N.quads nodes.old) (framed_graph frame.now.top_graph)) }
    ensures quads_stay { N.quads nodes.new ≡ N.quads nodes.old }
{
    let graph = framed_graph(frame.top_graph);
    let listed = nodes.members(alloc, &graph, steps)?;
    let terms = with_ids(alloc, listed.as_slice())?;
    Ok(FramedKeys { terms })
}

/// The outcome of a term by a frame, by the keys of the framed graph (JSON-LD 1.1 Framing, section
/// 4.2.1). Of a term that is no key, as a cell of a list, nothing is asked. Whether it is one takes
/// a comparison of ids for each halving of the keys.
pub fn outcome_among<N: Nodes, L: Ledger>(
    alloc: Global,
    nodes: &mut N,
    frame: &Frame,
    known: &FramedKeys,
    term: &Term,
    steps: &mut Steps<L>,
) -> Result<Outcome, Memory>
    requires keys { known.now ≡ keys (N.quads nodes.old) (framed_graph frame.now.top_graph) }
    ensures outcome { IfOk result (λ made.
        outcome_data made ≡ outcome (of_dataset (N.quads nodes.old)) frame.now term.now) }
    ensures quads_stay { N.quads nodes.new ≡ N.quads nodes.old }
{
    let key = is_among(alloc, known.terms.as_slice(), term)?;
    if !key {
        return Ok(Outcome::NotKey);
    }
    let made = tree(alloc, nodes, frame, term, steps)?;
    Ok(made)
}

// The outcomes of some terms, by the keys of the framed graph.
fn outcomes_among<N: Nodes, L: Ledger>(
    alloc: Global,
    nodes: &mut N,
    frame: &Frame,
    known: &FramedKeys,
    terms: &[Term],
    steps: &mut Steps<L>,
) -> Result<OutcomeList, Memory>
    requires keys { known.now ≡ keys (N.quads nodes.old) (framed_graph frame.now.top_graph) }
    ensures outcomes { IfOk result (λ made.
        map outcome_data made
        ≡ map (outcome (of_dataset (N.quads nodes.old)) frame.now) terms.now) }
    ensures quads_stay { N.quads nodes.new ≡ N.quads nodes.old }
{
    let mut made = OutcomeList::new(alloc);
    for term in terms {
        let outcome = outcome_among(alloc, nodes, frame, known, term, steps)?;
        made.push(outcome)?;
    }
    Ok(made)
}

/// The outcomes of some terms by a frame, in their order (JSON-LD 1.1 Framing, section 4.2.1).
///
/// One call gives the keys of the framed graph, so nothing more is asked of a term that is no key,
/// as the cells of lists: over all terms of a dataset the questions grow with its nodes and with
/// the trees that are made.
pub fn outcomes_of<N: Nodes, L: Ledger>(
    alloc: Global,
    nodes: &mut N,
    frame: &Frame,
    terms: &TermList,
    steps: &mut Steps<L>,
) -> Result<OutcomeList, Memory>
    ensures outcomes { IfOk result (λ made.
        map outcome_data made
        ≡ map (outcome (of_dataset (N.quads nodes.old)) frame.now) terms.now) }
    ensures quads_stay { N.quads nodes.new ≡ N.quads nodes.old }
{
    let known = framed_keys(alloc, nodes, frame, steps)?;
    let made = outcomes_among(alloc, nodes, frame, &known, terms.as_slice(), steps)?;
    Ok(made)
}
