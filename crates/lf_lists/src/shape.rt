//! The test of one list node by at most three questions.
ghost use Rattle.std.specs.Prelude.{◌≡◌, ◌+◌, ◌≤◌, ◌&&◌, not, length, IfOk, IsTrue, OnOk};
ghost use Rattle.std.specs.List.{filter, find};
ghost use Rattle.std.specs.Option.{option_copied};
ghost use Rattle.lf_rdf.specs.Vocabulary.{rdf_first, rdf_rest, rdf_nil, rdf_list};
ghost use Rattle.def_datasets.specs.Terms.{is_blank, is_iri, tells_type};
ghost use Rattle.def_datasets.specs.Cells.{with_predicate, other_quads, is_one, at_most_list_type, is_one_in, has_list_form, object_of};
ghost use Rattle.lf_oracle.specs.Asking.{Learns, is_one_graph};
ghost use Rattle.lf_lists.specs.Learning.{NearTo};
ghost use Rattle.lf_lists.specs.Walking.{is_other, shaped_rest};

use crate::asking::{is_named, quads_out, quads_using};
use def_datasets::{is_blank, lies_in, tells_type};
use lf_base::{Memory, Steps, TryCopy};
use lf_oracle::Oracle;
use lf_rdf::{GraphRef, Quad, Term};
use std::alloc::Global;
use std::sync::ledger::Ledger;

const RDF_FIRST: &str = "http://www.w3.org/1999/02/22-rdf-syntax-ns#first";

const RDF_REST: &str = "http://www.w3.org/1999/02/22-rdf-syntax-ns#rest";

const RDF_NIL: &str = "http://www.w3.org/1999/02/22-rdf-syntax-ns#nil";

const RDF_LIST: &str = "http://www.w3.org/1999/02/22-rdf-syntax-ns#List";

// Whether a term is this IRI.
fn is_iri(iri: &str, term: &Term) -> bool
    ensures { result ≡ is_iri iri.now term.now }
{
    match term {
        Term::Iri(other) => iri == other.as_str(),
        Term::Blank(_) => false,
        Term::Literal { .. } => false,
    }
}

/// Whether a term is `rdf:nil`, the empty list (RDF Schema 1.1, section 5.2.4).
#[tactic(auto, unfolding(lf_rdf::specs::Vocabulary::rdf_nil))]
pub fn is_nil(term: &Term) -> bool
    ensures { result ≡ is_iri rdf_nil term.now }
{
    is_iri(RDF_NIL, term)
}

/// Whether a quad tells an item of a list, by `rdf:first` (RDF Schema 1.1, section 5.2.2).
#[tactic(auto, unfolding(lf_rdf::specs::Vocabulary::rdf_first))]
pub fn tells_item(quad: &Quad) -> bool
    ensures { result ≡ is_iri rdf_first quad.now.predicate }
{
    is_iri(RDF_FIRST, &quad.predicate)
}

/// Whether a quad tells the rest of a list, by `rdf:rest` (RDF Schema 1.1, section 5.2.3).
#[tactic(auto, unfolding(lf_rdf::specs::Vocabulary::rdf_rest))]
pub fn tells_rest(quad: &Quad) -> bool
    ensures { result ≡ is_iri rdf_rest quad.now.predicate }
{
    is_iri(RDF_REST, &quad.predicate)
}

// Whether an object is the class `rdf:List`.
#[tactic(auto, unfolding(lf_rdf::specs::Vocabulary::rdf_list))]
fn is_list_class(term: &Term) -> bool
    ensures { result ≡ is_iri rdf_list term.now }
{
    is_iri(RDF_LIST, term)
}

// Whether there is one quad alone, and it lies in the graph.
fn is_one_in(graph: &GraphRef, quads: &[Quad]) -> bool
    ensures { result ≡ is_one_in graph.now quads.now }
{
    match quads {
        [one] => lies_in(graph, one),
        _ => false,
    }
}

// Whether there is exactly one quad with this predicate.
fn has_one(iri: &str, quads: &[Quad]) -> bool
    ensures { result ≡ is_one (with_predicate iri.now quads.now) }
{
    count_under(iri, quads) == 1
}

// How many quads have this predicate.
fn count_under(iri: &str, quads: &[Quad]) -> usize
    ensures { result ≡ length (with_predicate iri.now quads.now) }
{
    quads
        .iter()
        .filter(|quad| is_iri(iri, &quad.predicate))
        .count()
}

// Whether the predicate of a quad is neither of two.
fn is_neither(one: &str, two: &str, quad: &Quad) -> bool
    ensures { result
        ≡ (not (is_iri one.now quad.now.predicate) && not (is_iri two.now quad.now.predicate)) }
{
    !is_iri(one, &quad.predicate) && !is_iri(two, &quad.predicate)
}

// How many quads have neither of two predicates.
fn count_neither(one: &str, two: &str, quads: &[Quad]) -> usize
    ensures { result
        ≡ length (filter
        (λ q. not (is_iri one.now q.predicate) && not (is_iri two.now q.predicate))
        quads.now) }
{
    quads
        .iter()
        .filter(|quad| is_neither(one, two, quad))
        .count()
}

// Whether a quad is neither the item nor the rest of a list node.
#[tactic(auto, unfolding(crate::specs::Walking::is_other, lf_rdf::specs::Vocabulary::rdf_first, lf_rdf::specs::Vocabulary::rdf_rest))]
fn is_other(quad: &Quad) -> bool
    ensures { result ≡ is_other quad.now }
{
    is_neither(RDF_FIRST, RDF_REST, quad)
}

// How many quads are neither.
#[tactic(auto, unfolding(crate::specs::Walking::is_other, lf_rdf::specs::Vocabulary::rdf_first, lf_rdf::specs::Vocabulary::rdf_rest))]
fn count_others(quads: &[Quad]) -> usize
    ensures { result ≡ length (filter is_other quads.now) }
{
    count_neither(RDF_FIRST, RDF_REST, quads)
}

// The first quad that is neither.
fn first_other(quads: &[Quad]) -> Option<&Quad>
    ensures { option_copied result ≡ find is_other quads.now }
{
    quads.iter().find(|quad| is_other(quad))
}

// Whether a quad tells that its subject is an `rdf:List`.
fn tells_list(quad: &Quad) -> bool
    ensures { result ≡ (tells_type quad.now && is_iri rdf_list quad.now.object) }
{
    tells_type(quad) && is_list_class(&quad.object)
}

// Whether there is nothing else than the item and the rest, or the type `rdf:List` alone.
fn tells_nothing_else(quads: &[Quad]) -> bool
    ensures { result ≡ at_most_list_type (other_quads quads.now) }
{
    match first_other(quads) {
        Some(other) => tells_list(other) && count_others(quads) == 1,
        None => true,
    }
}

#[tactic(auto, unfolding(lf_rdf::specs::Vocabulary::rdf_first))]
fn has_one_first(quads: &[Quad]) -> bool
    ensures { result ≡ is_one (with_predicate rdf_first quads.now) }
{
    has_one(RDF_FIRST, quads)
}

#[tactic(auto, unfolding(lf_rdf::specs::Vocabulary::rdf_rest))]
fn has_one_rest(quads: &[Quad]) -> bool
    ensures { result ≡ is_one (with_predicate rdf_rest quads.now) }
{
    has_one(RDF_REST, quads)
}

// Whether these are the quads of a list node: one item, one rest and at most the type `rdf:List`
// (RDF Schema 1.1, section 5.2).
fn has_list_form(quads: &[Quad]) -> bool
    ensures { result ≡ has_list_form quads.now }
{
    has_one_first(quads) && has_one_rest(quads) && tells_nothing_else(quads)
}

// The first quad with this predicate.
fn first_under<'a>(iri: &str, quads: &'a [Quad]) -> Option<&'a Quad>
    ensures { option_copied result ≡ find (λ q. is_iri iri.now q.predicate) quads.now }
{
    quads.iter().find(|quad| is_iri(iri, &quad.predicate))
}

// The object of the first quad with this predicate.
fn object_under(alloc: Global, iri: &str, quads: &[Quad]) -> Result<Option<Term>, Memory>
    ensures { IfOk result (λ object. object ≡ object_of (with_predicate iri.now quads.now)) }
{
    match first_under(iri, quads) {
        Some(quad) => Ok(Some(quad.object.copy(alloc)?)),
        None => Ok(None),
    }
}

/// The object of the first `rdf:first`.
#[tactic(auto, unfolding(lf_rdf::specs::Vocabulary::rdf_first))]
pub(crate) fn first_among(alloc: Global, quads: &[Quad]) -> Result<Option<Term>, Memory>
    ensures { IfOk result (λ object. object ≡ object_of (with_predicate rdf_first quads.now)) }
{
    object_under(alloc, RDF_FIRST, quads)
}

/// The object of the first `rdf:rest`.
#[tactic(auto, unfolding(lf_rdf::specs::Vocabulary::rdf_rest))]
pub(crate) fn rest_among(alloc: Global, quads: &[Quad]) -> Result<Option<Term>, Memory>
    ensures { IfOk result (λ object. object ≡ object_of (with_predicate rdf_rest quads.now)) }
{
    object_under(alloc, RDF_REST, quads)
}

// Whether a node's uses keep it from being a list node: it is to have one, in the graph.
fn is_misused(graph: &GraphRef, uses: &[Quad]) -> bool
    ensures { result ≡ not (is_one_in graph.now uses.now) }
{
    !is_one_in(graph, uses)
}

// Whether these aren't the quads of a list node.
fn lacks_form(quads: &[Quad]) -> bool
    ensures { result ≡ not (has_list_form quads.now) }
{
    !has_list_form(quads)
}

// The rest of a blank node that has the form of a list node, by up to three questions. Its uses, of
// which there may be many, are asked for only where its own quads are those of a list node.
fn blank_rest<O: Oracle, L: Ledger>(
    alloc: Global,
    oracle: &mut O,
    graph: &GraphRef,
    node: &Term,
    steps: &mut Steps<L>,
) -> Result<Option<Term>, Memory>
    requires graph { IsTrue (is_one_graph graph.now) }
    requires blank { IsTrue (is_blank node.now) }
    ensures rest { IfOk result (λ rest.
        Learns (NearTo (O.quads oracle.old) node.now) (O.quads oracle.old) (O.told oracle.old)
        (O.told oracle.new) steps.old steps.new
        (λ dataset. shaped_rest dataset graph.now node.now) rest) }
    ensures bound { OnOk result (steps.new ≤ steps.old + 3) }
    ensures quads_stay { O.quads oracle.new ≡ O.quads oracle.old }
{
    let named = is_named(alloc, oracle, node, steps)?;
    if named {
        return Ok(None);
    }
    let told = quads_out(alloc, oracle, graph, node, steps)?;
    if lacks_form(told.as_slice()) {
        return Ok(None);
    }
    let uses = quads_using(alloc, oracle, node, steps)?;
    if is_misused(graph, uses.as_slice()) {
        return Ok(None);
    }
    let rest = rest_among(alloc, told.as_slice())?;
    Ok(rest)
}

/// The rest of a node that has the form of a list node in a graph, and none of another. Only of a
/// blank node is anything asked.
pub(crate) fn shaped_rest<O: Oracle, L: Ledger>(
    alloc: Global,
    oracle: &mut O,
    graph: &GraphRef,
    node: &Term,
    steps: &mut Steps<L>,
) -> Result<Option<Term>, Memory>
    requires graph { IsTrue (is_one_graph graph.now) }
    ensures rest { IfOk result (λ rest.
        Learns (NearTo (O.quads oracle.old) node.now) (O.quads oracle.old) (O.told oracle.old)
        (O.told oracle.new) steps.old steps.new
        (λ dataset. shaped_rest dataset graph.now node.now) rest) }
    ensures bound { OnOk result (steps.new ≤ steps.old + 3) }
    ensures quads_stay { O.quads oracle.new ≡ O.quads oracle.old }
{
    if !is_blank(node) {
        return Ok(None);
    }
    blank_rest(alloc, oracle, graph, node, steps)
}
