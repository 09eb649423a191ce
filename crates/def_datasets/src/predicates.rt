//! Tests of terms and quads that programs call: node, blank node, type, graph, use, and what a quad
//! touches.
ghost use Rattle.std.specs.Prelude.{◌≡◌};
ghost use Rattle.def_datasets.specs.Terms.{is_node, is_blank, tells_type, lies_in, is_use};
ghost use Rattle.def_datasets.specs.Questions.{touches};

use lf_base::Same;
use lf_rdf::{GraphRef, Quad, Question, Term};

/// Whether a term is an IRI or a blank node (RDF 1.1 Concepts, section 3.1).
pub fn is_node(term: &Term) -> bool
    ensures { result ≡ is_node term.now }
{
    match term {
        Term::Iri(_) => true,
        Term::Blank(_) => true,
        Term::Literal { .. } => false,
    }
}

/// Whether a term is a blank node.
pub fn is_blank(term: &Term) -> bool
    ensures { result ≡ is_blank term.now }
{
    match term {
        Term::Iri(_) => false,
        Term::Blank(_) => true,
        Term::Literal { .. } => false,
    }
}

/// Whether the predicate of a quad is `rdf:type` (RDF Schema 1.1, section 3.3).
pub fn tells_type(quad: &Quad) -> bool
    ensures { result ≡ tells_type quad.now }
{
    match &quad.predicate {
        Term::Iri(iri) => "http://www.w3.org/1999/02/22-rdf-syntax-ns#type" == iri.as_str(),
        Term::Blank(_) => false,
        Term::Literal { .. } => false,
    }
}

/// Whether a quad lies in a graph; each lies in the merged graph.
pub fn lies_in(graph: &GraphRef, quad: &Quad) -> bool
    ensures { result ≡ lies_in graph.now quad.now }
{
    match graph {
        GraphRef::Default => quad.graph.is_none(),
        GraphRef::Named(name) => match &quad.graph {
            Some(label) => name.is(label),
            None => false,
        },
        GraphRef::Merged => true,
    }
}

/// Whether a quad has this object and another predicate than `rdf:type`.
pub fn is_use(object: &Term, quad: &Quad) -> bool
    ensures { result ≡ is_use object.now quad.now }
{
    quad.object.is(object) && !tells_type(quad)
}

/// Whether a quad touches a question: whether the answer may depend on it.
pub fn touches(quad: &Quad, question: &Question) -> bool
    ensures { result ≡ touches quad.now question.now }
{
    match question {
        Question::Out(graph, subject) => lies_in(graph, quad) && quad.subject.is(subject),
        Question::OutAny(subject) => quad.subject.is(subject),
        Question::Inward(graph, predicate, object) => {
            lies_in(graph, quad) && quad.predicate.is(predicate) && quad.object.is(object)
        }
        Question::InwardAny(predicate, object) => {
            quad.predicate.is(predicate) && quad.object.is(object)
        }
        Question::Uses(object) => is_use(object, quad),
        Question::Named(name) => match &quad.graph {
            Some(label) => name.is(label),
            None => false,
        },
        Question::Members(graph) => match graph {
            GraphRef::Default => true,
            GraphRef::Named(_) => lies_in(graph, quad),
            GraphRef::Merged => true,
        },
    }
}
