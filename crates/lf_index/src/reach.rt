//! Which rows a scan for a question passes.
ghost use Rattle.std.specs.Prelude.{◌≡◌};
ghost use Rattle.std.specs.Option.{option_copied};
ghost use Rattle.def_datasets.specs.Terms.{lies_in, tells_type};
ghost use Rattle.lf_index.specs.Reach.{label_in, reaches};

use crate::row::Row;
use lf_base::Same;
use lf_rdf::{GraphRef, Question, Term, is_rdf_type};

/// The label of the quads of a graph.
pub fn label_in(graph: &GraphRef) -> Option<&Term>
    ensures { option_copied result ≡ label_in graph.now }
{
    match graph {
        GraphRef::Default => None,
        GraphRef::Named(name) => Some(name),
        GraphRef::Merged => None,
    }
}

/// Whether the predicate of a row is `rdf:type`.
pub fn tells_type(row: &Row) -> bool
    ensures { result ≡ tells_type row.now }
{
    match row.predicate.term() {
        Term::Iri(iri) => is_rdf_type(iri.as_str()),
        Term::Blank(_) => false,
        Term::Literal { .. } => false,
    }
}

// Whether a row lies in a graph.
fn lies_in(graph: &GraphRef, row: &Row) -> bool
    ensures { result ≡ lies_in graph.now row.now }
{
    match graph {
        GraphRef::Default => row.graph.is_none(),
        GraphRef::Named(name) => match &row.graph {
            Some(label) => name.is(label.term()),
            None => false,
        },
        GraphRef::Merged => true,
    }
}

/// Whether a scan for a question passes a row.
pub fn reaches(question: &Question, row: &Row) -> bool
    ensures { result ≡ reaches question.now row.now }
{
    match question {
        Question::Out(graph, subject) => { lies_in(graph, row) && row.subject.term().is(subject) }
        Question::OutAny(subject) => row.subject.term().is(subject),
        Question::Inward(graph, predicate, object) => {
            lies_in(graph, row)
                && row.predicate.term().is(predicate)
                && row.object.term().is(object)
        }
        Question::InwardAny(predicate, object) => {
            row.predicate.term().is(predicate) && row.object.term().is(object)
        }
        Question::Uses(object) => row.object.term().is(object) && !tells_type(row),
        Question::Named(name) => match &row.graph {
            Some(label) => name.is(label.term()),
            None => false,
        },
        Question::Members(graph) => lies_in(graph, row),
    }
}
