//! The answer to each question, from the order in which its quads stand together.
ghost use Rattle.std.specs.Prelude.{◌≡◌, ◌++◌, IfOk, IsTrue};
ghost use Rattle.std.specs.Option.{option_copied};
ghost use Rattle.def_datasets.specs.Dataset.{dataset_of};
ghost use Rattle.def_datasets.specs.Questions.{answer};
ghost use Rattle.lf_oracle.specs.Asking.{asks_one_graph};
ghost use Rattle.lf_ptree.specs.Pairs.{Ascends, keys, pairs_from};
ghost use Rattle.def_datasets.specs.Order.{id_cmp};
ghost use Rattle.def_datasets.specs.Sorted.{set_of};
ghost use Rattle.lf_index.specs.Indexed.{names_for};
ghost use Rattle.lf_index.specs.Orders.{graph_order, object_order, subject_order};
ghost use Rattle.lf_index.specs.Low.{lowest_graph, lowest_object, lowest_subject};
ghost use Rattle.lf_index.specs.Reach.{label_in, nodes_reached, reached};

use crate::by_graph::ByGraph;
use crate::by_object::ByObject;
use crate::by_subject::BySubject;
use crate::index::Index;
use crate::lined::in_line_order;
use crate::low::{lowest_graph, lowest_object, lowest_subject};
use crate::names::put_names;
use crate::nodes::each_in_id_order;
use crate::reach::label_in;
use crate::scan::{nodes_reached, quads_reached};
use crate::shared::{Shared, least};
use lf_base::Memory;
use lf_ptree::PMap;
use lf_rdf::{Answer, GraphRef, QuadList, Question, Term, TermList};
use std::alloc::Global;

impl Index {
    /// The answer to a question. It takes the time of the answer: n log n comparisons for n quads
    /// or terms, and some log n of all quads to find the first.
    pub(crate) fn answer(&self, alloc: Global, question: &Question) -> Result<Answer, Memory>
        requires { IsTrue (asks_one_graph question.now) }
        ensures { IfOk result (λ given. given ≡ answer self.now question.now) }
    {
        match question {
            Question::Out(graph, subject) => Ok(Answer::Quads(quads_of_subject(
                alloc,
                &self.by_subject,
                question,
                subject,
                label_in(graph),
            )?)),
            Question::OutAny(subject) => Ok(Answer::Quads(quads_of_subject(
                alloc,
                &self.by_subject,
                question,
                subject,
                None,
            )?)),
            Question::Inward(graph, predicate, object) => Ok(Answer::Quads(quads_of_object(
                alloc,
                &self.by_object,
                question,
                object,
                Shared::of(alloc, predicate)?,
                label_in(graph),
            )?)),
            Question::InwardAny(predicate, object) => Ok(Answer::Quads(quads_of_object(
                alloc,
                &self.by_object,
                question,
                object,
                Shared::of(alloc, predicate)?,
                None,
            )?)),
            Question::Uses(object) => Ok(Answer::Quads(quads_of_object(
                alloc,
                &self.by_object,
                question,
                object,
                least(alloc)?,
                None,
            )?)),
            Question::Named(name) => {
                let key = Shared::of(alloc, name)?;
                Ok(Answer::Flag(self.names.get(&key).is_some()))
            }
            Question::Members(graph) => {
                Ok(Answer::Terms(members_of(alloc, &self.by_graph, &self.names, question, graph)?))
            }
        }
    }
}

// The answering quads from the least one with a subject and a graph label on.
fn quads_of_subject(
    alloc: Global,
    by_subject: &PMap<BySubject, ()>,
    question: &Question,
    subject: &Term,
    label: Option<&Term>,
) -> Result<QuadList, Memory>
    ensures found { IfOk result (λ quads.
        quads
        ≡ dataset_of (reached question.now (keys (pairs_from subject_order
        (lowest_subject subject.now (option_copied label.entry)) by_subject.now)))) }
    ensures order { Ascends subject_order by_subject.now }
{
    by_subject.ascends();
    let low = lowest_subject(alloc, subject, label)?;
    in_line_order(
        alloc,
        quads_reached(alloc, by_subject.from(&low), question)?,
    )
}

// The answering quads from the least one with an object, a predicate and a graph label on.
fn quads_of_object(
    alloc: Global,
    by_object: &PMap<ByObject, ()>,
    question: &Question,
    object: &Term,
    predicate: Shared,
    label: Option<&Term>,
) -> Result<QuadList, Memory>
    ensures found { IfOk result (λ quads.
        quads
        ≡ dataset_of (reached question.now (keys (pairs_from object_order
        (lowest_object object.now predicate (option_copied label.entry))
        by_object.now)))) }
    ensures order { Ascends object_order by_object.now }
{
    by_object.ascends();
    let low = lowest_object(alloc, object, predicate, label)?;
    in_line_order(alloc, quads_reached(alloc, by_object.from(&low), question)?)
}

// The nodes of a graph, and the names that belong to it.
fn members_of(
    alloc: Global,
    by_graph: &PMap<ByGraph, ()>,
    names: &PMap<Shared, ()>,
    question: &Question,
    graph: &GraphRef,
) -> Result<TermList, Memory>
    ensures found { IfOk result (λ terms.
        terms
        ≡ set_of id_cmp (nodes_reached question.now
        (keys (pairs_from graph_order (lowest_graph (label_in graph.now)) by_graph.now))
        ++ names_for graph.now (keys names.now))) }
    ensures order { Ascends graph_order by_graph.now }
{
    by_graph.ascends();
    let low = lowest_graph(alloc, label_in(graph))?;
    let mut found = nodes_reached(alloc, by_graph.from(&low), question)?;
    put_names(&mut found, names, graph)?;
    each_in_id_order(alloc, found)
}
