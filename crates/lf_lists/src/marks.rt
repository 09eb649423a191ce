//! Marks on blank nodes: what a walk along a list has seen.
ghost use Rattle.std.specs.Prelude.{◌≡◌, IsTrue, OnErr, OnOk};
ghost use Rattle.def_datasets.specs.Terms.{is_blank};
ghost use Rattle.lf_lists.specs.Marks.{HasMark, HasMarksOf, marked};

use lf_base::{Memory, Text, TryCopy};
use lf_rdf::Term;
use std::alloc::Global;
use std::collections::BTreeSet;

/// Blank nodes that are marked, by their labels. A mark and a test take the time of a search in an
/// ordered set.
pub(crate) type Marks = BTreeSet<Text>;

/// Whether a node is marked.
pub(crate) fn is_marked(marks: &Marks, node: &Term) -> bool
    ensures { result ≡ marked marks.now.keys node.now }
{
    match node {
        Term::Iri(_) => false,
        Term::Blank(label) => marks.contains(label),
        Term::Literal { .. } => false,
    }
}

/// Marks a blank node.
pub(crate) fn mark(alloc: Global, marks: &mut Marks, node: &Term) -> Result<(), Memory>
    requires blank { IsTrue (is_blank node.now) }
    ensures marked { OnOk result (HasMark marks.old.keys marks.new.keys node.now) }
{
    match node {
        Term::Iri(_) => Ok(()),
        Term::Blank(label) => {
            marks.insert(label.copy(alloc)?)?;
            Ok(())
        }
        Term::Literal { .. } => Ok(()),
    }
}

/// Moves all marks of a set to another. It takes a search for each.
pub(crate) fn mark_all(marks: &mut Marks, more: &mut Marks) -> Result<(), Memory>
    ensures { OnOk result (HasMarksOf marks.old.keys more.old.keys marks.new.keys) }
{
    marks.append(more)?;
    Ok(())
}
