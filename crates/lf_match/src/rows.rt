//! The rows of a frame's table: which map a number names, and the tests of a map that hold no
//! sub-frame.
ghost use Rattle.std.specs.Prelude.{◌≡◌, ◌<◌, IfNone, IfSome, length, is_some};
ghost use Rattle.std.specs.List.{list_any};
ghost use Rattle.def_nested.specs.Nested.{flags_of, match_none};
ghost use Rattle.def_nested.specs.Unfolding.{above, nested, sub_frame};
ghost use Rattle.def_framing.specs.Matching.{among, id_matches, is_wild, tests_id, tests_types, types_match};
ghost use Rattle.lf_rdf.specs.Equality.{term_eq};
ghost use Rattle.lf_match.specs.Rows.{IsRowFor};

use lf_base::Same;
use lf_model::{Frame, FrameKind, IdTest, TypeTest};
use lf_rdf::{Term, TermList};

/// The map that a number names for the map `at`: one with a larger number. None is match-none.
pub fn later_row(frame: &Frame, at: u32, number: Option<u32>) -> Option<u32>
    ensures row { IfSome result (λ later. IsRowFor frame.now.nodes at number later) }
    ensures none { IfNone result (sub_frame (above at (nested frame.now.nodes)) number ≡ match_none) }
{
    match number {
        None => None,
        Some(later) => {
            if at < later && (later as u64) < frame.nodes.len() {
                Some(later)
            } else {
                None
            }
        }
    }
}

/// Whether a map is a wildcard: it has flags and `@default` alone.
pub fn row_is_wild(frame: &Frame, at: u32) -> bool
    ensures { result ≡ is_wild (nested frame.now.nodes at) }
{
    match frame.nodes.at(at as u64) {
        None => false,
        Some(row) => match row.kind {
            FrameKind::Wild => true,
            FrameKind::Node => false,
            FrameKind::Value(_) => false,
            FrameKind::List(_) => false,
        },
    }
}

/// Whether a map has `@default`.
pub fn row_has_default(frame: &Frame, at: u32) -> bool
    ensures { result ≡ is_some (flags_of (nested frame.now.nodes at)).fallback }
{
    match frame.nodes.at(at as u64) {
        None => false,
        Some(row) => row.fallback.is_some(),
    }
}

/// Whether a map has an id test.
pub fn asks_id(test: &IdTest) -> bool
    ensures { result ≡ tests_id test.now }
{
    match test {
        IdTest::Absent => false,
        IdTest::Any => true,
        IdTest::Never => true,
        IdTest::OneOf(_) => true,
    }
}

/// Whether a map has a type test.
pub fn asks_types(test: &TypeTest) -> bool
    ensures { result ≡ tests_types test.now }
{
    match test {
        TypeTest::Absent => false,
        TypeTest::Any => true,
        TypeTest::Never => true,
        TypeTest::OneOf(_) => true,
        TypeTest::Fallback(_) => true,
    }
}

/// Whether an id test matches a node.
pub fn id_fits(test: &IdTest, id: &Term) -> bool
    ensures { result ≡ id_matches test.now id.now }
{
    match test {
        IdTest::Absent => true,
        IdTest::Any => true,
        IdTest::Never => false,
        IdTest::OneOf(ids) => has_term(ids, id),
    }
}

/// Whether a type test matches a node by its types.
pub fn types_fit(test: &TypeTest, types: &TermList) -> bool
    ensures { result ≡ types_match test.now types.now }
{
    match test {
        TypeTest::Absent => true,
        TypeTest::Any => !types.is_empty(),
        TypeTest::Never => types.is_empty(),
        TypeTest::OneOf(wanted) => has_one(wanted, types),
        TypeTest::Fallback(_) => true,
    }
}

fn has_one(wanted: &TermList, types: &TermList) -> bool
    ensures { result ≡ list_any (among wanted.now) types.now }
{
    types.as_slice().iter().any(|held| has_term(wanted, held))
}

fn has_term(terms: &TermList, term: &Term) -> bool
    ensures { result ≡ among terms.now term.now }
{
    terms.as_slice().iter().any(|other| same_term(term, other))
}

fn same_term(term: &Term, other: &Term) -> bool
    ensures { result ≡ term_eq term.now other.now }
{
    term.is(other)
}
