//! What a frame asks of a node's id and types (JSON-LD 1.1 Framing, section 4.1 and section 5.3,
//! step 1).
ghost use Rattle.std.specs.Prelude.{◌≡◌, IfOk, [], true};
ghost use Rattle.std.specs.Option.{option_copied};
ghost use Rattle.lf_model.specs.JsonBridge.{json_data, items_data, members_data};
ghost use Rattle.lf_model.specs.JsonData.{object, member, no_members};
ghost use Rattle.def_contexts.specs.NodeTests.{is_any, is_never, node_of_id, node_named, cons_node, nodes_of, nodes_of_items, id_test_of, type_test_of, types_given, type_list};
ghost use Rattle.lf_expand.specs.Gives.{Gives};
ghost use Rattle.lf_expand.specs.JsonTests.{is_empty_map, text_in};

use crate::error::FrameErr;
use crate::label::blank_label;
use crate::terms::Terms;
use lf_base::{ListOf, Memory, Text};
use lf_context::is_absolute;
use lf_model::{IdTest, Json, LdError, TypeTest};
use lf_rdf::{Term, TermList};
use lf_sorted::Entry;
use std::alloc::Global;

// Whether a value is the empty map.
fn is_empty_map(value: &Json) -> bool
    ensures { result ≡ is_empty_map (json_data value.now) }
{
    match value {
        Json::Map(members) => match members.as_slice() {
            [] => true,
            [_first, _rest @ ..] => false,
        },
        Json::Null => false,
        Json::Bool(_) => false,
        Json::Whole(_) => false,
        Json::Fraction => false,
        Json::Text(_) => false,
        Json::List(_) => false,
    }
}

/// Whether a value asks for any: it is the empty map, alone or in an array.
pub fn is_any(value: &Json) -> bool
    ensures { result ≡ is_any (json_data value.now) }
{
    match value {
        Json::List(items) => match items.as_slice() {
            [] => false,
            [only, rest @ ..] => match rest {
                [] => is_empty_map(only),
                [_second, _more @ ..] => false,
            },
        },
        Json::Map(_) => is_empty_map(value),
        Json::Null => false,
        Json::Bool(_) => false,
        Json::Whole(_) => false,
        Json::Fraction => false,
        Json::Text(_) => false,
    }
}

/// Whether a value asks for none: it is the empty array.
pub fn is_never(value: &Json) -> bool
    ensures { result ≡ is_never (json_data value.now) }
{
    match value {
        Json::List(items) => match items.as_slice() {
            [] => true,
            [_first, _rest @ ..] => false,
        },
        Json::Map(_) => false,
        Json::Null => false,
        Json::Bool(_) => false,
        Json::Whole(_) => false,
        Json::Fraction => false,
        Json::Text(_) => false,
    }
}

// The node of an id.
fn node_of_id(alloc: Global, id: Text) -> Result<Option<Term>, Memory>
    ensures { IfOk result (λ node. node ≡ node_of_id id) }
{
    if is_absolute(id.as_str()) {
        return Ok(Some(Term::Iri(id)));
    }
    match blank_label(id.as_str()) {
        Some(label) => Ok(Some(Term::Blank(Text::of(alloc, label)?))),
        None => Ok(None),
    }
}

/// The node that a text expands to.
pub fn node_named(
    alloc: Global,
    terms: &Terms<'_>,
    name: &Text,
    vocab: bool,
) -> Result<Option<Term>, Memory>
    ensures { IfOk result (λ node. node ≡ node_named terms.now.table.now vocab name.now) }
{
    match terms.expand(alloc, name, vocab)? {
        Some(id) => node_of_id(alloc, id),
        None => Ok(None),
    }
}

// The nodes of the texts of an array.
fn nodes_of_items(
    alloc: Global,
    terms: &Terms<'_>,
    items: &[Json],
    vocab: bool,
) -> Result<Option<TermList>, Memory>
    ensures { IfOk result
        (λ nodes. nodes ≡ nodes_of_items terms.now.table.now vocab (items_data items.now)) }
{
    let mut nodes = ListOf::new(alloc);
    for item in items {
        match text_in(item) {
            Some(name) => match node_named(alloc, terms, name, vocab)? {
                Some(node) => nodes.push(node)?,
                None => return Ok(None),
            },
            None => return Ok(None),
        }
    }
    Ok(Some(nodes))
}

/// The text that a value is.
pub fn text_in(value: &Json) -> Option<&Text>
    ensures { option_copied result ≡ text_in (json_data value.now) }
{
    match value {
        Json::Text(text) => Some(text),
        Json::Null => None,
        Json::Bool(_) => None,
        Json::Whole(_) => None,
        Json::Fraction => None,
        Json::List(_) => None,
        Json::Map(_) => None,
    }
}

// The nodes of a text or an array of texts.
fn nodes_of(
    alloc: Global,
    terms: &Terms<'_>,
    value: &Json,
    vocab: bool,
) -> Result<Option<TermList>, Memory>
    ensures { IfOk result (λ nodes. nodes ≡ nodes_of terms.now.table.now vocab (json_data value.now)) }
{
    match value {
        Json::Text(name) => node_alone(alloc, terms, name, vocab),
        Json::List(items) => nodes_of_items(alloc, terms, items.as_slice(), vocab),
        Json::Null => Ok(None),
        Json::Bool(_) => Ok(None),
        Json::Whole(_) => Ok(None),
        Json::Fraction => Ok(None),
        Json::Map(_) => Ok(None),
    }
}

// The node of one text as a list.
fn node_alone(
    alloc: Global,
    terms: &Terms<'_>,
    name: &Text,
    vocab: bool,
) -> Result<Option<TermList>, Memory>
    ensures { IfOk result
        (λ nodes. nodes ≡ cons_node (node_named terms.now.table.now vocab name.now) (Some [])) }
{
    match node_named(alloc, terms, name, vocab)? {
        Some(node) => {
            let mut nodes = ListOf::new(alloc);
            nodes.push(node)?;
            Ok(Some(nodes))
        }
        None => Ok(None),
    }
}

/// `@id`.
pub fn id_test_of(alloc: Global, terms: &Terms<'_>, value: &Json) -> Result<IdTest, FrameErr>
    ensures { Gives (λ test. test) result (id_test_of terms.now.table.now (json_data value.now)) }
{
    if is_any(value) {
        return Ok(IdTest::Any);
    }
    if is_never(value) {
        return Ok(IdTest::Never);
    }
    match nodes_of(alloc, terms, value, false)? {
        Some(ids) => Ok(IdTest::OneOf(ids)),
        None => Err(FrameErr::Ld(LdError::InvalidIdValue)),
    }
}

/// `@type`.
pub fn type_test_of(alloc: Global, terms: &Terms<'_>, value: &Json) -> Result<TypeTest, FrameErr>
    ensures { Gives (λ test. test) result (type_test_of terms.now.table.now (json_data value.now)) }
{
    if is_any(value) {
        return Ok(TypeTest::Any);
    }
    if is_never(value) {
        return Ok(TypeTest::Never);
    }
    match value {
        Json::Map(members) => types_by_default(alloc, terms, members.as_slice()),
        Json::Null => types_asked(alloc, terms, value),
        Json::Bool(_) => types_asked(alloc, terms, value),
        Json::Whole(_) => types_asked(alloc, terms, value),
        Json::Fraction => types_asked(alloc, terms, value),
        Json::Text(_) => types_asked(alloc, terms, value),
        Json::List(_) => types_asked(alloc, terms, value),
    }
}

// Types that a node must have.
fn types_asked(alloc: Global, terms: &Terms<'_>, value: &Json) -> Result<TypeTest, FrameErr>
    ensures { Gives (λ test. test) result
        (type_list (nodes_of terms.now.table.now true (json_data value.now))) }
{
    match nodes_of(alloc, terms, value, true)? {
        Some(types) => Ok(TypeTest::OneOf(types)),
        None => Err(FrameErr::Ld(LdError::InvalidTypeValue)),
    }
}

// `@default` alone gives types to a node that has none.
fn types_by_default(
    alloc: Global,
    terms: &Terms<'_>,
    members: &[Entry<Json>],
) -> Result<TypeTest, FrameErr>
    ensures { Gives (λ test. test) result
        (types_given terms.now.table.now (object (members_data members.now))) }
{
    match members {
        [] => Err(FrameErr::Ld(LdError::InvalidTypeValue)),
        [only, rest @ ..] => match rest {
            [] => types_of_member(alloc, terms, only),
            [_second, _more @ ..] => Err(FrameErr::Ld(LdError::InvalidTypeValue)),
        },
    }
}

fn types_of_member(
    alloc: Global,
    terms: &Terms<'_>,
    only: &Entry<Json>,
) -> Result<TypeTest, FrameErr>
    ensures { Gives (λ test. test) result (types_given terms.now.table.now
        (object (member only.now.key (json_data only.now.value) no_members))) }
{
    if only.key.as_str() == "@default" {
        match nodes_of(alloc, terms, &only.value, true)? {
            Some(types) => Ok(TypeTest::Fallback(types)),
            None => Err(FrameErr::Ld(LdError::InvalidTypeValue)),
        }
    } else {
        Err(FrameErr::Ld(LdError::InvalidTypeValue))
    }
}
