//! A text, number or truth value of a frame, by the term under which it stands
//! (JSON-LD 1.1 Processing Algorithms and API, section 5.3: value expansion).
ghost use Rattle.std.specs.Prelude.{◌≡◌, IfOk, false, true};
ghost use Rattle.std.specs.Option.{option_copied};
ghost use Rattle.def_contexts.specs.GivenValues.{coercion_named, coercion_of, language_under, text_coerced, other_coerced, given, reference_or_refused};
ghost use Rattle.def_contexts.specs.NodeTests.{node_named};
ghost use Rattle.lf_expand.specs.Gives.{Gives};
ghost use Rattle.lf_expand.specs.GivenData.{coercion_data, given_data};

use crate::error::FrameErr;
use crate::node_tests::node_named;
use crate::terms::Terms;
use lf_base::{Memory, Text, TryCopy};
use lf_model::{LdError, Scalar, TermDef};
use lf_rdf::Term;
use std::alloc::Global;

/// A reference to a node, or a scalar with its datatype or its language.
#[derive(Debug, Drop)]
pub enum Given {
    Reference(Term),
    Plain {
        scalar: Scalar,
        datatype: Option<Text>,
        language: Option<Text>,
    },
}

// What a type mapping makes of a value.
enum Coercion<'a> {
    ToId,
    ToVocab,
    ToDatatype(&'a Text),
    Uncoerced,
}

// The type coercion of a term.
fn coercion_of(term: Option<&TermDef>) -> Coercion<'_>
    ensures { coercion_data result ≡ coercion_of (option_copied term.entry) }
{
    match term {
        Some(term) => match &term.coercion {
            Some(name) => coercion_named(name),
            None => Coercion::Uncoerced,
        },
        None => Coercion::Uncoerced,
    }
}

// The type coercion that a type mapping names.
fn coercion_named(name: &Text) -> Coercion<'_>
    ensures { coercion_data result ≡ coercion_named (Some name.now) }
{
    match name.as_str() {
        "@id" => Coercion::ToId,
        "@vocab" => Coercion::ToVocab,
        "@none" => Coercion::Uncoerced,
        _ => Coercion::ToDatatype(name),
    }
}

// The language of a text: the term's, or else the default language.
fn language_under(
    alloc: Global,
    terms: &Terms<'_>,
    term: Option<&TermDef>,
) -> Result<Option<Text>, Memory>
    ensures { IfOk result
        (λ language. language ≡ language_under terms.now.table.now (option_copied term.entry)) }
{
    match term {
        Some(term) => match &term.language {
            Some(own) => own.copy(alloc),
            None => terms.language(alloc),
        },
        None => terms.language(alloc),
    }
}

// The node that a text names.
fn reference(alloc: Global, terms: &Terms<'_>, text: &Text, vocab: bool) -> Result<Given, FrameErr>
    ensures { Gives given_data result
        (reference_or_refused (node_named terms.now.table.now vocab text.now)) }
{
    match node_named(alloc, terms, text, vocab)? {
        Some(node) => Ok(Given::Reference(node)),
        None => Err(FrameErr::Ld(LdError::InvalidIdValue)),
    }
}

// What a text stands for.
fn text_given(
    alloc: Global,
    terms: &Terms<'_>,
    term: Option<&TermDef>,
    text: &Text,
) -> Result<Given, FrameErr>
    ensures { Gives given_data result (text_coerced (coercion_of (option_copied term.entry))
        terms.now.table.now (option_copied term.entry) text.now) }
{
    match coercion_of(term) {
        Coercion::ToId => reference(alloc, terms, text, false),
        Coercion::ToVocab => reference(alloc, terms, text, true),
        Coercion::ToDatatype(iri) => Ok(Given::Plain {
            scalar: Scalar::Text(text.copy(alloc)?),
            datatype: Some(iri.copy(alloc)?),
            language: None,
        }),
        Coercion::Uncoerced => Ok(Given::Plain {
            scalar: Scalar::Text(text.copy(alloc)?),
            datatype: None,
            language: language_under(alloc, terms, term)?,
        }),
    }
}

// What a number or a truth value stands for.
fn other_given(alloc: Global, term: Option<&TermDef>, scalar: Scalar) -> Result<Given, Memory>
    ensures { IfOk result
        (λ g. given_data g ≡ other_coerced (coercion_of (option_copied term.entry)) scalar) }
{
    match coercion_of(term) {
        Coercion::ToDatatype(iri) => Ok(Given::Plain {
            scalar,
            datatype: Some(iri.copy(alloc)?),
            language: None,
        }),
        Coercion::ToId => Ok(Given::Plain {
            scalar,
            datatype: None,
            language: None,
        }),
        Coercion::ToVocab => Ok(Given::Plain {
            scalar,
            datatype: None,
            language: None,
        }),
        Coercion::Uncoerced => Ok(Given::Plain {
            scalar,
            datatype: None,
            language: None,
        }),
    }
}

/// What a scalar stands for under a term.
#[tactic(auto, unfolding(def_contexts::specs::GivenValues::given))]
pub fn value_given(
    alloc: Global,
    terms: &Terms<'_>,
    term: Option<&TermDef>,
    scalar: Scalar,
) -> Result<Given, FrameErr>
    ensures { Gives given_data result (given terms.now.table.now (option_copied term.entry) scalar) }
{
    match scalar {
        Scalar::Text(text) => text_given(alloc, terms, term, &text),
        Scalar::Whole(number) => Ok(other_given(alloc, term, Scalar::Whole(number))?),
        Scalar::Bool(truth) => Ok(other_given(alloc, term, Scalar::Bool(truth))?),
    }
}
