//! Value patterns (JSON-LD 1.1 Framing, section 4.1).
ghost use Rattle.std.specs.Prelude.{◌≡◌, ◌∷◌, [], IfOk, true};
ghost use Rattle.lf_model.specs.JsonBridge.{json_data, items_data};
ghost use Rattle.def_contexts.specs.ValuePatterns.{scalar_of, absolute_scalar, cons_scalar, scalars_of, scalars_of_items, part_of, no_pattern, one_text, pattern_of};
ghost use Rattle.lf_expand.specs.Gives.{Gives};
ghost use Rattle.def_contexts.specs.Expansion.{expand};
ghost use Rattle.lf_expand.specs.PatternParts.{read_as};

use crate::error::FrameErr;
use crate::node_tests::{is_any, is_never, text_in};
use crate::terms::Terms;
use lf_base::{ListOf, Memory, Text, TryCopy};
use lf_context::{is_absolute, lower};
use lf_model::{Json, LdError, PartTest, Scalar, ScalarList, ValuePattern};
use std::alloc::Global;

/// The parts of a value pattern.
#[derive(Clone, Copy, Debug)]
pub enum Part {
    Value,
    Datatype,
    Language,
}

/// A text, number or truth value.
pub fn scalar_of(alloc: Global, value: &Json) -> Result<Option<Scalar>, Memory>
    ensures { IfOk result (λ scalar. scalar ≡ scalar_of (json_data value.now)) }
{
    match value {
        Json::Text(text) => Ok(Some(Scalar::Text(text.copy(alloc)?))),
        Json::Whole(number) => Ok(Some(Scalar::Whole(*number))),
        Json::Bool(truth) => Ok(Some(Scalar::Bool(*truth))),
        Json::Null => Ok(None),
        Json::Fraction => Ok(None),
        Json::List(_) => Ok(None),
        Json::Map(_) => Ok(None),
    }
}

// One value of a part: a scalar, an absolute IRI, or a language in small letters.
fn read_as(
    alloc: Global,
    terms: &Terms<'_>,
    part: Part,
    value: &Json,
) -> Result<Option<Scalar>, Memory>
    ensures { IfOk result (λ scalar. scalar ≡ read_as terms.now.table.now part (json_data value.now)) }
{
    match part {
        Part::Value => scalar_of(alloc, value),
        Part::Datatype => match text_in(value) {
            Some(name) => datatype_named(alloc, terms, name),
            None => Ok(None),
        },
        Part::Language => match text_in(value) {
            Some(language) => Ok(Some(Scalar::Text(lower(alloc, language.as_str())?))),
            None => Ok(None),
        },
    }
}

// The absolute IRI that a text expands to.
fn datatype_named(alloc: Global, terms: &Terms<'_>, name: &Text) -> Result<Option<Scalar>, Memory>
    ensures { IfOk result (λ scalar. scalar ≡ absolute_scalar (expand terms.now.table.now name.now true)) }
{
    match terms.expand(alloc, name, true)? {
        Some(iri) => {
            if is_absolute(iri.as_str()) {
                Ok(Some(Scalar::Text(iri)))
            } else {
                Ok(None)
            }
        }
        None => Ok(None),
    }
}

// The values of an array.
fn scalars_of_items(
    alloc: Global,
    terms: &Terms<'_>,
    part: Part,
    items: &[Json],
) -> Result<Option<ScalarList>, Memory>
    ensures { IfOk result (λ scalars.
        scalars ≡ scalars_of_items (read_as terms.now.table.now part) (items_data items.now)) }
{
    let mut scalars = ListOf::new(alloc);
    for item in items {
        match read_as(alloc, terms, part, item)? {
            Some(scalar) => scalars.push(scalar)?,
            None => return Ok(None),
        }
    }
    Ok(Some(scalars))
}

// One value or an array of values.
fn scalars_of(
    alloc: Global,
    terms: &Terms<'_>,
    part: Part,
    value: &Json,
) -> Result<Option<ScalarList>, Memory>
    ensures { IfOk result (λ scalars.
        scalars ≡ scalars_of (read_as terms.now.table.now part) (json_data value.now)) }
{
    match value {
        Json::List(items) => scalars_of_items(alloc, terms, part, items.as_slice()),
        Json::Null => scalar_alone(alloc, terms, part, value),
        Json::Bool(_) => scalar_alone(alloc, terms, part, value),
        Json::Whole(_) => scalar_alone(alloc, terms, part, value),
        Json::Fraction => scalar_alone(alloc, terms, part, value),
        Json::Text(_) => scalar_alone(alloc, terms, part, value),
        Json::Map(_) => scalar_alone(alloc, terms, part, value),
    }
}

// The scalar of a value pattern that is no array.
fn scalar_alone(
    alloc: Global,
    terms: &Terms<'_>,
    part: Part,
    value: &Json,
) -> Result<Option<ScalarList>, Memory>
    ensures { IfOk result (λ scalars.
        scalars
        ≡ cons_scalar (read_as terms.now.table.now part (json_data value.now)) (Some [])) }
{
    match read_as(alloc, terms, part, value)? {
        Some(scalar) => Ok(Some(one_scalar(alloc, scalar)?)),
        None => Ok(None),
    }
}

// A list of one scalar.
fn one_scalar(alloc: Global, scalar: Scalar) -> Result<ScalarList, Memory>
    ensures { IfOk result (λ scalars. scalars ≡ scalar ∷ []) }
{
    let mut scalars = ListOf::new(alloc);
    scalars.push(scalar)?;
    Ok(scalars)
}

/// A part of a value pattern: any, never, or a list of what its values are read as.
pub fn part_of(
    alloc: Global,
    terms: &Terms<'_>,
    part: Part,
    value: &Json,
) -> Result<PartTest, FrameErr>
    ensures { Gives (λ test. test) result
        (part_of (read_as terms.now.table.now part) (json_data value.now)) }
{
    if is_any(value) {
        return Ok(PartTest::Any);
    }
    if is_never(value) {
        return Ok(PartTest::Never);
    }
    match scalars_of(alloc, terms, part, value)? {
        Some(scalars) => Ok(PartTest::OneOf(scalars)),
        None => Err(FrameErr::Ld(LdError::InvalidValueObject)),
    }
}

/// The pattern without parts.
pub fn no_pattern() -> ValuePattern
    ensures { result ≡ no_pattern }
{
    ValuePattern {
        value: PartTest::Absent,
        datatype: PartTest::Absent,
        language: PartTest::Absent,
    }
}

// The one text of a part, where there is one.
fn one_text(alloc: Global, text: Option<Text>) -> Result<PartTest, Memory>
    ensures { IfOk result (λ test. test ≡ one_text text) }
{
    match text {
        Some(text) => Ok(PartTest::OneOf(one_scalar(alloc, Scalar::Text(text))?)),
        None => Ok(PartTest::Absent),
    }
}

/// The pattern of one scalar with its datatype and its language.
pub fn pattern_of(
    alloc: Global,
    scalar: Scalar,
    datatype: Option<Text>,
    language: Option<Text>,
) -> Result<ValuePattern, Memory>
    ensures { IfOk result (λ pattern. pattern ≡ pattern_of scalar datatype language) }
{
    Ok(ValuePattern {
        value: PartTest::OneOf(one_scalar(alloc, scalar)?),
        datatype: one_text(alloc, datatype)?,
        language: one_text(alloc, language)?,
    })
}
