//! Which literals a value pattern accepts; `matching` calls it.
ghost use Rattle.std.specs.Prelude.{◌≡◌};
ghost use Rattle.def_framing.specs.ValuePatterns.{accepts_datatype, accepts_language, accepts_literal, accepts_value, is_plain, is_text, lists};

use lf_base::{Same, Text};
use lf_model::{PartTest, Scalar, ScalarList, ValuePattern};
use lf_rdf::{Term, is_xsd_string};

/// Whether a value pattern accepts a term: a literal that each part accepts (JSON-LD 1.1 Framing,
/// section 4.2.5).
pub fn pattern_accepts(pattern: &ValuePattern, term: &Term) -> bool
    ensures { result ≡ accepts_literal pattern.now term.now }
{
    match term {
        Term::Literal {
            lexical,
            datatype,
            language,
        } => {
            value_accepts(&pattern.value, lexical)
                && datatype_accepts(&pattern.datatype, datatype, language)
                && language_accepts(&pattern.language, language)
        }
        Term::Iri(_) => false,
        Term::Blank(_) => false,
    }
}

fn value_accepts(part: &PartTest, lexical: &Text) -> bool
    ensures { result ≡ accepts_value part.now lexical.now }
{
    match part {
        PartTest::Absent => true,
        PartTest::Any => true,
        PartTest::Never => false,
        PartTest::OneOf(scalars) => has_text(scalars, lexical),
    }
}

fn datatype_accepts(part: &PartTest, datatype: &Text, language: &Option<Text>) -> bool
    ensures { result ≡ accepts_datatype part.now datatype.now language.now }
{
    let plain = plain_literal(datatype, language);
    match part {
        PartTest::Absent => plain,
        PartTest::Any => !plain,
        PartTest::Never => plain,
        PartTest::OneOf(scalars) => !plain && has_text(scalars, datatype),
    }
}

fn language_accepts(part: &PartTest, language: &Option<Text>) -> bool
    ensures { result ≡ accepts_language part.now language.now }
{
    match part {
        PartTest::Absent => language.is_none(),
        PartTest::Any => language.is_some(),
        PartTest::Never => language.is_none(),
        PartTest::OneOf(scalars) => match language {
            Some(tag) => has_text(scalars, tag),
            None => false,
        },
    }
}

// A literal without a datatype of its own: a plain string, or one with a language.
fn plain_literal(datatype: &Text, language: &Option<Text>) -> bool
    ensures { result ≡ is_plain datatype.now language.now }
{
    is_xsd_string(datatype.as_str()) || language.is_some()
}

fn has_text(scalars: &ScalarList, text: &Text) -> bool
    ensures { result ≡ lists scalars.now text.now }
{
    scalars
        .as_slice()
        .iter()
        .any(|scalar| scalar_is(scalar, text))
}

fn scalar_is(scalar: &Scalar, text: &Text) -> bool
    ensures { result ≡ is_text text.now scalar.now }
{
    match scalar {
        Scalar::Text(other) => text.is(other),
        Scalar::Whole(_) => false,
        Scalar::Bool(_) => false,
    }
}
