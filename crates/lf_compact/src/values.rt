//! Compaction of values (JSON-LD 1.1 Processing Algorithms and API, section 6.1.2).
ghost use Rattle.std.specs.Prelude.{◌≡◌, ◌∷◌, IfOk};
ghost use Rattle.lf_base.specs.Ascii as ch;
ghost use Rattle.lf_rdf.specs.Equality.{option_eq, text_eq};
ghost use Rattle.std.specs.Option.{option_copied};
ghost use Rattle.lf_model.specs.JsonBridge.{json_data};
ghost use Rattle.lf_model.specs.JsonData.{text};
ghost use Rattle.def_documents.specs.Picks as picks;
ghost use Rattle.def_documents.specs.Values as def;
ghost use Rattle.lf_compact.specs.Plains.{plain_data};

use lf_base::{Memory, Text, TryCopy};
use lf_model::{Json, Scalar, TermDef, TermTable};
use lf_rdf::{Term, is_xsd_string};
use std::alloc::Global;

/// A value object: its scalar, its datatype and its language.
#[derive(Drop)]
pub struct Plain {
    pub scalar: Json,
    pub datatype: Option<Text>,
    pub language: Option<Text>,
}

/// A text as a JSON value.
#[tactic(auto, using(lf_model::proofs::JsonLemmas::json_cases))]
pub fn text_json(alloc: Global, characters: &Text) -> Result<Json, Memory>
    ensures { IfOk result (λ json. json_data json ≡ text characters.now) }
{
    Ok(Json::Text(characters.copy(alloc)?))
}

// The datatype, unless it is `xsd:string`.
fn counted_datatype(alloc: Global, datatype: &Text) -> Result<Option<Text>, Memory>
    ensures { IfOk result (λ counted. counted ≡ picks.counted_datatype datatype.now) }
{
    if is_xsd_string(datatype.as_str()) {
        Ok(None)
    } else {
        Ok(Some(datatype.copy(alloc)?))
    }
}

// The id of a blank node as a JSON value.
#[tactic(auto, using(lf_model::proofs::JsonLemmas::json_cases))]
fn blank_json(alloc: Global, label: &Text) -> Result<Json, Memory>
    ensures { IfOk result (λ json. json_data json ≡ text (ch.underscore ∷ ch.colon ∷ label.now)) }
{
    let mut id = String::from_str(alloc, "_:")?;
    id.push_str(label.as_str())?;
    Ok(Json::Text(Text::from_string(id)?))
}

/// The value object of a literal; one with a language has no datatype, nor has a plain string.
pub fn literal_plain(alloc: Global, literal: &Term) -> Result<Plain, Memory>
    ensures { IfOk result (λ plain. plain_data plain ≡ picks.literal_plain literal.now) }
{
    match literal {
        Term::Literal {
            lexical,
            datatype,
            language,
        } => match language {
            Some(language) => Ok(Plain {
                scalar: text_json(alloc, lexical)?,
                datatype: None,
                language: Some(language.copy(alloc)?),
            }),
            None => Ok(Plain {
                scalar: text_json(alloc, lexical)?,
                datatype: counted_datatype(alloc, datatype)?,
                language: None,
            }),
        },
        Term::Iri(iri) => Ok(Plain {
            scalar: text_json(alloc, iri)?,
            datatype: None,
            language: None,
        }),
        Term::Blank(label) => Ok(Plain {
            scalar: blank_json(alloc, label)?,
            datatype: None,
            language: None,
        }),
    }
}

// A scalar as a JSON value.
#[tactic(auto, using(lf_model::proofs::JsonLemmas::json_cases))]
fn scalar_json(alloc: Global, scalar: &Scalar) -> Result<Json, Memory>
    ensures { IfOk result (λ json. json_data json ≡ picks.scalar_json scalar.now) }
{
    match scalar {
        Scalar::Text(characters) => text_json(alloc, characters),
        Scalar::Whole(number) => Ok(Json::Whole(*number)),
        Scalar::Bool(truth) => Ok(Json::Bool(*truth)),
    }
}

/// The value object of a default scalar, whose datatype stays as it is written.
pub fn scalar_plain(
    alloc: Global,
    scalar: &Scalar,
    datatype: &Option<Text>,
    language: &Option<Text>,
) -> Result<Plain, Memory>
    ensures { IfOk result
        (λ plain. plain_data plain ≡ picks.scalar_plain scalar.now datatype.now language.now) }
{
    Ok(Plain {
        scalar: scalar_json(alloc, scalar)?,
        datatype: datatype.copy(alloc)?,
        language: language.copy(alloc)?,
    })
}

/// Whether the coercion of the chosen term, if any, is this.
pub fn coerces_to(term: Option<&TermDef>, coercion: &str) -> bool
    ensures { result ≡ def.coerces_to coercion.now (option_copied term.entry) }
{
    match term {
        Some(term) => match &term.coercion {
            Some(own) => own.as_str() == coercion,
            None => false,
        },
        None => false,
    }
}

// Whether the type mapping of a term is the datatype.
fn is_coerced(term: Option<&TermDef>, datatype: &Option<Text>) -> bool
    ensures { result ≡ def.is_coerced (option_copied term.entry) datatype.now }
{
    match datatype {
        Some(datatype) => coerces_to(term, datatype.as_str()),
        None => false,
    }
}

// Whether two optional texts are the same.
fn is_same(one: &Option<Text>, two: &Option<Text>) -> bool
    ensures { result ≡ option_eq text_eq one.now two.now }
{
    match one {
        Some(one) => match two {
            Some(two) => one.as_str() == two.as_str(),
            None => false,
        },
        None => match two {
            Some(_) => false,
            None => true,
        },
    }
}

// Whether a text's language is the one that it has without saying so: the term's, else the table's.
fn has_language_under(table: &TermTable, term: Option<&TermDef>, language: &Option<Text>) -> bool
    ensures { result
        ≡ option_eq text_eq language.now
        (def.language_under table.now (option_copied term.entry)) }
{
    match term {
        Some(term) => match &term.language {
            Some(own) => is_same(language, own),
            None => is_same(language, &table.language),
        },
        None => is_same(language, &table.language),
    }
}

// Whether a value is a string.
#[tactic(auto, using(lf_model::proofs::JsonLemmas::json_cases))]
fn is_text(value: &Json) -> bool
    ensures { result ≡ def.is_text (json_data value.now) }
{
    match value {
        Json::Text(_) => true,
        Json::Null => false,
        Json::Bool(_) => false,
        Json::Whole(_) => false,
        Json::Fraction => false,
        Json::List(_) => false,
        Json::Map(_) => false,
    }
}

/// Whether a value is written as its scalar alone.
#[tactic(auto, unfolding(def_selection::specs::Keywords::at_none))]
pub fn is_bare(table: &TermTable, term: Option<&TermDef>, plain: &Plain) -> bool
    ensures { result ≡ def.is_bare table.now (option_copied term.entry) (plain_data plain.now) }
{
    if is_coerced(term, &plain.datatype) {
        return true;
    }
    if coerces_to(term, "@none") || plain.datatype.is_some() {
        return false;
    }
    !is_text(&plain.scalar) || has_language_under(table, term, &plain.language)
}
