//! What a compacted value gives to the entry of its property (JSON-LD 1.1 Processing Algorithms and
//! API, section 5.1.2, from step 12.8 on).
ghost use Rattle.std.specs.Prelude.{◌≡◌, IfOk};
ghost use Rattle.std.specs.Option.{option_copied};
ghost use Rattle.lf_model.specs.JsonBridge.{json_data};
ghost use Rattle.lf_model.specs.TreeBridge.{entry_data};
ghost use Rattle.def_documents.specs.Entries as def;
ghost use Rattle.def_documents.specs.Picks as picks;
ghost use Rattle.lf_compact.specs.Pieces.{piece_data};
ghost use Rattle.lf_compact.specs.Plains.{plain_data};

use crate::values::{Plain, literal_plain, scalar_plain};
use lf_base::{Memory, Text};
use lf_model::{Container, DefaultValue, Json, TermDef, TreeValue};
use lf_select::Inverse;
use std::alloc::Global;

/// What a value gives to the entry of its property: a value, a text or scalar of a language map, or
/// nothing.
#[derive(Drop)]
pub enum Piece {
    Whole(Json),
    InLanguage(Text, Json),
    Nothing,
}

/// A compacted value of a property: its key, the term chosen for it, if any, and what it gives.
#[derive(Drop)]
pub struct Filed<'a> {
    pub key: Text,
    pub term: Option<&'a TermDef>,
    pub piece: Piece,
}

/// The container of a term, where there is one.
pub fn container_of(term: Option<&TermDef>) -> Container
    ensures { result ≡ def.container_of (option_copied term.entry) }
{
    match term {
        Some(term) => term.container,
        None => Container::NoContainer,
    }
}

/// Whether values with this container stand under their languages.
pub fn is_language(container: Container) -> bool
    ensures { result ≡ def.is_language_container container }
{
    match container {
        Container::Language => true,
        Container::LanguageSet => true,
        Container::NoContainer => false,
        Container::Set => false,
        Container::List => false,
    }
}

/// Whether a container has `@set`.
pub fn has_set(container: Container) -> bool
    ensures { result ≡ def.has_set container }
{
    match container {
        Container::Set => true,
        Container::LanguageSet => true,
        Container::NoContainer => false,
        Container::List => false,
        Container::Language => false,
    }
}

/// Whether a container is `@set` alone.
pub fn is_set(container: Container) -> bool
    ensures { result ≡ def.is_set container }
{
    match container {
        Container::Set => true,
        Container::LanguageSet => false,
        Container::NoContainer => false,
        Container::List => false,
        Container::Language => false,
    }
}

// A text or scalar under its language, or under the alias of `@none` where it has none.
#[tactic(auto, unfolding(def_selection::specs::Keywords::at_none))]
fn piece_in_language(alloc: Global, inverse: &Inverse, plain: Plain) -> Result<Piece, Memory>
    ensures { IfOk result
        (λ piece. piece_data piece ≡ def.piece_in_language inverse.now (plain_data plain)) }
{
    let Plain {
        scalar,
        language,
        ..
    } = plain;
    match language {
        Some(language) => Ok(Piece::InLanguage(language, scalar)),
        None => {
            let none = inverse.compact_keyword(alloc, "@none")?;
            Ok(Piece::InLanguage(none, scalar))
        }
    }
}

// What a default gives in a language map.
fn default_piece(
    alloc: Global,
    inverse: &Inverse,
    value: &DefaultValue,
    json: Json,
) -> Result<Piece, Memory>
    ensures { IfOk result
        (λ piece. piece_data piece ≡ def.default_piece inverse.now value.now (json_data json)) }
{
    match value {
        DefaultValue::Null => Ok(Piece::Whole(json)),
        DefaultValue::Ref(_) => Ok(Piece::Whole(json)),
        DefaultValue::Scalar {
            scalar,
            datatype,
            language,
        } => {
            drop(json);
            let plain = scalar_plain(alloc, scalar, datatype, language)?;
            piece_in_language(alloc, inverse, plain)
        }
    }
}

// What a value gives in a language map: literals and scalars go under their languages.
fn mapped_piece(
    alloc: Global,
    inverse: &Inverse,
    value: &TreeValue,
    json: Json,
) -> Result<Piece, Memory>
    ensures { IfOk result (λ piece.
        piece_data piece
        ≡ def.mapped_piece inverse.now (entry_data value.now) (json_data json)) }
{
    match value {
        TreeValue::Literal(literal) => {
            drop(json);
            let plain = literal_plain(alloc, literal)?;
            piece_in_language(alloc, inverse, plain)
        }
        TreeValue::Fallback(value) => default_piece(alloc, inverse, value, json),
        TreeValue::Node(_) => Ok(Piece::Whole(json)),
        TreeValue::List(_) => Ok(Piece::Whole(json)),
        TreeValue::EmptyFallback => {
            drop(json);
            Ok(Piece::Nothing)
        }
    }
}

// What a value gives outside a language map: an empty default gives nothing.
fn plain_piece(value: &TreeValue, json: Json) -> Piece
    ensures { piece_data result ≡ def.plain_piece (entry_data value.now) (json_data json) }
{
    match value {
        TreeValue::EmptyFallback => {
            drop(json);
            Piece::Nothing
        }
        TreeValue::Node(_) => Piece::Whole(json),
        TreeValue::Literal(_) => Piece::Whole(json),
        TreeValue::List(_) => Piece::Whole(json),
        TreeValue::Fallback(_) => Piece::Whole(json),
    }
}

/// What a value gives under the term that is chosen for it, by what it is compacted to.
pub fn piece_of(
    alloc: Global,
    inverse: &Inverse,
    term: Option<&TermDef>,
    value: &TreeValue,
    json: Json,
) -> Result<Piece, Memory>
    ensures { IfOk result (λ piece. piece_data piece
        ≡ def.piece_of inverse.now (option_copied term.entry) (entry_data value.now) (json_data json)) }
{
    if is_language(container_of(term)) {
        mapped_piece(alloc, inverse, value, json)
    } else {
        Ok(plain_piece(value, json))
    }
}
