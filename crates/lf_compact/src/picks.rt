//! Picks of texts and scalars, and what all picks are made of (JSON-LD 1.1 Processing Algorithms
//! and API, section 6.2.2).
ghost use Rattle.std.specs.Prelude.{◌≡◌, ◌∷◌, [], IfOk};
ghost use Rattle.def_documents.specs.Picks as def;

use def_selection::{ContainerList, Pick, PickKind};
use lf_base::{ListOf, Memory, Text, TextList, TryCopy};
use lf_model::Container;
use lf_rdf::{Term, is_xsd_string};
use std::alloc::Global;

/// The containers that a node asks for: `@set`, or none.
pub fn sets(alloc: Global) -> Result<ContainerList, Memory>
    ensures { IfOk result (λ containers. containers ≡ def.sets) }
{
    Ok(ListOf::from_vec(vec![in alloc; Container::Set, Container::NoContainer]?))
}

/// The slots of a pick: these, then no type or language, then any.
#[tactic(auto, unfolding(def_selection::specs::Keywords::at_any, def_selection::specs::Keywords::at_none), using(std::proofs::lemmas::List::append_assoc))]
pub fn pick(
    alloc: Global,
    containers: ContainerList,
    kind: PickKind,
    preferred: TextList,
) -> Result<Pick, Memory>
    ensures { IfOk result (λ made. made ≡ def.pick containers kind preferred) }
{
    let mut preferred = preferred;
    preferred.push(Text::of(alloc, "@none")?)?;
    preferred.push(Text::of(alloc, "@any")?)?;
    Ok(Pick {
        containers,
        kind,
        preferred,
        has_value: true,
    })
}

/// A list of one slot.
pub fn only(alloc: Global, name: Text) -> Result<TextList, Memory>
    ensures { IfOk result (λ names. names ≡ name ∷ []) }
{
    Ok(ListOf::from_vec(vec![in alloc; name]?))
}

/// A literal with a language: a language map first.
pub fn language_pick(alloc: Global, language: &Text) -> Result<Pick, Memory>
    ensures { IfOk result (λ made. made ≡ def.language_pick language.now) }
{
    let containers = ListOf::from_vec(vec![in alloc;
        Container::Language,
        Container::LanguageSet,
        Container::Set,
        Container::NoContainer,
    ]?);
    let preferred = only(alloc, language.copy(alloc)?)?;
    pick(alloc, containers, PickKind::LanguageKind, preferred)
}

/// A literal or scalar with a datatype.
pub fn datatype_pick(alloc: Global, datatype: &Text) -> Result<Pick, Memory>
    ensures { IfOk result (λ made. made ≡ def.datatype_pick datatype.now) }
{
    let preferred = only(alloc, datatype.copy(alloc)?)?;
    pick(alloc, sets(alloc)?, PickKind::TypeKind, preferred)
}

/// Any other literal or scalar: a language map last.
#[tactic(auto, unfolding(def_selection::specs::Keywords::at_null))]
pub fn untyped_pick(alloc: Global) -> Result<Pick, Memory>
    ensures { IfOk result (λ made. made ≡ def.untyped_pick) }
{
    let containers = ListOf::from_vec(vec![in alloc;
        Container::Set,
        Container::NoContainer,
        Container::Language,
        Container::LanguageSet,
    ]?);
    let preferred = only(alloc, Text::of(alloc, "@null")?)?;
    pick(alloc, containers, PickKind::LanguageKind, preferred)
}

/// What a scalar of a default asks for, by its datatype.
pub fn scalar_pick(alloc: Global, datatype: &Option<Text>) -> Result<Pick, Memory>
    ensures { IfOk result (λ made. made ≡ def.scalar_pick datatype.now) }
{
    match datatype {
        Some(datatype) => datatype_pick(alloc, datatype),
        None => untyped_pick(alloc),
    }
}

/// What a literal without a language asks for, by its datatype.
pub fn string_pick(alloc: Global, datatype: &Text) -> Result<Pick, Memory>
    ensures { IfOk result (λ made. made ≡ def.scalar_pick (def.counted_datatype datatype.now)) }
{
    if is_xsd_string(datatype.as_str()) {
        untyped_pick(alloc)
    } else {
        datatype_pick(alloc, datatype)
    }
}

/// What a literal asks for.
pub fn literal_pick(alloc: Global, literal: &Term) -> Result<Pick, Memory>
    ensures { IfOk result (λ made. made
        ≡ def.literal_pick (def.literal_plain literal.now).language (def.literal_plain literal.now).datatype) }
{
    match literal {
        Term::Literal {
            datatype,
            language,
            ..
        } => match language {
            Some(language) => language_pick(alloc, language),
            None => string_pick(alloc, datatype),
        },
        Term::Iri(_) => untyped_pick(alloc),
        Term::Blank(_) => untyped_pick(alloc),
    }
}
