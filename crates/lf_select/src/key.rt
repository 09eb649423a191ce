//! The keys under which an IRI's terms are filed, and those of a term.
ghost use Rattle.std.specs.Prelude.{◌≡◌, IfOk};
ghost use Rattle.lf_select.specs.Keys.{coerced_keys, container_number, key_of, keys_of, kind_number, language_keys, unmapped_keys};

use def_selection::PickKind;
use lf_base::{Memory, Text, TryCopy};
use lf_model::{Container, TermDef, TermTable};
use std::alloc::Global;

/// A container and a slot (JSON-LD 1.1 Processing Algorithms and API, section 4.3), by numbers
/// where their types have no order.
#[derive(Debug, PartialEq, Eq, PartialOrd, Ord, Drop)]
pub struct SlotKey {
    /// The number of the kind: any, language, type.
    kind: u8,
    /// The number of the container.
    container: u8,
    /// A language, a datatype or a keyword.
    slot: Text,
}

// A number for each kind of pick, by which keys are in order.
fn kind_number(kind: PickKind) -> u8
    ensures { result ≡ kind_number kind }
{
    match kind {
        PickKind::AnyKind => 0,
        PickKind::LanguageKind => 1,
        PickKind::TypeKind => 2,
    }
}

// A number for each container, by which keys are in order.
fn container_number(container: Container) -> u8
    ensures { result ≡ container_number container }
{
    match container {
        Container::NoContainer => 0,
        Container::Set => 1,
        Container::List => 2,
        Container::Language => 3,
        Container::LanguageSet => 4,
    }
}

impl SlotKey {
    /// The key of a container, and of a kind's slot.
    pub fn of(container: Container, kind: PickKind, slot: Text) -> SlotKey
        ensures { result ≡ key_of container kind slot }
    {
        SlotKey {
            kind: kind_number(kind),
            container: container_number(container),
            slot,
        }
    }
}

impl TryCopy for SlotKey {
    fn copy(&self, alloc: Global) -> Result<SlotKey, Memory> {
        Ok(SlotKey {
            kind: self.kind,
            container: self.container,
            slot: self.slot.copy(alloc)?,
        })
    }
}

// The key of a slot in a container.
fn key(alloc: Global, container: Container, kind: PickKind, slot: &str) -> Result<SlotKey, Memory>
    ensures { IfOk result (λ key. key ≡ key_of container kind slot.now) }
{
    Ok(SlotKey::of(container, kind, Text::of(alloc, slot)?))
}

// The keys of a term with a coercion.
#[tactic(auto, unfolding(def_selection::specs::Keywords::at_any, def_selection::specs::Keywords::at_none))]
fn coerced_keys(
    alloc: Global,
    container: Container,
    coercion: &Text,
) -> Result<Vec<SlotKey>, Memory>
    ensures { IfOk result (λ keys. keys.items ≡ coerced_keys container coercion.now) }
{
    if coercion.as_str() == "@none" {
        Ok(vec![in alloc;
            key(alloc, container, PickKind::AnyKind, "@none")?,
            key(alloc, container, PickKind::LanguageKind, "@any")?,
            key(alloc, container, PickKind::TypeKind, "@any")?,
            key(alloc, container, PickKind::AnyKind, "@any")?,
        ]?)
    } else {
        Ok(vec![in alloc;
            key(alloc, container, PickKind::AnyKind, "@none")?,
            key(alloc, container, PickKind::TypeKind, coercion.as_str())?,
        ]?)
    }
}

// The keys of a term with a language of its own, or null.
#[tactic(auto, unfolding(def_selection::specs::Keywords::at_null, def_selection::specs::Keywords::at_none))]
fn language_keys(
    alloc: Global,
    container: Container,
    language: &Option<Text>,
) -> Result<Vec<SlotKey>, Memory>
    ensures { IfOk result (λ keys. keys.items ≡ language_keys container language.now) }
{
    match language {
        Some(language) => Ok(vec![in alloc;
            key(alloc, container, PickKind::AnyKind, "@none")?,
            key(alloc, container, PickKind::LanguageKind, language.as_str())?,
        ]?),
        None => Ok(vec![in alloc;
            key(alloc, container, PickKind::AnyKind, "@none")?,
            key(alloc, container, PickKind::LanguageKind, "@null")?,
        ]?),
    }
}

// The keys of a term without a coercion and a language of its own, by the table's language.
#[tactic(auto, unfolding(def_selection::specs::Keywords::at_none))]
fn unmapped_keys(
    alloc: Global,
    container: Container,
    default: &Option<Text>,
) -> Result<Vec<SlotKey>, Memory>
    ensures { IfOk result (λ keys. keys.items ≡ unmapped_keys container default.now) }
{
    match default {
        Some(language) => Ok(vec![in alloc;
            key(alloc, container, PickKind::AnyKind, "@none")?,
            key(alloc, container, PickKind::LanguageKind, language.as_str())?,
            key(alloc, container, PickKind::LanguageKind, "@none")?,
            key(alloc, container, PickKind::TypeKind, "@none")?,
        ]?),
        None => Ok(vec![in alloc;
            key(alloc, container, PickKind::AnyKind, "@none")?,
            key(alloc, container, PickKind::LanguageKind, "@none")?,
            key(alloc, container, PickKind::TypeKind, "@none")?,
        ]?),
    }
}

/// The keys of a term, one for each slot in which it stands.
#[tactic(auto, unfolding(def_selection::specs::Keywords::at_reverse))]
pub fn keys_of(alloc: Global, table: &TermTable, term: &TermDef) -> Result<Vec<SlotKey>, Memory>
    ensures { IfOk result (λ keys. keys.items ≡ keys_of table.now term.now) }
{
    if term.reverse {
        return Ok(vec![in alloc; key(alloc, term.container, PickKind::TypeKind, "@reverse")?]?);
    }
    match &term.coercion {
        Some(coercion) => coerced_keys(alloc, term.container, coercion),
        None => match &term.language {
            Some(language) => language_keys(alloc, term.container, language),
            None => unmapped_keys(alloc, term.container, &table.language),
        },
    }
}
