//! Picks of lists, by what their items are (JSON-LD 1.1 Processing Algorithms and API, section
//! 6.2.2).
ghost use Rattle.std.specs.Prelude.{◌≡◌, IfOk};
ghost use Rattle.lf_model.specs.TreeBridge.{entry_data, entries_data};
ghost use Rattle.def_documents.specs.Picks as def;
ghost use Rattle.lf_compact.specs.Kinds.{kind_data};

use crate::picks::{only, pick};
use def_selection::{ContainerList, Pick, PickKind};
use lf_base::{ListOf, Memory, Text, TryCopy};
use lf_model::{Container, DefaultValue, TreeValue, TreeValueList};
use lf_rdf::{Term, is_xsd_string};
use std::alloc::Global;

/// What an item of a list is.
#[derive(Clone, Copy)]
pub enum Kind<'a> {
    Datatype(&'a Text),
    Language(&'a Text),
    Untyped,
    Node,
}

// The kind of a literal: its datatype or its language.
fn literal_kind(literal: &Term) -> Kind<'_>
    ensures { kind_data result
        ≡ def.plain_kind (def.literal_plain literal.now).datatype
        (def.literal_plain literal.now).language }
{
    match literal {
        Term::Literal {
            datatype,
            language,
            ..
        } => match language {
            Some(language) => Kind::Language(language),
            None => {
                if is_xsd_string(datatype.as_str()) {
                    Kind::Untyped
                } else {
                    Kind::Datatype(datatype)
                }
            }
        },
        Term::Iri(_) => Kind::Untyped,
        Term::Blank(_) => Kind::Untyped,
    }
}

// The kind of a default.
fn default_kind(value: &DefaultValue) -> Kind<'_>
    ensures { kind_data result ≡ def.default_kind value.now }
{
    match value {
        DefaultValue::Null => Kind::Node,
        DefaultValue::Ref(_) => Kind::Node,
        DefaultValue::Scalar {
            datatype,
            language,
            ..
        } => match datatype {
            Some(datatype) => Kind::Datatype(datatype),
            None => match language {
                Some(language) => Kind::Language(language),
                None => Kind::Untyped,
            },
        },
    }
}

// The kind of an item of a list.
fn item_kind(item: &TreeValue) -> Kind<'_>
    ensures { kind_data result ≡ def.item_kind (entry_data item.now) }
{
    match item {
        TreeValue::Node(_) => Kind::Node,
        TreeValue::List(_) => Kind::Node,
        TreeValue::Literal(literal) => literal_kind(literal),
        TreeValue::Fallback(value) => default_kind(value),
        TreeValue::EmptyFallback => Kind::Node,
    }
}

// Whether two kinds are the same.
fn same_kind(a: &Kind<'_>, b: &Kind<'_>) -> bool
    ensures { result ≡ def.same_kind (kind_data a.now) (kind_data b.now) }
{
    match a {
        Kind::Datatype(one) => match b {
            Kind::Datatype(two) => one.as_str() == two.as_str(),
            Kind::Language(_) => false,
            Kind::Untyped => false,
            Kind::Node => false,
        },
        Kind::Language(one) => match b {
            Kind::Language(two) => one.as_str() == two.as_str(),
            Kind::Datatype(_) => false,
            Kind::Untyped => false,
            Kind::Node => false,
        },
        Kind::Untyped => match b {
            Kind::Untyped => true,
            Kind::Datatype(_) => false,
            Kind::Language(_) => false,
            Kind::Node => false,
        },
        Kind::Node => match b {
            Kind::Node => true,
            Kind::Datatype(_) => false,
            Kind::Language(_) => false,
            Kind::Untyped => false,
        },
    }
}

// Whether all items are of a kind.
fn all_of_kind(kind: &Kind<'_>, items: &[TreeValue]) -> bool
    ensures { result ≡ def.all_of_kind (kind_data kind.now) (entries_data items.now) }
{
    for item in items {
        if !same_kind(kind, &item_kind(item)) {
            return false;
        }
    }
    true
}

// The containers that a list asks for: `@list` only where it stands alone.
fn list_containers(alloc: Global, sole: bool) -> Result<ContainerList, Memory>
    ensures { IfOk result (λ containers. containers ≡ def.list_containers sole) }
{
    if sole {
        Ok(ListOf::from_vec(vec![in alloc; Container::List, Container::NoContainer]?))
    } else {
        Ok(ListOf::from_vec(vec![in alloc; Container::NoContainer]?))
    }
}

// What a list asks for whose items are of one kind.
#[tactic(auto, unfolding(def_selection::specs::Keywords::at_id, def_selection::specs::Keywords::at_null))]
fn kind_pick(alloc: Global, containers: ContainerList, kind: &Kind<'_>) -> Result<Pick, Memory>
    ensures { IfOk result (λ made. made ≡ def.kind_pick containers (kind_data kind.now)) }
{
    match kind {
        Kind::Datatype(datatype) => {
            let preferred = only(alloc, datatype.copy(alloc)?)?;
            pick(alloc, containers, PickKind::TypeKind, preferred)
        }
        Kind::Language(language) => {
            let preferred = only(alloc, language.copy(alloc)?)?;
            pick(alloc, containers, PickKind::LanguageKind, preferred)
        }
        Kind::Untyped => {
            let preferred = only(alloc, Text::of(alloc, "@null")?)?;
            pick(alloc, containers, PickKind::LanguageKind, preferred)
        }
        Kind::Node => {
            let preferred = only(alloc, Text::of(alloc, "@id")?)?;
            pick(alloc, containers, PickKind::TypeKind, preferred)
        }
    }
}

// What a list asks for by its items.
fn items_pick(alloc: Global, containers: ContainerList, items: &[TreeValue]) -> Result<Pick, Memory>
    ensures { IfOk result (λ made. made ≡ def.list_pick containers (entries_data items.now)) }
{
    match items {
        [] => pick(alloc, containers, PickKind::AnyKind, ListOf::new(alloc)),
        [first, rest @ ..] => {
            let kind = item_kind(first);
            if all_of_kind(&kind, rest) {
                kind_pick(alloc, containers, &kind)
            } else {
                pick(
                    alloc,
                    containers,
                    PickKind::LanguageKind,
                    ListOf::new(alloc),
                )
            }
        }
    }
}

/// What a list asks for.
pub fn list_pick(alloc: Global, sole: bool, items: &TreeValueList) -> Result<Pick, Memory>
    ensures { IfOk result
        (λ made. made ≡ def.list_pick (def.list_containers sole) (entries_data items.now)) }
{
    items_pick(alloc, list_containers(alloc, sole)?, items.as_slice())
}
