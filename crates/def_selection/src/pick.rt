//! What a value asks of a term: containers, the kind of slot and the slots in order of preference.
ghost use Rattle.std.specs.Prelude.{◌≡◌, IfOk};
ghost use Rattle.def_selection.specs.Iris.{no_value};

use lf_base::{ListOf, Memory, Text, TextList};
use lf_model::Container;
use std::alloc::Global;

/// Which mapping of a term is looked at when a term is chosen (JSON-LD 1.1 Processing Algorithms
/// and API, section 4.3: the maps `@any`, `@language` and `@type` of an inverse context).
#[derive(Clone, Copy, Debug, PartialEq, Eq)]
pub enum PickKind {
    AnyKind,
    LanguageKind,
    TypeKind,
}

/// A list of containers.
pub type ContainerList = ListOf<Container>;

/// What an IRI and a value ask of a term (JSON-LD 1.1 Processing Algorithms and API, section 6.3,
/// term selection): the containers in order, and in each the preferred languages or types in order.
#[derive(Debug, Drop)]
pub struct Pick {
    pub containers: ContainerList,
    pub kind: PickKind,
    pub preferred: TextList,
    /// False where an IRI alone is compacted, as a type or a keyword is.
    pub has_value: bool,
}

impl Pick {
    /// What an IRI alone asks for: a type, a datatype or a keyword.
    pub fn of_iri(alloc: Global) -> Result<Pick, Memory>
        ensures { IfOk result (λ pick. pick ≡ no_value) }
    {
        Ok(Pick {
            containers: single_values(alloc)?,
            kind: PickKind::TypeKind,
            preferred: id_or_any(alloc)?,
            has_value: false,
        })
    }
}

/// The containers of values that are neither in a list nor in a language map.
fn single_values(alloc: Global) -> Result<ContainerList, Memory>
    ensures { IfOk result (λ containers. containers ≡ no_value.containers) }
{
    let mut containers = ListOf::new(alloc);
    containers.push(Container::Set)?;
    containers.push(Container::NoContainer)?;
    Ok(containers)
}

/// An id, then no type, then any type.
#[tactic(auto, unfolding(crate::specs::Keywords::at_any, crate::specs::Keywords::at_id, crate::specs::Keywords::at_none))]
fn id_or_any(alloc: Global) -> Result<TextList, Memory>
    ensures { IfOk result (λ preferred. preferred ≡ no_value.preferred) }
{
    let mut preferred = ListOf::new(alloc);
    preferred.push(Text::of(alloc, "@id")?)?;
    preferred.push(Text::of(alloc, "@none")?)?;
    preferred.push(Text::of(alloc, "@any")?)?;
    Ok(preferred)
}
