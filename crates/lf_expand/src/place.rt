//! Where a sub-frame stands (JSON-LD 1.1 Framing, section 4.1).
ghost use Rattle.std.specs.Prelude.{◌≡◌, ◌&&◌};
ghost use Rattle.std.specs.Option.{option_copied};
ghost use Rattle.def_contexts.specs.Places.{term_at, place_error, takes_maps_alone, takes_default};
ghost use Rattle.lf_expand.specs.PlaceData.{place_of, place_data, is_listed, is_reverse};

use lf_model::{Container, LdError, TermDef};

/// A sub-frame is the value of a property, the item of a list pattern, or the value of `@graph` or
/// of a reverse property; the top frame is none.
#[derive(Clone, Copy, Debug)]
pub enum PlaceKind {
    Property,
    Item,
    Graph,
    Reverse,
    Top,
}

/// Where a sub-frame stands, with the term of a property's value or of an item.
#[derive(Drop)]
pub struct Place<'a> {
    pub kind: PlaceKind,
    pub term: Option<&'a TermDef>,
}

impl<'a> Place<'a> {
    /// The term under which a value stands.
    pub fn term(&self) -> Option<&'a TermDef>
        ensures { option_copied result ≡ term_at (place_data self.now) }
    {
        match self.kind {
            PlaceKind::Property => self.term,
            PlaceKind::Item => self.term,
            PlaceKind::Graph => None,
            PlaceKind::Reverse => None,
            PlaceKind::Top => None,
        }
    }

    /// The error of a value that can't stand here.
    pub fn error(&self) -> LdError
        ensures { result ≡ place_error (place_data self.now) }
    {
        match self.kind {
            PlaceKind::Property => LdError::InvalidFrame,
            PlaceKind::Item => LdError::InvalidFrame,
            PlaceKind::Graph => LdError::InvalidFrame,
            PlaceKind::Reverse => LdError::InvalidReverseValue,
            PlaceKind::Top => LdError::InvalidFrame,
        }
    }

    /// Whether maps alone stand here.
    pub fn takes_maps_alone(&self) -> bool
        ensures { result ≡ takes_maps_alone (place_data self.now) }
    {
        match self.kind {
            PlaceKind::Property => false,
            PlaceKind::Item => false,
            PlaceKind::Graph => true,
            PlaceKind::Reverse => true,
            PlaceKind::Top => true,
        }
    }

    /// Whether `@default` may stand in a map here.
    pub fn takes_default(&self) -> bool
        ensures { result ≡ takes_default (place_data self.now) }
    {
        match self.kind {
            PlaceKind::Property => true,
            PlaceKind::Item => true,
            PlaceKind::Graph => false,
            PlaceKind::Reverse => false,
            PlaceKind::Top => false,
        }
    }

    /// Whether it is a reverse property, which takes no pattern.
    pub fn is_reverse(&self) -> bool
        ensures { result ≡ is_reverse (place_data self.now) }
    {
        match self.kind {
            PlaceKind::Property => false,
            PlaceKind::Item => false,
            PlaceKind::Graph => false,
            PlaceKind::Reverse => true,
            PlaceKind::Top => false,
        }
    }

    /// Whether it is a property whose term has the container `@list`.
    pub fn is_listed(&self) -> bool
        ensures { result ≡ is_listed (place_data self.now) }
    {
        match self.kind {
            PlaceKind::Property => has_list_container(self.term),
            PlaceKind::Item => false,
            PlaceKind::Graph => false,
            PlaceKind::Reverse => false,
            PlaceKind::Top => false,
        }
    }
}

// Whether values stand under a term with the container `@list`.
fn has_list_container(term: Option<&TermDef>) -> bool
    ensures { result ≡ is_listed (place_of PlaceKind.Property (option_copied term.entry)) }
{
    match term {
        Some(term) => match term.container {
            Container::List => true,
            Container::NoContainer => false,
            Container::Set => false,
            Container::Language => false,
            Container::LanguageSet => false,
        },
        None => false,
    }
}
