//! What the keys of a map have given so far (JSON-LD 1.1 Framing, section 4.1).
ghost use Rattle.std.specs.Prelude.{◌≡◌, ◌||◌, OnOk};
ghost use Rattle.lf_expand.specs.ReadingData.{unread, has_key, row_of, keyword_added, property_given, reverse_given, graph_given, item_given, number_of, kind_of, wild_or_node};

use crate::class::MapClass;
use crate::found::Found;
use crate::patterns::no_pattern;
use crate::rows::{Flags, Row};
use lf_base::{Memory, Text};
use lf_model::{FrameKind, ValuePattern};
use lf_sorted::MapOf;
use std::alloc::Global;

/// What the keys of a map have given so far, and which they were.
#[derive(Debug, Drop)]
pub struct Reading {
    pub flags: Flags,
    /// The properties that were kept, with the numbers of their sub-frames; none is match-none.
    pub props: MapOf<Option<u32>>,
    /// The properties that null dropped.
    pub dropped: MapOf<bool>,
    pub reverse: MapOf<u32>,
    pub graph: Option<u32>,
    pub pattern: ValuePattern,
    /// The item of a list pattern.
    pub item: Option<u32>,
    pub keywords: MapOf<bool>,
    /// Whether nothing but flags and `@default` was given.
    pub flags_alone: bool,
}

impl Reading {
    /// No key is read.
    pub fn unread(alloc: Global) -> Reading
        ensures { result ≡ unread }
    {
        Reading {
            flags: Flags::plain(),
            props: MapOf::new(alloc),
            dropped: MapOf::new(alloc),
            reverse: MapOf::new(alloc),
            graph: None,
            pattern: no_pattern(),
            item: None,
            keywords: MapOf::new(alloc),
            flags_alone: true,
        }
    }

    /// Whether a keyword was read.
    pub fn has_keyword(&self, name: &str) -> bool
        ensures { result ≡ has_key name.now self.now.keywords }
    {
        self.keywords.get(name).is_some()
    }

    /// A keyword is read.
    pub fn add_keyword(&mut self, name: Text) -> Result<(), Memory>
        ensures { OnOk result (self.new ≡ keyword_added name self.old) }
    {
        self.keywords.put(name, true)
    }

    /// Whether a property was read.
    pub fn has_property(&self, iri: &str) -> bool
        ensures { result ≡ (has_key iri.now self.now.props || has_key iri.now self.now.dropped) }
    {
        self.props.get(iri).is_some() || self.dropped.get(iri).is_some()
    }

    /// A property is read.
    pub fn give_property(&mut self, iri: Text, found: Found) -> Result<(), Memory>
        ensures { OnOk result (self.new ≡ property_given iri found self.old) }
    {
        match found {
            Found::Dropped => {
                self.dropped.put(iri, true)?;
                Ok(())
            }
            Found::MatchNone => {
                self.props.put(iri, None)?;
                self.flags_alone = false;
                Ok(())
            }
            Found::Numbered(number) => {
                self.props.put(iri, Some(number))?;
                self.flags_alone = false;
                Ok(())
            }
        }
    }

    /// Whether a reverse property was read.
    pub fn has_reverse(&self, iri: &str) -> bool
        ensures { result ≡ has_key iri.now self.now.reverse }
    {
        self.reverse.get(iri).is_some()
    }

    /// A reverse property is read.
    pub fn give_reverse(&mut self, iri: Text, number: u32) -> Result<(), Memory>
        ensures { OnOk result (self.new ≡ reverse_given iri number self.old) }
    {
        self.reverse.put(iri, number)?;
        self.flags_alone = false;
        Ok(())
    }

    /// `@graph` is read.
    pub fn give_graph(&mut self, found: Found)
        ensures { self.new ≡ graph_given found self.old }
    {
        self.graph = number_of(found);
        self.flags_alone = false;
    }

    /// The item of a list pattern is read; match-none gives none.
    pub fn give_item(&mut self, found: Found)
        ensures { self.new ≡ item_given found self.old }
    {
        self.item = number_of(found);
    }

    /// The map whose keys are read.
    pub fn into_row(self, class: MapClass) -> Row
        ensures { result ≡ row_of class self }
    {
        let Reading {
            flags,
            props,
            dropped,
            reverse,
            graph,
            pattern,
            item,
            keywords,
            flags_alone,
        } = self;
        drop(dropped);
        drop(keywords);
        Row {
            flags,
            props,
            reverse,
            graph,
            kind: kind_of(class, pattern, item, flags_alone),
        }
    }
}

// What a map is, by its class and its keys.
fn kind_of(
    class: MapClass,
    pattern: ValuePattern,
    item: Option<u32>,
    flags_alone: bool,
) -> FrameKind
    ensures { result ≡ kind_of class pattern item flags_alone }
{
    match class {
        MapClass::Value => FrameKind::Value(pattern),
        MapClass::List => {
            drop(pattern);
            FrameKind::List(item)
        }
        MapClass::Set => {
            drop(pattern);
            wild_or_node(flags_alone)
        }
        MapClass::Node => {
            drop(pattern);
            wild_or_node(flags_alone)
        }
    }
}

// The kind of a map without a pattern: any node, or a node with tests.
fn wild_or_node(flags_alone: bool) -> FrameKind
    ensures { result ≡ wild_or_node flags_alone }
{
    if flags_alone {
        FrameKind::Wild
    } else {
        FrameKind::Node
    }
}

// The number of a frame that was read, where one was.
fn number_of(found: Found) -> Option<u32>
    ensures { result ≡ number_of found }
{
    match found {
        Found::Dropped => None,
        Found::MatchNone => None,
        Found::Numbered(number) => Some(number),
    }
}
