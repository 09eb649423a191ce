//! The entries of properties, one under each key that their values have (JSON-LD 1.1 Processing
//! Algorithms and API, section 5.1.2).
ghost use Rattle.std.specs.Prelude.{◌≡◌, ℕ, List, IfOk, OnOk, map};
ghost use Rattle.std.specs.List.{flat_map};
ghost use Rattle.def_documents.specs.Entries as def;
ghost use Rattle.def_documents.specs.Grouping.{grouped};
ghost use Rattle.lf_compact.specs.Answers.{AddsEntries};
ghost use Rattle.lf_compact.specs.Groups.{Hold};
ghost use Rattle.lf_compact.specs.Pieces.{filed_data, filed_list, keyed, properties_data};

use crate::entry::group_entry;
use crate::groups::{Groups, put_under};
use crate::members::{Members, add};
use crate::pieces::Filed;
use lf_base::{Memory, Text, TryCopy};
use std::alloc::Global;
use std::collections::BTreeMap;

/// A property's IRI and its compacted values.
#[derive(Drop)]
pub struct FiledProperty<'a> {
    pub iri: Text,
    pub values: Vec<Filed<'a>>,
}

// Values by their keys.
fn by_key<'a>(alloc: Global, values: Vec<Filed<'a>>) -> Result<Groups<Filed<'a>>, Memory>
    ensures { IfOk result (λ groups. Hold filed_data groups (keyed (filed_list values.entry))) }
{
    let mut groups = BTreeMap::new(alloc);
    for value in values {
        let key = value.key.copy(alloc)?;
        put_under(alloc, &mut groups, key, value)?;
    }
    Ok(groups)
}

// Puts the values of each key, made one entry, into a map.
fn add_groups(alloc: Global, members: &mut Members, groups: Groups<Filed<'_>>) -> Result<(), Memory>
    ensures { OnOk result ((entries : List (List ℕ × def.Filed)) → Hold filed_data groups.entry entries
        → AddsEntries members.old members.new (grouped def.group_entry entries)) }
{
    let mut groups = groups;
    let _ = groups.len();
    while let Some((key, group)) = groups.pop_first() {
        let value = group_entry(alloc, group)?;
        add(alloc, members, key, value)?;
    }
    Ok(())
}

// Puts the entries of a property into a map.
fn add_property(alloc: Global, members: &mut Members, values: Vec<Filed<'_>>) -> Result<(), Memory>
    ensures { OnOk result
        (AddsEntries members.old members.new (def.property_entries (filed_list values.entry))) }
{
    let groups = by_key(alloc, values)?;
    add_groups(alloc, members, groups)
}

// Puts the entries of several lists of values of one property into a map.
fn add_lists(alloc: Global, members: &mut Members, lists: Vec<Vec<Filed<'_>>>) -> Result<(), Memory>
    ensures { OnOk result (AddsEntries members.old members.new
        (flat_map def.property_entries (map filed_list lists.entry.items))) }
{
    for values in lists {
        add_property(alloc, members, values)?;
    }
    Ok(())
}

// The values of properties by the properties' IRIs.
fn by_iri<'a>(
    alloc: Global,
    properties: Vec<FiledProperty<'a>>,
) -> Result<Groups<Vec<Filed<'a>>>, Memory>
    ensures { IfOk result (λ groups. Hold filed_list groups (properties_data properties.entry)) }
{
    let mut groups = BTreeMap::new(alloc);
    for property in properties {
        put_under(alloc, &mut groups, property.iri, property.values)?;
    }
    Ok(groups)
}

// Puts the entries of properties into a map, property by property.
fn add_properties(
    alloc: Global,
    members: &mut Members,
    groups: Groups<Vec<Filed<'_>>>,
) -> Result<(), Memory>
    ensures { OnOk result ((entries : List (List ℕ × List def.Filed)) → Hold filed_list groups.entry entries
        → AddsEntries members.old members.new (def.entries_in_order entries)) }
{
    let mut groups = groups;
    let _ = groups.len();
    while let Some((iri, lists)) = groups.pop_first() {
        drop(iri);
        add_lists(alloc, members, lists)?;
    }
    Ok(())
}

/// Puts the entries of properties into a map, in byte order of the properties' IRIs. Its time grows
/// as n log n in the values.
pub fn add_in_order(
    alloc: Global,
    members: &mut Members,
    properties: Vec<FiledProperty<'_>>,
) -> Result<(), Memory>
    ensures { OnOk result (AddsEntries members.old members.new
        (def.entries_in_order (properties_data properties.entry))) }
{
    let groups = by_iri(alloc, properties)?;
    add_properties(alloc, members, groups)
}
