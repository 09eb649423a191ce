//! The quads of a view's properties, in order of properties and of the objects under each.
ghost use Rattle.std.specs.Prelude.{◌≡◌, ◌∷◌, [], ◌++◌, not, slice_get, IfOk, IsSomeAnd, IsTrue, OnOk};
ghost use Rattle.std.specs.List.{filter, position_or_len};
ghost use Rattle.lf_rdf.specs.Canonical.{id_of};
ghost use Rattle.def_datasets.specs.Order.{term_cmp};
ghost use Rattle.def_datasets.specs.Sorted.{ascends};
ghost use Rattle.def_datasets.specs.Views.{is_type_quad, property_quads};
ghost use Rattle.lf_nodes.specs.Properties.{InPropertyOrder, entry_cmp, under};

use def_datasets::{is_node, tells_type};
use lf_base::{Memory, Text};
use lf_order::{by_parts, id_text, sorted_set, text_of};
use lf_rdf::{Quad, QuadList};
use std::alloc::Global;
use std::cmp::Ordering;
use std::marker::Model;

/// A quad with its property and the canonical text of its object.
#[derive(Drop)]
pub(crate) struct Entry {
    property: Text,
    text: Vec<u8>,
    quad: Quad,
}

impl Model for Entry {
    ghost use Rattle.lf_rdf.specs.declared.quad.Quad.{Quad};
    ghost use Rattle.lf_nodes.specs.Properties.{IsEntry};

    ghost Value = { Quad };

    ghost view = { λ e. e.quad };

    ghost invariant = { λ e. IsEntry e.property e.text.items e.quad };
}

impl Entry {
    // A quad with its texts.
    fn of(alloc: Global, quad: Quad) -> Result<Entry, Memory>
        ensures { IfOk result (λ entry. entry ≡ quad) }
    {
        Ok(Entry {
            property: id_text(alloc, &quad.predicate)?,
            text: text_of(alloc, &quad.object)?,
            quad,
        })
    }

    /// The property.
    pub(crate) fn property(&self) -> &Text
        ensures { result.now ≡ id_of self.now.predicate }
    {
        &self.property
    }

    /// The quad.
    pub(crate) fn quad(&self) -> &Quad
        ensures { result.now ≡ self.now }
    {
        &self.quad
    }
}

// How the objects of two quads stand.
fn by_object(one: &Entry, two: &Entry) -> Ordering
    ensures { result ≡ term_cmp one.now.object two.now.object }
{
    one.text
        .as_slice()
        .cmp(two.text.as_slice())
        .then_with(|| by_parts(&one.quad.object, &two.quad.object))
}

impl PartialEq for Entry {
    ghost use Rattle.std.specs.Ordering.{eq_by_cmp};
    ghost use Rattle.std.specs.Cmp.{partial_equiv_from_equiv};
    ghost use Rattle.lf_nodes.specs.Properties.{entry_cmp, entry_equivalence};

    ghost eq = { eq_by_cmp entry_cmp };

    ghost laws = { partial_equiv_from_equiv entry_equivalence };

    fn eq(&self, other: &Entry) -> bool {
        self.cmp(other).is_eq()
    }
}

impl Eq for Entry {
    ghost use Rattle.lf_nodes.specs.Properties.{entry_equivalence};

    ghost laws = { entry_equivalence };
}

impl PartialOrd for Entry {
    ghost use Rattle.std.specs.Ordering.{as_partial_cmp};
    ghost use Rattle.std.specs.Cmp.{partial_order_from_total};
    ghost use Rattle.lf_nodes.specs.Properties.{entry_cmp, entry_total};

    ghost partial_cmp = { as_partial_cmp entry_cmp };

    ghost laws = { partial_order_from_total entry_total };

    fn partial_cmp(&self, other: &Entry) -> Option<Ordering> {
        Some(self.cmp(other))
    }
}

impl Ord for Entry {
    ghost use Rattle.std.proofs.Common.{refl};
    ghost use Rattle.lf_nodes.specs.Properties.{entry_cmp, entry_total};

    ghost cmp = { entry_cmp };

    ghost total = { entry_total };

    ghost matches_partial_cmp = { λ x y. refl };

    ghost matches_eq = { λ x y. refl };

    fn cmp(&self, other: &Entry) -> Ordering {
        self.property
            .cmp(&other.property)
            .then_with(|| by_object(self, other))
    }
}

/// Whether a quad tells a type of its subject.
pub(crate) fn is_type_quad(quad: &Quad) -> bool
    ensures { result ≡ is_type_quad quad.now }
{
    tells_type(quad) && is_node(&quad.object)
}

// A quad more, where it is one of a property.
fn put_entry(alloc: Global, entries: &mut Vec<Entry>, quad: Quad) -> Result<(), Memory>
    ensures { OnOk result (entries.new.items ≡ entries.old.items ++ property_quads (quad ∷ [])) }
{
    if is_type_quad(&quad) {
        return Ok(());
    }
    entries.push(Entry::of(alloc, quad)?)?;
    Ok(())
}

// The quads of properties.
fn entries_of(alloc: Global, quads: QuadList) -> Result<Vec<Entry>, Memory>
    ensures { IfOk result (λ entries. entries.items ≡ property_quads quads) }
{
    let mut entries = Vec::new(alloc);
    for quad in quads.into_vec() {
        put_entry(alloc, &mut entries, quad)?;
    }
    Ok(entries)
}

/// The quads of properties, in order of properties and objects, one for each. It takes n log n
/// comparisons of texts.
pub(crate) fn in_property_order(alloc: Global, quads: QuadList) -> Result<Vec<Entry>, Memory>
    ensures { IfOk result (λ made. InPropertyOrder quads made.items) }
{
    let entries = entries_of(alloc, quads)?;
    let sorted = sorted_set(entries)?;
    Ok(sorted)
}

// How many quads stand before the first of another property.
fn property_run(entries: &[Entry], property: &Text) -> usize
    ensures { result ≡ position_or_len (λ q. not (under property.now q)) entries.now }
{
    for (place, entry) in entries.iter().enumerate() {
        if *property != *entry.property() {
            return place;
        }
    }
    entries.len()
}

/// The quads of the first property, and the others.
pub(crate) fn split_property<'a>(
    entries: &'a [Entry],
    property: &Text,
) -> (&'a [Entry], &'a [Entry])
    requires in_order { IsTrue (ascends entry_cmp entries.now) }
    requires first { IsSomeAnd (slice_get entries.now 0) (λ q. id_of q.predicate ≡ property.now) }
    ensures run { result.0.now ≡ filter (under property.now) entries.now }
    ensures others { result.1.now ≡ filter (λ q. not (under property.now q)) entries.now }
{
    entries.split_at(property_run(entries, property))
}
