//! The term that is chosen for an IRI and a value.
ghost use Rattle.std.specs.Prelude.{◌≡◌, IfOk};
ghost use Rattle.std.specs.Option.{option_copied};
ghost use Rattle.def_selection.specs.Chosen.{chosen};
ghost use Rattle.lf_select.specs.Keys.{key_of};
ghost use Rattle.lf_select.specs.Shelves.{first_some, term_in, IsFiled};

use crate::key::SlotKey;
use crate::shelves::{Shelf, Shelves, term_in};
use def_selection::Pick;
use lf_base::{Memory, Text, TryCopy};
use lf_model::{Container, TermDef, TermTable};
use std::alloc::Global;

// The term of a shelf in the first of the pick's slots that has one in this container.
fn first_in_slots<'a>(
    alloc: Global,
    terms: &'a [TermDef],
    shelf: &Shelf,
    container: Container,
    pick: &Pick,
) -> Result<Option<&'a TermDef>, Memory>
    ensures { IfOk result (λ found. option_copied found
        ≡ first_some (λ name. term_in terms.now shelf.now (key_of container pick.now.kind name)) pick.now.preferred) }
{
    for name in pick.preferred.as_slice() {
        let key = SlotKey::of(container, pick.kind, name.copy(alloc)?);
        if let Some(term) = term_in(terms, shelf, &key) {
            return Ok(Some(term));
        }
    }
    Ok(None)
}

// The term of a shelf in the first of the pick's containers that has one in a slot of the pick.
fn first_in_containers<'a>(
    alloc: Global,
    terms: &'a [TermDef],
    shelf: &Shelf,
    pick: &Pick,
) -> Result<Option<&'a TermDef>, Memory>
    ensures { IfOk result (λ found. option_copied found
        ≡ first_some (λ container. first_some
        (λ name. term_in terms.now shelf.now (key_of container pick.now.kind name)) pick.now.preferred)
        pick.now.containers) }
{
    for container in pick.containers.as_slice() {
        if let Some(term) = first_in_slots(alloc, terms, shelf, *container, pick)? {
            return Ok(Some(term));
        }
    }
    Ok(None)
}

/// The term that is chosen for an IRI and a pick (JSON-LD 1.1 Processing Algorithms and API,
/// section 6.3). Its time grows with the logarithm of the terms and with the IRI's bytes.
pub fn chosen_by<'a>(
    alloc: Global,
    table: &'a TermTable,
    shelves: &Shelves,
    iri: &Text,
    pick: &Pick,
) -> Result<Option<&'a TermDef>, Memory>
    requires { IsFiled table.now shelves.now }
    ensures { IfOk result (λ found. option_copied found ≡ chosen table.now iri.now pick.now) }
{
    match shelves.get(iri) {
        Some(shelf) => first_in_containers(alloc, table.terms.as_slice(), shelf, pick),
        None => Ok(None),
    }
}
