//! Values of reverse properties, by whether they were filed under reverse terms (JSON-LD 1.1
//! Processing Algorithms and API, section 5.1.2, step 12.4).
ghost use Rattle.std.specs.Prelude.{◌≡◌, IfOk, map};
ghost use Rattle.def_documents.specs.Nodes.{is_turned};
ghost use Rattle.lf_compact.specs.Pieces.{filed_data, filed_list, properties_data};
ghost use Rattle.lf_compact.specs.Turned.{turned_of, turned_values, unturned_of, unturned_values};

use crate::pieces::Filed;
use crate::property::FiledProperty;
use lf_base::{Memory, TryCopy};
use std::alloc::Global;

// Values of one property: those under reverse terms, and the others.
#[derive(Drop)]
struct SplitValues<'a> {
    turned: Vec<Filed<'a>>,
    unturned: Vec<Filed<'a>>,
}

/// Reverse properties: their values under reverse terms, and the others.
#[derive(Drop)]
pub struct Split<'a> {
    pub turned: Vec<FiledProperty<'a>>,
    pub unturned: Vec<FiledProperty<'a>>,
}

// Whether a value was filed under a reverse term.
fn is_turned(filed: &Filed<'_>) -> bool
    ensures { result ≡ is_turned (filed_data filed.now) }
{
    match filed.term {
        Some(term) => term.reverse,
        None => false,
    }
}

// Splits the values of a property by whether a reverse term was chosen.
fn split_values<'a>(alloc: Global, values: Vec<Filed<'a>>) -> Result<SplitValues<'a>, Memory>
    ensures turned { IfOk result (λ split. filed_list split.turned ≡ turned_values (filed_list values.entry)) }
    ensures unturned { IfOk result (λ split. filed_list split.unturned ≡ unturned_values (filed_list values.entry)) }
{
    let mut turned = Vec::new(alloc);
    let mut unturned = Vec::new(alloc);
    for value in values {
        if is_turned(&value) {
            turned.push(value)?;
        } else {
            unturned.push(value)?;
        }
    }
    Ok(SplitValues { turned, unturned })
}

/// Parts reverse properties by the terms of their values.
pub fn split_reverses<'a>(
    alloc: Global,
    reverses: Vec<FiledProperty<'a>>,
) -> Result<Split<'a>, Memory>
    ensures turned { IfOk result
        (λ split. properties_data split.turned ≡ turned_of (properties_data reverses.entry)) }
    ensures unturned { IfOk result
        (λ split. properties_data split.unturned ≡ unturned_of (properties_data reverses.entry)) }
{
    let mut turned = Vec::new(alloc);
    let mut unturned = Vec::new(alloc);
    for reverse in reverses {
        let parts = split_values(alloc, reverse.values)?;
        turned.push(FiledProperty {
            iri: reverse.iri.copy(alloc)?,
            values: parts.turned,
        })?;
        unturned.push(FiledProperty {
            iri: reverse.iri,
            values: parts.unturned,
        })?;
    }
    Ok(Split { turned, unturned })
}
