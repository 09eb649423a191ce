//! Picks of nodes and references (JSON-LD 1.1 Processing Algorithms and API, section 6.2.2).
ghost use Rattle.std.specs.Prelude.{◌≡◌, ◌∷◌, [], true, IfOk, Some, None};
ghost use Rattle.def_selection.specs.Iris.{no_value, short};
ghost use Rattle.def_selection.specs.Keywords.{at_id, at_reverse, at_vocab};
ghost use Rattle.def_documents.specs.Picks as def;

use crate::picks::{only, pick, scalar_pick, sets};
use def_selection::{Pick, PickKind};
use lf_base::{ListOf, Memory, Text, TextList};
use lf_model::DefaultValue;
use lf_rdf::Term;
use lf_select::{Inverse, SelectErr, stands_for};
use std::alloc::Global;

// Whether an IRI compacts to a term of this very IRI.
fn becomes_term(alloc: Global, inverse: &Inverse, iri: &Text) -> Result<bool, Memory>
    ensures { IfOk result (λ becomes. becomes
        ≡ def.becomes_term inverse.now iri.now (short inverse.now iri.now true no_value)) }
{
    match inverse.compact_alone(alloc, iri, true) {
        Ok(compacted) => match inverse.term_named(&compacted) {
            Some(term) => Ok(stands_for(iri, term)),
            None => Ok(false),
        },
        Err(SelectErr::Confused) => Ok(false),
        Err(SelectErr::Memory) => Err(Memory),
    }
}

// The slots `@id` and `@vocab`, in this order.
#[tactic(auto, unfolding(def_selection::specs::Keywords::at_id, def_selection::specs::Keywords::at_vocab))]
fn id_first(alloc: Global) -> Result<TextList, Memory>
    ensures { IfOk result (λ names. names ≡ at_id ∷ at_vocab ∷ []) }
{
    Ok(ListOf::from_vec(vec![in alloc; Text::of(alloc, "@id")?, Text::of(alloc, "@vocab")?]?))
}

// The slots `@vocab` and `@id`, in this order.
#[tactic(auto, unfolding(def_selection::specs::Keywords::at_id, def_selection::specs::Keywords::at_vocab))]
fn vocab_first(alloc: Global) -> Result<TextList, Memory>
    ensures { IfOk result (λ names. names ≡ at_vocab ∷ at_id ∷ []) }
{
    Ok(ListOf::from_vec(vec![in alloc; Text::of(alloc, "@vocab")?, Text::of(alloc, "@id")?]?))
}

// The slots of a node with an id: a term's before an id's where the id compacts to a term.
fn id_slots(alloc: Global, inverse: &Inverse, id: &Term) -> Result<TextList, Memory>
    ensures { IfOk result (λ names. names ≡ def.id_slots inverse.now id.now) }
{
    match id {
        Term::Iri(iri) => {
            if becomes_term(alloc, inverse, iri)? {
                vocab_first(alloc)
            } else {
                id_first(alloc)
            }
        }
        Term::Blank(_) => id_first(alloc),
        Term::Literal { .. } => id_first(alloc),
    }
}

// What a node asks for by its id.
fn id_pick(alloc: Global, inverse: &Inverse, id: &Term) -> Result<Pick, Memory>
    ensures { IfOk result (λ made. made ≡ def.node_pick inverse.now (Some id.now)) }
{
    let preferred = id_slots(alloc, inverse, id)?;
    pick(alloc, sets(alloc)?, PickKind::TypeKind, preferred)
}

/// What a node without an id asks for, a null or an empty default.
#[tactic(auto, unfolding(def_selection::specs::Keywords::at_id))]
pub fn no_id_pick(alloc: Global, inverse: &Inverse) -> Result<Pick, Memory>
    ensures { IfOk result (λ made. made ≡ def.node_pick inverse.now None) }
{
    let _ = inverse;
    let preferred = only(alloc, Text::of(alloc, "@id")?)?;
    pick(alloc, sets(alloc)?, PickKind::TypeKind, preferred)
}

/// What a node asks for.
pub fn node_pick(alloc: Global, inverse: &Inverse, id: &Option<Term>) -> Result<Pick, Memory>
    ensures { IfOk result (λ made. made ≡ def.node_pick inverse.now id.now) }
{
    match id {
        Some(id) => id_pick(alloc, inverse, id),
        None => no_id_pick(alloc, inverse),
    }
}

// The slots of a node of a reverse property: a reverse term's first.
#[tactic(auto, unfolding(def_selection::specs::Keywords::at_reverse, def_selection::specs::Keywords::at_id, def_selection::specs::Keywords::at_vocab))]
fn turned_slots(alloc: Global, inverse: &Inverse, id: &Term) -> Result<TextList, Memory>
    ensures { IfOk result (λ names. names ≡ at_reverse ∷ def.id_slots inverse.now id.now) }
{
    let mut names = id_slots(alloc, inverse, id)?.into_vec();
    names.insert(0, Text::of(alloc, "@reverse")?)?;
    Ok(ListOf::from_vec(names))
}

/// What a node of a reverse property asks for.
#[tactic(auto, unfolding(def_selection::specs::Keywords::at_reverse))]
pub fn reverse_pick(alloc: Global, inverse: &Inverse, id: &Option<Term>) -> Result<Pick, Memory>
    ensures { IfOk result (λ made. made ≡ def.reverse_pick inverse.now id.now) }
{
    match id {
        Some(id) => {
            let preferred = turned_slots(alloc, inverse, id)?;
            pick(alloc, sets(alloc)?, PickKind::TypeKind, preferred)
        }
        None => {
            let preferred = only(alloc, Text::of(alloc, "@reverse")?)?;
            pick(alloc, sets(alloc)?, PickKind::TypeKind, preferred)
        }
    }
}

/// What a default asks for.
pub fn default_pick(alloc: Global, inverse: &Inverse, value: &DefaultValue) -> Result<Pick, Memory>
    ensures { IfOk result (λ made. made ≡ def.default_pick inverse.now value.now) }
{
    match value {
        DefaultValue::Null => no_id_pick(alloc, inverse),
        DefaultValue::Ref(id) => id_pick(alloc, inverse, id),
        DefaultValue::Scalar { datatype, .. } => scalar_pick(alloc, datatype),
    }
}
