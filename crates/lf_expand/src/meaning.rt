//! What the keys of a frame's map are (JSON-LD 1.1 Framing, section 4.1).
ghost use Rattle.std.specs.Prelude.{◌≡◌, IfOk, codes};
ghost use Rattle.std.specs.Option.{option_copied};
ghost use Rattle.def_contexts.specs.FrameKeys.{meaning_of, reverse_iri, expanded_meaning, is_the_keyword};
ghost use Rattle.lf_expand.specs.MeaningData.{meaning_data};

use crate::terms::Terms;
use lf_base::{Memory, Text, TryCopy};
use lf_context::{is_absolute, is_keyword};
use lf_model::TermDef;
use std::alloc::Global;

/// What a key is: it is dropped, or it is a keyword, a property with its term, or a reverse
/// property.
#[derive(Drop)]
pub enum Meaning<'a> {
    Dropped,
    Keyword(Text),
    Property(Text, Option<&'a TermDef>),
    Reverse(Text),
}

/// What a key is by a term table.
#[tactic(auto, unfolding(def_contexts::specs::FrameKeys::meaning_of))]
pub fn meaning_of<'a>(alloc: Global, terms: &Terms<'a>, key: &Text) -> Result<Meaning<'a>, Memory>
    ensures { IfOk result (λ meaning. meaning_data meaning ≡ meaning_of terms.now.table.now key.now) }
{
    let term = terms.find(key);
    match reverse_iri(term) {
        Some(iri) => Ok(Meaning::Reverse(iri.copy(alloc)?)),
        None => Ok(expanded_meaning(terms.expand(alloc, key, true)?, term)),
    }
}

// The IRI of a reverse term.
fn reverse_iri(term: Option<&TermDef>) -> Option<&Text>
    ensures { option_copied result ≡ reverse_iri (option_copied term.entry) }
{
    match term {
        Some(term) => {
            if term.reverse {
                term.iri.as_ref()
            } else {
                None
            }
        }
        None => None,
    }
}

// What a key means by its expanded text.
fn expanded_meaning<'a>(iri: Option<Text>, term: Option<&'a TermDef>) -> Meaning<'a>
    ensures { meaning_data result ≡ expanded_meaning (option_copied term.entry) iri }
{
    match iri {
        Some(iri) => {
            if is_keyword(iri.as_str()) {
                Meaning::Keyword(iri)
            } else if is_absolute(iri.as_str()) {
                Meaning::Property(iri, term)
            } else {
                Meaning::Dropped
            }
        }
        None => Meaning::Dropped,
    }
}

/// Whether a key is a given keyword.
pub fn is_the_keyword(name: &str, meaning: &Meaning<'_>) -> bool
    ensures { result ≡ is_the_keyword name.now (meaning_data meaning.now) }
{
    match meaning {
        Meaning::Keyword(own) => name == own.as_str(),
        Meaning::Dropped => false,
        Meaning::Property(_, _) => false,
        Meaning::Reverse(_) => false,
    }
}

/// Whether a key of this name is a given keyword.
pub fn means(alloc: Global, terms: &Terms<'_>, key: &Text, name: &str) -> Result<bool, Memory>
    ensures { IfOk result (λ b. b ≡ is_the_keyword name.now (meaning_of terms.now.table.now key.now)) }
{
    let meaning = meaning_of(alloc, terms, key)?;
    Ok(is_the_keyword(name, &meaning))
}
