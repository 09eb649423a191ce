//! Texts expanded to IRIs by a term table (JSON-LD 1.1 Processing Algorithms and API, section 5.2).
ghost use Rattle.std.specs.Prelude.{◌≡◌, ◌++◌, IfOk, IsTrue, None, true};
ghost use Rattle.std.specs.Option.{option_copied};
ghost use Rattle.def_contexts.specs.TableLaws.{ascends};
ghost use Rattle.def_contexts.specs.Expansion.{find_term, expand, split_of, by_split, by_prefix, followed_by, if_absolute, by_vocab, maps_to_keyword};
ghost use Rattle.lf_context.specs.DraftView.{table_in};
ghost use Rattle.lf_context.specs.Tables.{expanding_table};

use crate::draft::Drafted;
use crate::table::Terms;
use crate::text::{Split, has_keyword_form, is_absolute, is_keyword, split_of};
use lf_base::{Memory, Text, TryCopy};
use lf_model::{TermDef, TermTable};
use std::alloc::Global;

/// What a text expands to by a table, with or without the vocabulary mapping; none where it is no
/// IRI. A keyword expands to itself, and a text that nothing decides stays as it is. The table's
/// terms are in byte order, as those of a processed context are; a look-up takes their number's
/// logarithm.
pub fn expand_iri(
    alloc: Global,
    table: &TermTable,
    text: &Text,
    vocab: bool,
) -> Result<Option<Text>, Memory>
    requires { IsTrue (ascends table.now.terms) }
    ensures { IfOk result (λ iri. iri ≡ expand table.now text.now vocab) }
{
    expand_by(alloc, table, table.vocab.as_ref(), text, vocab)
}

/// What a text expands to with the vocabulary mapping, while a context is read.
pub fn expand_in(alloc: Global, table: &Drafted, text: &Text) -> Result<Option<Text>, Memory>
    ensures { IfOk result (λ iri. iri ≡ expand (table_in table.now) text.now true) }
{
    expand_by(alloc, table, table.vocab.as_ref(), text, true)
}

/// The definition of a term, where the table has one.
pub fn find_term<'a>(table: &'a TermTable, name: &Text) -> Option<&'a TermDef>
    requires { IsTrue (ascends table.now.terms) }
    ensures { option_copied result ≡ find_term name.now table.now.terms }
{
    table.find(name)
}

/// What a text expands to by terms and a vocabulary mapping.
#[tactic(auto, unfolding(def_contexts::specs::Expansion::expand))]
pub fn expand_by<T: Terms>(
    alloc: Global,
    terms: &T,
    mapping: Option<&Text>,
    text: &Text,
    vocab: bool,
) -> Result<Option<Text>, Memory>
    requires { T.is_ready terms.now }
    ensures { IfOk result (λ iri.
        iri
        ≡ expand (expanding_table (option_copied mapping.entry) (T.terms terms.now)) text.now
        vocab) }
{
    if is_keyword(text.as_str()) {
        return Ok(Some(text.copy(alloc)?));
    }
    if has_keyword_form(text.as_str()) {
        return Ok(None);
    }
    if let Some(term) = terms.find(text) {
        if vocab || maps_to_keyword(term) {
            return Ok(term.iri.copy(alloc)?);
        }
    }
    match expand_parts(alloc, terms, text)? {
        Some(iri) => Ok(Some(iri)),
        None => Ok(Some(in_vocabulary(alloc, mapping, text, vocab)?)),
    }
}

// Whether the term stands for a keyword.
fn maps_to_keyword(term: &TermDef) -> bool
    ensures { result ≡ maps_to_keyword term.now.iri }
{
    match &term.iri {
        Some(iri) => is_keyword(iri.as_str()),
        None => false,
    }
}

// What the `:` of a text decides.
fn expand_parts<T: Terms>(alloc: Global, terms: &T, text: &Text) -> Result<Option<Text>, Memory>
    requires { T.is_ready terms.now }
    ensures { IfOk result (λ iri.
        iri
        ≡ by_split (expanding_table None (T.terms terms.now)) text.now (split_of text.now)) }
{
    match split_of(text.as_str()) {
        Split::Unsplit => Ok(None),
        Split::AsIs => Ok(Some(text.copy(alloc)?)),
        Split::Parts(before, after) => {
            let name = Text::of(alloc, before)?;
            match by_prefix(alloc, terms.find(&name), after)? {
                Some(iri) => Ok(Some(iri)),
                None => if_absolute(alloc, text),
            }
        }
    }
}

// The IRI of a term that may be a prefix, and the rest.
fn by_prefix(alloc: Global, term: Option<&TermDef>, rest: &str) -> Result<Option<Text>, Memory>
    ensures { IfOk result (λ iri. iri ≡ by_prefix (option_copied term.entry) rest.now) }
{
    match term {
        Some(term) => {
            if term.prefix {
                followed_by(alloc, &term.iri, rest)
            } else {
                Ok(None)
            }
        }
        None => Ok(None),
    }
}

fn followed_by(alloc: Global, iri: &Option<Text>, rest: &str) -> Result<Option<Text>, Memory>
    ensures { IfOk result (λ whole. whole ≡ followed_by iri.now rest.now) }
{
    match iri {
        Some(iri) => Ok(Some(joined(alloc, iri.as_str(), rest)?)),
        None => Ok(None),
    }
}

/// Two texts, one behind the other.
pub fn joined(alloc: Global, front: &str, rest: &str) -> Result<Text, Memory>
    ensures { IfOk result (λ whole. whole ≡ front.now ++ rest.now) }
{
    let mut whole = String::from_str(alloc, front)?;
    whole.push_str(rest)?;
    Ok(Text::from_string(whole)?)
}

fn if_absolute(alloc: Global, text: &Text) -> Result<Option<Text>, Memory>
    ensures { IfOk result (λ iri. iri ≡ if_absolute text.now) }
{
    if is_absolute(text.as_str()) {
        Ok(Some(text.copy(alloc)?))
    } else {
        Ok(None)
    }
}

// With `vocab` the vocabulary mapping goes before the text.
fn in_vocabulary(
    alloc: Global,
    mapping: Option<&Text>,
    text: &Text,
    vocab: bool,
) -> Result<Text, Memory>
    ensures { IfOk result (λ iri. iri ≡ by_vocab vocab (option_copied mapping.entry) text.now) }
{
    if vocab {
        if let Some(mapping) = mapping {
            return joined(alloc, mapping.as_str(), text.as_str());
        }
    }
    Ok(text.copy(alloc)?)
}
