//! A context turned round: from an IRI and a value to the term, made once for a document.
ghost use Rattle.std.specs.Prelude.{◌≡◌, ◌∷◌, true, IfOk, Some};
ghost use Rattle.std.specs.Option.{option_copied, option_or};
ghost use Rattle.lf_base.specs.Ascii as ch;
ghost use Rattle.def_selection.specs.Chosen.{chosen};
ghost use Rattle.def_selection.specs.Iris.{by_vocab, is_confused, no_value, short, short_keyword, short_node, term_named, unless_taken};
ghost use Rattle.lf_select.specs.Inverse.{by_prefix_or_whole, Compacts};

use crate::choose::chosen_by;
use crate::error::SelectErr;
use crate::names::{Names, is_prefix_name, names_of, prefix_names_of, term_named};
use crate::prefixes::{Prefixes, prefixes_of};
use crate::shelves::{Shelves, shelves_of};
use crate::shorten::by_prefix;
use crate::text::rest_after;
use def_selection::Pick;
use lf_base::{Memory, Text, TryCopy};
use lf_context::{cut_at_colon, is_absolute, is_keyword};
use lf_model::{TermDef, TermTable};
use lf_rdf::Term;
use std::alloc::Global;
use std::marker::Model;

/// A context that is asked for the term of an IRI and a value (JSON-LD 1.1 Processing Algorithms
/// and API, section 4.3: inverse context). Contracts see it as the context.
#[derive(Drop)]
pub struct Inverse {
    /// The terms of the context.
    table: TermTable,
    /// The terms of each IRI, by container and slot.
    shelves: Shelves,
    /// The places of terms by their names.
    names: Names,
    /// The places of the terms that may be prefixes, by their names.
    prefix_names: Names,
    /// The terms that may be prefixes, by their IRIs.
    prefixes: Prefixes,
    /// What an IRI asks for that stands without a value.
    lone: Pick,
}

impl Model for Inverse {
    ghost use Rattle.lf_model.specs.declared.table.TermTable.{TermTable};
    ghost use Rattle.lf_select.specs.Inverse.{IsInverse};

    ghost Value = { TermTable };

    ghost view = { λ it. it.table };

    ghost invariant = { λ it. IsInverse it.table it.shelves it.names it.prefix_names it.prefixes it.lone };
}

impl Inverse {
    /// The inverse of a context. Its time grows as n log n in the terms and their bytes.
    pub fn of(alloc: Global, table: &TermTable) -> Result<Inverse, Memory>
        ensures { IfOk result (λ inverse. inverse ≡ table.now) }
    {
        let table = table.copy(alloc)?;
        let shelves = shelves_of(alloc, &table)?;
        let names = names_of(alloc, &table)?;
        let prefix_names = prefix_names_of(alloc, &table)?;
        let prefixes = prefixes_of(alloc, &table)?;
        let lone = Pick::of_iri(alloc)?;
        Ok(Inverse {
            table,
            shelves,
            names,
            prefix_names,
            prefixes,
            lone,
        })
    }

    /// The context.
    pub fn table(&self) -> &TermTable
        ensures { result.now ≡ self.now }
    {
        &self.table
    }

    /// The term of a name.
    pub fn term_named(&self, name: &Text) -> Option<&TermDef>
        ensures { option_copied result ≡ term_named self.now name.now }
    {
        term_named(&self.table, &self.names, name)
    }

    /// The term that is chosen for an IRI and what a value asks for (JSON-LD 1.1 Processing
    /// Algorithms and API, section 6.3).
    pub fn chosen(&self, alloc: Global, iri: &Text, pick: &Pick) -> Result<Option<&TermDef>, Memory>
        ensures { IfOk result (λ found. option_copied found ≡ chosen self.now iri.now pick.now) }
    {
        chosen_by(alloc, &self.table, &self.shelves, iri, pick)
    }

    // What follows a vocabulary, unless it is a term or a keyword.
    fn unless_taken(&self, rest: Text) -> Option<Text>
        ensures { result ≡ unless_taken self.now (Some rest) }
    {
        if self.term_named(&rest).is_some() || is_keyword(rest.as_str()) {
            None
        } else {
            Some(rest)
        }
    }

    // What follows the vocabulary mapping in an IRI, where it is neither a term nor a keyword.
    fn by_vocab(&self, alloc: Global, iri: &Text) -> Result<Option<Text>, Memory>
        ensures { IfOk result (λ rest. rest ≡ by_vocab self.now iri.now) }
    {
        match &self.table.vocab {
            Some(vocab) => match rest_after(iri.as_str(), vocab.as_str()) {
                Some(rest) => Ok(self.unless_taken(Text::of(alloc, rest)?)),
                None => Ok(None),
            },
            None => Ok(None),
        }
    }

    // Whether an IRI would be read as a compact one.
    fn is_confused(&self, alloc: Global, iri: &Text) -> Result<bool, Memory>
        ensures { IfOk result (λ confused. confused ≡ is_confused self.now iri.now) }
    {
        if !is_absolute(iri.as_str()) {
            return Ok(false);
        }
        let (scheme, rest) = cut_at_colon(iri.as_str());
        if rest.starts_with("//") {
            return Ok(false);
        }
        let scheme = Text::of(alloc, scheme)?;
        Ok(is_prefix_name(&self.table, &self.prefix_names, &scheme))
    }

    // The compact IRI of an IRI, or the IRI.
    fn by_prefix(&self, alloc: Global, iri: &Text, has_value: bool) -> Result<Text, SelectErr>
        ensures { Compacts result (by_prefix_or_whole self.now iri.now has_value) }
    {
        match by_prefix(
            alloc,
            &self.table,
            &self.names,
            &self.prefixes,
            iri,
            has_value,
        )? {
            Some(compact) => Ok(compact),
            None => {
                if self.is_confused(alloc, iri)? {
                    Err(SelectErr::Confused)
                } else {
                    Ok(iri.copy(alloc)?)
                }
            }
        }
    }

    /// The compacted IRI (JSON-LD 1.1 Processing Algorithms and API, section 6.2). `Confused` is
    /// the error `IRI confused with prefix`. Its time grows with the logarithm of the terms and
    /// with the IRI's bytes, and with the compact IRIs that are terms and so may not be used.
    pub fn compact(
        &self,
        alloc: Global,
        iri: &Text,
        vocab: bool,
        pick: &Pick,
    ) -> Result<Text, SelectErr>
        ensures { Compacts result (short self.now iri.now vocab pick.now) }
    {
        if vocab {
            let term = self.chosen(alloc, iri, pick)?;
            self.compact_under(alloc, iri, term, pick)
        } else {
            self.by_prefix(alloc, iri, pick.has_value)
        }
    }

    /// The compacted IRI of a property, under the term that is chosen for it, if any: so a caller
    /// that asks for the term too looks it up once.
    pub fn compact_under(
        &self,
        alloc: Global,
        iri: &Text,
        term: Option<&TermDef>,
        pick: &Pick,
    ) -> Result<Text, SelectErr>
        requires { option_copied term ≡ chosen self.now iri.now pick.now }
        ensures { Compacts result (short self.now iri.now true pick.now) }
    {
        match term {
            Some(term) => Ok(term.name.copy(alloc)?),
            None => self.unchosen(alloc, iri, pick),
        }
    }

    // The compacted IRI of a property for which no term is chosen.
    fn unchosen(&self, alloc: Global, iri: &Text, pick: &Pick) -> Result<Text, SelectErr>
        ensures { Compacts result (option_or (by_vocab self.now iri.now)
            (by_prefix_or_whole self.now iri.now pick.now.has_value)) }
    {
        match self.by_vocab(alloc, iri)? {
            Some(rest) => Ok(rest),
            None => self.by_prefix(alloc, iri, pick.has_value),
        }
    }

    /// The compacted IRI of a type, a datatype or an id, which has no value.
    pub fn compact_alone(&self, alloc: Global, iri: &Text, vocab: bool) -> Result<Text, SelectErr>
        ensures { Compacts result (short self.now iri.now vocab no_value) }
    {
        self.compact(alloc, iri, vocab, &self.lone)
    }

    /// A keyword's alias, else the keyword.
    pub fn compact_keyword(&self, alloc: Global, keyword: &str) -> Result<Text, Memory>
        ensures { IfOk result (λ alias. alias ≡ short_keyword self.now keyword.now) }
    {
        let keyword = Text::of(alloc, keyword)?;
        match self.chosen(alloc, &keyword, &self.lone)? {
            Some(term) => Ok(term.name.copy(alloc)?),
            None => Ok(keyword),
        }
    }

    /// The compacted id of a node; the id of a blank node stays.
    pub fn compact_node(&self, alloc: Global, id: &Term, vocab: bool) -> Result<Text, SelectErr>
        ensures { Compacts result (short_node self.now vocab id.now) }
    {
        match id {
            Term::Iri(iri) => self.compact_alone(alloc, iri, vocab),
            Term::Blank(label) => Ok(blank_id(alloc, label)?),
            Term::Literal { lexical, .. } => Ok(lexical.copy(alloc)?),
        }
    }
}

// The id of a blank node.
fn blank_id(alloc: Global, label: &Text) -> Result<Text, Memory>
    ensures { IfOk result (λ id. id ≡ ch.underscore ∷ ch.colon ∷ label.now) }
{
    let mut id = String::from_str(alloc, "_:")?;
    id.push_str(label.as_str())?;
    Text::from_string(id)
}

/// The compacted IRI by a context (JSON-LD 1.1 Processing Algorithms and API, section 6.2), for one
/// IRI: the context is turned round for this call.
pub fn compact_iri(
    alloc: Global,
    table: &TermTable,
    iri: &Text,
    vocab: bool,
    pick: &Pick,
) -> Result<Text, SelectErr>
    ensures { Compacts result (short table.now iri.now vocab pick.now) }
{
    let inverse = Inverse::of(alloc, table)?;
    inverse.compact(alloc, iri, vocab, pick)
}
