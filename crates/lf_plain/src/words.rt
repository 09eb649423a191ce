//! Quads of words, as tests write them.
ghost use Rattle.std.specs.Prelude.{◌≡◌, ◌++◌, ◌∷◌, [], Some, None, IfOk, OnOk};
ghost use Rattle.lf_rdf.specs.declared.term.Term.TheVariants.{Literal};
ghost use Rattle.lf_rdf.specs.Vocabulary.{xsd_string};
ghost use Rattle.lf_plain.specs.Words.{label_of, quad_of, term_of};

use crate::plain::PlainQuads;
use lf_base::{Memory, Text};
use lf_rdf::{Quad, Term, xsd_string};
use std::alloc::Global;

impl PlainQuads {
    /// Puts a quad behind the others. Each word is an IRI, a label behind `_:` or a plain string
    /// behind `'`; an empty graph is the default one.
    pub fn put(
        &mut self,
        alloc: Global,
        subject: &str,
        predicate: &str,
        object: &str,
        graph: &str,
    ) -> Result<(), Memory>
        ensures { OnOk result (self.new.quads
            ≡ self.old.quads ++ quad_of subject.now predicate.now object.now graph.now ∷ []) }
    {
        let quad = quad_of(alloc, subject, predicate, object, graph)?;
        self.quads.push(quad)
    }
}

// A quad of words.
fn quad_of(
    alloc: Global,
    subject: &str,
    predicate: &str,
    object: &str,
    graph: &str,
) -> Result<Quad, Memory>
    ensures { IfOk result (λ quad. quad ≡ quad_of subject.now predicate.now object.now graph.now) }
{
    Ok(Quad {
        subject: term_of(alloc, subject)?,
        predicate: term_of(alloc, predicate)?,
        object: term_of(alloc, object)?,
        graph: label_of(alloc, graph)?,
    })
}

// The graph label of a word.
fn label_of(alloc: Global, word: &str) -> Result<Option<Term>, Memory>
    ensures { IfOk result (λ label. label ≡ label_of word.now) }
{
    if word.is_empty() {
        return Ok(None);
    }
    Ok(Some(term_of(alloc, word)?))
}

/// The term of a word: an IRI, a label behind `_:` or a plain string behind `'`.
pub fn term_of(alloc: Global, word: &str) -> Result<Term, Memory>
    ensures { IfOk result (λ term. term ≡ term_of word.now) }
{
    match word.strip_prefix("_:") {
        Some(label) => Ok(Term::Blank(Text::of(alloc, label)?)),
        None => match word.strip_prefix("'") {
            Some(lexical) => plain_literal(alloc, lexical),
            None => Ok(Term::Iri(Text::of(alloc, word)?)),
        },
    }
}

// A plain string.
fn plain_literal(alloc: Global, lexical: &str) -> Result<Term, Memory>
    ensures { IfOk result (λ term. term ≡ Literal lexical.now xsd_string None) }
{
    Ok(Term::Literal {
        lexical: Text::of(alloc, lexical)?,
        datatype: xsd_string(alloc)?,
        language: None,
    })
}
