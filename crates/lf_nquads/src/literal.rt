//! Literals: strings, language tags and datatypes (RDF 1.1 N-Quads, section 2.3).
ghost use Rattle.std.specs.Prelude.{◌≡◌, IfOk, string_bytes};
ghost use Rattle.lf_base.specs.Ascii as ch;
ghost use Rattle.lf_rdf.specs.Vocabulary.{rdf_lang_string};
ghost use Rattle.def_patch_texts.specs.Characters.{is_tag};
ghost use Rattle.def_patch_texts.specs.PatchText.{absolute_iris};
ghost use Rattle.def_patch_texts.specs.Reading.{front_at, tag_at};
ghost use Rattle.lf_nquads.specs.Outcomes.{all_parts_of, expected, string_part_of, string_of, typed_of, suffix_of, literal_of};
ghost use Rattle.lf_nquads.specs.Gives.{Gives, as_escape, encoded, string_behind};

use crate::characters::{is_string_char, short_escape};
use crate::cursor::Cursor;
use crate::error::Fault;
use def_patch_texts::LineKind;
use lf_base::{Memory, Text};
use lf_rdf::{Term, xsd_string};
use std::alloc::Global;

const RDF_LANG_STRING: &str = "http://www.w3.org/1999/02/22-rdf-syntax-ns#langString";

// The IRI of `rdf:langString`, the datatype of literals with a language.
#[tactic(auto, unfolding(lf_rdf::specs::Vocabulary::rdf_lang_string))]
fn rdf_lang_string(alloc: Global) -> Result<Text, Memory>
    ensures { IfOk result (λ iri. iri ≡ rdf_lang_string) }
{
    Text::of(alloc, RDF_LANG_STRING)
}

impl<'a> Cursor<'a> {
    // Takes what stands behind a backslash in a string.
    #[tactic(auto, unfolding(def_patch_texts::specs::Reading::string_escape_at))]
    fn string_escape(&mut self) -> Result<char, Fault>
        ensures { Gives (λ c. (c, self.new)) result (as_escape (string_behind self.old)) }
    {
        match self.peek() {
            Some(letter) => match short_escape(letter) {
                Some(c) => {
                    let _ = self.next();
                    Ok(c)
                }
                None => self.unicode(),
            },
            None => self.unicode(),
        }
    }

    // Takes one character of a string, raw or as an escape.
    #[tactic(auto, unfolding(def_patch_texts::specs::Reading::string_part_at))]
    fn string_part(&mut self) -> Result<char, Fault>
        ensures { Gives (λ c. (c, self.new)) result (string_part_of absolute_iris self.old) }
    {
        match self.next() {
            Some('\\') => self.string_escape(),
            Some(c) => {
                if is_string_char(c) {
                    return Ok(c);
                }
                Err(Fault::Bad(LineKind::Syntax))
            }
            None => Err(Fault::Bad(LineKind::Syntax)),
        }
    }

    // Takes the characters before `"`, one by one.
    fn string_parts(&mut self, alloc: Global) -> Result<String, Fault>
        ensures { Gives (λ value. (string_bytes value, self.new)) result
            (encoded (all_parts_of ch.quote (string_part_of absolute_iris) self.old)) }
    {
        let mut value = String::new(alloc);
        while !self.begins('"') {
            let c = self.string_part()?;
            value.push(c)?;
        }
        Ok(value)
    }

    // Takes the characters before `"`. Where none is an escape they are taken in one piece.
    fn string_text(&mut self, alloc: Global) -> Result<Text, Fault>
        ensures { Gives (λ value. (value, self.new)) result
            (encoded (all_parts_of ch.quote (string_part_of absolute_iris) self.old)) }
    {
        let mut ahead = self.here();
        let raw = ahead.raw_string();
        if ahead.begins('"') {
            let value = Text::of(alloc, raw)?;
            *self = ahead;
            return Ok(value);
        }
        let value = self.string_parts(alloc)?;
        Ok(Text::from_string(value)?)
    }

    // Takes a string in quotes.
    #[tactic(auto, unfolding(crate::specs::Outcomes::string_of))]
    fn string(&mut self, alloc: Global) -> Result<Text, Fault>
        ensures { Gives (λ value. (value, self.new)) result (string_of absolute_iris self.old) }
    {
        self.expect('"')?;
        let value = self.string_text(alloc)?;
        self.expect('"')?;
        Ok(value)
    }

    // Takes the longest tag. A `-` at its end is left where it is.
    fn tag_front(&mut self) -> Result<&'a str, Fault>
        ensures { Gives (λ tag. (tag.now, self.new)) result
            (encoded (expected (front_at is_tag self.old))) }
    {
        let start = self.here();
        let mut end = self.here();
        let mut needed = true;
        let mut digits = false;
        while let Some(c) = self.next_of_tag(needed, digits) {
            needed = c == '-';
            digits = digits || needed;
            if !needed {
                end = self.here();
            }
        }
        let tag = start.until(&end);
        if tag.is_empty() {
            return Err(Fault::Bad(LineKind::Syntax));
        }
        *self = end;
        Ok(tag)
    }

    // Takes a language tag, and gives it in lower case.
    #[tactic(auto, unfolding(def_patch_texts::specs::Reading::tag_at))]
    fn tag(&mut self, alloc: Global) -> Result<Text, Fault>
        ensures { Gives (λ tag. (tag, self.new)) result (expected (tag_at self.old)) }
    {
        self.expect('@')?;
        let tag = self.tag_front()?;
        let mut lower = String::from_str(alloc, tag)?;
        lower.make_ascii_lowercase();
        Ok(Text::from_string(lower)?)
    }

    // Takes `^^` and the IRI of a datatype.
    #[tactic(auto, unfolding(crate::specs::Outcomes::typed_of))]
    fn datatype(&mut self, alloc: Global) -> Result<Text, Fault>
        ensures { Gives (λ iri. (iri, self.new)) result (typed_of absolute_iris self.old) }
    {
        self.expect('^')?;
        self.expect('^')?;
        self.skip_blanks();
        self.iri(alloc)
    }

    // Takes what follows the string of a literal: a datatype, a tag or nothing.
    #[tactic(auto, unfolding(crate::specs::Outcomes::suffix_of))]
    fn suffix(&mut self, alloc: Global, lexical: Text) -> Result<Term, Fault>
        ensures { Gives (λ term. (term, self.new)) result (suffix_of absolute_iris lexical self.old) }
    {
        let mut ahead = self.here();
        ahead.skip_blanks();
        if ahead.begins('^') {
            let datatype = ahead.datatype(alloc)?;
            *self = ahead;
            return Ok(Term::Literal {
                lexical,
                datatype,
                language: None,
            });
        }
        if ahead.begins('@') {
            let tag = ahead.tag(alloc)?;
            let datatype = rdf_lang_string(alloc)?;
            *self = ahead;
            return Ok(Term::Literal {
                lexical,
                datatype,
                language: Some(tag),
            });
        }
        let datatype = xsd_string(alloc)?;
        Ok(Term::Literal {
            lexical,
            datatype,
            language: None,
        })
    }

    /// Takes a literal.
    pub fn literal(&mut self, alloc: Global) -> Result<Term, Fault>
        ensures { Gives (λ term. (term, self.new)) result (literal_of absolute_iris self.old) }
    {
        let lexical = self.string(alloc)?;
        self.suffix(alloc, lexical)
    }
}
