//! IRIs in angle brackets (RDF 1.1 N-Quads, production `IRIREF`).
ghost use Rattle.std.specs.Prelude.{◌≡◌, string_bytes};
ghost use Rattle.std.specs.Str.{chars};
ghost use Rattle.lf_base.specs.Ascii as ch;
ghost use Rattle.def_patch_texts.specs.Characters as class;
ghost use Rattle.def_patch_texts.specs.PatchText.{absolute_iris};
ghost use Rattle.lf_nquads.specs.Outcomes.{all_parts_of, iri_part_of, iri_of};
ghost use Rattle.lf_nquads.specs.Gives.{Gives, encoded};

use crate::characters::{begins_scheme, is_iri_char, is_scheme_char};
use crate::cursor::Cursor;
use crate::error::Fault;
use def_patch_texts::LineKind;
use lf_base::Text;
use std::alloc::Global;

impl Cursor<'_> {
    // Takes one character of an IRI, raw or as an escape.
    #[tactic(auto, unfolding(def_patch_texts::specs::Reading::iri_part_at))]
    fn iri_part(&mut self) -> Result<char, Fault>
        ensures { Gives (λ c. (c, self.new)) result (iri_part_of absolute_iris self.old) }
    {
        match self.next() {
            Some('\\') => {
                let c = self.unicode()?;
                if is_iri_char(c) {
                    return Ok(c);
                }
                Err(Fault::Bad(LineKind::BadEscape))
            }
            Some(c) => {
                if is_iri_char(c) {
                    return Ok(c);
                }
                Err(Fault::Bad(LineKind::Syntax))
            }
            None => Err(Fault::Bad(LineKind::Syntax)),
        }
    }

    // Takes the characters before `>`, one by one.
    fn iri_parts(&mut self, alloc: Global) -> Result<String, Fault>
        ensures { Gives (λ iri. (string_bytes iri, self.new)) result
            (encoded (all_parts_of ch.greater (iri_part_of absolute_iris) self.old)) }
    {
        let mut iri = String::new(alloc);
        while !self.begins('>') {
            let c = self.iri_part()?;
            iri.push(c)?;
        }
        Ok(iri)
    }

    // Takes the characters before `>`. Where none is an escape they are taken in one piece.
    fn iri_text(&mut self, alloc: Global) -> Result<Text, Fault>
        ensures { Gives (λ iri. (iri, self.new)) result
            (encoded (all_parts_of ch.greater (iri_part_of absolute_iris) self.old)) }
    {
        let mut ahead = self.here();
        let raw = ahead.raw_iri();
        if ahead.begins('>') {
            let iri = Text::of(alloc, raw)?;
            *self = ahead;
            return Ok(iri);
        }
        let iri = self.iri_parts(alloc)?;
        Ok(Text::from_string(iri)?)
    }

    /// Takes an IRI in angle brackets, which is absolute.
    #[tactic(auto, unfolding(crate::specs::Outcomes::iri_of))]
    pub fn iri(&mut self, alloc: Global) -> Result<Text, Fault>
        ensures { Gives (λ iri. (iri, self.new)) result (iri_of absolute_iris self.old) }
    {
        self.expect('<')?;
        let iri = self.iri_text(alloc)?;
        self.expect('>')?;
        if !is_absolute(iri.as_str()) {
            return Err(Fault::Bad(LineKind::RelativeIri));
        }
        Ok(iri)
    }
}

// Whether an IRI begins with a scheme and `:` (RFC 3986, section 3.1).
fn is_absolute(iri: &str) -> bool
    ensures { result ≡ class.is_absolute (chars iri.now) }
{
    let mut cursor = Cursor::of(iri);
    match cursor.next() {
        Some(c) => begins_scheme(c) && ends_scheme(cursor),
        None => false,
    }
}

// Whether characters of a scheme and `:` follow.
fn ends_scheme(mut cursor: Cursor<'_>) -> bool
    ensures { result ≡ class.ends_scheme cursor.entry }
{
    while let Some(c) = cursor.next() {
        if c == ':' {
            return true;
        }
        if !is_scheme_char(c) {
            return false;
        }
    }
    false
}
