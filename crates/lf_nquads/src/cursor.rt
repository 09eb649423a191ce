//! What is left to read of a line, which contracts see as its characters.
ghost use Rattle.std.specs.Prelude.{◌≡◌, ◌++◌, ◌∷◌, [], List, ℕ, length, take, drop, Some, None, slice_get, MatchOption, encode_utf8_all};
ghost use Rattle.std.specs.Str.{chars};
ghost use Rattle.std.specs.List.{prefix_len};
ghost use Rattle.def_patch_texts.specs.Reading.{starts, after_char, skip, is_comment};
ghost use Rattle.def_patch_texts.specs.Characters as class;
ghost use Rattle.lf_nquads.specs.Outcomes.{expected};
ghost use Rattle.lf_nquads.specs.Gives.{Gives};
ghost use Rattle.lf_nquads.specs.Scanning.{TakesIf, first_is, is_tag_char as tag_char};

use crate::characters::{is_blank, is_iri_char, is_label_char, is_string_char, is_tag_char};
use crate::error::Fault;
use def_patch_texts::LineKind;
use std::marker::Model;

/// A place in a line.
#[derive(Debug, Drop)]
pub struct Cursor<'a> {
    rest: &'a str,
}

impl<'a> Model for Cursor<'a> {
    ghost use Rattle.std.specs.Prelude.{◌≡◌, List, ℕ, true};
    ghost use Rattle.std.specs.Str.{chars, is_utf8};

    ghost Value = { List ℕ };

    ghost view = { λ c. chars c.rest.now };

    ghost invariant = { λ c. is_utf8 c.rest.now ≡ true };
}

impl<'a> Cursor<'a> {
    /// The beginning of a line.
    pub fn of(line: &'a str) -> Cursor<'a>
        ensures { result ≡ chars line.now }
    {
        Cursor { rest: line }
    }

    /// The same place.
    pub fn here(&self) -> Cursor<'a>
        ensures { result ≡ self.now }
    {
        Cursor { rest: self.rest }
    }

    /// The text from here to a place further on.
    pub fn until(&self, end: &Cursor<'a>) -> &'a str
        requires { (between : List ℕ) × (self.now ≡ between ++ end.now) }
        ensures { (between : List ℕ) → self.now ≡ between ++ end.now →
            result.now ≡ encode_utf8_all between }
    {
        let text = self.rest;
        let (between, _) = text.split_at(text.len() - end.rest.len());
        between
    }

    /// The next character, which stays.
    pub fn peek(&self) -> Option<char>
        ensures { result ≡ slice_get self.now 0 }
    {
        self.rest.chars().next()
    }

    /// Takes the next character.
    pub fn next(&mut self) -> Option<char>
        ensures { MatchOption result ((self.old ≡ []) × (self.new ≡ [])) (λ c. self.old ≡ c ∷ self.new) }
    {
        let text = self.rest;
        let mut characters = text.chars();
        let taken = characters.next()?;
        self.rest = characters.as_str();
        Some(taken)
    }

    /// Whether this character stands next.
    pub fn begins(&self, wanted: char) -> bool
        ensures { result ≡ starts wanted self.now }
    {
        match self.peek() {
            Some(c) => c == wanted,
            None => false,
        }
    }

    /// Whether nothing stands next, or a comment.
    pub fn at_comment(&self) -> bool
        ensures { result ≡ is_comment self.now }
    {
        match self.peek() {
            Some(c) => c == '#',
            None => true,
        }
    }

    /// Takes this character, which must stand next.
    #[tactic(auto, unfolding(def_patch_texts::specs::Reading::after_char))]
    pub fn expect(&mut self, wanted: char) -> Result<(), Fault>
        ensures { Gives (λ _. self.new) result (expected (after_char wanted self.old)) }
    {
        match self.next() {
            Some(c) => {
                if c == wanted {
                    return Ok(());
                }
                Err(Fault::Bad(LineKind::Syntax))
            }
            None => Err(Fault::Bad(LineKind::Syntax)),
        }
    }

    /// Takes the characters that may stand raw in an IRI.
    pub fn raw_iri(&mut self) -> &'a str
        ensures text { result.now ≡ encode_utf8_all (take (prefix_len class.is_iri_char self.old) self.old) }
        ensures rest { self.new ≡ drop (prefix_len class.is_iri_char self.old) self.old }
    {
        let len = raw_iri_len(self.rest.as_bytes());
        let (raw, rest) = self.rest.split_at(len);
        self.rest = rest;
        raw
    }

    /// Takes the characters that may stand raw in a string.
    pub fn raw_string(&mut self) -> &'a str
        ensures text { result.now ≡ encode_utf8_all (take (prefix_len class.is_string_char self.old) self.old) }
        ensures rest { self.new ≡ drop (prefix_len class.is_string_char self.old) self.old }
    {
        let len = raw_string_len(self.rest.as_bytes());
        let (raw, rest) = self.rest.split_at(len);
        self.rest = rest;
        raw
    }

    /// Takes the next character if it may stand in a label.
    pub fn next_of_label(&mut self) -> Option<char>
        ensures { TakesIf class.is_label_char self.old result self.new }
    {
        let c = self.peek()?;
        if !is_label_char(c) {
            return None;
        }
        self.next()
    }

    /// Takes the next character if it may stand in a language tag, where digits may stand or not,
    /// and `-` may stand or not.
    pub fn next_of_tag(&mut self, needed: bool, digits: bool) -> Option<char>
        ensures { TakesIf (tag_char needed digits) self.old result self.new }
    {
        let c = self.peek()?;
        if !is_tag_char(needed, digits, c) {
            return None;
        }
        self.next()
    }

    /// Takes spaces and tabs.
    pub fn skip_blanks(&mut self)
        ensures { self.new ≡ skip self.old }
    {
        while self.at_blank() {
            let _ = self.next();
        }
    }

    fn at_blank(&self) -> bool
        ensures { result ≡ first_is class.is_blank self.now }
    {
        match self.peek() {
            Some(c) => is_blank(c),
            None => false,
        }
    }
}

// How many bytes at the front belong to characters that may stand raw in an IRI.
fn raw_iri_len(bytes: &[u8]) -> usize
    ensures { result ≡ prefix_len class.is_iri_char bytes.now }
{
    for (place, byte) in bytes.iter().enumerate() {
        if !is_iri_char(char::from(*byte)) {
            return place;
        }
    }
    bytes.len()
}

// How many bytes at the front belong to characters that may stand raw in a string.
fn raw_string_len(bytes: &[u8]) -> usize
    ensures { result ≡ prefix_len class.is_string_char bytes.now }
{
    for (place, byte) in bytes.iter().enumerate() {
        if !is_string_char(char::from(*byte)) {
            return place;
        }
    }
    bytes.len()
}
