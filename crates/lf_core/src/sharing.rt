//! Patches in which texts that come again are stored once, as a commit keeps them. Only memory and
//! time depend on it.
ghost use Rattle.std.specs.Prelude.{◌≡◌, IfOk};

use lf_base::{Memory, Same, Text, TryCopy};
use lf_rdf::{Patch, Quad, Signed, SignedList, Term};
use std::alloc::Global;

// The fewest lines of a patch whose texts are looked up: a few lines share little.
const FEWEST_LINES: u64 = 16;

// The most texts that are remembered.
const MOST_SLOTS: u64 = 65_536;

// The prime of the 64-bit Fowler-Noll-Vo hash.
const FACTOR: u64 = 1_099_511_628_211;

/// The patch, in which a text that came in it not long before is stored once. It takes time in
/// proportion to the bytes of its texts, and handles of at most 65,536 of them while it works.
pub fn shared_patch(alloc: Global, patch: Patch) -> Result<Patch, Memory>
    ensures { IfOk result (λ shared. shared ≡ patch) }
{
    if patch.lines.len() < FEWEST_LINES {
        return Ok(patch);
    }
    let lines = shared_lines(alloc, patch.lines.as_slice())?;
    Ok(Patch {
        lines,
        bytes: patch.bytes,
    })
}

fn shared_lines(alloc: Global, lines: &[Signed]) -> Result<SignedList, Memory>
    ensures { IfOk result (λ shared. shared ≡ lines.now) }
{
    let mut recent = RecentTexts::of(alloc, lines.len() as u64)?;
    let mut shared = Vec::with_capacity(alloc, lines.len())?;
    for line in lines {
        shared.push(recent.line(alloc, line)?)?;
    }
    Ok(SignedList::from_vec(shared))
}

// A place for each remainder of a text's number, with the last text that had it.
#[derive(Drop)]
struct RecentTexts {
    slots: Vec<Option<Text>>,
}

impl RecentTexts {
    // Places for the texts of so many lines.
    fn of(alloc: Global, lines: u64) -> Result<RecentTexts, Memory> {
        let count = lines.min(MOST_SLOTS) as usize;
        let mut slots = Vec::with_capacity(alloc, count)?;
        for _ in 0..count {
            slots.push(None)?;
        }
        Ok(RecentTexts { slots })
    }

    // A handle of a text: of the one that was remembered, or of itself.
    fn text(&mut self, alloc: Global, text: &Text) -> Result<Text, Memory>
        ensures { IfOk result (λ shared. shared ≡ text.now) }
    {
        let count = self.slots.len() as u64;
        if count == 0 {
            return text.copy(alloc);
        }
        let place = (number_of(text) % count) as usize;
        if let Some(last) = &self.slots[place] {
            if last.is(text) {
                return last.copy(alloc);
            }
        }
        self.slots[place] = Some(text.copy(alloc)?);
        text.copy(alloc)
    }

    fn language(&mut self, alloc: Global, language: &Option<Text>) -> Result<Option<Text>, Memory>
        ensures { IfOk result (λ shared. shared ≡ language.now) }
    {
        match language {
            Some(tag) => Ok(Some(self.text(alloc, tag)?)),
            None => Ok(None),
        }
    }

    fn term(&mut self, alloc: Global, term: &Term) -> Result<Term, Memory>
        ensures { IfOk result (λ shared. shared ≡ term.now) }
    {
        match term {
            Term::Iri(iri) => Ok(Term::Iri(self.text(alloc, iri)?)),
            Term::Blank(label) => Ok(Term::Blank(self.text(alloc, label)?)),
            Term::Literal {
                lexical,
                datatype,
                language,
            } => Ok(Term::Literal {
                lexical: self.text(alloc, lexical)?,
                datatype: self.text(alloc, datatype)?,
                language: self.language(alloc, language)?,
            }),
        }
    }

    fn graph(&mut self, alloc: Global, graph: &Option<Term>) -> Result<Option<Term>, Memory>
        ensures { IfOk result (λ shared. shared ≡ graph.now) }
    {
        match graph {
            Some(name) => Ok(Some(self.term(alloc, name)?)),
            None => Ok(None),
        }
    }

    fn line(&mut self, alloc: Global, line: &Signed) -> Result<Signed, Memory>
        ensures { IfOk result (λ shared. shared ≡ line.now) }
    {
        Ok(Signed {
            add: line.add,
            quad: Quad {
                subject: self.term(alloc, &line.quad.subject)?,
                predicate: self.term(alloc, &line.quad.predicate)?,
                object: self.term(alloc, &line.quad.object)?,
                graph: self.graph(alloc, &line.quad.graph)?,
            },
        })
    }
}

// A number that depends on each byte of a text.
fn number_of(text: &Text) -> u64 {
    let mut number = 0;
    for byte in text.as_str().as_bytes() {
        number = (number ^ u64::from(*byte)).wrapping_mul(FACTOR);
    }
    number
}
