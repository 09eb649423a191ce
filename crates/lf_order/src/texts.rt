//! Canonical texts of terms (RDF 1.1 N-Quads, section 4), by which the objects of a property are
//! put in order.
ghost use Rattle.std.specs.Prelude.{◌≡◌, ◌++◌, ◌∷◌, IfOk, OnOk};
ghost use Rattle.lf_rdf.specs.Canonical.{bracketed, escaped, escaped_byte, quoted, suffix_of, term_text};

use lf_base::{Memory, Text};
use lf_rdf::{Term, is_xsd_string};
use std::alloc::Global;

/// The canonical text of a term.
pub fn text_of(alloc: Global, term: &Term) -> Result<Vec<u8>, Memory>
    ensures { IfOk result (λ made. made.items ≡ term_text term.now) }
{
    let mut made = Vec::new(alloc);
    put_term(&mut made, term)?;
    Ok(made)
}

/// Puts the canonical text of a term behind other bytes.
pub fn put_term(made: &mut Vec<u8>, term: &Term) -> Result<(), Memory>
    ensures { OnOk result (made.new.items ≡ made.old.items ++ term_text term.now) }
{
    match term {
        Term::Iri(iri) => put_bracketed(made, iri),
        Term::Blank(label) => put_blank(made, label),
        Term::Literal {
            lexical,
            datatype,
            language,
        } => {
            put_quoted(made, lexical)?;
            put_suffix(made, datatype, language)
        }
    }
}

// An IRI in angle brackets.
fn put_bracketed(made: &mut Vec<u8>, iri: &Text) -> Result<(), Memory>
    ensures { OnOk result (made.new.items ≡ made.old.items ++ bracketed iri.now) }
{
    made.push(b'<')?;
    made.extend_from_slice(iri.as_str().as_bytes())?;
    made.push(b'>')?;
    Ok(())
}

// The label of a blank node behind `_:`.
fn put_blank(made: &mut Vec<u8>, label: &Text) -> Result<(), Memory>
    ensures { OnOk result (made.new.items ≡ made.old.items ++ 95 ∷ 58 ∷ label.now) }
{
    made.extend_from_slice(b"_:")?;
    made.extend_from_slice(label.as_str().as_bytes())?;
    Ok(())
}

// A string in quotes.
fn put_quoted(made: &mut Vec<u8>, text: &Text) -> Result<(), Memory>
    ensures { OnOk result (made.new.items ≡ made.old.items ++ quoted text.now) }
{
    made.push(b'"')?;
    put_escaped(made, text.as_str().as_bytes())?;
    made.push(b'"')?;
    Ok(())
}

// The bytes of a string, with its escapes.
fn put_escaped(made: &mut Vec<u8>, text: &[u8]) -> Result<(), Memory>
    ensures { OnOk result (made.new.items ≡ made.old.items ++ escaped text.now) }
{
    for byte in text {
        put_byte(made, *byte)?;
    }
    Ok(())
}

// One byte of a string, or its escape.
fn put_byte(made: &mut Vec<u8>, byte: u8) -> Result<(), Memory>
    ensures { OnOk result (made.new.items ≡ made.old.items ++ escaped_byte byte) }
{
    if byte == b'"' {
        made.extend_from_slice(b"\\\"")?;
    } else if byte == b'\\' {
        made.extend_from_slice(b"\\\\")?;
    } else if byte == b'\n' {
        made.extend_from_slice(b"\\n")?;
    } else if byte == b'\r' {
        made.extend_from_slice(b"\\r")?;
    } else {
        made.push(byte)?;
    }
    Ok(())
}

// What follows the string of a literal: its tag, or a datatype other than `xsd:string`.
fn put_suffix(made: &mut Vec<u8>, datatype: &Text, language: &Option<Text>) -> Result<(), Memory>
    ensures { OnOk result (made.new.items ≡ made.old.items ++ suffix_of datatype.now language.now) }
{
    match language {
        Some(tag) => put_tag(made, tag),
        None => put_datatype(made, datatype),
    }
}

fn put_tag(made: &mut Vec<u8>, tag: &Text) -> Result<(), Memory>
    ensures { OnOk result (made.new.items ≡ made.old.items ++ 64 ∷ tag.now) }
{
    made.push(b'@')?;
    made.extend_from_slice(tag.as_str().as_bytes())?;
    Ok(())
}

fn put_datatype(made: &mut Vec<u8>, datatype: &Text) -> Result<(), Memory>
    ensures { OnOk result (made.new.items ≡ made.old.items ++ suffix_of datatype.now None) }
{
    if is_xsd_string(datatype.as_str()) {
        return Ok(());
    }
    made.extend_from_slice(b"^^")?;
    put_bracketed(made, datatype)
}
