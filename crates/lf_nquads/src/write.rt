//! Quads as canonical lines (RDF 1.1 N-Quads, section 4: the canonical form of N-Quads).
ghost use Rattle.std.specs.Prelude.{◌≡◌, ◌++◌, ◌≤◌, ◌∷◌, [], length, IfOk, OnOk, encode_utf8_all, string_bytes};
ghost use Rattle.std.specs.List.{AllByRecursion};
ghost use Rattle.lf_base.specs.Ascii as ch;
ghost use Rattle.lf_rdf.specs.Canonical.{escaped, escaped_byte, bracketed, quoted, suffix_of, term_text, label_text, line};
ghost use Rattle.def_patch_texts.specs.Given.{IsGiven};
ghost use Rattle.def_patch_texts.specs.PatchText.{line_limit, IsPatchText};
ghost use Rattle.lf_nquads.specs.Written.{lines_text, all_added};

use lf_base::{Memory, Text};
use lf_rdf::{Quad, QuadList, Term, is_xsd_string};
use std::alloc::Global;

// Puts one character of a string at the end, escaped where a canonical line escapes it.
fn push_escaped_char(out: &mut String, character: char) -> Result<(), Memory>
    ensures { OnOk result (string_bytes out.new
        ≡ string_bytes out.old ++ encode_utf8_all (escaped_byte character)) }
{
    match character {
        '"' => out.push_str("\\\"")?,
        '\\' => out.push_str("\\\\")?,
        '\n' => out.push_str("\\n")?,
        '\r' => out.push_str("\\r")?,
        _ => out.push(character)?,
    }
    Ok(())
}

// Puts the characters of a string at the end, escaped.
fn push_escaped(out: &mut String, text: &str) -> Result<(), Memory>
    ensures { OnOk result (string_bytes out.new ≡ string_bytes out.old ++ escaped text.now) }
{
    for character in text.chars() {
        push_escaped_char(out, character)?;
    }
    Ok(())
}

// Puts an IRI at the end, in angle brackets.
fn push_bracketed(out: &mut String, iri: &str) -> Result<(), Memory>
    ensures { OnOk result (string_bytes out.new ≡ string_bytes out.old ++ bracketed iri.now) }
{
    out.push_str("<")?;
    out.push_str(iri)?;
    out.push_str(">")?;
    Ok(())
}

// Puts a string at the end, in quotes.
fn push_quoted(out: &mut String, text: &str) -> Result<(), Memory>
    ensures { OnOk result (string_bytes out.new ≡ string_bytes out.old ++ quoted text.now) }
{
    out.push_str("\"")?;
    push_escaped(out, text)?;
    out.push_str("\"")?;
    Ok(())
}

// Puts what follows the string of a literal at the end: its language, or a datatype other than
// `xsd:string`.
fn push_suffix(out: &mut String, datatype: &Text, language: &Option<Text>) -> Result<(), Memory>
    ensures { OnOk result
        (string_bytes out.new ≡ string_bytes out.old ++ suffix_of datatype.now language.now) }
{
    match language {
        Some(tag) => {
            out.push_str("@")?;
            out.push_str(tag.as_str())?;
        }
        None => {
            if !is_xsd_string(datatype.as_str()) {
                out.push_str("^^")?;
                push_bracketed(out, datatype.as_str())?;
            }
        }
    }
    Ok(())
}

// Puts the canonical text of a term at the end.
fn push_term(out: &mut String, term: &Term) -> Result<(), Memory>
    ensures { OnOk result (string_bytes out.new ≡ string_bytes out.old ++ term_text term.now) }
{
    match term {
        Term::Iri(iri) => push_bracketed(out, iri.as_str()),
        Term::Blank(label) => {
            out.push_str("_:")?;
            out.push_str(label.as_str())?;
            Ok(())
        }
        Term::Literal {
            lexical,
            datatype,
            language,
        } => {
            push_quoted(out, lexical.as_str())?;
            push_suffix(out, datatype, language)
        }
    }
}

// Puts a space and the graph's name at the end, where there is one.
fn push_graph(out: &mut String, graph: &Option<Term>) -> Result<(), Memory>
    ensures { OnOk result (string_bytes out.new ≡ string_bytes out.old ++ label_text graph.now) }
{
    match graph {
        Some(name) => {
            out.push_str(" ")?;
            push_term(out, name)
        }
        None => Ok(()),
    }
}

// Puts the canonical line of a quad at the end, and LF.
fn push_line(out: &mut String, quad: &Quad) -> Result<(), Memory>
    ensures { OnOk result
        (string_bytes out.new ≡ string_bytes out.old ++ (line quad.now ++ ch.line_feed ∷ [])) }
{
    push_term(out, &quad.subject)?;
    out.push_str(" ")?;
    push_term(out, &quad.predicate)?;
    out.push_str(" ")?;
    push_term(out, &quad.object)?;
    push_graph(out, &quad.graph)?;
    out.push_str(" .\n")?;
    Ok(())
}

/// The canonical line of each quad, in order, each ended by LF. What is written for quads whose
/// terms a patch text can state, with no line too long, is a patch text that adds these quads.
pub fn write_quads(alloc: Global, quads: &QuadList) -> Result<Text, Memory>
    ensures written { IfOk result (λ text. text ≡ lines_text quads.now) }
    ensures reads_back { IfOk result (λ text.
        AllByRecursion IsGiven quads.now → AllByRecursion (λ quad. length (line quad) ≤ line_limit) quads.now →
        IsPatchText text (all_added quads.now)) }
{
    let mut out = String::new(alloc);
    for quad in quads.as_slice() {
        push_line(&mut out, quad)?;
    }
    Text::from_string(out)
}
