//! An IRI that is shortened or confused, and the order in which terms are chosen.
use crate::{Inverse, SelectErr, compact_iri};
use def_selection::{Pick, PickKind};
use lf_base::{ListOf, Memory, Text, TextList};
use lf_model::{Container, TermDef, TermTable};
use std::alloc::Global;
use std::test::Fail;

fn term(alloc: Global, name: &str, iri: &str, prefix: bool) -> Result<TermDef, Memory> {
    Ok(TermDef {
        name: Text::of(alloc, name)?,
        iri: Some(Text::of(alloc, iri)?),
        prefix,
        reverse: false,
        coercion: None,
        language: None,
        container: Container::NoContainer,
    })
}

fn shortening_table(alloc: Global) -> Result<TermTable, Memory> {
    let mut terms = ListOf::new(alloc);
    terms.push(term(alloc, "eb", "http://e/", true)?)?;
    terms.push(term(alloc, "ea", "http://e/", true)?)?;
    terms.push(term(alloc, "eax:p", "http://other/", false)?)?;
    terms.push(term(alloc, "eax", "http://x/", true)?)?;
    terms.push(term(alloc, "name", "http://e/n", false)?)?;
    terms.push(term(alloc, "tag", "http://t/", true)?)?;
    Ok(TermTable {
        vocab: Some(Text::of(alloc, "http://v/")?),
        language: None,
        terms,
        type_set: false,
    })
}

// Whether an IRI alone compacts to a text; none is the error.
fn compacts(
    alloc: Global,
    table: &TermTable,
    iri: &str,
    vocab: bool,
    expected: Option<&str>,
) -> Result<bool, Memory> {
    let iri = Text::of(alloc, iri)?;
    let pick = Pick::of_iri(alloc)?;
    match compact_iri(alloc, table, &iri, vocab, &pick) {
        Ok(text) => match expected {
            Some(expected) => Ok(text.as_str() == expected),
            None => Ok(false),
        },
        Err(SelectErr::Confused) => Ok(expected.is_none()),
        Err(SelectErr::Memory) => Err(Memory),
    }
}

#[test]
fn an_iri_is_shortened_or_confused(rt: HostRuntime) -> Result<(), Fail> {
    let table = shortening_table(rt.alloc())?;
    assert!(rt; compacts(rt.alloc(), &table, "http://e/p", false, Some("ea:p"))?);
    assert!(rt;
        compacts(
            rt.alloc(),
            &table,
            "http://v/name",
            true,
            Some("http://v/name")
        )?
    );
    assert!(rt; compacts(rt.alloc(), &table, "http://x/q", false, Some("eax:q"))?);
    assert!(rt; compacts(rt.alloc(), &table, "tag:x,1", true, None)?);
    Ok(())
}

fn choosing_table(alloc: Global) -> Result<TermTable, Memory> {
    let mut terms = ListOf::new(alloc);
    terms.push(term(alloc, "longer", "http://e/p", false)?)?;
    terms.push(term(alloc, "pb", "http://e/p", false)?)?;
    terms.push(term(alloc, "pa", "http://e/p", false)?)?;
    let mut english = term(alloc, "english", "http://e/p", false)?;
    english.language = Some(Some(Text::of(alloc, "en")?));
    english.container = Container::Set;
    terms.push(english)?;
    let mut date = term(alloc, "date", "http://e/p", false)?;
    date.coercion = Some(Text::of(alloc, "http://e/date")?);
    terms.push(date)?;
    let mut turned = term(alloc, "in", "http://e/p", false)?;
    turned.reverse = true;
    terms.push(turned)?;
    Ok(TermTable {
        vocab: None,
        language: None,
        terms,
        type_set: false,
    })
}

fn names(alloc: Global, preferred: &[&str]) -> Result<TextList, Memory> {
    let mut names = ListOf::new(alloc);
    for name in preferred {
        names.push(Text::of(alloc, *name)?)?;
    }
    Ok(names)
}

// Whether a pick in sets and without a container chooses the term of a name.
fn chooses(
    alloc: Global,
    inverse: &Inverse,
    kind: PickKind,
    preferred: &[&str],
    expected: &str,
) -> Result<bool, Memory> {
    let containers = ListOf::from_vec(vec![in alloc; Container::Set, Container::NoContainer]?);
    let pick = Pick {
        containers,
        kind,
        preferred: names(alloc, preferred)?,
        has_value: true,
    };
    let iri = Text::of(alloc, "http://e/p")?;
    match inverse.chosen(alloc, &iri, &pick)? {
        Some(term) => Ok(term.name.as_str() == expected),
        None => Ok(false),
    }
}

#[test]
fn the_first_slot_decides_and_then_the_shortest_name(rt: HostRuntime) -> Result<(), Fail> {
    let alloc = rt.alloc();
    let inverse = Inverse::of(alloc, &choosing_table(alloc)?)?;
    assert!(rt;
        chooses(
            alloc,
            &inverse,
            PickKind::LanguageKind,
            &["en", "@none"],
            "english"
        )?
    );
    assert!(rt; chooses(alloc, &inverse, PickKind::TypeKind, &["@id", "@none"], "pa")?);
    Ok(())
}
