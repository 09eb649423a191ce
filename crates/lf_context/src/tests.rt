//! The first condition that is met names the error, texts that expand by a table, and long chains
//! of terms.
ghost use Rattle.std.specs.Prelude.{◌<◌, IfOk, IsTrue};
ghost use Rattle.def_contexts.specs.TableLaws.{ascends};

use crate::{ContextErr, expand_iri, find_term, is_absolute, is_keyword, lower, process};
use lf_base::{Memory, Text};
use lf_model::{Container, Json, JsonMap, TermTable};
use std::alloc::Global;
use std::test::Fail;

// The map of these texts.
fn map(alloc: Global, members: &[(&str, &str)]) -> Result<Json, Memory> {
    let mut made = JsonMap::new(alloc);
    for (key, words) in members {
        made.put(Text::of(alloc, key)?, Json::Text(Text::of(alloc, words)?))?;
    }
    Ok(Json::Map(made))
}

// What a context comes to, by name.
fn outcome(alloc: Global, context: &Json) -> Result<Text, Memory> {
    match process(alloc, context) {
        Ok(table) => {
            drop(table);
            Text::of(alloc, "a table")
        }
        Err(ContextErr::Ld(error)) => Text::of(alloc, error.name()),
        Err(ContextErr::Memory) => Err(Memory),
    }
}

#[test]
fn the_first_condition_met_names_the_error(rt: HostRuntime) -> Result<(), Fail> {
    let alloc = rt.alloc();
    let rows: [(&[(&str, &str)], &str); 9] = [
        (&[("a", "http://e/")], "a table"),
        (
            &[("@version", "1"), ("@import", "x")],
            "invalid @version value",
        ),
        (
            &[("@import", "x"), ("@vocab", "v")],
            "invalid local context",
        ),
        (&[("@vocab", "v"), ("a", "b")], "invalid vocab mapping"),
        (&[("", "http://e/")], "invalid term definition"),
        (&[("@id", "http://e/")], "keyword redefinition"),
        (&[("a", "b")], "invalid IRI mapping"),
        (&[("a", "@context")], "invalid keyword alias"),
        (
            &[("a", "b:x"), ("b", "c"), ("c", "a:y")],
            "cyclic IRI mapping",
        ),
    ];
    for (members, wanted) in rows {
        let context = map(alloc, members)?;
        let found = outcome(alloc, &context)?;
        drop(context);
        assert_eq!(rt; found.as_str(), wanted);
    }
    Ok(())
}

// The table of a context.
fn table(alloc: Global, context: Json) -> Result<TermTable, Fail>
    ensures { IfOk result (λ table. IsTrue (ascends table.terms)) }
{
    let made = process(alloc, &context);
    drop(context);
    match made {
        Ok(table) => Ok(table),
        Err(_) => Err("the context has a table")?,
    }
}

#[test]
fn texts_expand_by_a_table(rt: HostRuntime) -> Result<(), Fail> {
    let alloc = rt.alloc();
    let members = [
        ("@vocab", "http://v/"),
        ("b", "a:x"),
        ("a", "http://e/"),
        ("id", "@id"),
    ];
    let table = table(alloc, map(alloc, &members)?)?;
    let rows = [
        ("@id", true, Some("@id")),
        ("@unknown", true, None),
        ("id", false, Some("@id")),
        ("b", true, Some("http://e/x")),
        ("b", false, Some("b")),
        ("a:b:c", false, Some("http://e/b:c")),
        ("b:c", true, Some("b:c")),
        ("_:b", true, Some("_:b")),
        ("a://b", true, Some("a://b")),
        ("word", true, Some("http://v/word")),
        ("word", false, Some("word")),
    ];
    for (words, vocab, wanted) in rows {
        let words = Text::of(alloc, words)?;
        let found = expand_iri(alloc, &table, &words, vocab)?;
        let same = match &found {
            Some(iri) => wanted == Some(iri.as_str()),
            None => wanted.is_none(),
        };
        assert!(rt; same);
    }
    let name = Text::of(alloc, "a")?;
    assert!(rt;
        matches!(find_term(&table, &name), Some(term) if term.prefix && term.container == Container::NoContainer)
    );
    assert!(rt;
        is_absolute("a-1:") && !is_absolute("1a:") && is_keyword("@nest") && !is_keyword("@nes")
    );
    assert_eq!(rt; lower(alloc, "eN-GBÉ")?.as_str(), "en-gbÉ");
    Ok(())
}

// A context of terms in byte order, each of which has the next one's name as its text.
fn chain(alloc: Global, last: &str, length: usize) -> Result<Json, Memory>
    requires { length < 10000 }
{
    let mut members = JsonMap::new(alloc);
    for place in 0..length {
        let name = Text::from_string(format!(in alloc; "t{}", 10000 + place)?)?;
        let text = if place + 1 == length {
            Text::of(alloc, last)?
        } else {
            Text::from_string(format!(in alloc; "t{}", 10001 + place)?)?
        };
        members.put(name, Json::Text(text))?;
    }
    Ok(Json::Map(members))
}

#[test]
fn long_chains_of_terms_make_no_deep_calls(rt: HostRuntime) -> Result<(), Fail> {
    let alloc = rt.alloc();
    for (last, wanted) in [("http://e/", "a table"), ("t10000", "cyclic IRI mapping")] {
        let context = chain(alloc, last, 5000)?;
        let found = outcome(alloc, &context)?;
        drop(context);
        assert_eq!(rt; found.as_str(), wanted);
    }
    Ok(())
}
