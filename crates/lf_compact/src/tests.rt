//! Which containers and slots literals, nodes, lists and defaults ask for.
use crate::node::reverse_pick;
use crate::value::pick_of;
use def_selection::Pick;
use lf_base::{ListOf, Memory, Text};
use lf_model::{
    Container, DefaultValue, Scalar, TermDef, TermTable, Tree, TreeValue, TreeValueList,
};
use lf_rdf::Term;
use lf_select::Inverse;
use std::alloc::Global;
use std::test::Fail;

fn empty_inverse(alloc: Global) -> Result<Inverse, Memory> {
    let table = TermTable {
        vocab: None,
        language: None,
        terms: ListOf::new(alloc),
        type_set: false,
    };
    Inverse::of(alloc, &table)
}

fn node(alloc: Global, id: Option<Term>) -> Tree {
    Tree {
        id,
        types: ListOf::new(alloc),
        graph: ListOf::new(alloc),
        props: ListOf::new(alloc),
        reverse: ListOf::new(alloc),
    }
}

fn iri(alloc: Global) -> Result<Term, Memory> {
    Ok(Term::Iri(Text::of(alloc, "http://e/x")?))
}

fn literal(alloc: Global, datatype: &str, language: Option<Text>) -> Result<TreeValue, Memory> {
    Ok(TreeValue::Literal(Term::Literal {
        lexical: Text::of(alloc, "x")?,
        datatype: Text::of(alloc, datatype)?,
        language,
    }))
}

const STRING: &str = "http://www.w3.org/2001/XMLSchema#string";

// Whether a pick has these containers and these slots.
fn has(pick: &Pick, containers: &[Container], preferred: &[&str]) -> bool {
    if pick.containers.as_slice().len() != containers.len() {
        return false;
    }
    for (place, container) in pick.containers.as_slice().iter().enumerate() {
        if place < containers.len() && *container != containers[place] {
            return false;
        }
    }
    if pick.preferred.as_slice().len() != preferred.len() {
        return false;
    }
    for (place, name) in pick.preferred.as_slice().iter().enumerate() {
        if place < preferred.len() && name.as_str() != preferred[place] {
            return false;
        }
    }
    true
}

const SETS: [Container; 2] = [Container::Set, Container::NoContainer];

// Whether a value of a property asks for these containers and slots.
fn asks(
    alloc: Global,
    value: &TreeValue,
    sole: bool,
    containers: &[Container],
    preferred: &[&str],
) -> Result<bool, Memory> {
    let inverse = empty_inverse(alloc)?;
    let pick = pick_of(alloc, &inverse, sole, value)?;
    Ok(has(&pick, containers, preferred))
}

#[test]
fn what_literals_ask_for(rt: HostRuntime) -> Result<(), Fail> {
    let alloc = rt.alloc();
    let tagged = literal(alloc, STRING, Some(Text::of(alloc, "en")?))?;
    let maps_first = [
        Container::Language,
        Container::LanguageSet,
        Container::Set,
        Container::NoContainer,
    ];
    assert!(rt; asks(alloc, &tagged, true, &maps_first, &["en", "@none", "@any"])?);
    let typed = literal(alloc, "http://e/t", None)?;
    assert!(rt; asks(alloc, &typed, true, &SETS, &["http://e/t", "@none", "@any"])?);
    let plain = literal(alloc, STRING, None)?;
    let maps_last = [
        Container::Set,
        Container::NoContainer,
        Container::Language,
        Container::LanguageSet,
    ];
    assert!(rt; asks(alloc, &plain, true, &maps_last, &["@null", "@none", "@any"])?);
    Ok(())
}

#[test]
fn what_nodes_ask_for(rt: HostRuntime) -> Result<(), Fail> {
    let alloc = rt.alloc();
    let named = TreeValue::Node(node(alloc, Some(iri(alloc)?)));
    assert!(rt;
        asks(
            alloc,
            &named,
            true,
            &SETS,
            &["@id", "@vocab", "@none", "@any"]
        )?
    );
    let nameless = TreeValue::Node(node(alloc, None));
    assert!(rt; asks(alloc, &nameless, true, &SETS, &["@id", "@none", "@any"])?);
    let null = TreeValue::Fallback(DefaultValue::Null);
    assert!(rt; asks(alloc, &null, true, &SETS, &["@id", "@none", "@any"])?);
    let inverse = empty_inverse(alloc)?;
    let turned = reverse_pick(alloc, &inverse, &Some(iri(alloc)?))?;
    assert!(rt;
        has(
            &turned,
            &SETS,
            &["@reverse", "@id", "@vocab", "@none", "@any"]
        )
    );
    let nameless_turned = reverse_pick(alloc, &inverse, &None)?;
    assert!(rt; has(&nameless_turned, &SETS, &["@reverse", "@none", "@any"]));
    Ok(())
}

#[test]
fn what_lists_ask_for(rt: HostRuntime) -> Result<(), Fail> {
    let alloc = rt.alloc();
    let lists = [Container::List, Container::NoContainer];
    let empty = TreeValue::List(ListOf::new(alloc));
    assert!(rt; asks(alloc, &empty, true, &lists, &["@none", "@any"])?);
    let mut dates: TreeValueList = ListOf::new(alloc);
    dates.push(literal(alloc, "http://e/t", None)?)?;
    let dates = TreeValue::List(dates);
    assert!(rt;
        asks(
            alloc,
            &dates,
            true,
            &lists,
            &["http://e/t", "@none", "@any"]
        )?
    );
    assert!(rt;
        asks(
            alloc,
            &dates,
            false,
            &[Container::NoContainer],
            &["http://e/t", "@none", "@any"]
        )?
    );
    let mut mixed: TreeValueList = ListOf::new(alloc);
    mixed.push(literal(alloc, "http://e/t", None)?)?;
    mixed.push(literal(alloc, STRING, None)?)?;
    assert!(rt;
        asks(
            alloc,
            &TreeValue::List(mixed),
            true,
            &lists,
            &["@none", "@any"]
        )?
    );
    Ok(())
}

// Whether a default of the number 1 asks for these containers and slots.
fn scalar_asks(
    alloc: Global,
    datatype: Option<Text>,
    containers: &[Container],
    preferred: &[&str],
) -> Result<bool, Memory> {
    let value = TreeValue::Fallback(DefaultValue::Scalar {
        scalar: Scalar::Whole(1),
        datatype,
        language: None,
    });
    asks(alloc, &value, true, containers, preferred)
}

fn reference_asks(alloc: Global, preferred: &[&str]) -> Result<bool, Memory> {
    let value = TreeValue::Fallback(DefaultValue::Ref(iri(alloc)?));
    asks(alloc, &value, true, &SETS, preferred)
}

#[test]
fn what_defaults_ask_for(rt: HostRuntime) -> Result<(), Fail> {
    let alloc = rt.alloc();
    assert!(rt;
        scalar_asks(
            alloc,
            Some(Text::of(alloc, "http://e/t")?),
            &SETS,
            &["http://e/t", "@none", "@any"]
        )?
    );
    let maps_last = [
        Container::Set,
        Container::NoContainer,
        Container::Language,
        Container::LanguageSet,
    ];
    assert!(rt; scalar_asks(alloc, None, &maps_last, &["@null", "@none", "@any"])?);
    assert!(rt; reference_asks(alloc, &["@id", "@vocab", "@none", "@any"])?);
    assert!(rt;
        asks(
            alloc,
            &TreeValue::EmptyFallback,
            true,
            &SETS,
            &["@id", "@none", "@any"]
        )?
    );
    Ok(())
}

// Whether a list of one item asks for these slots, in a list and without a container.
fn list_asks(alloc: Global, item: TreeValue, preferred: &[&str]) -> Result<bool, Memory> {
    let value = TreeValue::List(ListOf::from_vec(vec![in alloc; item]?));
    let lists = [Container::List, Container::NoContainer];
    asks(alloc, &value, true, &lists, preferred)
}

#[test]
fn what_lists_of_one_kind_ask_for(rt: HostRuntime) -> Result<(), Fail> {
    let alloc = rt.alloc();
    let named = TreeValue::Node(node(alloc, None));
    assert!(rt; list_asks(alloc, named, &["@id", "@none", "@any"])?);
    let inner = TreeValue::List(ListOf::new(alloc));
    assert!(rt; list_asks(alloc, inner, &["@id", "@none", "@any"])?);
    let tagged = literal(alloc, STRING, Some(Text::of(alloc, "en")?))?;
    assert!(rt; list_asks(alloc, tagged, &["en", "@none", "@any"])?);
    let plain = literal(alloc, STRING, None)?;
    assert!(rt; list_asks(alloc, plain, &["@null", "@none", "@any"])?);
    Ok(())
}

// The inverse of a context that has one term, `x` for `http://e/x`.
fn inverse_of_one(alloc: Global) -> Result<Inverse, Memory> {
    let term = TermDef {
        name: Text::of(alloc, "x")?,
        iri: Some(Text::of(alloc, "http://e/x")?),
        prefix: false,
        reverse: false,
        coercion: None,
        language: None,
        container: Container::NoContainer,
    };
    let table = TermTable {
        vocab: None,
        language: None,
        terms: ListOf::from_vec(vec![in alloc; term]?),
        type_set: false,
    };
    Inverse::of(alloc, &table)
}

#[test]
fn a_node_whose_id_is_a_term_asks_for_the_term_first(rt: HostRuntime) -> Result<(), Fail> {
    let alloc = rt.alloc();
    let inverse = inverse_of_one(alloc)?;
    let turned = reverse_pick(alloc, &inverse, &Some(iri(alloc)?))?;
    assert!(rt;
        has(
            &turned,
            &SETS,
            &["@reverse", "@vocab", "@id", "@none", "@any"]
        )
    );
    Ok(())
}
