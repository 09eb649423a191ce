//! A value of each type that is copied, and the errors' names.
use crate::{
    Doc, Json, JsonList, JsonMap, LdError, Limit, Scalar, Tree, TreeList, TreeProp, TreePropList,
    TreeReverseList, TreeValue, TreeValueList, Value, ValueList,
};
use lf_base::{Memory, Same, Text, TryCopy};
use lf_rdf::{Term, TermList};
use std::alloc::Global;
use std::test::Fail;

fn copied<T: TryCopy + Drop>(alloc: Global, value: T) -> Result<T, Memory> {
    value.copy(alloc)
}

fn iri(alloc: Global, text: &str) -> Result<Term, Memory> {
    Ok(Term::Iri(Text::of(alloc, text)?))
}

fn array(alloc: Global) -> Result<Json, Memory> {
    let mut items = JsonList::new(alloc);
    items.push(Json::Null)?;
    items.push(Json::Whole(-5))?;
    Ok(Json::List(items))
}

fn object(alloc: Global) -> Result<Json, Memory> {
    let mut members = JsonMap::new(alloc);
    members.put(Text::of(alloc, "b")?, array(alloc)?)?;
    members.put(Text::of(alloc, "a")?, Json::Text(Text::of(alloc, "x")?))?;
    Ok(Json::Map(members))
}

fn has_both_members(json: &Json) -> bool {
    match json {
        Json::Map(members) => {
            members.len() == 2
                && matches!(members.get("a"), Some(Json::Text(text)) if text.as_str() == "x")
                && matches!(members.get("b"), Some(Json::List(items)) if items.len() == 2)
        }
        _ => false,
    }
}

#[test]
fn json_values_copy(rt: HostRuntime) -> Result<(), Fail> {
    let alloc = rt.alloc();
    let json = copied(alloc, object(alloc)?)?;
    let kept = has_both_members(&json);
    drop(json);
    assert!(rt; kept);
    Ok(())
}

fn values(alloc: Global) -> Result<TreeValueList, Memory> {
    let mut values = TreeValueList::new(alloc);
    values.push(TreeValue::Literal(iri(alloc, "http://e/o")?))?;
    values.push(TreeValue::EmptyFallback)?;
    Ok(values)
}

fn props(alloc: Global) -> Result<TreePropList, Memory> {
    let mut props = TreePropList::new(alloc);
    props.push(TreeProp {
        property: Text::of(alloc, "http://e/p")?,
        values: values(alloc)?,
    })?;
    Ok(props)
}

fn tree(alloc: Global) -> Result<Tree, Memory> {
    Ok(Tree {
        id: Some(iri(alloc, "http://e/s")?),
        types: TermList::new(alloc),
        graph: TreeList::new(alloc),
        props: props(alloc)?,
        reverse: TreeReverseList::new(alloc),
    })
}

#[test]
fn trees_copy(rt: HostRuntime) -> Result<(), Fail> {
    let alloc = rt.alloc();
    let tree = copied(alloc, tree(alloc)?)?;
    let kept = tree.id.is_some()
        && match tree.props.at(0) {
            Some(prop) => prop.property.as_str() == "http://e/p" && prop.values.len() == 2,
            None => false,
        };
    drop(tree);
    assert!(rt; kept);
    Ok(())
}

fn list_value(alloc: Global) -> Result<Value, Memory> {
    let mut inner = ValueList::new(alloc);
    inner.push(Value::Ref(iri(alloc, "http://e/o")?))?;
    Ok(Value::List(inner))
}

#[test]
fn values_copy(rt: HostRuntime) -> Result<(), Fail> {
    let alloc = rt.alloc();
    let value = copied(alloc, list_value(alloc)?)?;
    let kept = matches!(&value, Value::List(items) if items.len() == 1);
    drop(value);
    assert!(rt; kept);
    Ok(())
}

#[test]
fn documents_copy(rt: HostRuntime) -> Result<(), Fail> {
    let alloc = rt.alloc();
    let doc = copied(alloc, Doc::Over(Limit::Depth))?;
    let kept = matches!(&doc, Doc::Over(Limit::Depth));
    drop(doc);
    assert!(rt; kept);
    Ok(())
}

#[test]
fn scalars_differ_and_errors_have_names(rt: HostRuntime) -> Result<(), Fail> {
    assert!(rt;
        Scalar::Whole(7).is(&Scalar::Whole(7)) && !Scalar::Bool(true).is(&Scalar::Whole(1))
    );
    assert_eq!(rt; LdError::InvalidPrefixValue.name(), "invalid @prefix value");
    assert_eq!(rt; LdError::CyclicIriMapping.name(), "cyclic IRI mapping");
    Ok(())
}
