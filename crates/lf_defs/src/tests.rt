//! A value of each type that is copied under its one name.
use crate::{
    CommitErr, Container, Counted, DefaultList, DefaultValue, Doc, Embed, Frame, FrameKind,
    FrameNode, FrameNodeList, FrameProp, FramePropList, FrameReverse, FrameReverseList, FramedNow,
    IdTest, Json, JsonMap, LdError, Memory, NodeView, Notice, Outcome, PartTest, Prop, PropList,
    RegisterErr, Scalar, ScalarList, Term, TermDef, TermDefList, TermList, TermTable, Text, Tree,
    TreeList, TreePropList, TreeReverse, TreeReverseList, TryCopy, TypeTest, Value, ValueList,
    ValuePattern,
};
use std::alloc::Global;
use std::test::Fail;

fn copied<T: TryCopy + Drop>(alloc: Global, value: T) -> Result<T, Memory> {
    value.copy(alloc)
}

fn iri(alloc: Global) -> Result<Term, Memory> {
    Ok(Term::Iri(Text::of(alloc, "http://e/a")?))
}

fn terms(alloc: Global) -> Result<TermList, Memory> {
    let mut terms = TermList::new(alloc);
    terms.push(iri(alloc)?)?;
    Ok(terms)
}

fn table(alloc: Global) -> Result<TermTable, Memory> {
    let mut terms = TermDefList::new(alloc);
    terms.push(TermDef {
        name: Text::of(alloc, "a")?,
        iri: Some(Text::of(alloc, "http://e/a")?),
        prefix: true,
        reverse: false,
        coercion: None,
        language: Some(None),
        container: Container::LanguageSet,
    })?;
    Ok(TermTable {
        vocab: Some(Text::of(alloc, "http://e/")?),
        language: None,
        terms,
        type_set: true,
    })
}

fn pattern(alloc: Global) -> Result<ValuePattern, Memory> {
    let mut scalars = ScalarList::new(alloc);
    scalars.push(Scalar::Text(Text::of(alloc, "x")?))?;
    Ok(ValuePattern {
        value: PartTest::OneOf(scalars),
        datatype: PartTest::Absent,
        language: PartTest::Never,
    })
}

fn defaults(alloc: Global) -> Result<DefaultList, Memory> {
    let mut defaults = DefaultList::new(alloc);
    defaults.push(DefaultValue::Scalar {
        scalar: Scalar::Whole(5),
        datatype: None,
        language: Some(Text::of(alloc, "en")?),
    })?;
    Ok(defaults)
}

fn props(alloc: Global) -> Result<FramePropList, Memory> {
    let mut props = FramePropList::new(alloc);
    props.push(FrameProp {
        property: Text::of(alloc, "http://e/p")?,
        frame: None,
    })?;
    Ok(props)
}

fn reverse(alloc: Global) -> Result<FrameReverseList, Memory> {
    let mut reverse = FrameReverseList::new(alloc);
    reverse.push(FrameReverse {
        property: Text::of(alloc, "http://e/q")?,
        frame: 1,
    })?;
    Ok(reverse)
}

fn frame_node(alloc: Global) -> Result<FrameNode, Memory> {
    Ok(FrameNode {
        ids: IdTest::OneOf(terms(alloc)?),
        types: TypeTest::Fallback(terms(alloc)?),
        embed: Embed::Always,
        explicit: true,
        require_all: false,
        omit_default: Some(true),
        props: props(alloc)?,
        reverse: reverse(alloc)?,
        graph: Some(2),
        kind: FrameKind::Value(pattern(alloc)?),
        fallback: Some(defaults(alloc)?),
    })
}

fn frame(alloc: Global) -> Result<Frame, Memory> {
    let mut nodes = FrameNodeList::new(alloc);
    nodes.push(frame_node(alloc)?)?;
    Ok(Frame {
        nodes,
        context: Json::Map(JsonMap::new(alloc)),
        table: table(alloc)?,
        top_graph: true,
    })
}

#[test]
fn frames_copy(rt: HostRuntime) -> Result<(), Fail> {
    let alloc = rt.alloc();
    let frame = copied(alloc, frame(alloc)?)?;
    let kept = frame.nodes.len() == 1 && frame.table.terms.len() == 1 && frame.top_graph;
    drop(frame);
    assert!(rt; kept);
    Ok(())
}

fn view(alloc: Global) -> Result<NodeView, Memory> {
    let mut values = ValueList::new(alloc);
    values.push(Value::Ref(iri(alloc)?))?;
    let mut props = PropList::new(alloc);
    props.push(Prop {
        property: Text::of(alloc, "http://e/p")?,
        values,
    })?;
    Ok(NodeView {
        id: iri(alloc)?,
        types: terms(alloc)?,
        props,
    })
}

#[test]
fn node_views_copy(rt: HostRuntime) -> Result<(), Fail> {
    let alloc = rt.alloc();
    let view = copied(alloc, view(alloc)?)?;
    let kept = view.types.len() == 1 && view.props.len() == 1;
    drop(view);
    assert!(rt; kept);
    Ok(())
}

fn tree(alloc: Global) -> Result<Tree, Memory> {
    let mut reverse = TreeReverseList::new(alloc);
    reverse.push(TreeReverse {
        property: Text::of(alloc, "http://e/q")?,
        nodes: TreeList::new(alloc),
    })?;
    Ok(Tree {
        id: None,
        types: terms(alloc)?,
        graph: TreeList::new(alloc),
        props: TreePropList::new(alloc),
        reverse,
    })
}

#[test]
fn outcomes_copy(rt: HostRuntime) -> Result<(), Fail> {
    let alloc = rt.alloc();
    let outcome = copied(alloc, Outcome::Matched(tree(alloc)?))?;
    let kept = matches!(&outcome, Outcome::Matched(tree) if tree.reverse.len() == 1);
    drop(outcome);
    assert!(rt; kept);
    Ok(())
}

#[test]
fn publications_copy(rt: HostRuntime) -> Result<(), Fail> {
    let alloc = rt.alloc();
    let notice = Notice {
        frame: Text::of(alloc, "f")?,
        version: 3,
    };
    let notice = copied(alloc, notice)?;
    assert!(rt; notice.frame.as_str() == "f" && notice.version == 3);
    let now = FramedNow {
        doc: Doc::Refused(LdError::InvalidFrame),
        version: 4,
    };
    let now = copied(alloc, now)?;
    let kept = matches!(&now.doc, Doc::Refused(LdError::InvalidFrame)) && now.version == 4;
    drop(now);
    assert!(rt; kept);
    Ok(())
}

#[test]
fn errors_say_what_is_wrong(rt: HostRuntime) -> Result<(), Fail> {
    let alloc = rt.alloc();
    let full = CommitErr::HistoryFull {
        of: Counted::Commits,
        have: 65_536,
        limit: 65_536,
    };
    let text = format!(in alloc; "{full}")?;
    assert!(rt; text.as_str() == "history full: 65536 of 65536 commits");
    let fractional = RegisterErr::Fractional {
        path: Text::of(alloc, "/p/0")?,
    };
    let text = format!(in alloc; "{fractional}");
    drop(fractional);
    assert!(rt; text?.as_str() == "fractional number at /p/0");
    let refused = RegisterErr::Ld(LdError::InvalidFrame);
    let text = format!(in alloc; "{refused}");
    drop(refused);
    assert!(rt; text?.as_str() == "invalid frame");
    Ok(())
}
