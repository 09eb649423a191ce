//! Views of nodes and the values of their properties.
ghost use Rattle.std.specs.Prelude.{◌≡◌, IfOk};

use lf_base::{ListOf, Memory, Text, TryCopy};
use lf_rdf::{Term, TermList};
use std::alloc::Global;

/// A value of a node's property (JSON-LD 1.1, sections 9.3 to 9.7).
#[derive(Debug, Drop)]
pub enum Value {
    Literal(Term),
    /// A node by its term.
    Ref(Term),
    List(ValueList),
}

/// A list of values.
pub type ValueList = ListOf<Value>;

/// A property of a node and its values.
#[derive(Debug, Drop)]
pub struct Prop {
    pub property: Text,
    pub values: ValueList,
}

/// A list of properties, in byte order of their IRIs.
pub type PropList = ListOf<Prop>;

/// A node of a graph (JSON-LD 1.1, section 9.2).
#[derive(Debug, Drop)]
pub struct NodeView {
    pub id: Term,
    pub types: TermList,
    pub props: PropList,
}

impl TryCopy for Value {
    fn copy(&self, alloc: Global) -> Result<Value, Memory> {
        copy_value(alloc, self)
    }
}

#[cycle(copying)]
fn copy_value(alloc: Global, value: &Value) -> Result<Value, Memory>
    ensures { IfOk result (λ copied. copied ≡ value.now) }
{
    match value {
        Value::Literal(literal) => Ok(Value::Literal(literal.copy(alloc)?)),
        Value::Ref(node) => Ok(Value::Ref(node.copy(alloc)?)),
        Value::List(values) => Ok(Value::List(copy_values(alloc, values)?)),
    }
}

#[cycle(copying)]
fn copy_values(alloc: Global, values: &ValueList) -> Result<ValueList, Memory>
    ensures { IfOk result (λ copied. copied ≡ values.now) }
{
    let mut copied = Vec::new(alloc);
    for value in values.as_slice() {
        copied.push(copy_value(alloc, value)?)?;
    }
    Ok(ListOf::from_vec(copied))
}

impl TryCopy for Prop {
    fn copy(&self, alloc: Global) -> Result<Prop, Memory> {
        Ok(Prop {
            property: self.property.copy(alloc)?,
            values: self.values.copy(alloc)?,
        })
    }
}

impl TryCopy for NodeView {
    fn copy(&self, alloc: Global) -> Result<NodeView, Memory> {
        Ok(NodeView {
            id: self.id.copy(alloc)?,
            types: self.types.copy(alloc)?,
            props: self.props.copy(alloc)?,
        })
    }
}
