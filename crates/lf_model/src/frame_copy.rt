//! Copies of frames.
use crate::frame::{
    DefaultValue, Frame, FrameKind, FrameNode, FrameProp, FrameReverse, IdTest, PartTest, TypeTest,
    ValuePattern,
};
use lf_base::{Memory, TryCopy};
use std::alloc::Global;

impl TryCopy for Frame {
    fn copy(&self, alloc: Global) -> Result<Frame, Memory> {
        Ok(Frame {
            nodes: self.nodes.copy(alloc)?,
            context: self.context.copy(alloc)?,
            table: self.table.copy(alloc)?,
            top_graph: self.top_graph,
        })
    }
}

impl TryCopy for FrameNode {
    fn copy(&self, alloc: Global) -> Result<FrameNode, Memory> {
        Ok(FrameNode {
            ids: self.ids.copy(alloc)?,
            types: self.types.copy(alloc)?,
            embed: self.embed,
            explicit: self.explicit,
            require_all: self.require_all,
            omit_default: self.omit_default,
            props: self.props.copy(alloc)?,
            reverse: self.reverse.copy(alloc)?,
            graph: self.graph,
            kind: self.kind.copy(alloc)?,
            fallback: self.fallback.copy(alloc)?,
        })
    }
}

impl TryCopy for FrameProp {
    fn copy(&self, alloc: Global) -> Result<FrameProp, Memory> {
        Ok(FrameProp {
            property: self.property.copy(alloc)?,
            frame: self.frame,
        })
    }
}

impl TryCopy for FrameReverse {
    fn copy(&self, alloc: Global) -> Result<FrameReverse, Memory> {
        Ok(FrameReverse {
            property: self.property.copy(alloc)?,
            frame: self.frame,
        })
    }
}

impl TryCopy for IdTest {
    fn copy(&self, alloc: Global) -> Result<IdTest, Memory> {
        match self {
            IdTest::Absent => Ok(IdTest::Absent),
            IdTest::Any => Ok(IdTest::Any),
            IdTest::Never => Ok(IdTest::Never),
            IdTest::OneOf(ids) => Ok(IdTest::OneOf(ids.copy(alloc)?)),
        }
    }
}

impl TryCopy for TypeTest {
    fn copy(&self, alloc: Global) -> Result<TypeTest, Memory> {
        match self {
            TypeTest::Absent => Ok(TypeTest::Absent),
            TypeTest::Any => Ok(TypeTest::Any),
            TypeTest::Never => Ok(TypeTest::Never),
            TypeTest::OneOf(types) => Ok(TypeTest::OneOf(types.copy(alloc)?)),
            TypeTest::Fallback(types) => Ok(TypeTest::Fallback(types.copy(alloc)?)),
        }
    }
}

impl TryCopy for FrameKind {
    fn copy(&self, alloc: Global) -> Result<FrameKind, Memory> {
        match self {
            FrameKind::Wild => Ok(FrameKind::Wild),
            FrameKind::Node => Ok(FrameKind::Node),
            FrameKind::Value(pattern) => Ok(FrameKind::Value(pattern.copy(alloc)?)),
            FrameKind::List(item) => Ok(FrameKind::List(*item)),
        }
    }
}

impl TryCopy for ValuePattern {
    fn copy(&self, alloc: Global) -> Result<ValuePattern, Memory> {
        Ok(ValuePattern {
            value: self.value.copy(alloc)?,
            datatype: self.datatype.copy(alloc)?,
            language: self.language.copy(alloc)?,
        })
    }
}

impl TryCopy for PartTest {
    fn copy(&self, alloc: Global) -> Result<PartTest, Memory> {
        match self {
            PartTest::Absent => Ok(PartTest::Absent),
            PartTest::Any => Ok(PartTest::Any),
            PartTest::Never => Ok(PartTest::Never),
            PartTest::OneOf(scalars) => Ok(PartTest::OneOf(scalars.copy(alloc)?)),
        }
    }
}

impl TryCopy for DefaultValue {
    fn copy(&self, alloc: Global) -> Result<DefaultValue, Memory> {
        match self {
            DefaultValue::Null => Ok(DefaultValue::Null),
            DefaultValue::Ref(node) => Ok(DefaultValue::Ref(node.copy(alloc)?)),
            DefaultValue::Scalar {
                scalar,
                datatype,
                language,
            } => Ok(DefaultValue::Scalar {
                scalar: scalar.copy(alloc)?,
                datatype: datatype.copy(alloc)?,
                language: language.copy(alloc)?,
            }),
        }
    }
}
