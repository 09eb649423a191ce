//! Copies that may want memory, and equality that clauses can speak of: `TryCopy` and `Same`, for plain values and
//! options.
ghost use Rattle.std.specs.Prelude.{◌≡◌, ◌↔◌, IfOk, IsTrue};

use crate::memory::Memory;
use std::alloc::Global;

/// A copy that may find no memory.
pub trait TryCopy: Sized {
    /// An equal value.
    fn copy(&self, alloc: Global) -> Result<Self, Memory>
        ensures { IfOk result (λ copied. copied ≡ self.now) };
}

/// Equality of two values as contracts see them.
pub trait Same {
    /// Whether both are one value.
    fn is(&self, other: &Self) -> bool
        ensures { IsTrue result ↔ (self.now ≡ other.now) };
}

impl<T: TryCopy> TryCopy for Option<T> {
    fn copy(&self, alloc: Global) -> Result<Option<T>, Memory> {
        match self {
            Some(value) => Ok(Some(value.copy(alloc)?)),
            None => Ok(None),
        }
    }
}

impl<T: Same> Same for Option<T> {
    fn is(&self, other: &Option<T>) -> bool {
        match self {
            Some(one) => match other {
                Some(two) => one.is(two),
                None => false,
            },
            None => match other {
                Some(_) => false,
                None => true,
            },
        }
    }
}

impl TryCopy for bool {
    fn copy(&self, _alloc: Global) -> Result<bool, Memory> {
        Ok(*self)
    }
}

impl Same for bool {
    fn is(&self, other: &bool) -> bool {
        *self == *other
    }
}

impl TryCopy for u32 {
    fn copy(&self, _alloc: Global) -> Result<u32, Memory> {
        Ok(*self)
    }
}

impl Same for u32 {
    fn is(&self, other: &u32) -> bool {
        *self == *other
    }
}

impl TryCopy for u64 {
    fn copy(&self, _alloc: Global) -> Result<u64, Memory> {
        Ok(*self)
    }
}

impl Same for u64 {
    fn is(&self, other: &u64) -> bool {
        *self == *other
    }
}

impl TryCopy for i128 {
    fn copy(&self, _alloc: Global) -> Result<i128, Memory> {
        Ok(*self)
    }
}

impl Same for i128 {
    fn is(&self, other: &i128) -> bool {
        *self == *other
    }
}
