//! Texts, whole numbers and truth values, which patterns and defaults hold.
use lf_base::{ListOf, Memory, Same, Text, TryCopy};
use std::alloc::Global;

/// A JSON text, whole number or truth value. `Whole` lies from -2^63 to 2^64 - 1.
#[derive(Debug, Drop)]
pub enum Scalar {
    Text(Text),
    Whole(i128),
    Bool(bool),
}

/// A list of scalars.
pub type ScalarList = ListOf<Scalar>;

impl TryCopy for Scalar {
    fn copy(&self, alloc: Global) -> Result<Scalar, Memory> {
        match self {
            Scalar::Text(text) => Ok(Scalar::Text(text.copy(alloc)?)),
            Scalar::Whole(number) => Ok(Scalar::Whole(*number)),
            Scalar::Bool(truth) => Ok(Scalar::Bool(*truth)),
        }
    }
}

impl Same for Scalar {
    fn is(&self, other: &Scalar) -> bool {
        match self {
            Scalar::Text(text) => match other {
                Scalar::Text(other_text) => text.is(other_text),
                Scalar::Whole(_) => false,
                Scalar::Bool(_) => false,
            },
            Scalar::Whole(number) => match other {
                Scalar::Whole(other_number) => *number == *other_number,
                Scalar::Text(_) => false,
                Scalar::Bool(_) => false,
            },
            Scalar::Bool(truth) => match other {
                Scalar::Bool(other_truth) => *truth == *other_truth,
                Scalar::Text(_) => false,
                Scalar::Whole(_) => false,
            },
        }
    }
}
