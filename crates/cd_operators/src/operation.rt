//! How integers are combined.
ghost use Rattle.cd_operators.specs.Inner.Bounds.{IsBound, lowest, highest};

use crate::bound::{Bound, difference, sum};

/// What is computed of two integers.
#[derive(Clone, Copy)]
pub(crate) enum Operation {
    Sum,
    Difference,
}

impl Operation {
    /// The least result for integers between bounds.
    pub(crate) fn lowest(self, first: (i128, i128), second: (i128, i128)) -> Bound
        ensures { IsBound (lowest self first second) result }
    {
        match self {
            Operation::Sum => sum(first.0, second.0),
            Operation::Difference => difference(first.0, second.1),
        }
    }

    /// The greatest one.
    pub(crate) fn highest(self, first: (i128, i128), second: (i128, i128)) -> Bound
        ensures { IsBound (highest self first second) result }
    {
        match self {
            Operation::Sum => sum(first.1, second.1),
            Operation::Difference => difference(first.1, second.0),
        }
    }
}
