//! Results of integers, which may be beyond 128 bits.
ghost use Rattle.std.specs.Prelude.{◌≡◌, ◌+ℤ◌, ◌-ℤ◌, ℤ, IfOk};
ghost use Rattle.cd_sets.specs.Interval.{holds, is_between};
ghost use Rattle.cd_syntax.specs.Integer.{IsInteger};
ghost use Rattle.cd_operators.specs.Inner.Bounds.{IsBound};

use cd_sets::int_set::IntSet;
use std::alloc::{AllocError, Global};

/// An integer, or that it would be below or above all those of 128 bits.
#[derive(Clone, Copy)]
pub(crate) enum Bound {
    Below,
    At(i128),
    Above,
}

/// The sum of two integers.
pub(crate) fn sum(a: i128, b: i128) -> Bound
    ensures { IsBound (a +ℤ b) result }
{
    match a.checked_add(b) {
        Some(n) => Bound::At(n),
        None if a < 0 => Bound::Below,
        None => Bound::Above,
    }
}

/// The difference of two integers.
pub(crate) fn difference(a: i128, b: i128) -> Bound
    ensures { IsBound (a -ℤ b) result }
{
    match a.checked_sub(b) {
        Some(n) => Bound::At(n),
        None if a < 0 => Bound::Below,
        None => Bound::Above,
    }
}

/// The integers of 128 bits from one bound to the other.
pub(crate) fn between(alloc: Global, low: Bound, high: Bound) -> Result<IntSet, AllocError>
    ensures { IfOk result (λ set. (least greatest : ℤ) → IsBound least low
        → IsBound greatest high → (z : ℤ) → IsInteger z
        → holds set z ≡ is_between least greatest z) }
{
    let low = match low {
        Bound::Below => i128::MIN,
        Bound::At(n) => n,
        Bound::Above => return Ok(IntSet::empty(alloc)),
    };
    let high = match high {
        Bound::Below => return Ok(IntSet::empty(alloc)),
        Bound::At(n) => n,
        Bound::Above => i128::MAX,
    };
    IntSet::interval(alloc, low, high)
}
