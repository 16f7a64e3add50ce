ghost use Rattle.std.specs.Prelude.{◌≡◌, ℤ, ◌≤ℤ◌, ◌∷◌, Bool, true, false, [], ◌&&◌, ◌||◌, not, ◌↔◌};
ghost use Rattle.std.specs.Prelude.{IsTrue, IfOk, MatchOption, slice_get};
ghost use Rattle.std.specs.Option.{option_map};
ghost use Rattle.cd_sets.specs.Interval.{is_between, holds, HoldsNothing, bounds_of};
ghost use Rattle.cd_sets.specs.Inner.Combine.{keeps_of};

use crate::combine::{Operation, combine};
use crate::interval::Interval;
use std::alloc::{AllocError, Global};
use std::marker::Model;

/// A set of integers of 128 bits. A contract sees its intervals, in rising order and with a number
/// left out between any two.
#[derive(Drop)]
pub struct IntSet {
    intervals: Vec<Interval>,
}

impl Model for IntSet {
    ghost use Rattle.std.specs.Prelude.{List};
    ghost use Rattle.cd_sets.specs.declared.interval.Interval.{Interval as Piece};
    ghost use Rattle.cd_sets.specs.Rises.{IsRising};

    ghost Value = { List Piece };

    ghost view = { λ s. s.intervals.items };

    ghost invariant = { λ s. IsRising s.intervals.items };
}

impl IntSet {
    /// The set that holds nothing.
    pub fn empty(alloc: Global) -> IntSet
        ensures { result ≡ [] }
    {
        IntSet {
            intervals: Vec::new(alloc),
        }
    }

    /// The integers from `low` to `high`, both among them; none where `low` is above `high`.
    pub fn interval(alloc: Global, low: i128, high: i128) -> Result<IntSet, AllocError>
        ensures numbers { IfOk result (λ set. (z : ℤ) → holds set z ≡ is_between low high z) }
        ensures list { IfOk result
            (λ set. low ≤ℤ high → set ≡ record { low = low; high = high } ∷ []) }
    {
        let mut intervals = Vec::new(alloc);
        if low <= high {
            intervals.push(Interval { low, high })?;
        }
        Ok(IntSet { intervals })
    }

    /// The integers that are in one of the sets.
    pub fn union(&self, other: &IntSet) -> Result<IntSet, AllocError>
        ensures { IfOk result (λ set. (z : ℤ)
            → holds set z ≡ (holds self.now z || holds other.now z)) }
    {
        self.combined(Operation::Union, other)
    }

    /// The integers that are in both sets.
    pub fn intersect(&self, other: &IntSet) -> Result<IntSet, AllocError>
        ensures { IfOk result (λ set. (z : ℤ)
            → holds set z ≡ (holds self.now z && holds other.now z)) }
    {
        self.combined(Operation::Intersection, other)
    }

    /// The integers that are in this set and not in the other.
    pub fn minus(&self, other: &IntSet) -> Result<IntSet, AllocError>
        ensures { IfOk result (λ set. (z : ℤ)
            → holds set z ≡ (holds self.now z && not (holds other.now z))) }
    {
        self.combined(Operation::Difference, other)
    }

    /// A set with the same integers, by the same intervals.
    pub fn copy(&self) -> Result<IntSet, AllocError>
        ensures { IfOk result (λ set. set ≡ self.now) }
    {
        Ok(IntSet {
            intervals: self.intervals.clone()?,
        })
    }

    /// Whether the integer is in the set.
    pub fn contains(&self, value: i128) -> bool
        ensures { result ≡ holds self.now value }
    {
        self.intervals
            .iter()
            .any(|interval| interval.low <= value && value <= interval.high)
    }

    /// Whether no integer is in the set.
    pub fn is_empty(&self) -> bool
        ensures { IsTrue result ↔ HoldsNothing self.now }
    {
        self.least().is_none()
    }

    /// The bounds of the interval with this number, counted from 0, in the list that contracts see.
    pub fn piece(&self, index: usize) -> Option<(i128, i128)>
        ensures { result ≡ option_map bounds_of (slice_get self.now index) }
    {
        self.intervals
            .get(index)
            .map(|interval| (interval.low, interval.high))
    }

    /// Some integer of the set, if there is one. Short ones are preferred: 0, or the bound next to
    /// it.
    pub fn some_member(&self) -> Option<i128>
        ensures { MatchOption result (HoldsNothing self.now) (λ z. holds self.now z ≡ true) }
    {
        if self.contains(0) {
            return Some(0);
        }
        match self.intervals.last() {
            Some(&Interval { low, .. }) if low > 0 => Some(low),
            Some(&Interval { high, .. }) => Some(high),
            None => None,
        }
    }

    // The least integer of the set, if there is one.
    fn least(&self) -> Option<i128>
        ensures { MatchOption result (HoldsNothing self.now) (λ z. holds self.now z ≡ true) }
    {
        self.intervals.first().map(|interval| interval.low)
    }

    fn combined(&self, operation: Operation, other: &IntSet) -> Result<IntSet, AllocError>
        ensures { IfOk result (λ set. (z : ℤ)
            → holds set z ≡ keeps_of operation (holds self.now z) (holds other.now z)) }
    {
        let intervals = combine(
            *self.intervals.allocator(),
            operation,
            self.intervals.as_slice(),
            other.intervals.as_slice(),
        )?;
        Ok(IntSet { intervals })
    }
}
