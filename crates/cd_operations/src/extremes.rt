//! The least and the greatest of the integers of a sequence.
ghost use Rattle.std.specs.Prelude.{◌≡◌, ◌<◌, None, length, MatchOption, if◌then◌else◌};
ghost use Rattle.cd_matching.specs.Sequences.{items};
ghost use Rattle.cd_cells.specs.Cells.{thing_at};
ghost use Rattle.cd_cells.specs.Table.{table};
ghost use Rattle.cd_evaluation.specs.Operations as operations;
ghost use Rattle.cd_operations.specs.Endings.{plain_ending, IsEnding};
ghost use Rattle.cd_operations.specs.Inner.Extremes.{precedes, among as among_items, integer_of};
ghost use Rattle.cd_operations.specs.Inner.Extremes.{IsNumberAt, Finds};

use crate::ending::Ending;
use crate::pairs::{is_nil, pair_at};
use cd_cells::{Look, ValueId, Values};

/// Which of the integers of a sequence is wanted.
#[derive(Clone, Copy)]
pub(crate) enum Extreme {
    /// The least one.
    Least,
    /// The greatest one.
    Greatest,
}

impl Extreme {
    // Whether the first of two integers is wanted rather than the second.
    fn prefers(self, n: i128, m: i128) -> bool
        ensures { result ≡ precedes self n m }
    {
        match self {
            Extreme::Least => n < m,
            Extreme::Greatest => m < n,
        }
    }
}

// A value of the table that is an integer.
#[derive(Clone, Copy)]
pub(crate) struct Number {
    id: ValueId,
    n: i128,
}

/// The integer of a sequence that is wanted. It is stuck where the sequence is empty, and where not
/// all items are integers.
pub(crate) fn extreme_of(values: &Values, wanted: Extreme, value: ValueId) -> Ending
    requires { value.0 < length (table values.now) }
    ensures is { plain_ending (table values.now) result ≡ operations.if_found
        (operations.extreme (precedes wanted) (items (thing_at (table values.now) value.0))) }
    ensures within { IsEnding (length (table values.now)) result }
{
    match of_sequence(values, wanted, value) {
        Some(number) => Ending::Done(number.id),
        None => Ending::Stuck,
    }
}

// The wanted one of the items.
fn of_sequence(values: &Values, wanted: Extreme, value: ValueId) -> Option<Number>
    requires { value.0 < length (table values.now) }
    ensures { Finds (table values.now)
        (operations.extreme (precedes wanted) (items (thing_at (table values.now) value.0)))
        result }
{
    let Some((first, rest)) = pair_at(values, value) else {
        return None;
    };
    let Some(number) = number_at(values, first) else {
        return None;
    };
    among(values, wanted, number, rest)
}

// The wanted one of a number and of the items of a sequence.
fn among(values: &Values, wanted: Extreme, first: Number, others: ValueId) -> Option<Number>
    requires first { IsNumberAt (table values.now) first }
    requires others { others.0 < length (table values.now) }
    ensures { Finds (table values.now)
        (among_items (precedes wanted) first.n (items (thing_at (table values.now) others.0)))
        result }
{
    let mut best = first;
    let mut left = others;
    while let Some((item, rest)) = pair_at(values, left) {
        let Some(next) = number_at(values, item) else {
            return None;
        };
        best = better(wanted, best, next);
        left = rest;
    }
    if is_nil(values, left) {
        return Some(best);
    }
    None
}

// The wanted one of two numbers.
fn better(wanted: Extreme, best: Number, next: Number) -> Number
    ensures { result ≡ (if precedes wanted next.n best.n then next else best) }
{
    if wanted.prefers(next.n, best.n) {
        return next;
    }
    best
}

// The integer that a value is, if it is one.
fn number_at(values: &Values, id: ValueId) -> Option<Number>
    requires { id.0 < length (table values.now) }
    ensures { MatchOption result (integer_of (thing_at (table values.now) id.0) ≡ None)
        (λ number. (number.id.0 ≡ id.0) × IsNumberAt (table values.now) number) }
{
    match values.look(id) {
        Look::Int(n) => Some(Number { id, n }),
        _ => None,
    }
}
