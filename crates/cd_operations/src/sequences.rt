//! Sequences that are put before others.
ghost use Rattle.std.specs.Prelude.{◌≡◌, ◌<◌, [], Some, None, length, IfOk, if◌then◌else◌};
ghost use Rattle.cd_matching.specs.Sequences.{items, sequence_of};
ghost use Rattle.cd_cells.specs.Cells.{thing_at};
ghost use Rattle.cd_cells.specs.Table.{table, IsAt, Grows};
ghost use Rattle.cd_evaluation.specs.Lists.{before};
ghost use Rattle.cd_operations.specs.Along.{items_along, turned};

use crate::added::pair;
use crate::pairs::{is_nil, pair_at};
use cd_cells::{ValueId, Values};
use std::alloc::AllocError;

/// Whether a value is a sequence: pairs that end in `nil`.
pub fn is_sequence(values: &Values, value: ValueId) -> bool
    requires { value.0 < length (table values.now) }
    ensures { let v = thing_at (table values.now) value.0 in
        items v ≡ (if result then Some (items_along v) else None) }
{
    let mut rest = value;
    while let Some((_, next)) = pair_at(values, rest) {
        rest = next;
    }
    is_nil(values, rest)
}

/// The items of a sequence put one by one before another one, so that they stand there in the
/// opposite order.
///
/// # Errors
///
/// Want of memory.
pub fn reversed(values: &mut Values, done: ValueId, onto: ValueId) -> Result<ValueId, AllocError>
    requires done { done.0 < length (table values.old) }
    requires onto { onto.0 < length (table values.old) }
    ensures is { let old = table values.old in IfOk result (λ id. IsAt (table values.new) id.0
        (turned (items_along (thing_at old done.0)) (thing_at old onto.0))) }
    ensures items { let old = table values.old in
        IfOk result (λ id. items_along (thing_at (table values.new) id.0)
        ≡ before (items_along (thing_at old done.0)) (items_along (thing_at old onto.0))) }
    ensures grows { Grows values.old values.new }
{
    let mut left = done;
    let mut made = onto;
    while let Some((first, rest)) = pair_at(values, left) {
        made = pair(values, first, made)?;
        left = rest;
    }
    Ok(made)
}

/// The items of a sequence put one by one before those that are done, which are kept from the last
/// one.
///
/// # Errors
///
/// Want of memory.
pub fn pushed(values: &mut Values, all: ValueId, done: ValueId) -> Result<ValueId, AllocError>
    requires all { all.0 < length (table values.old) }
    requires done { done.0 < length (table values.old) }
    ensures within { IfOk result (λ id. id.0 < length (table values.new)) }
    ensures items { let old = table values.old in
        IfOk result (λ id. items_along (thing_at (table values.new) id.0)
        ≡ before (items_along (thing_at old all.0)) (items_along (thing_at old done.0))) }
    ensures grows { Grows values.old values.new }
{
    reversed(values, all, done)
}

/// The sequence of the items that are done, which are kept from the last one.
///
/// # Errors
///
/// Want of memory.
pub fn in_order(values: &mut Values, done: ValueId) -> Result<ValueId, AllocError>
    requires { done.0 < length (table values.old) }
    ensures is { IfOk result (λ id. IsAt (table values.new) id.0
        (sequence_of (before (items_along (thing_at (table values.old) done.0)) []))) }
    ensures grows { Grows values.old values.new }
{
    let nil = values.nil()?;
    Ok(reversed(values, done, nil)?)
}
