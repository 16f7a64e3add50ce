//! The items of a sequence before an end.
ghost use Rattle.std.specs.Prelude.{◌<◌, length, IfOk};
ghost use Rattle.cd_meaning.specs.Sequences.{followed_by};
ghost use Rattle.cd_cells.specs.Cells.{thing_at};
ghost use Rattle.cd_cells.specs.Table.{table, IsAt, Grows};
ghost use Rattle.cd_operations.specs.Inner.Joins.{things_of, AreWithin, Collects, Prepends};

use crate::added::pair;
use crate::pairs::{is_nil, pair_at};
use cd_cells::{ValueId, Values};
use std::alloc::AllocError;

/// The items of a sequence before an end, and None of another value. The stack is used for the
/// items, whatever is on it.
pub(crate) fn prepended(
    values: &mut Values,
    stack: &mut Vec<ValueId>,
    all: ValueId,
    end: ValueId,
) -> Result<Option<ValueId>, AllocError>
    requires all { all.0 < length (table values.old) }
    requires end { end.0 < length (table values.old) }
    ensures is { IfOk result (Prepends (table values.old) all.0 end.0 (table values.new)) }
    ensures grows { Grows values.old values.new }
{
    if collect(values, all, stack)? {
        return Ok(Some(put_all(values, stack, end)?));
    }
    Ok(None)
}

// The items of a sequence are on the stack, in place of what was on it. Whether it is a sequence.
fn collect(values: &Values, all: ValueId, stack: &mut Vec<ValueId>) -> Result<bool, AllocError>
    requires { all.0 < length (table values.now) }
    ensures { let table = table values.now in
        IfOk result (Collects table (thing_at table all.0) stack.new.items) }
{
    stack.clear();
    let mut left = all;
    while let Some((first, rest)) = pair_at(values, left) {
        stack.push(first)?;
        left = rest;
    }
    Ok(is_nil(values, left))
}

// The values of a stack before an end. They are taken away.
fn put_all(
    values: &mut Values,
    stack: &mut Vec<ValueId>,
    end: ValueId,
) -> Result<ValueId, AllocError>
    requires stack { AreWithin (length (table values.old)) stack.old.items }
    requires end { end.0 < length (table values.old) }
    ensures is { let old = table values.old in IfOk result (λ id. IsAt (table values.new) id.0
        (followed_by (things_of old stack.old.items) (thing_at old end.0))) }
    ensures grows { Grows values.old values.new }
{
    let mut made = end;
    while let Some(top) = stack.pop() {
        made = pair(values, top, made)?;
    }
    Ok(made)
}
