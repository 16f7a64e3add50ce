//! Operators between two values.
ghost use Rattle.std.specs.Prelude.{◌≡◌, ◌<◌, length, IfOk};
ghost use Rattle.cd_model.specs.Thing.{IsRecord};
ghost use Rattle.cd_cells.specs.Cells.{thing_at};
ghost use Rattle.cd_cells.specs.Table.{table, Grows};
ghost use Rattle.cd_evaluation.specs.Operations as operations;
ghost use Rattle.cd_operations.specs.Endings.{plain_ending, IsEnding};

use crate::arithmetic::{arithmetic, comparison};
use crate::ending::Ending;
use crate::equality::same;
use crate::joins::concatenated;
use crate::records::merged;
use crate::truths::truth;
use cd_cells::{Look, ValueId, Values};
use cd_program::operator::Op;
use std::alloc::{AllocError, Global};

/// What an operator makes of two values. `&&` and `||` are stuck here, since they may leave out
/// the second one.
///
/// # Errors
///
/// Want of memory.
pub fn operate(
    alloc: Global,
    values: &mut Values,
    op: Op,
    left: ValueId,
    right: ValueId,
) -> Result<Ending, AllocError>
    requires left { left.0 < length (table values.old) }
    requires right { right.0 < length (table values.old) }
    ensures is { let old = table values.old in
        IfOk result (λ ending. plain_ending (table values.new) ending
        ≡ operations.operate op (thing_at old left.0) (thing_at old right.0)) }
    ensures within { IfOk result (IsEnding (length (table values.new))) }
    ensures grows { Grows values.old values.new }
{
    match op {
        Op::Or => Ok(Ending::Stuck),
        Op::And => Ok(Ending::Stuck),
        Op::Equal => equal(alloc, values, left, right),
        Op::Unequal => unequal(alloc, values, left, right),
        Op::Less => comparison(values, op, left, right),
        Op::AtMost => comparison(values, op, left, right),
        Op::Greater => comparison(values, op, left, right),
        Op::AtLeast => comparison(values, op, left, right),
        Op::Concat => concatenated(alloc, values, left, right),
        Op::Plus => plus(alloc, values, left, right),
        Op::Minus => arithmetic(values, op, left, right),
        Op::Times => arithmetic(values, op, left, right),
        Op::Div => arithmetic(values, op, left, right),
        Op::Mod => arithmetic(values, op, left, right),
    }
}

fn equal(
    alloc: Global,
    values: &mut Values,
    left: ValueId,
    right: ValueId,
) -> Result<Ending, AllocError>
    requires left { left.0 < length (table values.old) }
    requires right { right.0 < length (table values.old) }
    ensures is { let old = table values.old in
        IfOk result (λ ending. plain_ending (table values.new) ending
        ≡ operations.operate Op.Equal (thing_at old left.0) (thing_at old right.0)) }
    ensures within { IfOk result (IsEnding (length (table values.new))) }
    ensures grows { Grows values.old values.new }
{
    let is = same(alloc, values, left, right)?;
    Ok(Ending::Done(truth(values, is)?))
}

fn unequal(
    alloc: Global,
    values: &mut Values,
    left: ValueId,
    right: ValueId,
) -> Result<Ending, AllocError>
    requires left { left.0 < length (table values.old) }
    requires right { right.0 < length (table values.old) }
    ensures is { let old = table values.old in
        IfOk result (λ ending. plain_ending (table values.new) ending
        ≡ operations.operate Op.Unequal (thing_at old left.0) (thing_at old right.0)) }
    ensures within { IfOk result (IsEnding (length (table values.new))) }
    ensures grows { Grows values.old values.new }
{
    let is = same(alloc, values, left, right)?;
    Ok(Ending::Done(truth(values, !is)?))
}

// A sum of integers, or records merged.
fn plus(
    alloc: Global,
    values: &mut Values,
    left: ValueId,
    right: ValueId,
) -> Result<Ending, AllocError>
    requires left { left.0 < length (table values.old) }
    requires right { right.0 < length (table values.old) }
    ensures is { let old = table values.old in
        IfOk result (λ ending. plain_ending (table values.new) ending
        ≡ operations.plus (thing_at old left.0) (thing_at old right.0)) }
    ensures within { IfOk result (IsEnding (length (table values.new))) }
    ensures grows { Grows values.old values.new }
{
    match values.look(left) {
        Look::Int(_) => arithmetic(values, Op::Plus, left, right),
        Look::Record(_) => plus_record(alloc, values, left, right),
        _ => Ok(Ending::Stuck),
    }
}

fn plus_record(
    alloc: Global,
    values: &mut Values,
    left: ValueId,
    right: ValueId,
) -> Result<Ending, AllocError>
    requires left { left.0 < length (table values.old) }
    requires right { right.0 < length (table values.old) }
    requires record_left { IsRecord (thing_at (table values.old) left.0) }
    ensures is { let old = table values.old in
        IfOk result (λ ending. plain_ending (table values.new) ending
        ≡ operations.plus (thing_at old left.0) (thing_at old right.0)) }
    ensures within { IfOk result (IsEnding (length (table values.new))) }
    ensures grows { Grows values.old values.new }
{
    match values.look(right) {
        Look::Record(_) => Ok(Ending::Done(merged(alloc, values, left, right)?)),
        _ => Ok(Ending::Stuck),
    }
}
