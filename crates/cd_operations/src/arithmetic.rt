//! Operators between integers of a table.
ghost use Rattle.std.specs.Prelude.{◌≡◌, ◌<◌, length, IfOk};
ghost use Rattle.cd_cells.specs.Cells.{thing_at};
ghost use Rattle.cd_cells.specs.Table.{table, Grows};
ghost use Rattle.cd_typing.specs.Operators as operators;
ghost use Rattle.cd_evaluation.specs.Integers.{on_integers};
ghost use Rattle.cd_evaluation.specs.Runs as runs;
ghost use Rattle.cd_operations.specs.Endings.{plain_ending, IsEnding};
ghost use Rattle.cd_integers.specs.Computing as computing;
ghost use Rattle.cd_integers.specs.Computing.{plain_computed, calculated};

use crate::added::integer;
use crate::ending::Ending;
use crate::truths::truth;
use cd_cells::{Look, ValueId, Values};
use cd_integers::integers::{Computed, calculate, compares};
use cd_program::operator::Op;
use std::alloc::AllocError;

/// What an operator computes of two integers.
pub(crate) fn arithmetic(
    values: &mut Values,
    op: Op,
    left: ValueId,
    right: ValueId,
) -> Result<Ending, AllocError>
    requires left { left.0 < length (table values.old) }
    requires right { right.0 < length (table values.old) }
    ensures is { let old = table values.old in
        IfOk result (λ ending. plain_ending (table values.new) ending
        ≡ on_integers (calculated op) (thing_at old left.0) (thing_at old right.0)) }
    ensures within { IfOk result (IsEnding (length (table values.new))) }
    ensures grows { Grows values.old values.new }
{
    let Look::Int(n) = values.look(left) else {
        return Ok(Ending::Stuck);
    };
    let Look::Int(m) = values.look(right) else {
        return Ok(Ending::Stuck);
    };
    ended(values, calculate(op, n, m))
}

/// Whether an operator that compares holds between two integers.
pub(crate) fn comparison(
    values: &mut Values,
    op: Op,
    left: ValueId,
    right: ValueId,
) -> Result<Ending, AllocError>
    requires left { left.0 < length (table values.old) }
    requires right { right.0 < length (table values.old) }
    ensures is { let old = table values.old in
        IfOk result (λ ending. plain_ending (table values.new) ending
        ≡ on_integers (λ n m. runs.Done (operators.truth (computing.compares op n m)))
        (thing_at old left.0) (thing_at old right.0)) }
    ensures within { IfOk result (IsEnding (length (table values.new))) }
    ensures grows { Grows values.old values.new }
{
    let Look::Int(n) = values.look(left) else {
        return Ok(Ending::Stuck);
    };
    let Look::Int(m) = values.look(right) else {
        return Ok(Ending::Stuck);
    };
    Ok(Ending::Done(truth(values, compares(op, n, m))?))
}

/// An integer that was computed is added.
pub(crate) fn ended(values: &mut Values, computed: Computed) -> Result<Ending, AllocError>
    ensures is { IfOk result (λ ending.
        plain_ending (table values.new) ending ≡ plain_computed computed) }
    ensures within { IfOk result (IsEnding (length (table values.new))) }
    ensures grows { Grows values.old values.new }
{
    match computed {
        Computed::Number(n) => Ok(Ending::Done(integer(values, n)?)),
        Computed::Overflow => Ok(Ending::Overflow),
        Computed::Nothing => Ok(Ending::Stuck),
    }
}
