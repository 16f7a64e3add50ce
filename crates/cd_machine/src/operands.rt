//! Operators after an operand.
ghost use Rattle.std.specs.Prelude.{◌<◌, length, map, IfOk};
ghost use Rattle.cd_program.specs.Expr.{tails_of, ATail};
ghost use Rattle.cd_program.specs.PlainExpr.{plain, plain_tail};
ghost use Rattle.cd_cells.specs.Cells.{thing_at};
ghost use Rattle.cd_cells.specs.Table.{table, Grows};
ghost use Rattle.cd_evaluation.specs.Operations as operations;
ghost use Rattle.cd_machine.specs.Inner.PlainFrame.{Comes, IsWithin};
ghost use Rattle.cd_machine.specs.Inner.Resuming.{tails_turn, operand_turn, and_turn, or_turn};
ghost use Rattle.cd_machine.specs.Inner.Turn.{paid};

use crate::environments::EnvId;
use crate::frame::Frame;
use crate::outcome::Outcome;
use crate::outcomes::{dropped, selected};
use crate::turn::{Control, Turn};
use cd_cells::{ValueId, Values};
use cd_operations::truths::{truth, truth_of};
use cd_program::expr::{Expr, Tail};
use cd_program::operator::Op;
use std::alloc::{AllocError, Global};

/// The next operator, after an operand with this value.
pub(crate) fn next_tail<'p>(
    alloc: Global,
    values: &mut Values,
    tails: &'p [Tail],
    env: EnvId,
    id: ValueId,
) -> Result<Turn<'p>, AllocError>
    requires { id.0 < length (table values.old) }
    ensures next { IfOk result (λ turn. Comes values.new env turn
        (λ e. tails_turn (tails_of (map plain_tail tails.now)) e
        (thing_at (table values.new) id.0))) }
    ensures within { IfOk result (IsWithin values.new env) }
    ensures grows { Grows values.old values.new }
{
    match tails {
        [] => Ok(Turn::give(Outcome::Done(id))),
        [tail, rest @ ..] => one_tail(alloc, values, tail, rest, env, id),
    }
}

// An operator before others.
fn one_tail<'p>(
    alloc: Global,
    values: &mut Values,
    tail: &'p Tail,
    rest: &'p [Tail],
    env: EnvId,
    id: ValueId,
) -> Result<Turn<'p>, AllocError>
    requires { id.0 < length (table values.old) }
    ensures next { IfOk result (λ turn. Comes values.new env turn
        (λ e. tails_turn (ATail (plain_tail tail.now) (tails_of (map plain_tail rest.now))) e
        (thing_at (table values.new) id.0))) }
    ensures within { IfOk result (IsWithin values.new env) }
    ensures grows { Grows values.old values.new }
{
    match tail {
        Tail::Operand(op, expr) => operand(values, *op, expr, rest, env, id),
        Tail::Without(label) => {
            let outcome = dropped(alloc, values, label, id)?;
            let frame = Frame::Tailing(rest, env);
            Ok(Turn::pay(Control::Returning(outcome), Some(frame)))
        }
        Tail::Select(label) => {
            let outcome = selected(values, label, id);
            let frame = Frame::Tailing(rest, env);
            Ok(Turn::pay(Control::Returning(outcome), Some(frame)))
        }
    }
}

// The right operand of an operator.
fn operand<'p>(
    values: &mut Values,
    op: Op,
    expr: &'p Expr,
    rest: &'p [Tail],
    env: EnvId,
    id: ValueId,
) -> Result<Turn<'p>, AllocError>
    requires { id.0 < length (table values.old) }
    ensures next { IfOk result (λ turn. Comes values.new env turn
        (λ e. operand_turn op (plain expr.now) (tails_of (map plain_tail rest.now)) e
        (thing_at (table values.new) id.0))) }
    ensures within { IfOk result (IsWithin values.new env) }
    ensures grows { Grows values.old values.new }
{
    match op {
        Op::And => after_and(values, expr, rest, env, id),
        Op::Or => after_or(values, expr, rest, env, id),
        op => {
            let frame = Frame::Operating(op, id, rest, env);
            Ok(Turn::evaluate(expr, env, Some(frame)))
        }
    }
}

// The right operand of `&&`, where the left one is true.
fn after_and<'p>(
    values: &mut Values,
    expr: &'p Expr,
    rest: &'p [Tail],
    env: EnvId,
    id: ValueId,
) -> Result<Turn<'p>, AllocError>
    requires { id.0 < length (table values.old) }
    ensures next { IfOk result (λ turn. Comes values.new env turn
        (λ e. paid (and_turn (operations.truth_of (thing_at (table values.new) id.0))
        (plain expr.now) (tails_of (map plain_tail rest.now)) e))) }
    ensures within { IfOk result (IsWithin values.new env) }
    ensures grows { Grows values.old values.new }
{
    let frame = Frame::Tailing(rest, env);
    match truth_of(values, id) {
        None => Ok(Turn::pay(Control::Returning(Outcome::Stuck), None)),
        Some(true) => Ok(Turn::pay(Control::Evaluating(expr, env), Some(frame))),
        Some(false) => {
            let id = truth(values, false)?;
            Ok(Turn::pay(Control::Returning(Outcome::Done(id)), Some(frame)))
        }
    }
}

// The right operand of `||`, where the left one is false.
fn after_or<'p>(
    values: &mut Values,
    expr: &'p Expr,
    rest: &'p [Tail],
    env: EnvId,
    id: ValueId,
) -> Result<Turn<'p>, AllocError>
    requires { id.0 < length (table values.old) }
    ensures next { IfOk result (λ turn. Comes values.new env turn
        (λ e. paid (or_turn (operations.truth_of (thing_at (table values.new) id.0))
        (plain expr.now) (tails_of (map plain_tail rest.now)) e))) }
    ensures within { IfOk result (IsWithin values.new env) }
    ensures grows { Grows values.old values.new }
{
    let frame = Frame::Tailing(rest, env);
    match truth_of(values, id) {
        None => Ok(Turn::pay(Control::Returning(Outcome::Stuck), None)),
        Some(true) => {
            let id = truth(values, true)?;
            Ok(Turn::pay(Control::Returning(Outcome::Done(id)), Some(frame)))
        }
        Some(false) => Ok(Turn::pay(Control::Evaluating(expr, env), Some(frame))),
    }
}
