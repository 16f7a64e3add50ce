//! Operators whose operands are at hand: constants, and names of the environment.
ghost use Rattle.std.specs.Prelude.{◌<◌, length, map, IfOk, IfSome};
ghost use Rattle.cd_model.specs.AllOf.{AllOf};
ghost use Rattle.cd_program.specs.Expr.{Chain, ATail, Operand, tails_of};
ghost use Rattle.cd_program.specs.PlainExpr.{plain, plain_kind, plain_tail};
ghost use Rattle.cd_cells.specs.Cells.{thing_at};
ghost use Rattle.cd_cells.specs.Table.{table, Grows};
ghost use Rattle.cd_code.specs.Compiled.{ArePartsOf};
ghost use Rattle.cd_evaluation.specs.Evaluation.{IsStrict};
ghost use Rattle.cd_machine.specs.PlainRan.{plain_outcome, IsOutcome};
ghost use Rattle.cd_machine.specs.Inner.AtHand.{Gives, GivesKind, Computes, ComesAtHand, KindComes};
ghost use Rattle.cd_machine.specs.Inner.CodeIn.{code_in, IsPatternIn};
ghost use Rattle.cd_machine.specs.Inner.Known.{IsKnown, KindIsKnown, TailsAreKnown};
ghost use Rattle.cd_machine.specs.Inner.PlainFrame.{env_at};

use crate::environments::{EnvId, Environments};
use crate::frame::Frame;
use crate::outcome::Outcome;
use crate::outcomes::operated;
use crate::turn::{Control, Turn};
use cd_cells::{ValueId, Values};
use cd_code::Code;
use cd_operations::constants::constant;
use cd_program::expr::{Expr, ExprKind, Tail};
use cd_program::operator::Op;
use std::alloc::AllocError;

/// The turn that takes a unit for an operator, where an expression begins with one whose operands
/// are at hand. The machine would come to it by four others.
pub(crate) fn operator_at_hand<'p>(
    code: &Code<'p>,
    values: &mut Values,
    environments: &Environments,
    expr: &'p Expr,
    env: EnvId,
) -> Result<Option<Turn<'p>>, AllocError>
    requires known { IsKnown (IsPatternIn code.now) (plain expr.now) }
    requires env { env.0 < length environments.now }
    requires sound { AllOf (ArePartsOf values.old) environments.now }
    ensures comes { IfOk result (λ found. IfSome found (ComesAtHand code.now values.new
        environments.now (plain expr.now) env)) }
    ensures grows { Grows values.old values.new }
{
    kind_comes(code, values, environments, &expr.kind, env)
}

// The same, of what an expression is.
fn kind_comes<'p>(
    code: &Code<'p>,
    values: &mut Values,
    environments: &Environments,
    kind: &'p ExprKind,
    env: EnvId,
) -> Result<Option<Turn<'p>>, AllocError>
    requires known { KindIsKnown (IsPatternIn code.now) (plain_kind kind.now) }
    requires env { env.0 < length environments.now }
    requires sound { AllOf (ArePartsOf values.old) environments.now }
    ensures comes { IfOk result (λ found. IfSome found (KindComes code.now values.new
        environments.now (plain_kind kind.now) env)) }
    ensures grows { Grows values.old values.new }
{
    match kind {
        ExprKind::Chain(first, tails) => {
            chain_comes(code, values, environments, first, tails.items(), env)
        }
        _ => Ok(None),
    }
}

// The same, of a chain.
fn chain_comes<'p>(
    code: &Code<'p>,
    values: &mut Values,
    environments: &Environments,
    first: &Expr,
    tails: &'p [Tail],
    env: EnvId,
) -> Result<Option<Turn<'p>>, AllocError>
    requires first { IsKnown (IsPatternIn code.now) (plain first.now) }
    requires tails { TailsAreKnown (IsPatternIn code.now) (tails_of (map plain_tail tails.now)) }
    requires env { env.0 < length environments.now }
    requires sound { AllOf (ArePartsOf values.old) environments.now }
    ensures comes { IfOk result (λ found. IfSome found (KindComes code.now values.new
        environments.now (Chain (plain first.now) (tails_of (map plain_tail tails.now))) env)) }
    ensures grows { Grows values.old values.new }
{
    match tails {
        [] => Ok(None),
        [tail, rest @ ..] => tail_comes(code, values, environments, first, tail, rest, env),
    }
}

// The same, of a chain that begins with this operator.
fn tail_comes<'p>(
    code: &Code<'p>,
    values: &mut Values,
    environments: &Environments,
    first: &Expr,
    tail: &'p Tail,
    rest: &'p [Tail],
    env: EnvId,
) -> Result<Option<Turn<'p>>, AllocError>
    requires first { IsKnown (IsPatternIn code.now) (plain first.now) }
    requires tail { TailsAreKnown (IsPatternIn code.now)
        (ATail (plain_tail tail.now) (tails_of (map plain_tail rest.now))) }
    requires env { env.0 < length environments.now }
    requires sound { AllOf (ArePartsOf values.old) environments.now }
    ensures comes { IfOk result (λ found. IfSome found (KindComes code.now values.new
        environments.now (Chain (plain first.now)
        (ATail (plain_tail tail.now) (tails_of (map plain_tail rest.now)))) env)) }
    ensures grows { Grows values.old values.new }
{
    match tail {
        Tail::Operand(op, second) => {
            let operands = (first, *op, &**second);
            operands_come(code, values, environments, operands, rest, env)
        }
        _ => Ok(None),
    }
}

// The same, of a chain that begins with this operator between these operands.
fn operands_come<'p>(
    code: &Code<'p>,
    values: &mut Values,
    environments: &Environments,
    operands: (&Expr, Op, &Expr),
    rest: &'p [Tail],
    env: EnvId,
) -> Result<Option<Turn<'p>>, AllocError>
    requires first { IsKnown (IsPatternIn code.now) (plain operands.0.now) }
    requires second { IsKnown (IsPatternIn code.now) (plain operands.2.now) }
    requires rest { TailsAreKnown (IsPatternIn code.now) (tails_of (map plain_tail rest.now)) }
    requires env { env.0 < length environments.now }
    requires sound { AllOf (ArePartsOf values.old) environments.now }
    ensures comes { IfOk result (λ found. IfSome found (KindComes code.now values.new
        environments.now (Chain (plain operands.entry.0.now)
        (ATail (Operand operands.entry.1 (plain operands.entry.2.now))
        (tails_of (map plain_tail rest.now)))) env)) }
    ensures grows { Grows values.old values.new }
{
    let (first, op, second) = operands;
    match computed(code, values, environments, first, op, second, env)? {
        Some(outcome) => {
            let frame = Frame::Tailing(rest, env);
            Ok(Some(Turn::pay(Control::Returning(outcome), Some(frame))))
        }
        None => Ok(None),
    }
}

// What an operator makes of two operands, where both are at hand.
fn computed(
    code: &Code<'_>,
    values: &mut Values,
    environments: &Environments,
    first: &Expr,
    op: Op,
    second: &Expr,
    env: EnvId,
) -> Result<Option<Outcome>, AllocError>
    requires first { IsKnown (IsPatternIn code.now) (plain first.now) }
    requires second { IsKnown (IsPatternIn code.now) (plain second.now) }
    requires env { env.0 < length environments.now }
    requires sound { AllOf (ArePartsOf values.old) environments.now }
    ensures computes { IfOk result (λ found. IfSome found (λ outcome. Computes (code_in code.now)
        (plain first.now) op (plain second.now) (env_at values.new environments.now env)
        (plain_outcome (table values.new) outcome))) }
    ensures within { IfOk result
        (λ found. IfSome found (IsOutcome (length (table values.new)))) }
    ensures grows { Grows values.old values.new }
{
    match op {
        Op::And | Op::Or => Ok(None),
        op => strictly(code, values, environments, first, op, second, env),
    }
}

// The same of an operator that always asks for both.
fn strictly(
    code: &Code<'_>,
    values: &mut Values,
    environments: &Environments,
    first: &Expr,
    op: Op,
    second: &Expr,
    env: EnvId,
) -> Result<Option<Outcome>, AllocError>
    requires strict { IsStrict op }
    requires first { IsKnown (IsPatternIn code.now) (plain first.now) }
    requires second { IsKnown (IsPatternIn code.now) (plain second.now) }
    requires env { env.0 < length environments.now }
    requires sound { AllOf (ArePartsOf values.old) environments.now }
    ensures computes { IfOk result (λ found. IfSome found (λ outcome. Computes (code_in code.now)
        (plain first.now) op (plain second.now) (env_at values.new environments.now env)
        (plain_outcome (table values.new) outcome))) }
    ensures within { IfOk result
        (λ found. IfSome found (IsOutcome (length (table values.new)))) }
    ensures grows { Grows values.old values.new }
{
    let Some(left) = at_hand(code, values, environments, first, env)? else {
        return Ok(None);
    };
    let Some(right) = at_hand(code, values, environments, second, env)? else {
        return Ok(None);
    };
    let outcome = operated(environments.allocator(), values, op, left, right)?;
    Ok(Some(outcome))
}

// The value of a constant, or of a name of the environment.
fn at_hand(
    code: &Code<'_>,
    values: &mut Values,
    environments: &Environments,
    expr: &Expr,
    env: EnvId,
) -> Result<Option<ValueId>, AllocError>
    requires known { IsKnown (IsPatternIn code.now) (plain expr.now) }
    requires env { env.0 < length environments.now }
    requires sound { AllOf (ArePartsOf values.old) environments.now }
    ensures gives { IfOk result (λ found. IfSome found (λ id. Gives (code_in code.now)
        (plain expr.now) (env_at values.new environments.now env)
        (thing_at (table values.new) id.0))) }
    ensures within { IfOk result
        (λ found. IfSome found (λ id. id.0 < length (table values.new))) }
    ensures grows { Grows values.old values.new }
{
    kind_at_hand(code, values, environments, &expr.kind, env)
}

// The value of what such an expression is.
fn kind_at_hand(
    code: &Code<'_>,
    values: &mut Values,
    environments: &Environments,
    kind: &ExprKind,
    env: EnvId,
) -> Result<Option<ValueId>, AllocError>
    requires known { KindIsKnown (IsPatternIn code.now) (plain_kind kind.now) }
    requires env { env.0 < length environments.now }
    requires sound { AllOf (ArePartsOf values.old) environments.now }
    ensures gives { IfOk result (λ found. IfSome found (λ id. GivesKind (code_in code.now)
        (plain_kind kind.now) (env_at values.new environments.now env)
        (thing_at (table values.new) id.0))) }
    ensures within { IfOk result
        (λ found. IfSome found (λ id. id.0 < length (table values.new))) }
    ensures grows { Grows values.old values.new }
{
    let _code = code;
    match kind {
        ExprKind::Constant(is) => Ok(Some(constant(values, is)?)),
        ExprKind::Variable(name) => Ok(environments.find(values, env, name.as_str())),
        _ => Ok(None),
    }
}
