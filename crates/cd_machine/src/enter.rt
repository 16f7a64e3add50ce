//! What is done first for an expression.
ghost use Rattle.std.specs.Prelude.{◌≡◌, ◌<◌, [], length, map, IfOk};
ghost use Rattle.cd_model.specs.AllOf.{AllOf};
ghost use Rattle.cd_model.specs.Thing.{Closure, NoField};
ghost use Rattle.cd_program.specs.Expr.{exprs_of, items_of, fields_of};
ghost use Rattle.cd_program.specs.PlainExpr.{plain, plain_kind, plain_item, plain_field};
ghost use Rattle.cd_cells.specs.Table.{Grows};
ghost use Rattle.cd_cells.specs.declared.values.Values.{Values as AllValues};
ghost use Rattle.cd_evaluation.specs.Code.{declared_value, named};
ghost use Rattle.cd_evaluation.specs.Runs.{Done, found};
ghost use Rattle.cd_code.specs.Compiled.{ArePartsOf};
ghost use Rattle.cd_machine.specs.Inner.CodeIn.{code_in, IsPatternIn};
ghost use Rattle.cd_machine.specs.Inner.Entering.{expr_turn, kind_turn, tuple_turn, items_turn};
ghost use Rattle.cd_machine.specs.Inner.Entering.{fields_turn, apply_turn};
ghost use Rattle.cd_machine.specs.Inner.Known.{IsKnown, KindIsKnown};
ghost use Rattle.cd_machine.specs.Inner.PlainFrame.{plain_turn, env_at, IsTurn, Comes, IsWithin};
ghost use Rattle.cd_machine.specs.Inner.Turn.{give};

use crate::environments::{EnvId, Environments};
use crate::frame::Frame;
use crate::lists::{next_field, next_item};
use crate::outcome::Outcome;
use crate::turn::Turn;
use cd_cells::{Part, Values};
use cd_code::Code;
use cd_operations::constants::constant;
use cd_program::expr::{Expr, ExprKind, FieldExpr, Item};
use cd_syntax::name::Name;
use std::alloc::AllocError;

/// The first turn for an expression. The list of names is for this function to use.
pub(crate) fn enter<'p>(
    code: &Code<'p>,
    values: &mut Values,
    environments: &Environments,
    parts: &mut Vec<Part>,
    expr: &'p Expr,
    env: EnvId,
) -> Result<Turn<'p>, AllocError>
    requires known { IsKnown (IsPatternIn code.now) (plain expr.now) }
    requires env { env.0 < length environments.now }
    requires sound { AllOf (ArePartsOf values.old) environments.now }
    ensures next { IfOk result (λ turn. plain_turn values.new environments.now turn
        ≡ expr_turn (code_in code.now) (plain expr.now)
        (env_at values.new environments.now env)) }
    ensures within { IfOk result (IsTurn values.new environments.now) }
    ensures grows { Grows values.old values.new }
{
    enter_kind(code, values, environments, parts, &expr.kind, env)
}

// The first turn for an expression that is this.
fn enter_kind<'p>(
    code: &Code<'p>,
    values: &mut Values,
    environments: &Environments,
    parts: &mut Vec<Part>,
    kind: &'p ExprKind,
    env: EnvId,
) -> Result<Turn<'p>, AllocError>
    requires known { KindIsKnown (IsPatternIn code.now) (plain_kind kind.now) }
    requires env { env.0 < length environments.now }
    requires sound { AllOf (ArePartsOf values.old) environments.now }
    ensures next { IfOk result (λ turn. plain_turn values.new environments.now turn
        ≡ kind_turn (code_in code.now) (plain_kind kind.now)
        (env_at values.new environments.now env)) }
    ensures within { IfOk result (IsTurn values.new environments.now) }
    ensures grows { Grows values.old values.new }
{
    match kind {
        ExprKind::Constant(is) => Ok(Turn::give(Outcome::Done(constant(values, is)?))),
        ExprKind::Variable(name) => enter_variable(code, values, environments, name, env),
        ExprKind::Tuple(exprs) => enter_tuple(values, exprs.items(), env),
        ExprKind::Sequence(items) => enter_sequence(values, items.items(), env),
        ExprKind::Record(fields) => enter_record(values, fields.items(), env),
        ExprKind::Xml(tag, attributes, content) => {
            Ok(Turn::evaluate(tag, env, Some(Frame::Tagging(attributes, content, env))))
        }
        ExprKind::Function(function) => {
            enter_function(values, environments, parts, function.at, env)
        }
        ExprKind::Apply(exprs) => Ok(enter_apply(exprs.items(), env)),
        ExprKind::Match(value, branches) => {
            Ok(Turn::evaluate(value, env, Some(Frame::Matching(branches, env))))
        }
        ExprKind::Try(body, branches) => {
            Ok(Turn::evaluate(body, env, Some(Frame::Trying(branches, env))))
        }
        ExprKind::Map(value, branches) => {
            Ok(Turn::evaluate(value, env, Some(Frame::Listing(branches, env))))
        }
        ExprKind::Transform(value, branches) => {
            Ok(Turn::evaluate(value, env, Some(Frame::Sifting(branches, env))))
        }
        ExprKind::Let(pattern, value, rest) => {
            Ok(Turn::evaluate(value, env, Some(Frame::Letting(pattern, rest, env))))
        }
        ExprKind::If(condition, then_one, else_one) => {
            Ok(Turn::evaluate(condition, env, Some(Frame::Asking(then_one, else_one, env))))
        }
        ExprKind::Chain(first, tails) => {
            Ok(Turn::evaluate(first, env, Some(Frame::Tailing(tails.items(), env))))
        }
        ExprKind::Call(word, operand) => {
            Ok(Turn::evaluate(operand, env, Some(Frame::Wording(*word))))
        }
    }
}

// The value of a name: that of the environment, or else the function that is declared by it.
fn enter_variable<'p>(
    code: &Code<'p>,
    values: &mut Values,
    environments: &Environments,
    name: &Name,
    env: EnvId,
) -> Result<Turn<'p>, AllocError>
    requires env { env.0 < length environments.now }
    requires sound { AllOf (ArePartsOf values.old) environments.now }
    ensures next { IfOk result (λ turn. plain_turn values.new environments.now turn
        ≡ give (found (named (code_in code.now)
        (env_at values.new environments.now env) name.now))) }
    ensures within { IfOk result (IsTurn values.new environments.now) }
    ensures grows { Grows values.old values.new }
{
    match environments.find(values, env, name.as_str()) {
        Some(id) => Ok(Turn::give(Outcome::Done(id))),
        None => enter_declared(code, values, name, env),
    }
}

// The function that is declared by a name.
#[tactic(auto, unfolding(crate::specs::Inner::CodeIn::code_in))]
fn enter_declared<'p>(
    code: &Code<'p>,
    values: &mut Values,
    name: &Name,
    env: EnvId,
) -> Result<Turn<'p>, AllocError>
    ensures next { IfOk result (λ turn. Comes values.new env turn
        (λ e. give (found (declared_value (code_in code.now) name.now)))) }
    ensures within { IfOk result (IsWithin values.new env) }
    ensures grows { Grows values.old values.new }
{
    match code.declared(name.as_str()) {
        Some(at) => Ok(Turn::give(Outcome::Done(values.closure(at, &[])?))),
        None => Ok(Turn::give(Outcome::Stuck)),
    }
}

// The first part of a tuple.
fn enter_tuple<'p>(
    values: &mut Values,
    exprs: &'p [Expr],
    env: EnvId,
) -> Result<Turn<'p>, AllocError>
    ensures next { IfOk result (λ turn.
        Comes values.new env turn (tuple_turn (exprs_of (map plain exprs.now)))) }
    ensures within { IfOk result (IsWithin values.new env) }
    ensures grows { Grows values.old values.new }
{
    match exprs {
        [] => Ok(Turn::give(Outcome::Done(values.nil()?))),
        [one] => Ok(Turn::evaluate(one, env, None)),
        [first, next, rest @ ..] => {
            Ok(Turn::evaluate(first, env, Some(Frame::First(next, rest, env))))
        }
    }
}

// The first item of a sequence.
fn enter_sequence<'p>(
    values: &mut Values,
    items: &'p [Item],
    env: EnvId,
) -> Result<Turn<'p>, AllocError>
    ensures next { IfOk result (λ turn. Comes values.new env turn
        (λ e. items_turn (items_of (map plain_item items.now)) e [])) }
    ensures within { IfOk result (IsWithin values.new env) }
    ensures grows { Grows values.old values.new }
{
    let none = values.nil()?;
    next_item(values, items, env, none)
}

// The first field of a record.
fn enter_record<'p>(
    values: &mut Values,
    fields: &'p [FieldExpr],
    env: EnvId,
) -> Result<Turn<'p>, AllocError>
    ensures next { IfOk result (λ turn. Comes values.new env turn
        (λ e. fields_turn (fields_of (map plain_field fields.now)) e NoField)) }
    ensures within { IfOk result (IsWithin values.new env) }
    ensures grows { Grows values.old values.new }
{
    let none = values.record_of(&[])?;
    Ok(next_field(values, fields, env, none))
}

// The closure of a function, which sees all names of the environment.
fn enter_function<'p>(
    values: &mut Values,
    environments: &Environments,
    parts: &mut Vec<Part>,
    at: usize,
    env: EnvId,
) -> Result<Turn<'p>, AllocError>
    requires env { env.0 < length environments.now }
    requires sound { AllOf (ArePartsOf values.old) environments.now }
    ensures next { IfOk result (λ turn. plain_turn values.new environments.now turn
        ≡ give (Done (Closure at (env_at values.new environments.now env)))) }
    ensures within { IfOk result (IsTurn values.new environments.now) }
    ensures grows { Grows values.old values.new }
{
    parts.clear();
    environments.put_parts(env, parts)?;
    Ok(Turn::give(Outcome::Done(values.closure(at, parts.as_slice())?)))
}

// The function of an application.
fn enter_apply<'p>(exprs: &'p [Expr], env: EnvId) -> Turn<'p>
    ensures next { (all : AllValues) →
        Comes all env result (apply_turn (exprs_of (map plain exprs.now))) }
    ensures within { (all : AllValues) → IsWithin all env result }
{
    match exprs {
        [] => Turn::give(Outcome::Stuck),
        [function, arguments @ ..] => {
            Turn::evaluate(function, env, Some(Frame::Called(arguments, env)))
        }
    }
}
