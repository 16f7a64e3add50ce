//! Applications, and chains of operators.
ghost use Rattle.std.specs.Prelude.{◌<◌, length, map, IfOk, IfErr};
ghost use Rattle.cd_program.specs.Expr.{Apply, Chain, Operand, exprs_of, tails_of};
ghost use Rattle.cd_program.specs.PlainExpr.{plain, plain_exprs, plain_tail, plain_tails};
ghost use Rattle.cd_empty.specs.Seen.{graph_of, table_of};
ghost use Rattle.cd_check.specs.Inner.Failing.{KindFails, ArgumentsFail, ArgumentFails};
ghost use Rattle.cd_check.specs.Inner.Failing.{TailsFail, TailFails};
ghost use Rattle.cd_check.specs.Inner.Giving.{KindGives, ArgumentsGive, ArgumentGives, TailsGive};
ghost use Rattle.cd_check.specs.Inner.Giving.{TailGives};
ghost use Rattle.cd_check.specs.Inner.LeastNodes.{KindLeast, ArgumentsLeast, ArgumentLeast};
ghost use Rattle.cd_check.specs.Inner.LeastNodes.{TailsLeast, TailLeast};
ghost use Rattle.cd_check.specs.Inner.Ready.{IsReady, IsAfter, program_of, names_seen};
ghost use Rattle.cd_check.specs.Inner.Sides.{IsMet};
ghost use Rattle.cd_check.specs.Inner.SoundNames.{IsSound, AreSound, TailsAreSound, TailIsSound};
ghost use Rattle.cd_check.specs.Inner.SoundNames.{HasFirst};

use crate::base::Base;
use crate::expr::check;
use crate::fault::{CheckError, ill_typed, placed};
use crate::test::check_short;
use cd_apply::{Applied, apply};
use cd_empty::World;
use cd_operators::{drop_field, operate, take_field};
use cd_program::expr::{Expr, Exprs, Tail, Tails};
use cd_program::operator::Op;
use cd_sets::node_id::NodeId;
use cd_syntax::name::Name;
use cd_typing::rule::Rule;

/// A function that is applied to one argument after the other. The application stands at this
/// place.
#[cycle(check)]
pub(crate) fn check_apply(
    base: &Base<'_, '_, '_>,
    world: &mut World,
    locals: &[(Name, NodeId)],
    exprs: &Exprs,
    at: usize,
) -> Result<NodeId, CheckError>
    requires ready { IsReady base.now (graph_of world.old) locals.now }
    requires first { HasFirst (plain_exprs exprs.now) }
    requires sound { AreSound (program_of base.now) (names_seen base.now locals.now)
        (plain_exprs exprs.now) }
    ensures gives { IfOk result (KindGives base.now (graph_of world.old) locals.now
        (graph_of world.new) (Apply (plain_exprs exprs.now))) }
    ensures after { IsAfter base.now locals.now world.old world.new }
    ensures least { IfOk result (KindLeast base.now (graph_of world.old) locals.now
        (graph_of world.new) (Apply (plain_exprs exprs.now))) }
    ensures fault { IfErr result (KindFails base.now (graph_of world.old) locals.now
        (table_of world.new) at (Apply (plain_exprs exprs.now))) }
{
    match exprs.items() {
        [] => unreachable!(),
        [function, arguments @ ..] => {
            let id = check(base, world, locals, function)?;
            check_arguments(base, world, locals, id, arguments, function.span.from, at)
        }
    }
}

// What functions of a type give for one argument after the other. The functions stand at the first
// place, and what they give at the second one.
#[cycle(check)]
fn check_arguments(
    base: &Base<'_, '_, '_>,
    world: &mut World,
    locals: &[(Name, NodeId)],
    function: NodeId,
    arguments: &[Expr],
    from: usize,
    at: usize,
) -> Result<NodeId, CheckError>
    requires ready { IsReady base.now (graph_of world.old) locals.now }
    requires function { function.0 < length (graph_of world.old) }
    requires sound { AreSound (program_of base.now) (names_seen base.now locals.now)
        (exprs_of (map plain arguments.now)) }
    ensures gives { IfOk result (ArgumentsGive base.now (graph_of world.old) locals.now
        (graph_of world.new) function (exprs_of (map plain arguments.now))) }
    ensures after { IsAfter base.now locals.now world.old world.new }
    ensures least { IfOk result (ArgumentsLeast base.now (graph_of world.old) locals.now
        (graph_of world.new) function (exprs_of (map plain arguments.now))) }
    ensures fault { IfErr result (ArgumentsFail base.now (graph_of world.old) locals.now
        (table_of world.new) function from at (exprs_of (map plain arguments.now))) }
{
    let mut id = function;
    let mut place = from;
    for argument in arguments {
        id = check_argument(base, world, locals, id, argument, place)?;
        place = at;
    }
    Ok(id)
}

// What functions of a type, which stand at this place, give for an argument.
#[cycle(check)]
fn check_argument(
    base: &Base<'_, '_, '_>,
    world: &mut World,
    locals: &[(Name, NodeId)],
    function: NodeId,
    argument: &Expr,
    at: usize,
) -> Result<NodeId, CheckError>
    requires ready { IsReady base.now (graph_of world.old) locals.now }
    requires function { function.0 < length (graph_of world.old) }
    requires sound { IsSound (program_of base.now) (names_seen base.now locals.now)
        (plain argument.now) }
    ensures gives { IfOk result (ArgumentGives base.now (graph_of world.old) locals.now
        (graph_of world.new) function (plain argument.now)) }
    ensures after { IsAfter base.now locals.now world.old world.new }
    ensures least { IfOk result (ArgumentLeast base.now (graph_of world.old) locals.now
        (graph_of world.new) function (plain argument.now)) }
    ensures fault { IfErr result (ArgumentFails base.now (graph_of world.old) locals.now
        (table_of world.new) function at (plain argument.now)) }
{
    let id = check(base, world, locals, argument)?;
    match apply(base.alloc, world, function, id)? {
        Applied::Results(results) => Ok(results),
        Applied::NotFunction(element) => Err(ill_typed(at, Rule::NotFunction, element)),
        Applied::OutsideDomain(element) => {
            Err(ill_typed(argument.span.from, Rule::Argument, element))
        }
    }
}

/// Operators of one level. The chain stands at this place.
#[cycle(check)]
pub(crate) fn check_chain(
    base: &Base<'_, '_, '_>,
    world: &mut World,
    locals: &[(Name, NodeId)],
    first: &Expr,
    tails: &Tails,
    at: usize,
) -> Result<NodeId, CheckError>
    requires ready { IsReady base.now (graph_of world.old) locals.now }
    requires first { IsSound (program_of base.now) (names_seen base.now locals.now)
        (plain first.now) }
    requires tails { TailsAreSound (program_of base.now) (names_seen base.now locals.now)
        (plain_tails tails.now) }
    ensures gives { IfOk result (KindGives base.now (graph_of world.old) locals.now
        (graph_of world.new) (Chain (plain first.now) (plain_tails tails.now))) }
    ensures after { IsAfter base.now locals.now world.old world.new }
    ensures least { IfOk result (KindLeast base.now (graph_of world.old) locals.now
        (graph_of world.new) (Chain (plain first.now) (plain_tails tails.now))) }
    ensures fault { IfErr result (KindFails base.now (graph_of world.old) locals.now
        (table_of world.new) at (Chain (plain first.now) (plain_tails tails.now))) }
{
    let id = check(base, world, locals, first)?;
    check_tails(base, world, locals, id, tails, first.span.from, at)
}

// Operators, one after the other. The first operand stands at the first place, and what they give
// at the second one.
#[cycle(check)]
fn check_tails(
    base: &Base<'_, '_, '_>,
    world: &mut World,
    locals: &[(Name, NodeId)],
    first: NodeId,
    tails: &Tails,
    from: usize,
    at: usize,
) -> Result<NodeId, CheckError>
    requires ready { IsReady base.now (graph_of world.old) locals.now }
    requires first { first.0 < length (graph_of world.old) }
    requires sound { TailsAreSound (program_of base.now) (names_seen base.now locals.now)
        (plain_tails tails.now) }
    ensures gives { IfOk result (TailsGive base.now (graph_of world.old) locals.now
        (graph_of world.new) first (plain_tails tails.now)) }
    ensures after { IsAfter base.now locals.now world.old world.new }
    ensures least { IfOk result (TailsLeast base.now (graph_of world.old) locals.now
        (graph_of world.new) first (plain_tails tails.now)) }
    ensures fault { IfErr result (TailsFail base.now (graph_of world.old) locals.now
        (table_of world.new) first from at (plain_tails tails.now)) }
{
    let mut id = first;
    let mut place = from;
    for tail in tails.items() {
        id = check_tail(base, world, locals, id, tail, place)?;
        place = at;
    }
    Ok(id)
}

// An operator after an operand of this type, which stands at this place.
#[cycle(check)]
fn check_tail(
    base: &Base<'_, '_, '_>,
    world: &mut World,
    locals: &[(Name, NodeId)],
    first: NodeId,
    tail: &Tail,
    at: usize,
) -> Result<NodeId, CheckError>
    requires ready { IsReady base.now (graph_of world.old) locals.now }
    requires first { first.0 < length (graph_of world.old) }
    requires sound { TailIsSound (program_of base.now) (names_seen base.now locals.now)
        (plain_tail tail.now) }
    ensures gives { IfOk result (TailGives base.now (graph_of world.old) locals.now
        (graph_of world.new) first (plain_tail tail.now)) }
    ensures after { IsAfter base.now locals.now world.old world.new }
    ensures least { IfOk result (TailLeast base.now (graph_of world.old) locals.now
        (graph_of world.new) first (plain_tail tail.now)) }
    ensures fault { IfErr result (TailFails base.now (graph_of world.old) locals.now
        (table_of world.new) first at (plain_tail tail.now)) }
{
    match tail {
        Tail::Operand(Op::And, expr) => check_short(base, world, locals, first, expr, at, true),
        Tail::Operand(Op::Or, expr) => check_short(base, world, locals, first, expr, at, false),
        Tail::Operand(op, expr) => check_operand(base, world, locals, first, *op, expr, at),
        Tail::Without(label) => match drop_field(base.alloc, world, first, label) {
            Ok(id) => Ok(id),
            Err(stop) => Err(placed(stop, at, at)),
        },
        Tail::Select(label) => match take_field(base.alloc, world, first, label) {
            Ok(id) => Ok(id),
            Err(stop) => Err(placed(stop, at, at)),
        },
    }
}

// An operator between two operands, both of which are met.
#[cycle(check)]
fn check_operand(
    base: &Base<'_, '_, '_>,
    world: &mut World,
    locals: &[(Name, NodeId)],
    first: NodeId,
    op: Op,
    expr: &Expr,
    at: usize,
) -> Result<NodeId, CheckError>
    requires ready { IsReady base.now (graph_of world.old) locals.now }
    requires first { first.0 < length (graph_of world.old) }
    requires sound { IsSound (program_of base.now) (names_seen base.now locals.now)
        (plain expr.now) }
    requires met { IsMet op }
    ensures gives { IfOk result (TailGives base.now (graph_of world.old) locals.now
        (graph_of world.new) first (Operand op (plain expr.now))) }
    ensures after { IsAfter base.now locals.now world.old world.new }
    ensures least { IfOk result (TailLeast base.now (graph_of world.old) locals.now
        (graph_of world.new) first (Operand op (plain expr.now))) }
    ensures fault { IfErr result (TailFails base.now (graph_of world.old) locals.now
        (table_of world.new) first at (Operand op (plain expr.now))) }
{
    let second = check(base, world, locals, expr)?;
    match operate(base.alloc, world, &base.tools, op, first, second) {
        Ok(id) => Ok(id),
        Err(stop) => Err(placed(stop, at, expr.span.from)),
    }
}
