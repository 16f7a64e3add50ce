//! The types of expressions.
ghost use Rattle.std.specs.Prelude.{IfOk, IfErr};
ghost use Rattle.cd_program.specs.Expr.{Call};
ghost use Rattle.cd_program.specs.PlainExpr.{plain, plain_kind};
ghost use Rattle.cd_empty.specs.Seen.{graph_of, table_of};
ghost use Rattle.cd_check.specs.Inner.Failing.{ExprFails, KindFails, FormFails};
ghost use Rattle.cd_check.specs.Inner.Giving.{ExprGives, KindGives};
ghost use Rattle.cd_check.specs.Inner.LeastNodes.{ExprLeast, KindLeast};
ghost use Rattle.cd_check.specs.Inner.Ready.{IsReady, IsAfter, program_of, names_seen};
ghost use Rattle.cd_check.specs.Inner.SoundNames.{IsSound, KindIsSound};

use crate::base::Base;
use crate::branches::{check_let, check_map, check_match, check_transform, check_try};
use crate::chain::{check_apply, check_chain};
use crate::constant::constant_node;
use crate::fault::{CheckError, placed};
use crate::function::check_function;
use crate::operands::{check_record, check_sequence, check_tuple, check_xml};
use crate::test::check_if;
use crate::variable::find;
use cd_empty::World;
use cd_operators::call;
use cd_program::expr::{Expr, ExprKind};
use cd_program::operator::BuiltIn;
use cd_sets::node_id::NodeId;
use cd_syntax::name::Name;

/// The node of the type of an expression.
#[cycle(check)]
pub(crate) fn check(
    base: &Base<'_, '_, '_>,
    world: &mut World,
    locals: &[(Name, NodeId)],
    expr: &Expr,
) -> Result<NodeId, CheckError>
    requires ready { IsReady base.now (graph_of world.old) locals.now }
    requires sound { IsSound (program_of base.now) (names_seen base.now locals.now)
        (plain expr.now) }
    ensures gives { IfOk result (ExprGives base.now (graph_of world.old) locals.now
        (graph_of world.new) (plain expr.now)) }
    ensures after { IsAfter base.now locals.now world.old world.new }
    ensures least { IfOk result (ExprLeast base.now (graph_of world.old) locals.now
        (graph_of world.new) (plain expr.now)) }
    ensures fault { IfErr result (ExprFails base.now (graph_of world.old) locals.now
        (table_of world.new) (plain expr.now)) }
{
    check_kind(base, world, locals, &expr.kind, expr.span.from)
}

// That of what an expression is, which stands at this place.
#[cycle(check)]
fn check_kind(
    base: &Base<'_, '_, '_>,
    world: &mut World,
    locals: &[(Name, NodeId)],
    kind: &ExprKind,
    at: usize,
) -> Result<NodeId, CheckError>
    requires ready { IsReady base.now (graph_of world.old) locals.now }
    requires sound { KindIsSound (program_of base.now) (names_seen base.now locals.now)
        (plain_kind kind.now) }
    ensures gives { IfOk result (KindGives base.now (graph_of world.old) locals.now
        (graph_of world.new) (plain_kind kind.now)) }
    ensures after { IsAfter base.now locals.now world.old world.new }
    ensures least { IfOk result (KindLeast base.now (graph_of world.old) locals.now
        (graph_of world.new) (plain_kind kind.now)) }
    ensures fault { IfErr result (KindFails base.now (graph_of world.old) locals.now
        (table_of world.new) at (plain_kind kind.now)) }
{
    match kind {
        ExprKind::Constant(is) => Ok(constant_node(base.alloc, world, is)?),
        ExprKind::Variable(name) => match find(base, locals, name) {
            Some(id) => Ok(id),
            None => unreachable!(),
        },
        ExprKind::Tuple(exprs) => check_tuple(base, world, locals, exprs),
        ExprKind::Sequence(items) => check_sequence(base, world, locals, items),
        ExprKind::Record(fields) => check_record(base, world, locals, fields),
        ExprKind::Xml(tag, attributes, content) => {
            check_xml(base, world, locals, tag, attributes, content)
        }
        ExprKind::Function(function) => check_function(base, world, locals, function),
        ExprKind::Apply(exprs) => check_apply(base, world, locals, exprs, at),
        ExprKind::Match(value, branches) => check_match(base, world, locals, value, branches, at),
        ExprKind::Try(body, branches) => check_try(base, world, locals, body, branches),
        ExprKind::Map(value, branches) => check_map(base, world, locals, value, branches, at),
        ExprKind::Transform(value, branches) => {
            check_transform(base, world, locals, value, branches)
        }
        ExprKind::Let(pattern, value, rest) => {
            check_let(base, world, locals, pattern, value, rest, at)
        }
        ExprKind::If(condition, then_one, else_one) => {
            check_if(base, world, locals, condition, then_one, else_one)
        }
        ExprKind::Chain(first, tails) => check_chain(base, world, locals, first, tails, at),
        ExprKind::Call(word, operand) => check_call(base, world, locals, *word, operand),
    }
}

// A word before an operand.
#[cycle(check)]
fn check_call(
    base: &Base<'_, '_, '_>,
    world: &mut World,
    locals: &[(Name, NodeId)],
    word: BuiltIn,
    operand: &Expr,
) -> Result<NodeId, CheckError>
    requires ready { IsReady base.now (graph_of world.old) locals.now }
    requires sound { IsSound (program_of base.now) (names_seen base.now locals.now)
        (plain operand.now) }
    ensures gives { IfOk result (KindGives base.now (graph_of world.old) locals.now
        (graph_of world.new) (Call word (plain operand.now))) }
    ensures after { IsAfter base.now locals.now world.old world.new }
    ensures least { IfOk result (KindLeast base.now (graph_of world.old) locals.now
        (graph_of world.new) (Call word (plain operand.now))) }
    ensures fault { IfErr result (FormFails base.now (graph_of world.old) locals.now
        (table_of world.new) (Call word (plain operand.now))) }
{
    let id = check(base, world, locals, operand)?;
    let at = operand.span.from;
    match call(base.alloc, world, &base.tools, word, id) {
        Ok(result) => Ok(result),
        Err(stop) => Err(placed(stop, at, at)),
    }
}
