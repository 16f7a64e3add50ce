//! The walk over an expression.
ghost use Rattle.std.specs.Prelude.{◌≡◌, ◌++◌, OnOk};
ghost use Rattle.cd_program.specs.PlainExpr.{plain, plain_kind};
ghost use Rattle.cd_names.specs.ProgramFaults.{is_seen};
ghost use Rattle.cd_names.specs.Inner.FindingInPrograms.{found_in_expr, found_in_kind};
ghost use Rattle.cd_names.specs.Inner.PlainFound.{plain_found};

use crate::base::Base;
use crate::branches::{walk_let, walk_matching};
use crate::found::Found;
use crate::function::walk_function;
use crate::lists::{walk_chain, walk_exprs, walk_items};
use crate::locals::Locals;
use crate::record::walk_record;
use cd_program::expr::{Expr, ExprKind};
use cd_syntax::name::Name;
use std::alloc::AllocError;

/// Walks over an expression, which sees these variables and all functions.
#[cycle(walk)]
pub(crate) fn walk<'t>(
    base: &Base<'_, 't>,
    expr: &'t Expr,
    locals: &mut Locals<'t>,
    found: &mut Found<'t>,
) -> Result<(), AllocError>
    ensures locals { OnOk result (locals.new ≡ locals.old) }
    ensures found { OnOk result (plain_found found.new
        ≡ found_in_expr (locals.old ++ base.now.functions.now) (plain expr.now)
        (plain_found found.old)) }
{
    walk_kind(base, &expr.kind, expr.span.from, locals, found)
}

// Walks over what an expression is, which stands at this place in the text.
#[cycle(walk)]
fn walk_kind<'t>(
    base: &Base<'_, 't>,
    kind: &'t ExprKind,
    at: usize,
    locals: &mut Locals<'t>,
    found: &mut Found<'t>,
) -> Result<(), AllocError>
    ensures locals { OnOk result (locals.new ≡ locals.old) }
    ensures found { OnOk result (plain_found found.new
        ≡ found_in_kind (locals.old ++ base.now.functions.now) at (plain_kind kind.now)
        (plain_found found.old)) }
{
    match kind {
        ExprKind::Constant(_) => Ok(()),
        ExprKind::Variable(name) => found.meet(is_seen_here(base, locals, name), name, at),
        ExprKind::Tuple(exprs) | ExprKind::Apply(exprs) => walk_exprs(base, exprs, locals, found),
        ExprKind::Sequence(items) => walk_items(base, items, locals, found),
        ExprKind::Record(fields) => walk_record(base, fields, locals, found),
        ExprKind::Xml(first, second, third) | ExprKind::If(first, second, third) => {
            walk_three(base, first, second, third, locals, found)
        }
        ExprKind::Function(function) => walk_function(base, function, locals, found),
        ExprKind::Match(value, branches)
        | ExprKind::Try(value, branches)
        | ExprKind::Map(value, branches)
        | ExprKind::Transform(value, branches) => {
            walk_matching(base, value, branches, locals, found)
        }
        ExprKind::Let(pattern, value, rest) => walk_let(base, pattern, value, rest, locals, found),
        ExprKind::Chain(first, tails) => walk_chain(base, first, tails, locals, found),
        ExprKind::Call(_, operand) => walk(base, operand, locals, found),
    }
}

// Whether a variable or a function has this name.
fn is_seen_here(base: &Base<'_, '_>, locals: &Locals<'_>, name: &Name) -> bool
    ensures { result ≡ is_seen (locals.now ++ base.now.functions.now) name.now }
{
    base.functions.find(name).is_some() || locals.has(name)
}

// Walks over three expressions in turn.
#[cycle(walk)]
fn walk_three<'t>(
    base: &Base<'_, 't>,
    first: &'t Expr,
    second: &'t Expr,
    third: &'t Expr,
    locals: &mut Locals<'t>,
    found: &mut Found<'t>,
) -> Result<(), AllocError>
    ensures locals { OnOk result (locals.new ≡ locals.old) }
    ensures found { OnOk result (plain_found found.new
        ≡ found_in_expr (locals.old ++ base.now.functions.now) (plain third.now)
        (found_in_expr (locals.old ++ base.now.functions.now) (plain second.now)
        (found_in_expr (locals.old ++ base.now.functions.now) (plain first.now)
        (plain_found found.old)))) }
{
    walk(base, first, locals, found)?;
    walk(base, second, locals, found)?;
    walk(base, third, locals, found)
}
