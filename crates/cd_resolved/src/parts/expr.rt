//! The walk over an expression.
ghost use Rattle.std.specs.Prelude.{◌≡◌, OnOk};
ghost use Rattle.cd_program.specs.PlainExpr.{plain, plain_kind};
ghost use Rattle.cd_resolved.specs.Inner.Collecting.{with_expr, with_kind};
ghost use Rattle.cd_resolved.specs.Inner.PlainParts.{plain_parts};

use crate::parts::branches::{walk_let, walk_matching};
use crate::parts::collected::Parts;
use crate::parts::function::walk_inner;
use crate::parts::lists::{walk_chain, walk_exprs, walk_fields, walk_items};
use crate::site_tree::SiteTree;
use cd_program::expr::{Expr, ExprKind};
use std::alloc::AllocError;

/// Adds the functions, the patterns and the sites that stand in an expression.
#[cycle(walk)]
pub(crate) fn walk<'p>(expr: &'p Expr, parts: &mut Parts<'p>) -> Result<(), AllocError>
    ensures { OnOk result (plain_parts parts.new
        ≡ with_expr (plain expr.now) (plain_parts parts.old)) }
{
    walk_kind(&expr.kind, parts)
}

#[cycle(walk)]
fn walk_kind<'p>(kind: &'p ExprKind, parts: &mut Parts<'p>) -> Result<(), AllocError>
    ensures { OnOk result (plain_parts parts.new
        ≡ with_kind (plain_kind kind.now) (plain_parts parts.old)) }
{
    match kind {
        ExprKind::Constant(_) | ExprKind::Variable(_) => Ok(()),
        ExprKind::Tuple(exprs) | ExprKind::Apply(exprs) => walk_exprs(exprs, parts),
        ExprKind::Sequence(items) => walk_items(items, parts),
        ExprKind::Record(fields) => walk_fields(fields, parts),
        ExprKind::Xml(first, second, third) | ExprKind::If(first, second, third) => {
            walk_three(first, second, third, parts)
        }
        ExprKind::Function(function) => walk_inner(function, parts),
        ExprKind::Match(value, branches) | ExprKind::Map(value, branches) => {
            walk_matching(SiteTree::Branches(branches), value, branches, parts)
        }
        ExprKind::Try(value, branches) => {
            walk_matching(SiteTree::Try(branches), value, branches, parts)
        }
        ExprKind::Transform(value, branches) => {
            walk_matching(SiteTree::Transform(branches), value, branches, parts)
        }
        ExprKind::Let(pattern, value, rest) => walk_let(pattern, value, rest, parts),
        ExprKind::Chain(first, tails) => walk_chain(first, tails, parts),
        ExprKind::Call(_, operand) => walk(operand, parts),
    }
}

// Adds those of three expressions in turn.
#[cycle(walk)]
fn walk_three<'p>(
    first: &'p Expr,
    second: &'p Expr,
    third: &'p Expr,
    parts: &mut Parts<'p>,
) -> Result<(), AllocError>
    ensures { OnOk result (plain_parts parts.new
        ≡ with_expr (plain third.now) (with_expr (plain second.now)
        (with_expr (plain first.now) (plain_parts parts.old)))) }
{
    walk(first, parts)?;
    walk(second, parts)?;
    walk(third, parts)
}
