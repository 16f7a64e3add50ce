//! The walk over lists of expressions, of items, of fields and of operands.
ghost use Rattle.std.specs.Prelude.{◌≡◌, [], ◌∷◌, OnOk};
ghost use Rattle.cd_program.specs.Expr.{fields_of};
ghost use Rattle.cd_program.specs.PlainExpr.{plain, plain_exprs, plain_items, plain_item};
ghost use Rattle.cd_program.specs.PlainExpr.{plain_field, plain_fields, plain_tails, plain_tail};
ghost use Rattle.cd_resolved.specs.Inner.Collecting.{with_expr, with_exprs, with_items, with_item};
ghost use Rattle.cd_resolved.specs.Inner.Collecting.{with_fields, with_tails, with_tail};
ghost use Rattle.cd_resolved.specs.Inner.PlainParts.{plain_parts};

use crate::parts::collected::Parts;
use crate::parts::expr::walk;
use cd_program::expr::{Expr, Exprs, FieldExpr, FieldExprs, Item, Items, Tail, Tails};
use std::alloc::AllocError;

/// Adds those of expressions in turn.
#[cycle(walk)]
pub(crate) fn walk_exprs<'p>(exprs: &'p Exprs, parts: &mut Parts<'p>) -> Result<(), AllocError>
    ensures { OnOk result (plain_parts parts.new
        ≡ with_exprs (plain_exprs exprs.now) (plain_parts parts.old)) }
{
    for expr in exprs.items() {
        walk(expr, parts)?;
    }
    Ok(())
}

/// Adds those of items in turn.
#[cycle(walk)]
pub(crate) fn walk_items<'p>(items: &'p Items, parts: &mut Parts<'p>) -> Result<(), AllocError>
    ensures { OnOk result (plain_parts parts.new
        ≡ with_items (plain_items items.now) (plain_parts parts.old)) }
{
    for item in items.items() {
        walk_item(item, parts)?;
    }
    Ok(())
}

#[cycle(walk)]
fn walk_item<'p>(item: &'p Item, parts: &mut Parts<'p>) -> Result<(), AllocError>
    ensures { OnOk result (plain_parts parts.new
        ≡ with_item (plain_item item.now) (plain_parts parts.old)) }
{
    match item {
        Item::One(expr) | Item::Splice(expr) => walk(expr, parts),
        Item::Run(_) => Ok(()),
    }
}

/// Adds those of fields in turn.
#[cycle(walk)]
pub(crate) fn walk_fields<'p>(
    fields: &'p FieldExprs,
    parts: &mut Parts<'p>,
) -> Result<(), AllocError>
    ensures { OnOk result (plain_parts parts.new
        ≡ with_fields (plain_fields fields.now) (plain_parts parts.old)) }
{
    for field in fields.items() {
        walk_field(field, parts)?;
    }
    Ok(())
}

#[cycle(walk)]
fn walk_field<'p>(field: &'p FieldExpr, parts: &mut Parts<'p>) -> Result<(), AllocError>
    ensures { OnOk result (plain_parts parts.new
        ≡ with_fields (fields_of (plain_field field.now ∷ [])) (plain_parts parts.old)) }
{
    walk(&field.expr, parts)
}

/// Adds those of the first operand, and then of those after it.
#[cycle(walk)]
pub(crate) fn walk_chain<'p>(
    first: &'p Expr,
    tails: &'p Tails,
    parts: &mut Parts<'p>,
) -> Result<(), AllocError>
    ensures { OnOk result (plain_parts parts.new
        ≡ with_tails (plain_tails tails.now)
        (with_expr (plain first.now) (plain_parts parts.old))) }
{
    walk(first, parts)?;
    walk_tails(tails, parts)
}

#[cycle(walk)]
fn walk_tails<'p>(tails: &'p Tails, parts: &mut Parts<'p>) -> Result<(), AllocError>
    ensures { OnOk result (plain_parts parts.new
        ≡ with_tails (plain_tails tails.now) (plain_parts parts.old)) }
{
    for tail in tails.items() {
        walk_tail(tail, parts)?;
    }
    Ok(())
}

#[cycle(walk)]
fn walk_tail<'p>(tail: &'p Tail, parts: &mut Parts<'p>) -> Result<(), AllocError>
    ensures { OnOk result (plain_parts parts.new
        ≡ with_tail (plain_tail tail.now) (plain_parts parts.old)) }
{
    match tail {
        Tail::Operand(_, expr) => walk(expr, parts),
        Tail::Without(_) | Tail::Select(_) => Ok(()),
    }
}
