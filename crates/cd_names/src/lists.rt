//! The walk over lists of expressions, of items and of operands.
ghost use Rattle.std.specs.Prelude.{◌≡◌, ◌++◌, OnOk};
ghost use Rattle.cd_program.specs.PlainExpr.{plain, plain_exprs, plain_items, plain_item};
ghost use Rattle.cd_program.specs.PlainExpr.{plain_tails, plain_tail};
ghost use Rattle.cd_names.specs.Inner.FindingInPrograms.{found_in_expr, found_in_exprs};
ghost use Rattle.cd_names.specs.Inner.FindingInPrograms.{found_in_items, found_in_item};
ghost use Rattle.cd_names.specs.Inner.FindingInPrograms.{found_in_tails, found_in_tail};
ghost use Rattle.cd_names.specs.Inner.PlainFound.{plain_found};

use crate::base::Base;
use crate::expr::walk;
use crate::found::Found;
use crate::locals::Locals;
use cd_program::expr::{Expr, Exprs, Item, Items, Tail, Tails};
use std::alloc::AllocError;

/// Walks over expressions in turn.
#[cycle(walk)]
pub(crate) fn walk_exprs<'t>(
    base: &Base<'_, 't>,
    exprs: &'t Exprs,
    locals: &mut Locals<'t>,
    found: &mut Found<'t>,
) -> Result<(), AllocError>
    ensures locals { OnOk result (locals.new ≡ locals.old) }
    ensures found { OnOk result (plain_found found.new
        ≡ found_in_exprs (locals.old ++ base.now.functions.now) (plain_exprs exprs.now)
        (plain_found found.old)) }
{
    for expr in exprs.items() {
        walk(base, expr, locals, found)?;
    }
    Ok(())
}

/// Walks over the items of a sequence in turn.
#[cycle(walk)]
pub(crate) fn walk_items<'t>(
    base: &Base<'_, 't>,
    items: &'t Items,
    locals: &mut Locals<'t>,
    found: &mut Found<'t>,
) -> Result<(), AllocError>
    ensures locals { OnOk result (locals.new ≡ locals.old) }
    ensures found { OnOk result (plain_found found.new
        ≡ found_in_items (locals.old ++ base.now.functions.now) (plain_items items.now)
        (plain_found found.old)) }
{
    for item in items.items() {
        walk_item(base, item, locals, found)?;
    }
    Ok(())
}

#[cycle(walk)]
fn walk_item<'t>(
    base: &Base<'_, 't>,
    item: &'t Item,
    locals: &mut Locals<'t>,
    found: &mut Found<'t>,
) -> Result<(), AllocError>
    ensures locals { OnOk result (locals.new ≡ locals.old) }
    ensures found { OnOk result (plain_found found.new
        ≡ found_in_item (locals.old ++ base.now.functions.now) (plain_item item.now)
        (plain_found found.old)) }
{
    match item {
        Item::One(expr) | Item::Splice(expr) => walk(base, expr, locals, found),
        Item::Run(_) => Ok(()),
    }
}

/// Walks over the first operand, and then over those after it.
#[cycle(walk)]
pub(crate) fn walk_chain<'t>(
    base: &Base<'_, 't>,
    first: &'t Expr,
    tails: &'t Tails,
    locals: &mut Locals<'t>,
    found: &mut Found<'t>,
) -> Result<(), AllocError>
    ensures locals { OnOk result (locals.new ≡ locals.old) }
    ensures found { OnOk result (plain_found found.new
        ≡ found_in_tails (locals.old ++ base.now.functions.now) (plain_tails tails.now)
        (found_in_expr (locals.old ++ base.now.functions.now) (plain first.now)
        (plain_found found.old))) }
{
    walk(base, first, locals, found)?;
    walk_tails(base, tails, locals, found)
}

#[cycle(walk)]
fn walk_tails<'t>(
    base: &Base<'_, 't>,
    tails: &'t Tails,
    locals: &mut Locals<'t>,
    found: &mut Found<'t>,
) -> Result<(), AllocError>
    ensures locals { OnOk result (locals.new ≡ locals.old) }
    ensures found { OnOk result (plain_found found.new
        ≡ found_in_tails (locals.old ++ base.now.functions.now) (plain_tails tails.now)
        (plain_found found.old)) }
{
    for tail in tails.items() {
        walk_tail(base, tail, locals, found)?;
    }
    Ok(())
}

#[cycle(walk)]
fn walk_tail<'t>(
    base: &Base<'_, 't>,
    tail: &'t Tail,
    locals: &mut Locals<'t>,
    found: &mut Found<'t>,
) -> Result<(), AllocError>
    ensures locals { OnOk result (locals.new ≡ locals.old) }
    ensures found { OnOk result (plain_found found.new
        ≡ found_in_tail (locals.old ++ base.now.functions.now) (plain_tail tail.now)
        (plain_found found.old)) }
{
    match tail {
        Tail::Operand(_, expr) => walk(base, expr, locals, found),
        Tail::Without(_) | Tail::Select(_) => Ok(()),
    }
}
