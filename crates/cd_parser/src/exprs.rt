//! Constants, variables, rows, operators and calls.
ghost use Rattle.std.specs.Prelude.{◌≡◌, IfOk};
ghost use Rattle.cd_grammar.specs.ProgramActions as actions;
ghost use Rattle.cd_parser.specs.PlainParts.{plain_part};

use crate::expr_part::expr_part;
use crate::part::Part;
use crate::program_taken::{chain_of, expr_of, exprs_of};
use crate::taken::token_of;
use cd_program::expr::{ExprKind, Tail};
use cd_program::operator::{BuiltIn, Op};
use cd_syntax::tokens::Span;
use cd_tree_actions::rows::{added, row_of, row_of_two};
use cd_tree_actions::words::{constant_of, name_of};
use std::alloc::{AllocError, Global};

/// A constant.
pub(crate) fn constant_expr<'t>(
    alloc: Global,
    here: Span,
    is: Part<'t>,
) -> Result<Part<'t>, AllocError>
    ensures { IfOk result (λ made.
        plain_part made ≡ actions.constant_expr here (plain_part is.entry)) }
{
    match token_of(is) {
        Some(is) => {
            match constant_of(&is.kind)? {
                Some(it) => expr_part(alloc, here, ExprKind::constant(it)),
                None => Ok(Part::Junk),
            }
        }
        None => Ok(Part::Junk),
    }
}

/// A variable.
pub(crate) fn variable_expr<'t>(
    alloc: Global,
    here: Span,
    word: Part<'t>,
) -> Result<Part<'t>, AllocError>
    ensures { IfOk result (λ made.
        plain_part made ≡ actions.variable_expr here (plain_part word.entry)) }
{
    match token_of(word) {
        Some(word) => expr_part(alloc, here, ExprKind::variable(name_of(alloc, word)?)),
        None => Ok(Part::Junk),
    }
}

/// A row of two expressions.
pub(crate) fn two_exprs<'t>(
    alloc: Global,
    first: Part<'t>,
    second: Part<'t>,
) -> Result<Part<'t>, AllocError>
    ensures { IfOk result (λ made.
        plain_part made ≡ actions.two_exprs (plain_part first.entry) (plain_part second.entry)) }
{
    match expr_of(first).zip(expr_of(second)) {
        Some((first, second)) => Ok(Part::Exprs(row_of_two(alloc, first, second)?)),
        None => Ok(Part::Junk),
    }
}

/// A row, and an expression after it.
pub(crate) fn next_expr<'t>(row: Part<'t>, is: Part<'t>) -> Result<Part<'t>, AllocError>
    ensures { IfOk result (λ made.
        plain_part made ≡ actions.next_expr (plain_part row.entry) (plain_part is.entry)) }
{
    match exprs_of(row).zip(expr_of(is)) {
        Some((row, is)) => Ok(Part::Exprs(added(row, Box::into_inner(is))?)),
        None => Ok(Part::Junk),
    }
}

/// The first of a row applied to the others.
pub(crate) fn apply<'t>(alloc: Global, here: Span, row: Part<'t>) -> Result<Part<'t>, AllocError>
    ensures { IfOk result (λ made. plain_part made ≡ actions.apply here (plain_part row.entry)) }
{
    match exprs_of(row) {
        Some(row) => expr_part(alloc, here, ExprKind::apply(row)),
        None => Ok(Part::Junk),
    }
}

/// The tuple of a row.
pub(crate) fn tuple_expr<'t>(
    alloc: Global,
    here: Span,
    row: Part<'t>,
) -> Result<Part<'t>, AllocError>
    ensures { IfOk result (λ made.
        plain_part made ≡ actions.tuple_expr here (plain_part row.entry)) }
{
    match exprs_of(row) {
        Some(row) => expr_part(alloc, here, ExprKind::tuple(row)),
        None => Ok(Part::Junk),
    }
}

/// An operator between its first two operands.
pub(crate) fn first_operand<'t>(
    alloc: Global,
    op: Op,
    first: Part<'t>,
    second: Part<'t>,
) -> Result<Part<'t>, AllocError>
    ensures { IfOk result (λ made.
        plain_part made ≡ actions.first_operand op (plain_part first.entry)
        (plain_part second.entry)) }
{
    match expr_of(first).zip(expr_of(second)) {
        Some((first, second)) => Ok(Part::Chain(first, row_of(alloc, Tail::operand(op, second))?)),
        None => Ok(Part::Junk),
    }
}

/// A further operator with its right side.
pub(crate) fn next_operand<'t>(
    op: Op,
    chain: Part<'t>,
    is: Part<'t>,
) -> Result<Part<'t>, AllocError>
    ensures { IfOk result (λ made.
        plain_part made ≡ actions.next_operand op (plain_part chain.entry) (plain_part is.entry)) }
{
    match chain_of(chain).zip(expr_of(is)) {
        Some((chain, is)) => {
            let (first, rest) = chain;
            Ok(Part::Chain(first, added(rest, Tail::operand(op, is))?))
        }
        None => Ok(Part::Junk),
    }
}

/// A record without a field.
pub(crate) fn first_without<'t>(
    alloc: Global,
    first: Part<'t>,
    label: Part<'t>,
) -> Result<Part<'t>, AllocError>
    ensures { IfOk result (λ made.
        plain_part made ≡ actions.first_without (plain_part first.entry)
        (plain_part label.entry)) }
{
    match expr_of(first).zip(token_of(label)) {
        Some((first, label)) => {
            let tail = Tail::without(name_of(alloc, label)?);
            Ok(Part::Chain(first, row_of(alloc, tail)?))
        }
        None => Ok(Part::Junk),
    }
}

/// The same after further operators.
pub(crate) fn next_without<'t>(
    alloc: Global,
    chain: Part<'t>,
    label: Part<'t>,
) -> Result<Part<'t>, AllocError>
    ensures { IfOk result (λ made.
        plain_part made ≡ actions.next_without (plain_part chain.entry) (plain_part label.entry)) }
{
    match chain_of(chain).zip(token_of(label)) {
        Some((chain, label)) => {
            let (first, rest) = chain;
            let tail = Tail::without(name_of(alloc, label)?);
            Ok(Part::Chain(first, added(rest, tail)?))
        }
        None => Ok(Part::Junk),
    }
}

/// Operators of one level after their first operand.
pub(crate) fn chain<'t>(alloc: Global, here: Span, is: Part<'t>) -> Result<Part<'t>, AllocError>
    ensures { IfOk result (λ made. plain_part made ≡ actions.chain here (plain_part is.entry)) }
{
    match chain_of(is) {
        Some(is) => {
            let (first, rest) = is;
            expr_part(alloc, here, ExprKind::chain(first, rest))
        }
        None => Ok(Part::Junk),
    }
}

/// A word before its operand.
pub(crate) fn call<'t>(
    alloc: Global,
    word: BuiltIn,
    here: Span,
    is: Part<'t>,
) -> Result<Part<'t>, AllocError>
    ensures { IfOk result (λ made.
        plain_part made ≡ actions.call word here (plain_part is.entry)) }
{
    match expr_of(is) {
        Some(is) => expr_part(alloc, here, ExprKind::call(word, is)),
        None => Ok(Part::Junk),
    }
}
