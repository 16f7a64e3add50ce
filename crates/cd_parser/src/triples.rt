//! What rules of programs make of three parts of which one or two are tokens.
ghost use Rattle.std.specs.Prelude.{◌≡◌, IfOk};
ghost use Rattle.cd_parser.specs.PlainParts.{plain_part};
ghost use Rattle.cd_parser.specs.OfPrograms.{of_middle, of_ends};

use crate::exprs::{
    first_operand, first_without, next_expr, next_operand, next_without, tuple_expr, two_exprs,
};
use crate::functions::{branch, next_signatures, signature};
use crate::part::Part;
use crate::selects::source;
use crate::values::{expr_field, next_expr_fields, record_expr, sequence_expr};
use cd_grammar::make::Three;
use cd_syntax::tokens::Span;
use std::alloc::{AllocError, Global};

/// What a rule makes of the middle one, where the first and the last are tokens.
///
/// # Errors
///
/// Want of memory.
pub(crate) fn of_middle<'t>(
    alloc: Global,
    make: Three,
    here: Span,
    b: Part<'t>,
) -> Result<Part<'t>, AllocError>
    ensures { IfOk result (λ made. plain_part made ≡ of_middle make here (plain_part b.entry)) }
{
    match make {
        Three::Between => Ok(b),
        Three::TupleExpr => tuple_expr(alloc, here, b),
        Three::SequenceExpr => sequence_expr(alloc, here, b),
        Three::RecordExpr => record_expr(alloc, here, b),
        _ => {
            drop(b);
            Ok(Part::Junk)
        }
    }
}

/// What a rule makes of the first and the last, where the middle one is a token.
///
/// # Errors
///
/// Want of memory.
pub(crate) fn of_ends<'t>(
    alloc: Global,
    make: Three,
    here: Span,
    a: Part<'t>,
    c: Part<'t>,
) -> Result<Part<'t>, AllocError>
    ensures { IfOk result (λ made. plain_part made
        ≡ of_ends make here (plain_part a.entry) (plain_part c.entry)) }
{
    match make {
        Three::Signature => signature(alloc, a, c),
        Three::SeparateSignatures => next_signatures(a, c),
        Three::Branch => branch(alloc, a, c),
        Three::FirstOperand(op) => first_operand(alloc, op, a, c),
        Three::NextOperand(op) => next_operand(op, a, c),
        Three::FirstWithout => first_without(alloc, a, c),
        Three::NextWithout => next_without(alloc, a, c),
        Three::Source => source(alloc, a, c),
        Three::TwoExprs => two_exprs(alloc, a, c),
        Three::NextExpr => next_expr(a, c),
        Three::ExprField => expr_field(alloc, a, c),
        Three::SeparateExprFields => next_expr_fields(a, c),
        _ => {
            drop(a);
            drop(c);
            Ok(Part::Junk)
        }
    }
}
