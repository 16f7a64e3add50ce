//! Parts that are expressions.
ghost use Rattle.std.specs.Prelude.{◌≡◌, IfOk};
ghost use Rattle.cd_program.specs.Expr.{expr};
ghost use Rattle.cd_program.specs.PlainExpr.{plain_kind};
ghost use Rattle.cd_grammar.specs.Parts.{AnExpr};
ghost use Rattle.cd_parser.specs.PlainParts.{plain_part};

use crate::part::Part;
use cd_program::expr::{Expr, ExprKind};
use cd_syntax::tokens::Span;
use std::alloc::{AllocError, Global};

/// An expression of this kind.
pub(crate) fn expr_part<'t>(
    alloc: Global,
    here: Span,
    kind: ExprKind,
) -> Result<Part<'t>, AllocError>
    ensures { IfOk result (λ made. plain_part made ≡ AnExpr (expr here (plain_kind kind))) }
{
    Ok(Part::Expr(Box::new(alloc, Expr::new(here, kind))?))
}
