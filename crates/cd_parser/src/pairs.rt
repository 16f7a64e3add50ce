//! What rules of programs make of two parts of which the first is a token.
ghost use Rattle.std.specs.Prelude.{◌≡◌, IfOk};
ghost use Rattle.cd_parser.specs.PlainParts.{plain_part};
ghost use Rattle.cd_parser.specs.OfPrograms.{of_second};

use crate::exprs::call;
use crate::part::Part;
use crate::paths::field_step;
use crate::values::{no_expr_fields, no_items, splice};
use cd_grammar::make::Two;
use cd_syntax::tokens::Span;
use std::alloc::{AllocError, Global};

/// What a rule makes of the second of them.
///
/// # Errors
///
/// Want of memory.
pub(crate) fn of_second<'t>(
    alloc: Global,
    make: Two,
    here: Span,
    b: Part<'t>,
) -> Result<Part<'t>, AllocError>
    ensures { IfOk result (λ made. plain_part made ≡ of_second make here (plain_part b.entry)) }
{
    match make {
        Two::Second => Ok(b),
        Two::Call(word) => call(alloc, word, here, b),
        Two::Splice => splice(alloc, b),
        Two::FieldStep => field_step(alloc, b),
        Two::NoItems => {
            drop(b);
            no_items(alloc, here)
        }
        Two::NoExprFields => {
            drop(b);
            no_expr_fields(alloc, here)
        }
        _ => {
            drop(b);
            Ok(Part::Junk)
        }
    }
}
