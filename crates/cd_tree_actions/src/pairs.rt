//! What rules of types and patterns make of two parts.
ghost use Rattle.std.specs.Prelude.{◌≡◌, IfOk};
ghost use Rattle.cd_grammar.specs.Parts.{Junk};
ghost use Rattle.cd_tree_actions.specs.TreeMakes as makes;
ghost use Rattle.cd_tree_actions.specs.PlainTreeParts.{plain_tree_part};

use crate::constants::integers;
use crate::names::{file, next_names};
use crate::part::TreePart;
use crate::patterns::nil;
use crate::records::{and_others, next_fields, no_fields};
use crate::regular::{item_regular, next_regular, two_regulars};
use crate::sequences::{empty_sequence, repeated, repeated_item};
use cd_grammar::make::Two;
use cd_syntax::tokens::Span;
use std::alloc::{AllocError, Global};

/// What a rule makes of two parts.
///
/// # Errors
///
/// Want of memory.
pub fn make_of_two<'t>(
    alloc: Global,
    make: Two,
    here: Span,
    a: TreePart<'t>,
    b: TreePart<'t>,
) -> Result<TreePart<'t>, AllocError>
    ensures { IfOk result (λ made. plain_tree_part made
        ≡ makes.made_of_two make here (plain_tree_part a.entry) (plain_tree_part b.entry)) }
{
    match make {
        Two::HalfInterval => integers(alloc, here, a, b),
        Two::AndOthers => Ok(and_others(a, b)),
        Two::NextFields => next_fields(a, b),
        Two::TwoRegulars => two_regulars(alloc, a, b),
        Two::NextRegular => next_regular(a, b),
        Two::ItemRegular => item_regular(alloc, a, b),
        Two::Repeated => repeated(alloc, here, a, b),
        Two::RepeatedItem => repeated_item(alloc, here, a, b),
        Two::NextNames => next_names(a, b),
        _ => {
            drop(a);
            of_second(alloc, make, here, b)
        }
    }
}

// Of two parts of which the first is a token.
fn of_second<'t>(
    alloc: Global,
    make: Two,
    here: Span,
    b: TreePart<'t>,
) -> Result<TreePart<'t>, AllocError>
    ensures { IfOk result (λ made. plain_tree_part made
        ≡ makes.made_of_two make here Junk (plain_tree_part b.entry)) }
{
    match make {
        Two::EmptySequence => empty_sequence(alloc, here, b),
        Two::File => Ok(file(b)),
        _ => {
            drop(b);
            of_none(alloc, make, here)
        }
    }
}

// Of two parts which are tokens.
fn of_none<'t>(alloc: Global, make: Two, here: Span) -> Result<TreePart<'t>, AllocError>
    ensures { IfOk result (λ made. plain_tree_part made ≡ makes.made_of_two make here Junk Junk) }
{
    match make {
        Two::NoFields => no_fields(alloc, here),
        Two::Nil => nil(alloc),
        _ => Ok(TreePart::Junk),
    }
}
