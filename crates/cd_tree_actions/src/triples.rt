//! What rules of types and patterns make of three parts.
ghost use Rattle.std.specs.Prelude.{◌≡◌, IfOk};
ghost use Rattle.cd_grammar.specs.Parts.{Junk};
ghost use Rattle.cd_tree_actions.specs.TreeMakes as makes;
ghost use Rattle.cd_tree_actions.specs.PlainTreeParts.{plain_tree_part};

use crate::constants::{characters, integers};
use crate::names::{name, next_names};
use crate::part::TreePart;
use crate::patterns::capture;
use crate::records::{and_others, field, fields, next_fields, typed_others};
use crate::regular::{
    item_regular, items_or, next_regular, or_item, regular_or_item, two_regulars,
};
use crate::sequences::sequence;
use crate::trees::{before_trees, first_sign, next_sign, next_tree, tuple, two_trees, where_names};
use cd_grammar::make::Three;
use cd_syntax::tokens::Span;
use std::alloc::{AllocError, Global};

/// What a rule makes of three parts.
///
/// # Errors
///
/// Want of memory.
pub fn make_of_three<'t>(
    alloc: Global,
    make: Three,
    here: Span,
    a: TreePart<'t>,
    b: TreePart<'t>,
    c: TreePart<'t>,
) -> Result<TreePart<'t>, AllocError>
    ensures { IfOk result (λ made.
        plain_tree_part made ≡ makes.made_of_three make here (plain_tree_part a.entry)
        (plain_tree_part b.entry) (plain_tree_part c.entry)) }
{
    match make {
        Three::Tuple | Three::Record | Three::Sequence => {
            drop(a);
            drop(c);
            of_middle(alloc, make, here, b)
        }
        _ => {
            drop(b);
            of_ends(alloc, make, here, a, c)
        }
    }
}

// Of three parts of which the first and the last are tokens.
fn of_middle<'t>(
    alloc: Global,
    make: Three,
    here: Span,
    b: TreePart<'t>,
) -> Result<TreePart<'t>, AllocError>
    ensures { IfOk result (λ made. plain_tree_part made
        ≡ makes.made_of_three make here Junk (plain_tree_part b.entry) Junk) }
{
    match make {
        Three::Tuple => tuple(alloc, here, b),
        Three::Record => fields(alloc, here, b),
        Three::Sequence => sequence(alloc, here, b),
        _ => {
            drop(b);
            Ok(TreePart::Junk)
        }
    }
}

// Of three parts of which the middle one is a token.
fn of_ends<'t>(
    alloc: Global,
    make: Three,
    here: Span,
    a: TreePart<'t>,
    c: TreePart<'t>,
) -> Result<TreePart<'t>, AllocError>
    ensures { IfOk result (λ made. plain_tree_part made
        ≡ makes.made_of_three make here (plain_tree_part a.entry) Junk
        (plain_tree_part c.entry)) }
{
    match make {
        Three::TwoTrees => two_trees(alloc, a, c),
        Three::NextTree => next_tree(a, c),
        Three::BeforeTrees => before_trees(a, c),
        Three::FirstSign(kept) => first_sign(alloc, kept, a, c),
        Three::NextSign(kept) => next_sign(kept, a, c),
        Three::Interval => integers(alloc, here, a, c),
        Three::Characters => characters(alloc, here, a, c),
        Three::Name => name(alloc, a, c),
        Three::AndNames => next_names(a, c),
        Three::Where => where_names(alloc, here, a, c),
        Three::Field(optional) => field(alloc, optional, a, c),
        Three::SeparateFields => next_fields(a, c),
        Three::SeparateOthers => Ok(and_others(a, c)),
        Three::TypedOthers => {
            drop(a);
            Ok(typed_others(alloc, c))
        }
        Three::EitherRegular => two_regulars(alloc, a, c),
        Three::OrRegular => next_regular(a, c),
        Three::OrItem => or_item(a, c),
        Three::RegularOrItem => regular_or_item(alloc, a, c),
        Three::ItemOrRegular => item_regular(alloc, a, c),
        Three::ItemsOrRegular => items_or(alloc, a, c),
        Three::Capture => capture(alloc, here, a, c),
        _ => {
            drop(a);
            drop(c);
            Ok(TreePart::Junk)
        }
    }
}
