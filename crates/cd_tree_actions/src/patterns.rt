//! What stands in patterns alone.
ghost use Rattle.std.specs.Prelude.{◌≡◌, IfOk};
ghost use Rattle.cd_grammar.specs.Actions as actions;
ghost use Rattle.cd_tree_actions.specs.PlainTreeParts.{plain_tree_part};

use crate::part::TreePart;
use crate::taken::{constant_in, regular_of, token_of};
use crate::tree_part::{regular_part, tree_part};
use crate::words::{constant_of, name_of};
use cd_program::pattern;
use cd_syntax::constant::Constant;
use cd_syntax::tokens::Span;
use std::alloc::{AllocError, Global};

/// A variable.
pub(crate) fn variable<'t>(
    alloc: Global,
    here: Span,
    word: TreePart<'t>,
) -> Result<TreePart<'t>, AllocError>
    ensures { IfOk result (λ made.
        plain_tree_part made ≡ actions.variable here (plain_tree_part word.entry)) }
{
    match token_of(word) {
        Some(word) => tree_part(alloc, here, pattern::variable(name_of(alloc, word)?)),
        None => Ok(TreePart::Junk),
    }
}

/// A constant.
pub(crate) fn constant<'t>(alloc: Global, is: TreePart<'t>) -> Result<TreePart<'t>, AllocError>
    ensures { IfOk result (λ made.
        plain_tree_part made ≡ actions.constant (plain_tree_part is.entry)) }
{
    match token_of(is) {
        Some(is) => {
            match constant_of(&is.kind)? {
                Some(it) => Ok(TreePart::Constant(Box::new(alloc, it)?)),
                None => Ok(TreePart::Junk),
            }
        }
        None => Ok(TreePart::Junk),
    }
}

/// The constant that is the empty sequence.
pub(crate) fn nil<'t>(alloc: Global) -> Result<TreePart<'t>, AllocError>
    ensures { IfOk result (λ made. plain_tree_part made ≡ actions.nil) }
{
    Ok(TreePart::Constant(Box::new(alloc, Constant::Nil)?))
}

/// A variable that is a constant.
pub(crate) fn default<'t>(
    alloc: Global,
    here: Span,
    word: TreePart<'t>,
    is: TreePart<'t>,
) -> Result<TreePart<'t>, AllocError>
    ensures { IfOk result (λ made.
        plain_tree_part made ≡ actions.default here (plain_tree_part word.entry)
        (plain_tree_part is.entry)) }
{
    match token_of(word).zip(constant_in(is)) {
        Some((word, is)) => {
            let name = name_of(alloc, word)?;
            tree_part(alloc, here, pattern::default(name, Box::into_inner(is)))
        }
        None => Ok(TreePart::Junk),
    }
}

/// A variable, and the expression whose items it has.
pub(crate) fn capture<'t>(
    alloc: Global,
    here: Span,
    word: TreePart<'t>,
    is: TreePart<'t>,
) -> Result<TreePart<'t>, AllocError>
    ensures { IfOk result (λ made.
        plain_tree_part made ≡ actions.capture here (plain_tree_part word.entry)
        (plain_tree_part is.entry)) }
{
    match token_of(word).zip(regular_of(is)) {
        Some((word, is)) => {
            let name = name_of(alloc, word)?;
            regular_part(alloc, here, pattern::capture(name, is))
        }
        None => Ok(TreePart::Junk),
    }
}
