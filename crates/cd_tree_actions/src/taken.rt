//! What a part of a type or a pattern is, where it is of one kind.
ghost use Rattle.std.specs.Prelude.{◌≡◌, map};
ghost use Rattle.std.specs.Option.{option_map};
ghost use Rattle.cd_syntax.specs.PlainTree.{plain, plain_signed, plain_field, plain_declaration};
ghost use Rattle.cd_syntax.specs.PlainTree.{plain_regular, plain_rest};
ghost use Rattle.cd_grammar.specs.Parts.{token_in, tree_in, trees_in, signs_in, fields_in};
ghost use Rattle.cd_grammar.specs.Parts.{names_in, regular_in, regulars_in, mark_in, constant_in};
ghost use Rattle.cd_tree_actions.specs.PlainTreeParts.{plain_tree_part};

use crate::part::TreePart;
use cd_syntax::constant::Constant;
use cd_syntax::tokens::Token;
use cd_syntax::type_tree::{Declaration, FieldTree, Post, RegTree, Rest, SignedTree, Tree};

/// The token that a part is.
pub fn token_of<'t>(part: TreePart<'t>) -> Option<&'t Token>
    ensures { option_map (λ is. is.now) result ≡ token_in (plain_tree_part part.entry) }
{
    match part {
        TreePart::Token(is) => Some(is),
        other => {
            drop(other);
            None
        }
    }
}

/// The tree that a part is.
pub fn tree_of<'t>(part: TreePart<'t>) -> Option<Box<Tree>>
    ensures { option_map (λ is. plain is.value) result ≡ tree_in (plain_tree_part part.entry) }
{
    match part {
        TreePart::Tree(is) => Some(is),
        other => {
            drop(other);
            None
        }
    }
}

/// The trees that a part is.
pub(crate) fn trees_of<'t>(part: TreePart<'t>) -> Option<Vec<Tree>>
    ensures { option_map (λ all. map plain all.items) result ≡ trees_in
        (plain_tree_part part.entry) }
{
    match part {
        TreePart::Trees(all) => Some(all),
        other => {
            drop(other);
            None
        }
    }
}

/// The tree and those after signs that a part is.
pub(crate) fn signs_of<'t>(part: TreePart<'t>) -> Option<(Box<Tree>, Vec<SignedTree>)>
    ensures { option_map (λ all. (plain all.0.value, map plain_signed all.1.items)) result
        ≡ signs_in (plain_tree_part part.entry) }
{
    match part {
        TreePart::Signs(first, rest) => Some((first, rest)),
        other => {
            drop(other);
            None
        }
    }
}

/// The fields that a part is, and what stands after them.
pub(crate) fn fields_of<'t>(part: TreePart<'t>) -> Option<(Vec<FieldTree>, Rest)>
    ensures { option_map (λ all. (map plain_field all.0.items, plain_rest all.1)) result
        ≡ fields_in (plain_tree_part part.entry) }
{
    match part {
        TreePart::Fields(all, rest) => Some((all, rest)),
        other => {
            drop(other);
            None
        }
    }
}

/// The declarations that a part is.
pub fn names_of<'t>(part: TreePart<'t>) -> Option<Vec<Declaration>>
    ensures { option_map (λ all. map plain_declaration all.items) result
        ≡ names_in (plain_tree_part part.entry) }
{
    match part {
        TreePart::Names(all) => Some(all),
        other => {
            drop(other);
            None
        }
    }
}

/// The expression of sequences that a part is.
pub(crate) fn regular_of<'t>(part: TreePart<'t>) -> Option<Box<RegTree>>
    ensures { option_map (λ is. plain_regular is.value) result
        ≡ regular_in (plain_tree_part part.entry) }
{
    match part {
        TreePart::Regular(is) => Some(is),
        other => {
            drop(other);
            None
        }
    }
}

/// The row of expressions of sequences that a part is.
pub(crate) fn regulars_of<'t>(part: TreePart<'t>) -> Option<Vec<RegTree>>
    ensures { option_map (λ all. map plain_regular all.items) result
        ≡ regulars_in (plain_tree_part part.entry) }
{
    match part {
        TreePart::Regulars(all) => Some(all),
        other => {
            drop(other);
            None
        }
    }
}

/// The sign after an expression of sequences that a part is.
pub(crate) fn mark_of<'t>(part: TreePart<'t>) -> Option<Post>
    ensures { result ≡ mark_in (plain_tree_part part.entry) }
{
    match part {
        TreePart::Mark(mark) => Some(mark),
        other => {
            drop(other);
            None
        }
    }
}

/// The constant that a part is.
pub(crate) fn constant_in<'t>(part: TreePart<'t>) -> Option<Box<Constant>>
    ensures { option_map (λ is. is.value) result ≡ constant_in (plain_tree_part part.entry) }
{
    match part {
        TreePart::Constant(is) => Some(is),
        other => {
            drop(other);
            None
        }
    }
}
