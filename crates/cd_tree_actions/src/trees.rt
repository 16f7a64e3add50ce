//! Rows of trees, trees with signs, and the trees of chains.
ghost use Rattle.std.specs.Prelude.{◌≡◌, IfOk};
ghost use Rattle.cd_grammar.specs.Actions as actions;
ghost use Rattle.cd_tree_actions.specs.PlainTreeParts.{plain_tree_part};

use crate::part::TreePart;
use crate::rows::{added, in_front, row_of, row_of_two};
use crate::taken::{names_of, signs_of, tree_of, trees_of};
use crate::tree_part::tree_part;
use cd_syntax::tokens::Span;
use cd_syntax::type_tree::{SignedTree, TreeKind};
use std::alloc::{AllocError, Global};

/// A row of two trees.
pub(crate) fn two_trees<'t>(
    alloc: Global,
    first: TreePart<'t>,
    second: TreePart<'t>,
) -> Result<TreePart<'t>, AllocError>
    ensures { IfOk result (λ made.
        plain_tree_part made ≡ actions.two_trees (plain_tree_part first.entry)
        (plain_tree_part second.entry)) }
{
    match tree_of(first).zip(tree_of(second)) {
        Some((first, second)) => Ok(TreePart::Trees(row_of_two(alloc, first, second)?)),
        None => Ok(TreePart::Junk),
    }
}

/// A row, and a tree after it.
pub(crate) fn next_tree<'t>(row: TreePart<'t>, is: TreePart<'t>) -> Result<TreePart<'t>, AllocError>
    ensures { IfOk result (λ made.
        plain_tree_part made ≡ actions.next_tree (plain_tree_part row.entry)
        (plain_tree_part is.entry)) }
{
    match trees_of(row).zip(tree_of(is)) {
        Some((row, is)) => Ok(TreePart::Trees(added(row, Box::into_inner(is))?)),
        None => Ok(TreePart::Junk),
    }
}

/// A tree, and a row after it.
pub(crate) fn before_trees<'t>(
    is: TreePart<'t>,
    row: TreePart<'t>,
) -> Result<TreePart<'t>, AllocError>
    ensures { IfOk result (λ made.
        plain_tree_part made ≡ actions.before_trees (plain_tree_part is.entry)
        (plain_tree_part row.entry)) }
{
    match tree_of(is).zip(trees_of(row)) {
        Some((is, row)) => Ok(TreePart::Trees(in_front(Box::into_inner(is), row)?)),
        None => Ok(TreePart::Junk),
    }
}

/// The union of a row.
pub(crate) fn union<'t>(
    alloc: Global,
    here: Span,
    row: TreePart<'t>,
) -> Result<TreePart<'t>, AllocError>
    ensures { IfOk result (λ made.
        plain_tree_part made ≡ actions.union here (plain_tree_part row.entry)) }
{
    match trees_of(row) {
        Some(row) => tree_part(alloc, here, TreeKind::union(row)),
        None => Ok(TreePart::Junk),
    }
}

/// The arrows between the trees of a row.
pub(crate) fn arrows<'t>(
    alloc: Global,
    here: Span,
    row: TreePart<'t>,
) -> Result<TreePart<'t>, AllocError>
    ensures { IfOk result (λ made.
        plain_tree_part made ≡ actions.arrows here (plain_tree_part row.entry)) }
{
    match trees_of(row) {
        Some(row) => tree_part(alloc, here, TreeKind::arrows(row)),
        None => Ok(TreePart::Junk),
    }
}

/// The tuple of a row.
pub(crate) fn tuple<'t>(
    alloc: Global,
    here: Span,
    row: TreePart<'t>,
) -> Result<TreePart<'t>, AllocError>
    ensures { IfOk result (λ made.
        plain_tree_part made ≡ actions.tuple here (plain_tree_part row.entry)) }
{
    match trees_of(row) {
        Some(row) => tree_part(alloc, here, TreeKind::tuple(row)),
        None => Ok(TreePart::Junk),
    }
}

/// A tree, and one after `&`, or with false after `\`.
pub(crate) fn first_sign<'t>(
    alloc: Global,
    kept: bool,
    first: TreePart<'t>,
    second: TreePart<'t>,
) -> Result<TreePart<'t>, AllocError>
    ensures { IfOk result (λ made.
        plain_tree_part made ≡ actions.first_sign kept (plain_tree_part first.entry)
        (plain_tree_part second.entry)) }
{
    match tree_of(first).zip(tree_of(second)) {
        Some((first, second)) => {
            let signed = SignedTree::new(kept, Box::into_inner(second));
            Ok(TreePart::Signs(first, row_of(alloc, signed)?))
        }
        None => Ok(TreePart::Junk),
    }
}

/// A further tree after `&`, or with false after `\`.
pub(crate) fn next_sign<'t>(
    kept: bool,
    signs: TreePart<'t>,
    is: TreePart<'t>,
) -> Result<TreePart<'t>, AllocError>
    ensures { IfOk result (λ made.
        plain_tree_part made ≡ actions.next_sign kept (plain_tree_part signs.entry)
        (plain_tree_part is.entry)) }
{
    match signs_of(signs).zip(tree_of(is)) {
        Some((signs, is)) => {
            let (first, rest) = signs;
            let signed = SignedTree::new(kept, Box::into_inner(is));
            Ok(TreePart::Signs(first, added(rest, signed)?))
        }
        None => Ok(TreePart::Junk),
    }
}

/// What is left of a tree by those after the signs.
pub(crate) fn meet<'t>(
    alloc: Global,
    here: Span,
    signs: TreePart<'t>,
) -> Result<TreePart<'t>, AllocError>
    ensures { IfOk result (λ made.
        plain_tree_part made ≡ actions.meet here (plain_tree_part signs.entry)) }
{
    match signs_of(signs) {
        Some(signs) => {
            let (first, rest) = signs;
            tree_part(alloc, here, TreeKind::meet(first, rest))
        }
        None => Ok(TreePart::Junk),
    }
}

/// A tree under its declarations.
pub(crate) fn where_names<'t>(
    alloc: Global,
    here: Span,
    is: TreePart<'t>,
    names: TreePart<'t>,
) -> Result<TreePart<'t>, AllocError>
    ensures { IfOk result (λ made.
        plain_tree_part made ≡ actions.where_names here (plain_tree_part is.entry)
        (plain_tree_part names.entry)) }
{
    match tree_of(is).zip(names_of(names)) {
        Some((is, names)) => tree_part(alloc, here, TreeKind::where_names(is, names)),
        None => Ok(TreePart::Junk),
    }
}
