//! Rows of expressions of sequences.
ghost use Rattle.std.specs.Prelude.{◌≡◌, map, IfOk};
ghost use Rattle.cd_syntax.specs.PlainTree.{plain, plain_regular};
ghost use Rattle.cd_grammar.specs.Actions as actions;
ghost use Rattle.cd_tree_actions.specs.PlainTreeParts.{plain_tree_part};

use crate::part::TreePart;
use crate::rows::{added, row_of_two};
use crate::sequences::item_of;
use crate::taken::{regular_of, regulars_of, tree_of, trees_of};
use crate::tree_part::regular_part;
use cd_syntax::tokens::Span;
use cd_syntax::type_tree::{RegKind, RegTree, Tree};
use std::alloc::{AllocError, Global};

/// A row of two expressions.
pub(crate) fn two_regulars<'t>(
    alloc: Global,
    first: TreePart<'t>,
    second: TreePart<'t>,
) -> Result<TreePart<'t>, AllocError>
    ensures { IfOk result (λ made.
        plain_tree_part made ≡ actions.two_regulars (plain_tree_part first.entry)
        (plain_tree_part second.entry)) }
{
    match regular_of(first).zip(regular_of(second)) {
        Some((first, second)) => Ok(TreePart::Regulars(row_of_two(alloc, first, second)?)),
        None => Ok(TreePart::Junk),
    }
}

/// A row, and an expression after it.
pub(crate) fn next_regular<'t>(
    row: TreePart<'t>,
    is: TreePart<'t>,
) -> Result<TreePart<'t>, AllocError>
    ensures { IfOk result (λ made.
        plain_tree_part made ≡ actions.next_regular (plain_tree_part row.entry)
        (plain_tree_part is.entry)) }
{
    match regulars_of(row).zip(regular_of(is)) {
        Some((row, is)) => Ok(TreePart::Regulars(added(row, Box::into_inner(is))?)),
        None => Ok(TreePart::Junk),
    }
}

/// A row, and an item after it.
pub(crate) fn or_item<'t>(row: TreePart<'t>, is: TreePart<'t>) -> Result<TreePart<'t>, AllocError>
    ensures { IfOk result (λ made.
        plain_tree_part made ≡ actions.or_item (plain_tree_part row.entry)
        (plain_tree_part is.entry)) }
{
    match regulars_of(row).zip(tree_of(is)) {
        Some((row, is)) => Ok(TreePart::Regulars(added(row, item_of(is))?)),
        None => Ok(TreePart::Junk),
    }
}

/// A row of an expression and an item.
pub(crate) fn regular_or_item<'t>(
    alloc: Global,
    first: TreePart<'t>,
    second: TreePart<'t>,
) -> Result<TreePart<'t>, AllocError>
    ensures { IfOk result (λ made.
        plain_tree_part made ≡ actions.regular_or_item (plain_tree_part first.entry)
        (plain_tree_part second.entry)) }
{
    match regular_of(first).zip(tree_of(second)) {
        Some((first, second)) => {
            let item = Box::new(alloc, item_of(second))?;
            Ok(TreePart::Regulars(row_of_two(alloc, first, item)?))
        }
        None => Ok(TreePart::Junk),
    }
}

/// A row of an item and an expression.
pub(crate) fn item_regular<'t>(
    alloc: Global,
    first: TreePart<'t>,
    second: TreePart<'t>,
) -> Result<TreePart<'t>, AllocError>
    ensures { IfOk result (λ made.
        plain_tree_part made ≡ actions.item_regular (plain_tree_part first.entry)
        (plain_tree_part second.entry)) }
{
    match tree_of(first).zip(regular_of(second)) {
        Some((first, second)) => {
            let item = Box::new(alloc, item_of(first))?;
            Ok(TreePart::Regulars(row_of_two(alloc, item, second)?))
        }
        None => Ok(TreePart::Junk),
    }
}

/// Items, and an expression after them.
pub(crate) fn items_or<'t>(
    alloc: Global,
    items: TreePart<'t>,
    is: TreePart<'t>,
) -> Result<TreePart<'t>, AllocError>
    ensures { IfOk result (λ made.
        plain_tree_part made ≡ actions.items_or (plain_tree_part items.entry)
        (plain_tree_part is.entry)) }
{
    match trees_of(items).zip(regular_of(is)) {
        Some((items, is)) => {
            let items = items_of(alloc, items)?;
            Ok(TreePart::Regulars(added(items, Box::into_inner(is))?))
        }
        None => Ok(TreePart::Junk),
    }
}

// The items of types.
fn items_of(alloc: Global, all: Vec<Tree>) -> Result<Vec<RegTree>, AllocError>
    ensures { IfOk result (λ items.
        map plain_regular items.items ≡ map actions.item_of (map plain all.items)) }
{
    let mut items = Vec::new(alloc);
    for is in all {
        items.push(item_of(Box::new(alloc, is)?))?;
    }
    Ok(items)
}

/// One of a row of expressions.
pub(crate) fn alternatives<'t>(
    alloc: Global,
    here: Span,
    row: TreePart<'t>,
) -> Result<TreePart<'t>, AllocError>
    ensures { IfOk result (λ made.
        plain_tree_part made ≡ actions.alternatives here (plain_tree_part row.entry)) }
{
    match regulars_of(row) {
        Some(row) => regular_part(alloc, here, RegKind::alt(row)),
        None => Ok(TreePart::Junk),
    }
}

/// The expressions of a row, one after the other.
pub(crate) fn in_turn<'t>(
    alloc: Global,
    here: Span,
    row: TreePart<'t>,
) -> Result<TreePart<'t>, AllocError>
    ensures { IfOk result (λ made.
        plain_tree_part made ≡ actions.in_turn here (plain_tree_part row.entry)) }
{
    match regulars_of(row) {
        Some(row) => regular_part(alloc, here, RegKind::seq(row)),
        None => Ok(TreePart::Junk),
    }
}
