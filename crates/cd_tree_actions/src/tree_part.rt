//! Parts that are trees and expressions of sequences.
ghost use Rattle.std.specs.Prelude.{◌≡◌, IfOk};
ghost use Rattle.cd_syntax.specs.TypeTree.{tree, regular};
ghost use Rattle.cd_syntax.specs.PlainTree.{plain_kind, plain_regular_kind};
ghost use Rattle.cd_grammar.specs.Parts.{ATree, ARegular};
ghost use Rattle.cd_tree_actions.specs.PlainTreeParts.{plain_tree_part};

use crate::part::TreePart;
use cd_syntax::tokens::Span;
use cd_syntax::type_tree::{RegKind, RegTree, Tree, TreeKind};
use std::alloc::{AllocError, Global};

/// A tree of this kind.
pub(crate) fn tree_part<'t>(
    alloc: Global,
    here: Span,
    kind: TreeKind,
) -> Result<TreePart<'t>, AllocError>
    ensures { IfOk result (λ made. plain_tree_part made ≡ ATree (tree here (plain_kind kind))) }
{
    Ok(TreePart::Tree(Box::new(alloc, Tree::new(here, kind))?))
}

/// An expression of sequences of this kind.
pub(crate) fn regular_part<'t>(
    alloc: Global,
    here: Span,
    kind: RegKind,
) -> Result<TreePart<'t>, AllocError>
    ensures { IfOk result (λ made.
        plain_tree_part made ≡ ARegular (regular here (plain_regular_kind kind))) }
{
    Ok(TreePart::Regular(Box::new(alloc, RegTree::new(here, kind))?))
}
