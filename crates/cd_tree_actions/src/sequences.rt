//! Sequences and their items.
ghost use Rattle.std.specs.Prelude.{◌≡◌, map, IfOk};
ghost use Rattle.cd_syntax.specs.PlainTree.{plain, plain_regular, plain_regular_kind};
ghost use Rattle.cd_grammar.specs.Actions as actions;
ghost use Rattle.cd_tree_actions.specs.Inner.Letters.{letters_kind};
ghost use Rattle.cd_tree_actions.specs.PlainTreeParts.{plain_tree_part};

use crate::part::TreePart;
use crate::taken::{mark_of, regular_of, token_of, tree_of};
use crate::tree_part::{regular_part, tree_part};
use cd_syntax::name::Name;
use cd_syntax::tokens::{Span, TokenKind};
use cd_syntax::type_tree::{RegKind, RegTree, Tree, TreeKind};
use std::alloc::{AllocError, Global};

/// The empty sequence, whose place is that of the `]`.
pub(crate) fn empty_sequence<'t>(
    alloc: Global,
    here: Span,
    close: TreePart<'t>,
) -> Result<TreePart<'t>, AllocError>
    ensures { IfOk result (λ made.
        plain_tree_part made ≡ actions.empty_sequence here (plain_tree_part close.entry)) }
{
    match token_of(close) {
        Some(close) => {
            let at = close.span.from;
            let none = RegTree::new(Span { from: at, to: at }, RegKind::nothing());
            tree_part(alloc, here, TreeKind::sequence(Box::new(alloc, none)?))
        }
        None => Ok(TreePart::Junk),
    }
}

/// The sequences that an expression says.
pub(crate) fn sequence<'t>(
    alloc: Global,
    here: Span,
    is: TreePart<'t>,
) -> Result<TreePart<'t>, AllocError>
    ensures { IfOk result (λ made.
        plain_tree_part made ≡ actions.sequence here (plain_tree_part is.entry)) }
{
    match regular_of(is) {
        Some(is) => tree_part(alloc, here, TreeKind::sequence(is)),
        None => Ok(TreePart::Junk),
    }
}

/// A type that is one item.
pub(crate) fn item<'t>(alloc: Global, is: TreePart<'t>) -> Result<TreePart<'t>, AllocError>
    ensures { IfOk result (λ made. plain_tree_part made ≡ actions.item (plain_tree_part is.entry)) }
{
    match tree_of(is) {
        Some(is) => Ok(TreePart::Regular(Box::new(alloc, item_of(is))?)),
        None => Ok(TreePart::Junk),
    }
}

/// The item of a type.
pub(crate) fn item_of(is: Box<Tree>) -> RegTree
    ensures { plain_regular result ≡ actions.item_of (plain is.value) }
{
    let span = is.span;
    RegTree::new(span, RegKind::item(is))
}

/// Characters, each an item.
pub(crate) fn run<'t>(
    alloc: Global,
    here: Span,
    is: TreePart<'t>,
) -> Result<TreePart<'t>, AllocError>
    ensures { IfOk result (λ made.
        plain_tree_part made ≡ actions.run here (plain_tree_part is.entry)) }
{
    match token_of(is) {
        Some(is) => {
            let kind = letters_of(alloc, here, &is.kind)?;
            regular_part(alloc, here, kind)
        }
        None => Ok(TreePart::Junk),
    }
}

fn letters_of(alloc: Global, here: Span, kind: &TokenKind) -> Result<RegKind, AllocError>
    ensures { IfOk result (λ made.
        plain_regular_kind made ≡ actions.letters here (actions.characters_in kind.now)) }
{
    match kind {
        TokenKind::Chars(name) => letters_in(alloc, here, name),
        TokenKind::Text(name) => letters_in(alloc, here, name),
        TokenKind::Atom(name) => letters_in(alloc, here, name),
        TokenKind::Word(_) | TokenKind::Int(_) | TokenKind::Sign(_) => Ok(RegKind::nothing()),
    }
}

fn letters_in(alloc: Global, here: Span, name: &Name) -> Result<RegKind, AllocError>
    ensures { IfOk result (λ made. plain_regular_kind made ≡ actions.letters here name.now) }
{
    Ok(letters_kind(letters(alloc, here, name)?))
}

fn letters_kind(all: Vec<RegTree>) -> RegKind
    ensures { plain_regular_kind result ≡ letters_kind (map plain_regular all.items) }
{
    if all.as_slice().is_empty() {
        return RegKind::nothing();
    }
    RegKind::seq(all)
}

fn letters(alloc: Global, here: Span, name: &Name) -> Result<Vec<RegTree>, AllocError>
    ensures { IfOk result (λ all.
        map plain_regular all.items ≡ map (actions.letter here) name.now) }
{
    let mut all = Vec::new(alloc);
    for c in name.as_str().chars() {
        all.push(letter(alloc, here, c)?)?;
    }
    Ok(all)
}

fn letter(alloc: Global, here: Span, c: char) -> Result<RegTree, AllocError>
    ensures { IfOk result (λ one. plain_regular one ≡ actions.letter here c) }
{
    let tree = Tree::new(here, TreeKind::chars(c, c));
    Ok(RegTree::new(here, RegKind::item(Box::new(alloc, tree)?)))
}

/// An expression as often as the sign says.
pub(crate) fn repeated<'t>(
    alloc: Global,
    here: Span,
    is: TreePart<'t>,
    mark: TreePart<'t>,
) -> Result<TreePart<'t>, AllocError>
    ensures { IfOk result (λ made.
        plain_tree_part made ≡ actions.repeated here (plain_tree_part is.entry)
        (plain_tree_part mark.entry)) }
{
    match regular_of(is).zip(mark_of(mark)) {
        Some((is, mark)) => regular_part(alloc, here, RegKind::repeat(is, mark)),
        None => Ok(TreePart::Junk),
    }
}

/// An item as often as the sign says.
pub(crate) fn repeated_item<'t>(
    alloc: Global,
    here: Span,
    is: TreePart<'t>,
    mark: TreePart<'t>,
) -> Result<TreePart<'t>, AllocError>
    ensures { IfOk result (λ made.
        plain_tree_part made ≡ actions.repeated_item here (plain_tree_part is.entry)
        (plain_tree_part mark.entry)) }
{
    match tree_of(is).zip(mark_of(mark)) {
        Some((is, mark)) => {
            let item = Box::new(alloc, item_of(is))?;
            regular_part(alloc, here, RegKind::repeat(item, mark))
        }
        None => Ok(TreePart::Junk),
    }
}
