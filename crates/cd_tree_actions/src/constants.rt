//! Types of one token, and intervals.
ghost use Rattle.std.specs.Prelude.{◌≡◌, IfOk};
ghost use Rattle.cd_syntax.specs.Name.{only};
ghost use Rattle.cd_syntax.specs.TypeTree.{tree, Ints};
ghost use Rattle.cd_syntax.specs.PlainTree.{plain_kind};
ghost use Rattle.cd_grammar.specs.Parts.{ATree};
ghost use Rattle.cd_tables.specs.Rows.{row_of};
ghost use Rattle.cd_tables.specs.Words.{type_names};
ghost use Rattle.cd_grammar.specs.Actions as actions;
ghost use Rattle.cd_tree_actions.specs.PlainTreeParts.{plain_tree_part};

use crate::part::TreePart;
use crate::taken::token_of;
use crate::tree_part::tree_part;
use crate::words::{characters_of, name_of};
use cd_syntax::builtin::BuiltinName;
use cd_syntax::name::Name;
use cd_syntax::tokens::{Span, TokenKind};
use cd_syntax::type_tree::TreeKind;
use cd_tables::words::type_name;
use std::alloc::{AllocError, Global};

/// A number.
pub(crate) fn number<'t>(
    alloc: Global,
    here: Span,
    is: TreePart<'t>,
) -> Result<TreePart<'t>, AllocError>
    ensures { IfOk result (λ made.
        plain_tree_part made ≡ actions.integers here (plain_tree_part is.entry)
        (plain_tree_part is.entry)) }
{
    match token_of(is) {
        Some(n) => integers_between(alloc, here, &n.kind, &n.kind),
        None => Ok(TreePart::Junk),
    }
}

/// The integers from the one token to the other, as far as they are numbers.
pub(crate) fn integers<'t>(
    alloc: Global,
    here: Span,
    low: TreePart<'t>,
    high: TreePart<'t>,
) -> Result<TreePart<'t>, AllocError>
    ensures { IfOk result (λ made.
        plain_tree_part made ≡ actions.integers here (plain_tree_part low.entry)
        (plain_tree_part high.entry)) }
{
    match token_of(low).zip(token_of(high)) {
        Some((low, high)) => integers_between(alloc, here, &low.kind, &high.kind),
        None => Ok(TreePart::Junk),
    }
}

fn integers_between<'t>(
    alloc: Global,
    here: Span,
    low: &TokenKind,
    high: &TokenKind,
) -> Result<TreePart<'t>, AllocError>
    ensures { IfOk result (λ made. plain_tree_part made
        ≡ ATree (tree here (Ints (actions.number_in low.now) (actions.number_in high.now)))) }
{
    let kind = TreeKind::ints(&number_in(low), &number_in(high));
    tree_part(alloc, here, kind)
}

// The number of a token that is one.
fn number_in(kind: &TokenKind) -> Option<i128>
    ensures { result ≡ actions.number_in kind.now }
{
    match kind {
        TokenKind::Int(n) => Some(*n),
        _ => None,
    }
}

/// A character.
pub(crate) fn character<'t>(
    alloc: Global,
    here: Span,
    is: TreePart<'t>,
) -> Result<TreePart<'t>, AllocError>
    ensures { IfOk result (λ made.
        plain_tree_part made ≡ actions.characters here (plain_tree_part is.entry)
        (plain_tree_part is.entry)) }
{
    match token_of(is) {
        Some(is) => between(alloc, here, &is.kind, &is.kind),
        None => Ok(TreePart::Junk),
    }
}

/// The characters from the one token to the other, where each has one character.
pub(crate) fn characters<'t>(
    alloc: Global,
    here: Span,
    low: TreePart<'t>,
    high: TreePart<'t>,
) -> Result<TreePart<'t>, AllocError>
    ensures { IfOk result (λ made.
        plain_tree_part made ≡ actions.characters here (plain_tree_part low.entry)
        (plain_tree_part high.entry)) }
{
    match token_of(low).zip(token_of(high)) {
        Some((low, high)) => between(alloc, here, &low.kind, &high.kind),
        None => Ok(TreePart::Junk),
    }
}

fn between<'t>(
    alloc: Global,
    here: Span,
    low: &TokenKind,
    high: &TokenKind,
) -> Result<TreePart<'t>, AllocError>
    ensures { IfOk result (λ made. plain_tree_part made
        ≡ actions.between here (actions.characters_in low.now) (actions.characters_in high.now)) }
{
    match only_in(low) {
        Some(low) => match only_in(high) {
            Some(high) => tree_part(alloc, here, TreeKind::chars(low, high)),
            None => Ok(TreePart::Junk),
        },
        None => Ok(TreePart::Junk),
    }
}

// The one character of a token that has just one.
fn only_in(kind: &TokenKind) -> Option<char>
    ensures { result ≡ only (actions.characters_in kind.now) }
{
    match kind {
        TokenKind::Chars(name) => name.only_character(),
        TokenKind::Text(name) => name.only_character(),
        TokenKind::Atom(name) => name.only_character(),
        TokenKind::Word(_) | TokenKind::Int(_) | TokenKind::Sign(_) => None,
    }
}

/// The sequence of the characters of a text.
pub(crate) fn text<'t>(
    alloc: Global,
    here: Span,
    is: TreePart<'t>,
) -> Result<TreePart<'t>, AllocError>
    ensures { IfOk result (λ made.
        plain_tree_part made ≡ actions.text here (plain_tree_part is.entry)) }
{
    match token_of(is) {
        Some(is) => tree_part(alloc, here, TreeKind::text(characters_of(alloc, is)?)),
        None => Ok(TreePart::Junk),
    }
}

/// An atom.
pub(crate) fn atom<'t>(
    alloc: Global,
    here: Span,
    is: TreePart<'t>,
) -> Result<TreePart<'t>, AllocError>
    ensures { IfOk result (λ made.
        plain_tree_part made ≡ actions.atom here (plain_tree_part is.entry)) }
{
    match token_of(is) {
        Some(is) => tree_part(alloc, here, TreeKind::atom(characters_of(alloc, is)?)),
        None => Ok(TreePart::Junk),
    }
}

/// The type of a name.
pub(crate) fn named<'t>(
    alloc: Global,
    here: Span,
    word: TreePart<'t>,
) -> Result<TreePart<'t>, AllocError>
    ensures { IfOk result (λ made.
        plain_tree_part made ≡ actions.named here (plain_tree_part word.entry)) }
{
    match token_of(word) {
        Some(word) => tree_part(alloc, here, type_of(name_of(alloc, word)?)),
        None => Ok(TreePart::Junk),
    }
}

// The type that is built in under this name, or else that of a declaration.
fn type_of(name: Name) -> TreeKind
    ensures { plain_kind result ≡ actions.type_of (row_of type_names name) name }
{
    match type_name(name.as_str()) {
        Some(is) => TreeKind::builtin(is),
        None => TreeKind::named(name),
    }
}

/// Everything.
pub(crate) fn any<'t>(alloc: Global, here: Span) -> Result<TreePart<'t>, AllocError>
    ensures { IfOk result (λ made. plain_tree_part made ≡ actions.any here) }
{
    tree_part(alloc, here, TreeKind::builtin(BuiltinName::Any))
}
