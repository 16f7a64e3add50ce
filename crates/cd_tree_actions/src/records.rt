//! Records and XML types.
ghost use Rattle.std.specs.Prelude.{◌≡◌, [], IfOk};
ghost use Rattle.cd_syntax.specs.TypeTree.{Open};
ghost use Rattle.cd_syntax.specs.PlainTree.{plain};
ghost use Rattle.cd_grammar.specs.Parts.{SomeFields};
ghost use Rattle.cd_grammar.specs.Actions as actions;
ghost use Rattle.cd_tree_actions.specs.PlainTreeParts.{plain_tree_part};

use crate::part::TreePart;
use crate::rows::{joined, row_of};
use crate::taken::{fields_of, token_of, tree_of};
use crate::tree_part::tree_part;
use crate::words::name_of;
use cd_syntax::tokens::Span;
use cd_syntax::type_tree::{FieldTree, Rest, Tree, TreeKind};
use std::alloc::{AllocError, Global};

/// A label with its tree; with true it may be absent.
pub(crate) fn field<'t>(
    alloc: Global,
    optional: bool,
    label: TreePart<'t>,
    is: TreePart<'t>,
) -> Result<TreePart<'t>, AllocError>
    ensures { IfOk result (λ made.
        plain_tree_part made ≡ actions.field optional (plain_tree_part label.entry)
        (plain_tree_part is.entry)) }
{
    match token_of(label).zip(tree_of(is)) {
        Some((label, is)) => {
            let name = name_of(alloc, label)?;
            let field = FieldTree::new(name, label.span.from, optional, Box::into_inner(is));
            Ok(TreePart::Fields(row_of(alloc, field)?, Rest::closed()))
        }
        None => Ok(TreePart::Junk),
    }
}

/// Fields, and those after them.
pub(crate) fn next_fields<'t>(
    fields: TreePart<'t>,
    more: TreePart<'t>,
) -> Result<TreePart<'t>, AllocError>
    ensures { IfOk result (λ made.
        plain_tree_part made ≡ actions.next_fields (plain_tree_part fields.entry)
        (plain_tree_part more.entry)) }
{
    match fields_of(fields).zip(fields_of(more)) {
        Some((fields, more)) => Ok(TreePart::Fields(joined(fields.0, more.0)?, Rest::closed())),
        None => Ok(TreePart::Junk),
    }
}

/// Fields, and what stands after them.
pub(crate) fn and_others<'t>(fields: TreePart<'t>, others: TreePart<'t>) -> TreePart<'t>
    ensures { plain_tree_part result
        ≡ actions.and_others (plain_tree_part fields.entry) (plain_tree_part others.entry) }
{
    match fields_of(fields).zip(fields_of(others)) {
        Some((fields, others)) => TreePart::Fields(fields.0, others.1),
        None => TreePart::Junk,
    }
}

/// No field, beside which others of a type may stand.
pub(crate) fn typed_others<'t>(alloc: Global, is: TreePart<'t>) -> TreePart<'t>
    ensures { plain_tree_part result ≡ actions.typed_others (plain_tree_part is.entry) }
{
    match tree_of(is) {
        Some(tree) => TreePart::Fields(Vec::new(alloc), Rest::typed(tree)),
        None => TreePart::Junk,
    }
}

/// No field, beside which others may stand.
pub(crate) fn others<'t>(alloc: Global) -> TreePart<'t>
    ensures { plain_tree_part result ≡ SomeFields [] Open }
{
    TreePart::Fields(Vec::new(alloc), Rest::open())
}

/// A record without fields.
pub(crate) fn no_fields<'t>(alloc: Global, here: Span) -> Result<TreePart<'t>, AllocError>
    ensures { IfOk result (λ made. plain_tree_part made ≡ actions.no_fields here) }
{
    tree_part(
        alloc,
        here,
        TreeKind::record(Vec::new(alloc), Rest::closed()),
    )
}

/// The record of fields.
pub(crate) fn fields<'t>(
    alloc: Global,
    here: Span,
    is: TreePart<'t>,
) -> Result<TreePart<'t>, AllocError>
    ensures { IfOk result (λ made.
        plain_tree_part made ≡ actions.fields here (plain_tree_part is.entry)) }
{
    match fields_of(is) {
        Some(is) => {
            let (all, rest) = is;
            tree_part(alloc, here, TreeKind::record(all, rest))
        }
        None => Ok(TreePart::Junk),
    }
}

/// The atom of a label.
pub(crate) fn label<'t>(
    alloc: Global,
    here: Span,
    word: TreePart<'t>,
) -> Result<TreePart<'t>, AllocError>
    ensures { IfOk result (λ made.
        plain_tree_part made ≡ actions.label here (plain_tree_part word.entry)) }
{
    match token_of(word) {
        Some(word) => tree_part(alloc, here, TreeKind::atom(name_of(alloc, word)?)),
        None => Ok(TreePart::Junk),
    }
}

/// An XML type without attributes, which stand at the `>`.
pub(crate) fn xml<'t>(
    alloc: Global,
    here: Span,
    tag: TreePart<'t>,
    close: TreePart<'t>,
    content: TreePart<'t>,
) -> Result<TreePart<'t>, AllocError>
    ensures { IfOk result (λ made.
        plain_tree_part made ≡ actions.xml here (plain_tree_part tag.entry)
        (plain_tree_part close.entry)
        (plain_tree_part content.entry)) }
{
    match tree_of(tag).zip(token_of(close)).zip(tree_of(content)) {
        Some(((tag, close), content)) => {
            let attributes = no_attributes(alloc, close.span.from)?;
            tree_part(alloc, here, TreeKind::xml(tag, attributes, content))
        }
        None => Ok(TreePart::Junk),
    }
}

fn no_attributes(alloc: Global, at: usize) -> Result<Box<Tree>, AllocError>
    ensures { IfOk result (λ is. plain is.value ≡ actions.no_attributes at) }
{
    let span = Span { from: at, to: at };
    let none = TreeKind::record(Vec::new(alloc), Rest::closed());
    Ok(Box::new(alloc, Tree::new(span, none))?)
}

/// An XML type with attributes.
pub(crate) fn xml_with<'t>(
    alloc: Global,
    here: Span,
    tag: TreePart<'t>,
    attributes: TreePart<'t>,
    content: TreePart<'t>,
) -> Result<TreePart<'t>, AllocError>
    ensures { IfOk result (λ made.
        plain_tree_part made ≡ actions.xml_with here (plain_tree_part tag.entry)
        (plain_tree_part attributes.entry) (plain_tree_part content.entry)) }
{
    match tree_of(tag).zip(tree_of(attributes)).zip(tree_of(content)) {
        Some(((tag, attributes), content)) => tree_part(
            alloc,
            here,
            TreeKind::xml(tag, attributes, content),
        ),
        None => Ok(TreePart::Junk),
    }
}
