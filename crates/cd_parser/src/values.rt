//! Sequences, records and XML elements.
ghost use Rattle.std.specs.Prelude.{◌≡◌, IfOk};
ghost use Rattle.cd_program.specs.PlainExpr.{plain};
ghost use Rattle.cd_grammar.specs.ProgramActions as actions;
ghost use Rattle.cd_parser.specs.PlainParts.{plain_part};

use crate::expr_part::expr_part;
use crate::part::Part;
use crate::program_taken::{expr_fields_of, expr_of, items_of};
use crate::taken::token_of;
use cd_program::expr::{Expr, ExprKind, FieldExpr, Item};
use cd_syntax::constant::Constant;
use cd_syntax::tokens::Span;
use cd_tree_actions::rows::{joined, row_of};
use cd_tree_actions::words::{characters_of, name_of};
use std::alloc::{AllocError, Global};

/// Characters as items.
pub(crate) fn run_item<'t>(alloc: Global, is: Part<'t>) -> Result<Part<'t>, AllocError>
    ensures { IfOk result (λ made. plain_part made ≡ actions.run_item (plain_part is.entry)) }
{
    match token_of(is) {
        Some(is) => Ok(Part::Items(row_of(alloc, Item::run(characters_of(alloc, is)?))?)),
        None => Ok(Part::Junk),
    }
}

/// An expression as an item.
pub(crate) fn one_item<'t>(alloc: Global, is: Part<'t>) -> Result<Part<'t>, AllocError>
    ensures { IfOk result (λ made. plain_part made ≡ actions.one_item (plain_part is.entry)) }
{
    match expr_of(is) {
        Some(is) => Ok(Part::Items(row_of(alloc, Item::one(is))?)),
        None => Ok(Part::Junk),
    }
}

/// The items of a sequence.
pub(crate) fn splice<'t>(alloc: Global, is: Part<'t>) -> Result<Part<'t>, AllocError>
    ensures { IfOk result (λ made. plain_part made ≡ actions.splice (plain_part is.entry)) }
{
    match expr_of(is) {
        Some(is) => Ok(Part::Items(row_of(alloc, Item::splice(is))?)),
        None => Ok(Part::Junk),
    }
}

/// Items, and those after them.
pub(crate) fn next_items<'t>(items: Part<'t>, more: Part<'t>) -> Result<Part<'t>, AllocError>
    ensures { IfOk result (λ made.
        plain_part made ≡ actions.next_items (plain_part items.entry) (plain_part more.entry)) }
{
    match items_of(items).zip(items_of(more)) {
        Some((items, more)) => Ok(Part::Items(joined(items, more)?)),
        None => Ok(Part::Junk),
    }
}

/// The empty sequence.
pub(crate) fn no_items<'t>(alloc: Global, here: Span) -> Result<Part<'t>, AllocError>
    ensures { IfOk result (λ made. plain_part made ≡ actions.no_items here) }
{
    expr_part(alloc, here, ExprKind::sequence(Vec::new(alloc)))
}

/// The sequence of items.
pub(crate) fn sequence_expr<'t>(
    alloc: Global,
    here: Span,
    items: Part<'t>,
) -> Result<Part<'t>, AllocError>
    ensures { IfOk result (λ made.
        plain_part made ≡ actions.sequence_expr here (plain_part items.entry)) }
{
    match items_of(items) {
        Some(items) => expr_part(alloc, here, ExprKind::sequence(items)),
        None => Ok(Part::Junk),
    }
}

/// A label with its expression.
pub(crate) fn expr_field<'t>(
    alloc: Global,
    label: Part<'t>,
    is: Part<'t>,
) -> Result<Part<'t>, AllocError>
    ensures { IfOk result (λ made.
        plain_part made ≡ actions.expr_field (plain_part label.entry) (plain_part is.entry)) }
{
    match token_of(label).zip(expr_of(is)) {
        Some((label, is)) => {
            let name = name_of(alloc, label)?;
            let field = FieldExpr::new(name, label.span.from, Box::into_inner(is));
            Ok(Part::ExprFields(row_of(alloc, field)?))
        }
        None => Ok(Part::Junk),
    }
}

/// Fields, and those after them.
pub(crate) fn next_expr_fields<'t>(fields: Part<'t>, more: Part<'t>) -> Result<Part<'t>, AllocError>
    ensures { IfOk result (λ made.
        plain_part made ≡ actions.next_expr_fields (plain_part fields.entry)
        (plain_part more.entry)) }
{
    match expr_fields_of(fields).zip(expr_fields_of(more)) {
        Some((fields, more)) => Ok(Part::ExprFields(joined(fields, more)?)),
        None => Ok(Part::Junk),
    }
}

/// The record without fields.
pub(crate) fn no_expr_fields<'t>(alloc: Global, here: Span) -> Result<Part<'t>, AllocError>
    ensures { IfOk result (λ made. plain_part made ≡ actions.no_expr_fields here) }
{
    expr_part(alloc, here, ExprKind::record(Vec::new(alloc)))
}

/// The record of fields.
pub(crate) fn record_expr<'t>(
    alloc: Global,
    here: Span,
    fields: Part<'t>,
) -> Result<Part<'t>, AllocError>
    ensures { IfOk result (λ made.
        plain_part made ≡ actions.record_expr here (plain_part fields.entry)) }
{
    match expr_fields_of(fields) {
        Some(fields) => expr_part(alloc, here, ExprKind::record(fields)),
        None => Ok(Part::Junk),
    }
}

/// The atom of a label.
pub(crate) fn label_expr<'t>(
    alloc: Global,
    here: Span,
    word: Part<'t>,
) -> Result<Part<'t>, AllocError>
    ensures { IfOk result (λ made.
        plain_part made ≡ actions.label_expr here (plain_part word.entry)) }
{
    match token_of(word) {
        Some(word) => {
            let atom = Constant::Atom(name_of(alloc, word)?);
            expr_part(alloc, here, ExprKind::constant(atom))
        }
        None => Ok(Part::Junk),
    }
}

/// An XML element without attributes, which stand at the `>`.
pub(crate) fn xml_expr<'t>(
    alloc: Global,
    here: Span,
    tag: Part<'t>,
    close: Part<'t>,
    content: Part<'t>,
) -> Result<Part<'t>, AllocError>
    ensures { IfOk result (λ made.
        plain_part made ≡ actions.xml_expr here (plain_part tag.entry) (plain_part close.entry)
        (plain_part content.entry)) }
{
    match expr_of(tag).zip(token_of(close)).zip(expr_of(content)) {
        Some(((tag, close), content)) => {
            let attributes = no_attributes(alloc, close.span.from)?;
            expr_part(alloc, here, ExprKind::xml(tag, attributes, content))
        }
        None => Ok(Part::Junk),
    }
}

fn no_attributes(alloc: Global, at: usize) -> Result<Box<Expr>, AllocError>
    ensures { IfOk result (λ is. plain is.value ≡ actions.no_attributes_expr at) }
{
    let none = ExprKind::record(Vec::new(alloc));
    Ok(Box::new(alloc, Expr::new(Span { from: at, to: at }, none))?)
}

/// An XML element with attributes.
pub(crate) fn xml_expr_with<'t>(
    alloc: Global,
    here: Span,
    tag: Part<'t>,
    attributes: Part<'t>,
    content: Part<'t>,
) -> Result<Part<'t>, AllocError>
    ensures { IfOk result (λ made.
        plain_part made ≡ actions.xml_expr_with here (plain_part tag.entry)
        (plain_part attributes.entry) (plain_part content.entry)) }
{
    match expr_of(tag).zip(expr_of(attributes)).zip(expr_of(content)) {
        Some(((tag, attributes), content)) => expr_part(
            alloc,
            here,
            ExprKind::xml(tag, attributes, content),
        ),
        None => Ok(Part::Junk),
    }
}
