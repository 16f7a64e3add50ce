//! Sources of selects, and what a select stands for.
ghost use Rattle.std.specs.Prelude.{◌≡◌, IfOk};
ghost use Rattle.cd_grammar.specs.ProgramActions as actions;
ghost use Rattle.cd_parser.specs.PlainParts.{plain_part};

use crate::part::Part;
use crate::program_taken::{expr_of, sources_of};
use crate::taken::tree_of;
use cd_query::parts::Source;
use cd_query::queries::select;
use cd_syntax::tokens::Span;
use cd_tree_actions::rows::{added, row_of};
use std::alloc::{AllocError, Global};

/// A pattern, and the sequence from which it takes items.
pub(crate) fn source<'t>(
    alloc: Global,
    pattern: Part<'t>,
    value: Part<'t>,
) -> Result<Part<'t>, AllocError>
    ensures { IfOk result (λ made.
        plain_part made ≡ actions.source (plain_part pattern.entry) (plain_part value.entry)) }
{
    match tree_of(pattern).zip(expr_of(value)) {
        Some((pattern, value)) => {
            Ok(Part::Sources(row_of(alloc, Source { pattern, value })?, None))
        }
        None => Ok(Part::Junk),
    }
}

/// A source of a select, and the condition after it.
pub(crate) fn source_where<'t>(
    alloc: Global,
    pattern: Part<'t>,
    value: Part<'t>,
    condition: Part<'t>,
) -> Result<Part<'t>, AllocError>
    ensures { IfOk result (λ made.
        plain_part made ≡ actions.source_where (plain_part pattern.entry)
        (plain_part value.entry) (plain_part condition.entry)) }
{
    match tree_of(pattern).zip(expr_of(value)).zip(expr_of(condition)) {
        Some(((pattern, value), condition)) => {
            Ok(Part::Sources(row_of(alloc, Source { pattern, value })?, Some(condition)))
        }
        None => Ok(Part::Junk),
    }
}

/// A source of a select, and those after it.
pub(crate) fn before_sources<'t>(
    pattern: Part<'t>,
    value: Part<'t>,
    sources: Part<'t>,
) -> Result<Part<'t>, AllocError>
    ensures { IfOk result (λ made.
        plain_part made ≡ actions.before_sources (plain_part pattern.entry)
        (plain_part value.entry) (plain_part sources.entry)) }
{
    match tree_of(pattern)
        .zip(expr_of(value))
        .zip(sources_of(sources))
    {
        Some(((pattern, value), sources)) => {
            let (all, condition) = sources;
            Ok(Part::Sources(added(all, Source { pattern, value })?, condition))
        }
        None => Ok(Part::Junk),
    }
}

/// What is given for the items that sources give.
pub(crate) fn selecting<'t>(
    alloc: Global,
    here: Span,
    head: Part<'t>,
    sources: Part<'t>,
) -> Result<Part<'t>, AllocError>
    ensures { IfOk result (λ made.
        plain_part made ≡ actions.selecting here (plain_part head.entry)
        (plain_part sources.entry)) }
{
    match expr_of(head).zip(sources_of(sources)) {
        Some((head, sources)) => {
            let (all, condition) = sources;
            Ok(Part::Expr(select(alloc, here, all, condition, head)?))
        }
        None => Ok(Part::Junk),
    }
}
