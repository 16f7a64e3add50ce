//! What comes of values at once.
ghost use Rattle.std.specs.Prelude.{◌≡◌, ◌<◌, [], length, IfOk};
ghost use Rattle.cd_model.specs.Thing.{Pair};
ghost use Rattle.cd_cells.specs.Cells.{thing_at};
ghost use Rattle.cd_cells.specs.Table.{table, Grows};
ghost use Rattle.cd_evaluation.specs.Evaluation as evaluation;
ghost use Rattle.cd_evaluation.specs.Lists.{before};
ghost use Rattle.cd_evaluation.specs.Operations as operations;
ghost use Rattle.cd_operations.specs.Along.{items_along};
ghost use Rattle.cd_evaluation.specs.Runs as runs;
ghost use Rattle.cd_machine.specs.Inner.Endings.{outcome_of};
ghost use Rattle.cd_machine.specs.PlainRan.{plain_outcome, IsOutcome};

use crate::outcome::Outcome;
use cd_cells::{ValueId, Values};
use cd_operations::operators::operate;
use cd_operations::records::{select, without};
use cd_operations::words::say;
use cd_operations::xml::element;
use cd_operations::{Ending, joins};
use cd_program::operator::{BuiltIn, Op};
use cd_syntax::name::Name;
use std::alloc::{AllocError, Global};

// An operation's end as an outcome.
#[inline]
fn outcome(ending: Ending) -> Outcome
    ensures { result ≡ outcome_of ending }
{
    match ending {
        Ending::Done(id) => Outcome::Done(id),
        Ending::Raised(id) => Outcome::Raised(id),
        Ending::Overflow => Outcome::Overflow,
        Ending::Stuck => Outcome::Stuck,
    }
}

/// The pair of two values.
pub(crate) fn paired(
    values: &mut Values,
    first: ValueId,
    second: ValueId,
) -> Result<Outcome, AllocError>
    requires first { first.0 < length (table values.old) }
    requires second { second.0 < length (table values.old) }
    ensures is { IfOk result (λ outcome. plain_outcome (table values.new) outcome
        ≡ runs.Done (Pair (thing_at (table values.new) first.0)
        (thing_at (table values.new) second.0))) }
    ensures within { IfOk result (IsOutcome (length (table values.new))) }
    ensures grows { Grows values.old values.new }
{
    Ok(Outcome::Done(values.pair(first, second)?))
}

/// The XML value of a tag, attributes and a content.
pub(crate) fn filled(
    values: &mut Values,
    tag: ValueId,
    attributes: ValueId,
    content: ValueId,
) -> Result<Outcome, AllocError>
    requires tag { tag.0 < length (table values.old) }
    requires attributes { attributes.0 < length (table values.old) }
    requires content { content.0 < length (table values.old) }
    ensures is { IfOk result (λ outcome. plain_outcome (table values.new) outcome
        ≡ operations.xml (thing_at (table values.new) tag.0)
        (thing_at (table values.new) attributes.0) (thing_at (table values.new) content.0)) }
    ensures within { IfOk result (IsOutcome (length (table values.new))) }
    ensures grows { Grows values.old values.new }
{
    Ok(outcome(element(values, tag, attributes, content)?))
}

/// What a word makes of a value.
pub(crate) fn worded(
    alloc: Global,
    values: &mut Values,
    word: BuiltIn,
    id: ValueId,
) -> Result<Outcome, AllocError>
    requires { id.0 < length (table values.old) }
    ensures is { IfOk result (λ outcome. plain_outcome (table values.new) outcome
        ≡ operations.word_outcome word (thing_at (table values.new) id.0)) }
    ensures within { IfOk result (IsOutcome (length (table values.new))) }
    ensures grows { Grows values.old values.new }
{
    Ok(outcome(say(alloc, values, word, id)?))
}

/// What an operator makes of two values.
pub(crate) fn operated(
    alloc: Global,
    values: &mut Values,
    op: Op,
    left: ValueId,
    right: ValueId,
) -> Result<Outcome, AllocError>
    requires left { left.0 < length (table values.old) }
    requires right { right.0 < length (table values.old) }
    ensures is { IfOk result (λ outcome. plain_outcome (table values.new) outcome
        ≡ operations.operate op (thing_at (table values.new) left.0)
        (thing_at (table values.new) right.0)) }
    ensures within { IfOk result (IsOutcome (length (table values.new))) }
    ensures grows { Grows values.old values.new }
{
    Ok(outcome(operate(alloc, values, op, left, right)?))
}

/// A record without the field of a label.
pub(crate) fn dropped(
    alloc: Global,
    values: &mut Values,
    label: &Name,
    id: ValueId,
) -> Result<Outcome, AllocError>
    requires { id.0 < length (table values.old) }
    ensures is { IfOk result (λ outcome. plain_outcome (table values.new) outcome
        ≡ operations.dropped label.now (thing_at (table values.new) id.0)) }
    ensures within { IfOk result (IsOutcome (length (table values.new))) }
    ensures grows { Grows values.old values.new }
{
    Ok(outcome(without(alloc, values, id, label.as_str())?))
}

/// The field of a record at a label.
pub(crate) fn selected(values: &Values, label: &Name, id: ValueId) -> Outcome
    requires { id.0 < length (table values.now) }
    ensures is { plain_outcome (table values.now) result
        ≡ operations.selected label.now (thing_at (table values.now) id.0) }
    ensures within { IsOutcome (length (table values.now)) result }
{
    outcome(select(values, id, label.as_str()))
}

/// The items of results, which are kept from the last.
pub(crate) fn joined(
    alloc: Global,
    values: &mut Values,
    results: ValueId,
) -> Result<Outcome, AllocError>
    requires { results.0 < length (table values.old) }
    ensures is { IfOk result (λ outcome. plain_outcome (table values.new) outcome
        ≡ evaluation.joined (before (items_along (thing_at (table values.new) results.0)) [])) }
    ensures within { IfOk result (IsOutcome (length (table values.new))) }
    ensures grows { Grows values.old values.new }
{
    Ok(outcome(joins::joined(alloc, values, results)?))
}
