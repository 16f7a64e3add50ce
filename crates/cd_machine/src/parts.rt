//! The next of the parts of an expression, where a value comes.
ghost use Rattle.std.specs.Prelude.{◌≡◌, ◌<◌, ◌∷◌, length, map, IfOk};
ghost use Rattle.cd_syntax.specs.Name.{IsLabel};
ghost use Rattle.cd_model.specs.Thing.{IsRecord};
ghost use Rattle.cd_matching.specs.Sequences as sequences;
ghost use Rattle.cd_program.specs.Expr.{exprs_of, items_of, fields_of};
ghost use Rattle.cd_program.specs.PlainExpr.{plain, plain_item, plain_field};
ghost use Rattle.cd_cells.specs.Cells.{thing_at};
ghost use Rattle.cd_cells.specs.Table.{table, Grows};
ghost use Rattle.cd_evaluation.specs.Operations as operations;
ghost use Rattle.cd_evaluation.specs.RecordFields as record_put;
ghost use Rattle.cd_operations.specs.Along.{items_along};
ghost use Rattle.cd_operations.specs.FieldsOf as record_fields;
ghost use Rattle.cd_machine.specs.Inner.Entering.{items_turn, fields_turn};
ghost use Rattle.cd_machine.specs.Inner.PlainFrame.{Comes, IsWithin};
ghost use Rattle.cd_machine.specs.Inner.Resuming.{parts_turn, spliced_turn, called_turn};
ghost use Rattle.cd_machine.specs.Inner.Resuming.{asked_turn};
ghost use Rattle.cd_machine.specs.Inner.Turn.{paid};

use crate::environments::EnvId;
use crate::frame::Frame;
use crate::lists::{next_field, next_item};
use crate::outcome::Outcome;
use crate::turn::{Control, Turn};
use cd_cells::{ValueId, Values};
use cd_operations::records::put;
use cd_operations::sequences::{is_sequence, pushed};
use cd_operations::truths::truth_of;
use cd_program::expr::{Expr, FieldExpr, Item};
use cd_syntax::name::Name;
use std::alloc::{AllocError, Global};

/// The parts of a tuple after the first one.
pub(crate) fn next_part<'p>(
    values: &Values,
    next: &'p Expr,
    rest: &'p [Expr],
    env: EnvId,
    id: ValueId,
) -> Turn<'p>
    requires { id.0 < length (table values.now) }
    ensures next { Comes values.now env result (λ e. parts_turn (plain next.now)
        (exprs_of (map plain rest.now)) e (thing_at (table values.now) id.0)) }
    ensures within { IsWithin values.now env result }
{
    let _values = values;
    match rest {
        [] => Turn::part(next, env, None, id),
        [third, rest @ ..] => Turn::part(next, env, Some(Frame::First(third, rest, env)), id),
    }
}

/// The items after this one.
pub(crate) fn put_item<'p>(
    values: &mut Values,
    done: ValueId,
    rest: &'p [Item],
    env: EnvId,
    id: ValueId,
) -> Result<Turn<'p>, AllocError>
    requires done { done.0 < length (table values.old) }
    requires value { id.0 < length (table values.old) }
    ensures next { IfOk result (λ turn. Comes values.new env turn
        (λ e. items_turn (items_of (map plain_item rest.now)) e
        (thing_at (table values.new) id.0 ∷ items_along (thing_at (table values.new) done.0)))) }
    ensures within { IfOk result (IsWithin values.new env) }
    ensures grows { Grows values.old values.new }
{
    let done = values.pair(id, done)?;
    Ok(next_item(values, rest, env, done)?)
}

/// The items after those of a sequence.
pub(crate) fn splice<'p>(
    values: &mut Values,
    done: ValueId,
    rest: &'p [Item],
    env: EnvId,
    id: ValueId,
) -> Result<Turn<'p>, AllocError>
    requires done { done.0 < length (table values.old) }
    requires value { id.0 < length (table values.old) }
    ensures next { IfOk result (λ turn. Comes values.new env turn
        (λ e. paid (spliced_turn (sequences.items (thing_at (table values.new) id.0))
        (items_of (map plain_item rest.now)) e
        (items_along (thing_at (table values.new) done.0))))) }
    ensures within { IfOk result (IsWithin values.new env) }
    ensures grows { Grows values.old values.new }
{
    if !is_sequence(values, id) {
        return Ok(Turn::pay(Control::Returning(Outcome::Stuck), None));
    }
    let done = pushed(values, id, done)?;
    let turn = next_item(values, rest, env, done)?;
    Ok(turn.paid())
}

/// The fields after this one.
pub(crate) fn put_field<'p>(
    alloc: Global,
    values: &mut Values,
    done: ValueId,
    label: &Name,
    rest: &'p [FieldExpr],
    env: EnvId,
    id: ValueId,
) -> Result<Turn<'p>, AllocError>
    requires done { done.0 < length (table values.old) }
    requires label { IsLabel label.now }
    requires value { id.0 < length (table values.old) }
    ensures next { IfOk result (λ turn. Comes values.new env turn
        (λ e. fields_turn (fields_of (map plain_field rest.now)) e
        (record_put.put label.now (thing_at (table values.new) id.0)
        (record_fields.fields_of (thing_at (table values.new) done.0))))) }
    ensures within { IfOk result (IsWithin values.new env) }
    ensures grows { Grows values.old values.new }
{
    let record = put(alloc, values, done, label.as_str(), id)?;
    Ok(next_field(values, rest, env, record))
}

/// The arguments of a function.
pub(crate) fn next_argument<'p>(
    values: &Values,
    arguments: &'p [Expr],
    env: EnvId,
    function: ValueId,
) -> Turn<'p>
    requires { function.0 < length (table values.now) }
    ensures next { Comes values.now env result
        (λ e. called_turn (exprs_of (map plain arguments.now))
        e (thing_at (table values.now) function.0)) }
    ensures within { IsWithin values.now env result }
{
    let _values = values;
    match arguments {
        [] => Turn::give(Outcome::Done(function)),
        [argument, rest @ ..] => {
            Turn::evaluate(argument, env, Some(Frame::Argument(function, rest, env)))
        }
    }
}

/// What a test chooses.
pub(crate) fn ask<'p>(
    values: &Values,
    then_one: &'p Expr,
    else_one: &'p Expr,
    env: EnvId,
    id: ValueId,
) -> Turn<'p>
    requires { id.0 < length (table values.now) }
    ensures next { Comes values.now env result
        (λ e. paid (asked_turn (operations.truth_of (thing_at (table values.now) id.0))
        (plain then_one.now) (plain else_one.now) e)) }
    ensures within { IsWithin values.now env result }
{
    match truth_of(values, id) {
        None => Turn::pay(Control::Returning(Outcome::Stuck), None),
        Some(true) => Turn::pay(Control::Evaluating(then_one, env), None),
        Some(false) => Turn::pay(Control::Evaluating(else_one, env), None),
    }
}
