//! The next of the expressions of a sequence or a record.
ghost use Rattle.std.specs.Prelude.{◌<◌, length, map, IfOk};
ghost use Rattle.cd_model.specs.Thing.{IsRecord};
ghost use Rattle.cd_program.specs.Expr.{items_of, fields_of};
ghost use Rattle.cd_program.specs.PlainExpr.{plain_item, plain_field};
ghost use Rattle.cd_cells.specs.Cells.{thing_at};
ghost use Rattle.cd_cells.specs.Table.{table, Grows};
ghost use Rattle.cd_operations.specs.Along.{items_along};
ghost use Rattle.cd_operations.specs.FieldsOf as record_fields;
ghost use Rattle.cd_machine.specs.Inner.Entering.{items_turn, fields_turn};
ghost use Rattle.cd_machine.specs.Inner.Meeting.{Meets};
ghost use Rattle.cd_machine.specs.Inner.PlainFrame.{Comes, IsWithin};

use crate::environments::EnvId;
use crate::frame::Frame;
use crate::outcome::Outcome;
use crate::turn::Turn;
use cd_cells::{ValueId, Values};
use cd_operations::sequences::in_order;
use cd_operations::texts::characters;
use cd_program::expr::{FieldExpr, Item};
use std::alloc::AllocError;

/// What is met at an item of a sequence.
#[derive(Clone, Copy)]
pub(crate) enum Met<'p> {
    /// An expression, with the turn to it.
    Expression(Turn<'p>),
    /// Characters, which are put after what is done.
    Characters(ValueId),
}

/// The next expression of some items, after those that are done. Characters are put there at once.
pub(crate) fn next_item<'p>(
    values: &mut Values,
    items: &'p [Item],
    env: EnvId,
    done: ValueId,
) -> Result<Turn<'p>, AllocError>
    requires { done.0 < length (table values.old) }
    ensures next { let before = items_along (thing_at (table values.old) done.0) in
        IfOk result (λ turn. Comes values.new env turn
        (λ e. items_turn (items_of (map plain_item items.now)) e before)) }
    ensures within { IfOk result (IsWithin values.new env) }
    ensures grows { Grows values.old values.new }
{
    let mut left = items;
    let mut done = done;
    while let [item, rest @ ..] = left {
        match meet(values, item, rest, env, done)? {
            Met::Expression(turn) => return Ok(turn),
            Met::Characters(id) => {
                done = id;
                left = rest;
            }
        }
    }
    Ok(Turn::give(Outcome::Done(in_order(values, done)?)))
}

// What is met at an item, before others.
fn meet<'p>(
    values: &mut Values,
    item: &'p Item,
    rest: &'p [Item],
    env: EnvId,
    done: ValueId,
) -> Result<Met<'p>, AllocError>
    requires { done.0 < length (table values.old) }
    ensures meets { let before = items_along (thing_at (table values.old) done.0) in
        IfOk result (Meets values.new env (plain_item item.now)
        (items_of (map plain_item rest.now)) before) }
    ensures grows { Grows values.old values.new }
{
    match item {
        Item::One(expr) => {
            let frame = Frame::Iteming(done, rest, env);
            Ok(Met::Expression(Turn::evaluate(expr, env, Some(frame))))
        }
        Item::Splice(expr) => {
            let frame = Frame::Splicing(done, rest, env);
            Ok(Met::Expression(Turn::evaluate(expr, env, Some(frame))))
        }
        Item::Run(text) => Ok(Met::Characters(characters(values, text.as_str(), done)?)),
    }
}

/// The next field, beside those of a record that are done.
pub(crate) fn next_field<'p>(
    values: &Values,
    fields: &'p [FieldExpr],
    env: EnvId,
    done: ValueId,
) -> Turn<'p>
    requires within { done.0 < length (table values.now) }
    requires fields { IsRecord (thing_at (table values.now) done.0) }
    ensures next { let beside = record_fields.fields_of (thing_at (table values.now) done.0) in
        Comes values.now env result
        (λ e. fields_turn (fields_of (map plain_field fields.now)) e beside) }
    ensures within { IsWithin values.now env result }
{
    let _values = values;
    match fields {
        [] => Turn::give(Outcome::Done(done)),
        [field, rest @ ..] => {
            let frame = Frame::Fielding(done, &field.label, rest, env);
            Turn::evaluate(&field.expr, env, Some(frame))
        }
    }
}
