//! The pairs along the right of a value: as a text, a sequence or a tuple.
ghost use Rattle.std.specs.Prelude.{◌≡◌, ◌<◌, ◌≤◌, ◌++◌, length, OnOk, IfOk};
ghost use Rattle.cd_model.specs.Canonical.{spine_text};
ghost use Rattle.cd_print.specs.Inner.Texts.{spine_at, others, letters, enclosed, items_text};
ghost use Rattle.cd_print.specs.Inner.Texts.{parts_text, end_text, after_item, after_part};
ghost use Rattle.cd_print.specs.Inner.Looks.{form_of};
ghost use Rattle.cd_print.specs.Inner.Tasks.{Writes};

use crate::look::{Along, goes_on};
use crate::task::{Task, Tasks};
use cd_cells::{ValueId, Values};
use cd_elements::output::Output;
use cd_elements::quote::{push_character, push_escaped};
use std::alloc::AllocError;

/// How pairs are written.
pub(crate) enum Form {
    /// As a text: they are of characters, and end in `nil`.
    Text,
    /// As a sequence in brackets: they end in `nil`.
    Sequence,
    /// As a tuple.
    Tuple,
}

/// How the pairs along the right of a value are written.
pub(crate) fn form_of(values: &Values, id: ValueId) -> Form
    ensures { let spine = spine_at values.now id in result
        ≡ form_of (others spine.parts) spine.end }
{
    let mut next = id;
    let mut letters = true;
    loop {
        match goes_on(values, next) {
            Along::Letter(_, rest) => next = rest,
            Along::Item(_, rest) => {
                letters = false;
                next = rest;
            }
            Along::Nil if letters => return Form::Text,
            Along::Nil => return Form::Sequence,
            Along::End => return Form::Tuple,
        }
    }
}

/// Writes the beginning of pairs, and then the rest is left.
pub(crate) fn write_spine(
    values: &Values,
    id: ValueId,
    tasks: &mut Tasks<'_>,
    output: &mut Output,
) -> Result<(), AllocError>
    requires { 0 < length (spine_at values.now id).parts }
    ensures text { let spine = spine_at values.now id in
        OnOk result (Writes values.now (spine_text spine.parts spine.end)
        output.old tasks.old output.new tasks.new) }
    ensures longer { OnOk result (length output.old < length output.new) }
{
    match form_of(values, id) {
        Form::Text => {
            write_letters(values, id, '"', output)?;
            Ok(())
        }
        Form::Sequence => {
            output.push('[')?;
            write_item(values, id, tasks, output)
        }
        Form::Tuple => {
            output.push('(')?;
            write_part(values, id, tasks, output)
        }
    }
}

// Writes the characters that a spine begins with between two quotes, and gives what stands after
// them.
fn write_letters(
    values: &Values,
    id: ValueId,
    quote: char,
    output: &mut Output,
) -> Result<ValueId, AllocError>
    ensures text { OnOk result
        (output.new ≡ output.old ++ enclosed quote (letters (spine_at values.now id).parts)) }
    ensures longer { OnOk result (length output.old < length output.new) }
    ensures rest { IfOk result (λ rest.
        (spine_at values.now rest).parts ≡ others (spine_at values.now id).parts) }
{
    output.push(quote)?;
    let mut next = id;
    while let Along::Letter(c, rest) = goes_on(values, next) {
        push_escaped(output, quote, c)?;
        next = rest;
    }
    output.push(quote)?;
    Ok(next)
}

// Writes the next item of a sequence, or the characters that it goes on with, and then the rest is
// left. After the last item it ends the sequence.
fn write_item(
    values: &Values,
    id: ValueId,
    tasks: &mut Tasks<'_>,
    output: &mut Output,
) -> Result<(), AllocError>
    ensures text { OnOk result (Writes values.now (items_text (spine_at values.now id).parts)
        output.old tasks.old output.new tasks.new) }
    ensures longer { OnOk result (length output.old ≤ length output.new) }
{
    match goes_on(values, id) {
        Along::Letter(_, _) => {
            let rest = write_letters(values, id, '\'', output)?;
            tasks.push(Task::AfterItem(rest))
        }
        Along::Item(first, rest) => {
            tasks.push(Task::AfterItem(rest))?;
            tasks.push(Task::Value(first))
        }
        Along::Nil | Along::End => output.push(']'),
    }
}

/// Writes what stands after an item of a sequence, and then the rest is left.
pub(crate) fn write_after_item(
    values: &Values,
    id: ValueId,
    tasks: &mut Tasks<'_>,
    output: &mut Output,
) -> Result<(), AllocError>
    ensures text { OnOk result (Writes values.now (after_item (spine_at values.now id).parts)
        output.old tasks.old output.new tasks.new) }
    ensures longer { OnOk result (length output.old < length output.new) }
{
    match goes_on(values, id) {
        Along::Letter(_, _) | Along::Item(_, _) => {
            output.push(' ')?;
            write_item(values, id, tasks, output)
        }
        Along::Nil | Along::End => output.push(']'),
    }
}

// Writes the next part of a tuple, or its beginning, and then the rest is left.
fn write_part(
    values: &Values,
    id: ValueId,
    tasks: &mut Tasks<'_>,
    output: &mut Output,
) -> Result<(), AllocError>
    ensures text { let spine = spine_at values.now id in
        OnOk result (Writes values.now (parts_text spine.parts (end_text spine.end))
        output.old tasks.old output.new tasks.new) }
    ensures longer { OnOk result (length output.old ≤ length output.new) }
{
    match goes_on(values, id) {
        Along::Letter(c, rest) => {
            push_character(output, c)?;
            tasks.push(Task::AfterPart(rest))
        }
        Along::Item(first, rest) => {
            tasks.push(Task::AfterPart(rest))?;
            tasks.push(Task::Value(first))
        }
        Along::Nil | Along::End => {
            tasks.push(Task::Close)?;
            tasks.push(Task::Value(id))
        }
    }
}

/// Writes what stands after a part of a tuple, and then the rest is left.
pub(crate) fn write_after_part(
    values: &Values,
    id: ValueId,
    tasks: &mut Tasks<'_>,
    output: &mut Output,
) -> Result<(), AllocError>
    ensures text { let spine = spine_at values.now id in
        OnOk result (Writes values.now (after_part spine.parts (end_text spine.end))
        output.old tasks.old output.new tasks.new) }
    ensures longer { OnOk result (length output.old < length output.new) }
{
    output.push_two(',', ' ')?;
    write_part(values, id, tasks, output)
}
