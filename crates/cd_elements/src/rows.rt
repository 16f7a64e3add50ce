//! Rows of elements, fields and pairs as tasks. They are put before what is left to be written,
//! from the last to the first.
ghost use Rattle.std.specs.Prelude.{map, OnOk};
ghost use Rattle.cd_elements.specs.declared.task.Mark.TheVariants.{Comma, Semicolon};
ghost use Rattle.cd_elements.specs.Inner.Tasks.{text_in, Puts};
ghost use Rattle.cd_elements.specs.Inner.Rows.{each_after, part_text_in, pair_text_in};
ghost use Rattle.cd_elements.specs.Inner.Rows.{result_text_in};
ghost use Rattle.cd_elements.specs.Inner.Rows.{tuple_rest, record_rest, function_rest};

use crate::shape::ElementId;
use crate::task::{Mark, Task, Tasks};
use cd_syntax::name::Name;
use std::alloc::AllocError;

/// Puts elements and an end before what is left, but for the parenthesis that they begin with.
pub(crate) fn push_tuple(
    firsts: &[ElementId],
    end: ElementId,
    tasks: &mut Tasks<'_>,
) -> Result<(), AllocError>
    ensures { OnOk result (Puts (λ all. tuple_rest all firsts.now end) tasks.old tasks.new) }
{
    tasks.push_mark(Mark::Parenthesis)?;
    tasks.push_element(end)?;
    tasks.push_mark(Mark::Comma)?;
    match firsts {
        [] => Ok(()),
        [first, rest @ ..] => {
            push_elements(rest, tasks)?;
            tasks.push_element(*first)
        }
    }
}

/// Puts a record before what is left, but for the brace that it begins with.
pub(crate) fn push_record<'a>(
    parts: &'a [(Name, ElementId)],
    tasks: &mut Tasks<'a>,
) -> Result<(), AllocError>
    ensures { OnOk result (Puts (λ all. record_rest all parts.now) tasks.old tasks.new) }
{
    tasks.push_mark(Mark::Brace)?;
    match parts {
        [] => Ok(()),
        [first, rest @ ..] => {
            push_fields(rest, Mark::Semicolon, tasks)?;
            tasks.push(Task::Field(&first.0, first.1))
        }
    }
}

/// Puts a function before what is left, but for the word and the brace that it begins with.
pub(crate) fn push_function(
    pairs: &[(ElementId, Option<ElementId>)],
    tasks: &mut Tasks<'_>,
) -> Result<(), AllocError>
    ensures { OnOk result (Puts (λ all. function_rest all pairs.now) tasks.old tasks.new) }
{
    tasks.push_mark(Mark::Brace)?;
    match pairs {
        [] => Ok(()),
        [first, rest @ ..] => {
            push_pairs(rest, tasks)?;
            push_pair(*first, tasks)
        }
    }
}

// Puts elements before what is left, each after a comma.
fn push_elements(ids: &[ElementId], tasks: &mut Tasks<'_>) -> Result<(), AllocError>
    ensures { OnOk result (Puts
        (λ all. each_after Comma (map (text_in all) ids.now)) tasks.old tasks.new) }
{
    let mut index = ids.len();
    while index > 0 {
        index -= 1;
        tasks.push_element(ids[index])?;
        tasks.push_mark(Mark::Comma)?;
    }
    Ok(())
}

/// Puts fields before what is left, each after a mark.
pub(crate) fn push_fields<'a>(
    parts: &'a [(Name, ElementId)],
    mark: Mark,
    tasks: &mut Tasks<'a>,
) -> Result<(), AllocError>
    ensures { OnOk result (Puts
        (λ all. each_after mark (map (part_text_in all) parts.now)) tasks.old tasks.new) }
{
    let mut index = parts.len();
    while index > 0 {
        index -= 1;
        let part = &parts[index];
        tasks.push(Task::Field(&part.0, part.1))?;
        tasks.push_mark(mark)?;
    }
    Ok(())
}

// Puts pairs before what is left, each after a semicolon.
fn push_pairs(
    pairs: &[(ElementId, Option<ElementId>)],
    tasks: &mut Tasks<'_>,
) -> Result<(), AllocError>
    ensures { OnOk result (Puts
        (λ all. each_after Semicolon (map (pair_text_in all) pairs.now)) tasks.old tasks.new) }
{
    let mut index = pairs.len();
    while index > 0 {
        index -= 1;
        push_pair(pairs[index], tasks)?;
        tasks.push_mark(Mark::Semicolon)?;
    }
    Ok(())
}

// Puts a pair before what is left.
fn push_pair(pair: (ElementId, Option<ElementId>), tasks: &mut Tasks<'_>) -> Result<(), AllocError>
    ensures { OnOk result (Puts (λ all. pair_text_in all pair) tasks.old tasks.new) }
{
    push_result(pair.1, tasks)?;
    tasks.push_element(pair.0)
}

// Puts the result of a pair before what is left.
fn push_result(found: Option<ElementId>, tasks: &mut Tasks<'_>) -> Result<(), AllocError>
    ensures { OnOk result (Puts (λ all. result_text_in all found) tasks.old tasks.new) }
{
    match found {
        None => tasks.push_mark(Mark::Fails),
        Some(id) => {
            tasks.push_element(id)?;
            tasks.push_mark(Mark::Maps)
        }
    }
}
