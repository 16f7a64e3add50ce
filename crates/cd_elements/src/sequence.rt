//! A sequence as tasks. Its parts are put before what is left to be written, from the last to the
//! first.
ghost use Rattle.std.specs.Prelude.{◌≡◌, OnOk, IfOk};
ghost use Rattle.cd_elements.specs.Elements.{table};
ghost use Rattle.cd_elements.specs.Inner.Tasks.{part_in, PutsIn, Puts};
ghost use Rattle.cd_elements.specs.Inner.Sequences.{separator, opening, closing, before_rest};
ghost use Rattle.cd_elements.specs.Inner.Sequences.{edge_after};
ghost use Rattle.cd_elements.specs.Inner.Rows.{sequence_rest};

use crate::elements::Elements;
use crate::look::letter_at;
use crate::shape::ElementId;
use crate::task::{Mark, Task, Tasks};
use std::alloc::AllocError;

// What the parts of a sequence that are put begin with. The quote before a run of characters is not
// put yet.
#[derive(Clone, Copy)]
enum Edge {
    Nothing,
    Run,
    Other,
}

/// Puts a sequence before what is left, but for the bracket that it begins with.
pub(crate) fn push_sequence(
    elements: &Elements,
    firsts: &[ElementId],
    tasks: &mut Tasks<'_>,
) -> Result<(), AllocError>
    ensures { let all = table elements.now in OnOk result
        (PutsIn all (sequence_rest all firsts.now) tasks.old tasks.new) }
{
    tasks.push_mark(Mark::Bracket)?;
    let mut edge = Edge::Nothing;
    let mut index = firsts.len();
    while index > 0 {
        index -= 1;
        edge = push_part(elements, firsts[index], edge, tasks)?;
    }
    push_opening(edge, tasks)
}

// Puts a part before the rest of its sequence.
fn push_part(
    elements: &Elements,
    id: ElementId,
    edge: Edge,
    tasks: &mut Tasks<'_>,
) -> Result<Edge, AllocError>
    ensures edge { IfOk result (λ found. found ≡ edge_after (part_in (table elements.now) id)) }
    ensures text { let all = table elements.now in
        OnOk result (PutsIn all (before_rest edge (part_in all id)) tasks.old tasks.new) }
{
    match letter_at(elements, id) {
        Some(c) => {
            push_closing(edge, tasks)?;
            tasks.push(Task::Letter(c))?;
            Ok(Edge::Run)
        }
        None => {
            push_separator(edge, tasks)?;
            tasks.push_element(id)?;
            Ok(Edge::Other)
        }
    }
}

// Puts what stands between a part that is no character and the rest.
fn push_separator(edge: Edge, tasks: &mut Tasks<'_>) -> Result<(), AllocError>
    ensures { OnOk result (Puts (λ all. separator edge) tasks.old tasks.new) }
{
    match edge {
        Edge::Nothing => Ok(()),
        Edge::Run => {
            tasks.push_mark(Mark::Quote)?;
            tasks.push_mark(Mark::Space)
        }
        Edge::Other => tasks.push_mark(Mark::Space),
    }
}

// Puts what stands between a character and the rest.
fn push_closing(edge: Edge, tasks: &mut Tasks<'_>) -> Result<(), AllocError>
    ensures { OnOk result (Puts (λ all. closing edge) tasks.old tasks.new) }
{
    match edge {
        Edge::Nothing => tasks.push_mark(Mark::Quote),
        Edge::Run => Ok(()),
        Edge::Other => {
            tasks.push_mark(Mark::Space)?;
            tasks.push_mark(Mark::Quote)
        }
    }
}

// Puts the quote before a run of characters.
fn push_opening(edge: Edge, tasks: &mut Tasks<'_>) -> Result<(), AllocError>
    ensures { OnOk result (Puts (λ all. opening edge) tasks.old tasks.new) }
{
    match edge {
        Edge::Run => tasks.push_mark(Mark::Quote),
        Edge::Nothing | Edge::Other => Ok(()),
    }
}
