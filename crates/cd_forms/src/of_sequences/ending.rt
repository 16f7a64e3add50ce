//! The states from which steps lead to the end of a sequence.
ghost use Rattle.std.specs.Prelude.{◌≡◌, true, zero, map, length, IfOk, slice_set};
ghost use Rattle.cd_forms.specs.Inner.Ending.{AreMarked, IsPass, leads_on, one_leads};
ghost use Rattle.cd_forms.specs.Inner.Ending.{mark_if};
ghost use Rattle.cd_forms.specs.Inner.ItemQuestions.{is_marked};
ghost use Rattle.cd_forms.specs.Inner.States.{plain_state};

use crate::of_sequences::state::State;
use crate::of_sequences::step::Step;
use std::alloc::{AllocError, Global};

/// Marks the states from which the end is reached.
pub(crate) fn ending(alloc: Global, states: &[State]) -> Result<Vec<bool>, AllocError>
    ensures { IfOk result (λ marks. AreMarked (map plain_state states.now) marks.items) }
{
    let mut marks = ends_of(alloc, states)?;
    let mut more = true;
    while more {
        more = mark_more(states, &mut marks);
    }
    Ok(marks)
}

// Marks the states that end themselves.
fn ends_of(alloc: Global, states: &[State]) -> Result<Vec<bool>, AllocError>
    ensures { IfOk result
        (λ marks. marks.items ≡ map (λ state. state.ends) states.now) }
{
    let mut marks = Vec::new(alloc);
    for state in states {
        marks.push(state.ends)?;
    }
    Ok(marks)
}

// Marks states, last ones first, from which a step leads to a marked one, and says whether there
// was one.
fn mark_more(states: &[State], marks: &mut Vec<bool>) -> bool
    requires { length marks.old.items ≡ length states.now }
    ensures { IsPass (map plain_state states.now) zero marks.old.items marks.new.items result }
{
    let mut more = false;
    let mut number = states.len();
    while number > 0 {
        number -= 1;
        more |= mark_one(&states[number], marks, number);
    }
    more
}

// Marks a state, if a step leads from it to a marked one, and says whether it did.
fn mark_one(state: &State, marks: &mut Vec<bool>, number: usize) -> bool
    ensures leads { result ≡ leads_on marks.old.items number (plain_state state.now) }
    ensures marked { marks.new.items ≡ mark_if result marks.old.items number }
{
    let leads = leads_on(state, marks.as_slice(), number);
    if leads {
        mark(marks, number);
    }
    leads
}

// Whether a state is not marked, and a step leads from it to a marked one.
fn leads_on(state: &State, marks: &[bool], number: usize) -> bool
    ensures { result ≡ leads_on marks.now number (plain_state state.now) }
{
    !is_marked(marks, number) && one_leads(state.steps.as_slice(), marks)
}

// Whether one of these steps leads to a marked state.
fn one_leads(steps: &[Step], marks: &[bool]) -> bool
    ensures { result ≡ one_leads marks.now steps.now }
{
    steps.iter().any(|step| is_marked(marks, step.rest))
}

/// Whether a state is marked.
pub(crate) fn is_marked(marks: &[bool], number: usize) -> bool
    ensures { result ≡ is_marked marks.now number }
{
    marks.get(number).copied().unwrap_or(false)
}

// Marks a state.
fn mark(marks: &mut Vec<bool>, number: usize)
    ensures { marks.new.items ≡ slice_set marks.old.items number true }
{
    if let Some(place) = marks.get_mut(number) {
        *place = true;
    }
}
