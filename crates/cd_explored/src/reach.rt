//! The places that are reached from one.
ghost use Rattle.std.specs.Prelude.{◌≡◌, ◌++◌, ◌∷◌, ◌⊎◌, [], ℕ, false, true, slice_get, slice_set};
ghost use Rattle.std.specs.Prelude.{unwrap_or, IfOk, OnOk};
ghost use Rattle.std.specs.List.{All, Contains};
ghost use Rattle.cd_explored.specs.Inner.Reached.{rows_of, led_to, IsLedBy, IsLedTo, ReachesBy};
ghost use Rattle.cd_explored.specs.Inner.Reached.{AreMarked, Adds};

use crate::step::Step;
use std::alloc::{AllocError, Global};

/// The places that are reached from one, by steps that do not leave out the variable.
pub(crate) fn reached(
    alloc: Global,
    steps: &[Vec<Step<'_>>],
    variable: usize,
    from: usize,
) -> Result<Vec<usize>, AllocError>
    ensures sound { IfOk result (λ all.
        All (ReachesBy (rows_of steps.now) variable from) all.items) }
    ensures whole { IfOk result (λ all. (number : ℕ)
        → ReachesBy (rows_of steps.now) variable from number → Contains all.items number) }
{
    let mut marks = Vec::from_elem(alloc, false, steps.len())?;
    let mut all = Vec::new(alloc);
    add(&mut marks, &mut all, from)?;
    let mut done = 0;
    while let Some(number) = all.as_slice().get(done).copied() {
        follow(&mut marks, &mut all, steps, variable, number)?;
        done += 1;
    }
    Ok(all)
}

// Adds the places that the steps of a place lead to.
fn follow(
    marks: &mut Vec<bool>,
    all: &mut Vec<usize>,
    steps: &[Vec<Step<'_>>],
    variable: usize,
    number: usize,
) -> Result<(), AllocError>
    requires { AreMarked marks.old.items all.old.items }
    ensures marked { OnOk result (AreMarked marks.new.items all.new.items) }
    ensures more { OnOk result (Adds (IsLedTo (rows_of steps.now) variable number)
        all.old.items all.new.items) }
    ensures whole { OnOk result ((next : ℕ) → IsLedTo (rows_of steps.now) variable number next
        → Contains all.new.items next) }
{
    match steps.get(number) {
        Some(row) => add_led(marks, all, row.as_slice(), variable),
        None => Ok(()),
    }
}

// Adds the places that steps lead to.
fn add_led(
    marks: &mut Vec<bool>,
    all: &mut Vec<usize>,
    row: &[Step<'_>],
    variable: usize,
) -> Result<(), AllocError>
    requires { AreMarked marks.old.items all.old.items }
    ensures marked { OnOk result (AreMarked marks.new.items all.new.items) }
    ensures more { OnOk result (Adds (IsLedBy variable row.now) all.old.items all.new.items) }
    ensures whole { OnOk result ((next : ℕ) → IsLedBy variable row.now next
        → Contains all.new.items next) }
{
    for step in row {
        if let Some(next) = led_to(step, variable) {
            add(marks, all, next)?;
        }
    }
    Ok(())
}

// The place that a step leads to, unless it leaves out the variable.
fn led_to(step: &Step<'_>, variable: usize) -> Option<usize>
    ensures { result ≡ led_to variable step.now }
{
    match step {
        Step::Leads(Some(but), next) => {
            if *but == variable {
                return None;
            }
            Some(*next)
        }
        Step::Leads(None, next) => Some(*next),
        _ => None,
    }
}

// Adds a place, if it is not marked yet, and marks it.
fn add(marks: &mut Vec<bool>, all: &mut Vec<usize>, number: usize) -> Result<(), AllocError>
    requires { AreMarked marks.old.items all.old.items }
    ensures marked { OnOk result (AreMarked marks.new.items all.new.items) }
    ensures there { OnOk result (Contains all.new.items number) }
    ensures grows { OnOk result ((all.new.items ≡ all.old.items)
        ⊎ (all.new.items ≡ all.old.items ++ number ∷ [])) }
{
    if is_marked(marks.as_slice(), number) {
        return Ok(());
    }
    all.push(number)?;
    mark(marks, number);
    Ok(())
}

// Whether a place is marked.
fn is_marked(marks: &[bool], number: usize) -> bool
    ensures { result ≡ unwrap_or (slice_get marks.now number) false }
{
    marks.get(number).copied().unwrap_or(false)
}

// Marks a place.
fn mark(marks: &mut Vec<bool>, number: usize)
    ensures { marks.new.items ≡ slice_set marks.old.items number true }
{
    if let Some(place) = marks.get_mut(number) {
        *place = true;
    }
}
