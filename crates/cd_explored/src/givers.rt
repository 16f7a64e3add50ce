//! The steps that give a variable something by themselves.
ghost use Rattle.std.specs.Prelude.{◌≡◌, ◌++◌, IfOk, OnOk};
ghost use Rattle.cd_explored.specs.Inner.Reached.{rows_of};
ghost use Rattle.cd_explored.specs.Inner.Givers.{gives, givers_in, givers_of};

use crate::step::Step;
use std::alloc::{AllocError, Global};

/// A step that gives a variable something, and the number of its place.
#[derive(Clone, Copy)]
pub struct Giver<'k> {
    pub number: usize,
    pub step: Step<'k>,
}

/// The steps that give a variable something at the places with these numbers.
pub(crate) fn givers<'k>(
    alloc: Global,
    steps: &[Vec<Step<'k>>],
    variable: usize,
    numbers: &[usize],
) -> Result<Vec<Giver<'k>>, AllocError>
    ensures { IfOk result (λ all.
        all.items ≡ givers_of variable (rows_of steps.now) numbers.now) }
{
    let mut all = Vec::new(alloc);
    for number in numbers {
        if let Some(row) = steps.get(*number) {
            add_givers(&mut all, row.as_slice(), variable, *number)?;
        }
    }
    Ok(all)
}

// Adds those of one place.
fn add_givers<'k>(
    all: &mut Vec<Giver<'k>>,
    row: &[Step<'k>],
    variable: usize,
    number: usize,
) -> Result<(), AllocError>
    ensures { OnOk result
        (all.new.items ≡ all.old.items ++ givers_in variable number row.now) }
{
    for step in row {
        if gives(step, variable) {
            all.push(Giver {
                number,
                step: *step,
            })?;
        }
    }
    Ok(())
}

/// Whether a step gives the variable something.
pub fn gives(step: &Step<'_>, variable: usize) -> bool
    ensures { result ≡ gives variable step.now }
{
    match step {
        Step::Takes(other) => *other == variable,
        Step::Puts(other, _) => *other == variable,
        Step::Gathers(other, _, _) => *other == variable,
        Step::Leads(_, _) => false,
    }
}
