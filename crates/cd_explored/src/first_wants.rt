//! What is wanted first.
ghost use Rattle.std.specs.Prelude.{IfOk, OnOk};
ghost use Rattle.cd_explored.specs.Inner.Plan.{plain_plan};
ghost use Rattle.cd_explored.specs.Inner.Wanted.{GrowTo, AreFirst, AreGatheredBy, AreGathered};

use crate::plan::Plan;
use crate::step::Step;
use crate::want::Want;
use crate::wants::Wants;
use std::alloc::{AllocError, Global};

/// What each of these variables captures at the first place, and what is gathered at any place.
pub(crate) fn first_wants(plan: &Plan<'_, '_>, variables: usize) -> Result<Wants, AllocError>
    ensures first { IfOk result (λ wants. AreFirst wants variables) }
    ensures gathered { IfOk result (λ wants. AreGathered wants (plain_plan plan.now).rows) }
{
    let mut wants = at_first_place(plan.alloc, variables)?;
    for row in plan.explored.steps.as_slice() {
        add_gathered(&mut wants, row.as_slice())?;
    }
    Ok(wants)
}

// What each of these variables captures at the first place.
fn at_first_place(alloc: Global, variables: usize) -> Result<Wants, AllocError>
    ensures { IfOk result (λ wants. AreFirst wants variables) }
{
    let mut wants = Wants::new(alloc);
    for variable in 0..variables {
        wants.number(Want::Captures(variable, 0))?;
    }
    Ok(wants)
}

// Wants what is gathered by steps.
fn add_gathered(wants: &mut Wants, row: &[Step<'_>]) -> Result<(), AllocError>
    ensures gathered { OnOk result (AreGatheredBy wants.new row.now) }
    ensures grow { GrowTo wants.old wants.new }
{
    for step in row {
        if let Step::Gathers(variable, _, next) = step {
            wants.number(Want::Captures(*variable, *next))?;
        }
    }
    Ok(())
}
