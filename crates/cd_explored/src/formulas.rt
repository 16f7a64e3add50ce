//! Formulas for what is wanted.
ghost use Rattle.std.specs.Prelude.{◌≡◌, map, IfOk};
ghost use Rattle.cd_graph.specs.PlainFormula.{plain};
ghost use Rattle.cd_explored.specs.Inner.Made.{IsCapture, IsMade, AreFormulas};
ghost use Rattle.cd_explored.specs.Inner.Plan.{plain_plan, IsSoundPlan};
ghost use Rattle.cd_explored.specs.Inner.Wanted.{GrowTo};

use crate::first_wants::first_wants;
use crate::givers::givers;
use crate::plan::Plan;
use crate::reach::reached;
use crate::texts::text;
use crate::union::{comes, union_of};
use crate::want::Want;
use crate::wants::Wants;
use cd_builders::character;
use cd_graph::Formula;
use std::alloc::AllocError;

/// A formula for each thing that is wanted, where these variables at the first place are wanted
/// first.
pub fn formulas(plan: &Plan<'_, '_>, variables: usize) -> Result<Vec<Formula>, AllocError>
    requires { IsSoundPlan (plain_plan plan.now) }
    ensures { IfOk result (λ batch.
        AreFormulas (plain_plan plan.now) variables (map plain batch.items)) }
{
    let mut wants = first_wants(plan, variables)?;
    let mut batch = Vec::new(plan.alloc);
    while let Some(want) = wants.get(batch.len()).copied() {
        batch.push(formula_of(plan, &mut wants, want)?)?;
    }
    wants.knows();
    Ok(batch)
}

// The formula for one thing that is wanted.
fn formula_of(plan: &Plan<'_, '_>, wants: &mut Wants, want: Want) -> Result<Formula, AllocError>
    requires { IsSoundPlan (plain_plan plan.now) }
    ensures made { IfOk result (λ is. IsMade (plain_plan plan.now) wants.new want (plain is)) }
    ensures grow { GrowTo wants.old wants.new }
{
    match want {
        Want::Comes(number) => comes(plan, number),
        Want::Captures(variable, number) => captures(plan, wants, variable, number),
        Want::Text(number, from) => text(plan, wants, number, from),
        Want::Character(c) => character(plan.alloc, c),
    }
}

// What a variable captures at a place.
fn captures(
    plan: &Plan<'_, '_>,
    wants: &mut Wants,
    variable: usize,
    number: usize,
) -> Result<Formula, AllocError>
    requires { IsSoundPlan (plain_plan plan.now) }
    ensures made { IfOk result
        (λ is. IsCapture (plain_plan plan.now) wants.new variable number (plain is)) }
    ensures grow { GrowTo wants.old wants.new }
{
    let steps = plan.explored.steps.as_slice();
    let numbers = reached(plan.alloc, steps, variable, number)?;
    let givers = givers(plan.alloc, steps, variable, numbers.as_slice())?;
    union_of(plan, wants, variable, givers.as_slice())
}
