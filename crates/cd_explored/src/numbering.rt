//! Steps by the numbers of the places that they lead to.
ghost use Rattle.std.specs.Prelude.{◌≡◌, ◌++◌, List, IfOk};
ghost use Rattle.cd_explored.specs.Inner.NumberedSteps.{AreNumbered};
ghost use Rattle.cd_explored.specs.Inner.PlainSteps.{plain_places, steps_of, all_steps};
ghost use Rattle.cd_explored.specs.declared.step.Step.{Step as CodeStep};

use crate::lead::Lead;
use crate::places::Places;
use crate::step::Step;
use std::alloc::{AllocError, Global};

/// The steps by numbers of places, which are added where they are not there.
pub(crate) fn number_all<'k>(
    alloc: Global,
    places: &mut Places,
    leads: Vec<Lead<'k>>,
) -> Result<Vec<Step<'k>>, AllocError>
    ensures { IfOk result (λ steps. AreNumbered (plain_places places.old)
        (plain_places places.new) steps.items (all_steps leads.entry.items)) }
{
    let mut steps = Vec::new(alloc);
    for lead in leads {
        number(places, lead, &mut steps)?;
    }
    Ok(steps)
}

// Adds one or more steps.
fn number<'k>(
    places: &mut Places,
    lead: Lead<'k>,
    steps: &mut Vec<Step<'k>>,
) -> Result<(), AllocError>
    ensures { IfOk result (λ _. (more : List CodeStep)
        × (steps.new.items ≡ steps.old.items ++ more)
        × AreNumbered (plain_places places.old) (plain_places places.new) more
        (steps_of lead.entry)) }
{
    match lead {
        Lead::Takes(variable) => steps.push(Step::Takes(variable))?,
        Lead::Puts(variable, constant) => steps.push(Step::Puts(variable, constant))?,
        Lead::Leads(next) => {
            let next = places.number(next)?;
            steps.push(Step::Leads(None, next))?;
        }
        Lead::Gathers(variable, item, next) => {
            let item = places.number(item)?;
            let next = places.number(next)?;
            steps.push(Step::Leads(None, item))?;
            steps.push(Step::Leads(Some(variable), next))?;
            steps.push(Step::Gathers(variable, item, next))?;
        }
    }
    Ok(())
}
