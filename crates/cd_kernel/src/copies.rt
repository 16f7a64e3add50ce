//! Copies of the automaton of an expression.
ghost use Rattle.std.specs.Prelude.{◌≡◌, ◌<◌, ◌^◌, None, map, IfOk};
ghost use Rattle.cd_matching.specs.PlainKernel.{plain_nodes};
ghost use Rattle.cd_matching.specs.PlainPattern.{plain_regular};
ghost use Rattle.cd_moves.specs.Automaton.{items_in};
ghost use Rattle.cd_kernel.specs.Inner.Building.{put_copy, steps_of, put_row, put_rows};
ghost use Rattle.cd_kernel.specs.Inner.Gathering.{numbered, gathering};
ghost use Rattle.cd_kernel.specs.Inner.PlainGroups.{plain_group};
ghost use Rattle.cd_kernel.specs.Inner.PlainSteps.{plain_steps};
ghost use Rattle.cd_kernel.specs.Inner.Plans.{IsPlanOf};
ghost use Rattle.cd_moves.specs.Inner.Rows.{plain_row, plain_rows};

use crate::count::count;
use crate::gathering::{Group, add_gathering};
use crate::names::number;
use crate::rows::{Steps, places, put_row, put_rows};
use crate::states::add_states;
use cd_matching::kernel::KernelNode;
use cd_matching::pattern::RegPat;
use cd_moves::first_moves::first_moves;
use cd_moves::moves::{Move, Moves};
use cd_syntax::name::Name;
use std::alloc::{AllocError, Global};

/// The moves of an expression: the first ones, and those after each item.
#[derive(Drop)]
pub(crate) struct Plan {
    pub(crate) start: Moves,
    pub(crate) rows: Vec<Moves>,
}

/// The moves of an expression.
pub(crate) fn make_plan(alloc: Global, is: &RegPat) -> Result<Plan, AllocError>
    ensures { IfOk result (λ plan. IsPlanOf (plain_regular is.now) plan) }
{
    // There is no memory for so many items.
    if count(is).is_none() {
        return Err(AllocError);
    }
    plan_of(alloc, is)
}

fn plan_of(alloc: Global, is: &RegPat) -> Result<Plan, AllocError>
    requires { items_in (plain_regular is.now) < 2 ^ 64 }
    ensures { IfOk result (λ plan. IsPlanOf (plain_regular is.now) plan) }
{
    let start = first_moves(alloc, is, 0)?;
    let end = Moves::one(alloc, Move::End)?;
    let mut rows = Vec::new(alloc);
    add_states(alloc, is, 0, &end, &mut rows)?;
    rows.reverse();
    Ok(Plan { start, rows })
}

/// Puts a copy for a group after these nodes, which has the nodes of its items already, and gives
/// the number of its first state.
pub(crate) fn put_copy(
    alloc: Global,
    variables: &[Name],
    is: &RegPat,
    plan: &Plan,
    group: &Group,
    items: Vec<usize>,
    nodes: &mut Vec<KernelNode>,
) -> Result<usize, AllocError>
    requires { IsPlanOf (plain_regular is.now) plan.now }
    ensures { IfOk result (λ number. (number, plain_nodes nodes.new.items)
        ≡ put_copy variables.now (plain_regular is.now) (plain_group group.now)
        (items.items, plain_nodes nodes.old.items)) }
{
    let group = group.names.as_slice();
    let steps = steps(alloc, variables, is, plan, group, items, nodes.as_slice())?;
    Ok(put_states(&steps, plan, nodes)?)
}

// What the states of a copy need, where they are put after these nodes.
fn steps(
    alloc: Global,
    variables: &[Name],
    is: &RegPat,
    plan: &Plan,
    group: &[Name],
    items: Vec<usize>,
    nodes: &[KernelNode],
) -> Result<Steps, AllocError>
    requires { IsPlanOf (plain_regular is.now) plan.now }
    ensures { IfOk result (λ steps. plain_steps steps ≡ steps_of variables.now group.now
        (plain_regular is.now) (items.items, plain_nodes nodes.now)) }
{
    Ok(Steps {
        group: numbers(alloc, variables, group)?,
        gatherers: gatherers(alloc, variables, group, is)?,
        items,
        states: places(alloc, group.len(), nodes.len(), plan.rows.as_slice())?,
    })
}

// Puts the states after each item, and then the first one, whose number it gives.
fn put_states(steps: &Steps, plan: &Plan, nodes: &mut Vec<KernelNode>) -> Result<usize, AllocError>
    ensures { IfOk result (λ number. (number, plain_nodes nodes.new.items)
        ≡ put_row (plain_steps steps.now) (plain_row plan.now.start)
        (put_rows (plain_steps steps.now) (plain_rows plan.now.rows.items)
        (plain_nodes nodes.old.items))) }
{
    put_rows(steps, plan.rows.as_slice(), nodes)?;
    Ok(put_row(steps, &plan.start, nodes)?)
}

fn numbers(alloc: Global, variables: &[Name], names: &[Name]) -> Result<Vec<usize>, AllocError>
    ensures { IfOk result (λ numbers. numbers.items ≡ map (numbered variables.now) names.now) }
{
    let mut numbers = Vec::new(alloc);
    for name in names {
        numbers.push(number(variables, name))?;
    }
    Ok(numbers)
}

fn gatherers(
    alloc: Global,
    variables: &[Name],
    group: &[Name],
    is: &RegPat,
) -> Result<Vec<Option<usize>>, AllocError>
    ensures { IfOk result (λ gatherers.
        gatherers.items ≡ gathering variables.now group.now None (plain_regular is.now)) }
{
    let mut gatherers = Vec::new(alloc);
    add_gathering(variables, group, None, is, &mut gatherers)?;
    Ok(gatherers)
}
