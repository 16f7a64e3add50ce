//! Nodes of what is wanted.
ghost use Rattle.std.specs.Prelude.{◌≡◌, ◌+◌, IfOk};
ghost use Rattle.cd_model.specs.BuiltIns.{node};
ghost use Rattle.cd_graph.specs.PlainFormula.{plain};
ghost use Rattle.cd_explored.specs.Inner.Made.{IsNodeOfWant, IsPairOf};
ghost use Rattle.cd_explored.specs.Inner.Plan.{plain_plan};
ghost use Rattle.cd_explored.specs.Inner.Wanted.{GrowTo};

use crate::plan::Plan;
use crate::want::Want;
use crate::wants::Wants;
use cd_graph::Formula;
use cd_sets::node_id::NodeId;
use std::alloc::AllocError;

/// The pairs of what is wanted.
pub(crate) fn pair(
    plan: &Plan<'_, '_>,
    wants: &mut Wants,
    one: Want,
    other: Want,
) -> Result<Formula, AllocError>
    ensures made { IfOk result
        (λ is. IsPairOf (plain_plan plan.now) wants.new one other (plain is)) }
    ensures grow { GrowTo wants.old wants.new }
{
    let first = node_of(plan, wants, one)?;
    let second = node_of(plan, wants, other)?;
    Ok(Formula::pair(first, second))
}

// The node of what is wanted.
fn node_of(plan: &Plan<'_, '_>, wants: &mut Wants, want: Want) -> Result<NodeId, AllocError>
    ensures made { IfOk result (λ id. IsNodeOfWant (plain_plan plan.now) wants.new id want) }
    ensures grow { GrowTo wants.old wants.new }
{
    let number = wants.number(want)?;
    place(plan.first, number)
}

/// The node that is so many after the first. No graph has so many that their number is no word.
pub fn place(first: usize, number: usize) -> Result<NodeId, AllocError>
    ensures { IfOk result (λ id. id ≡ node (first + number)) }
{
    match first.checked_add(number) {
        Some(sum) => Ok(NodeId(sum)),
        None => Err(AllocError),
    }
}
