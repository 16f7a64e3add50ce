//! What is in one node and outside another.
ghost use Rattle.std.specs.Prelude.{◌<◌, length, map, IfOk};
ghost use Rattle.cd_model.specs.AllOf.{AllOf};
ghost use Rattle.cd_model.specs.Formula.{IsFormula, IsGraph};
ghost use Rattle.cd_graph.specs.PlainFormula.{plain};
ghost use Rattle.cd_empty.specs.Growth.{Grows};
ghost use Rattle.cd_empty.specs.Seen.{graph_of};
ghost use Rattle.cd_sites.specs.Inner.Differences.{IsDifference, IsLeftOver};

use crate::members::members_of;
use crate::rest::{formula_without, left_of_each};
use crate::tests::is_within;
use cd_builders::put;
use cd_empty::World;
use cd_graph::built_in::EMPTY;
use cd_graph::{Formula, Formulas};
use cd_products::are_disjoint;
use cd_sets::node_id::NodeId;
use std::alloc::{AllocError, Global};

/// A node that holds exactly what is in the one node and outside the other. Where nothing is in
/// both it is the one node, and where all of the one is in the other, the empty node. Else the
/// members of a union are taken by themselves: those with nothing in common with the other node
/// stay as they are, and those that are in it go.
pub(crate) fn difference(
    alloc: Global,
    world: &mut World,
    one: NodeId,
    other: NodeId,
) -> Result<NodeId, AllocError>
    requires one { one.0 < length (graph_of world.old) }
    requires other { other.0 < length (graph_of world.old) }
    ensures difference { IfOk result
        (λ id. IsDifference (graph_of world.old) one other (graph_of world.new) id) }
    ensures sound { IsGraph (graph_of world.new) }
    ensures grows { Grows world.old world.new }
{
    // The contract of this call says that the graph begins with the built-in nodes.
    world.graph();
    if is_within(world, one, other)? {
        return Ok(EMPTY);
    }
    if are_disjoint(alloc, world, one, other)? {
        return Ok(one);
    }
    new_difference(alloc, world, one, other)
}

fn new_difference(
    alloc: Global,
    world: &mut World,
    one: NodeId,
    other: NodeId,
) -> Result<NodeId, AllocError>
    requires one { one.0 < length (graph_of world.old) }
    requires other { other.0 < length (graph_of world.old) }
    ensures difference { IfOk result
        (λ id. IsDifference (graph_of world.old) one other (graph_of world.new) id) }
    ensures sound { IsGraph (graph_of world.new) }
    ensures grows { Grows world.old world.new }
{
    let members = members_of(alloc, world.graph().formula(one))?;
    if members.len() < 2 {
        let formula = formula_without(alloc, world.graph(), one, other)?;
        return Ok(put(alloc, world, formula)?);
    }
    left_of_members(alloc, world, members, other)
}

// A union of what of each of some formulas is outside a node.
fn left_of_members(
    alloc: Global,
    world: &mut World,
    members: Vec<Formula>,
    other: NodeId,
) -> Result<NodeId, AllocError>
    requires members { AllOf (IsFormula (length (graph_of world.old))) (map plain members.items) }
    requires other { other.0 < length (graph_of world.old) }
    ensures left { IfOk result (λ id. IsLeftOver (graph_of world.old) (map plain members.items)
        other (graph_of world.new) id) }
    ensures sound { IsGraph (graph_of world.new) }
    ensures grows { Grows world.old world.new }
{
    // The contract of this call says that the graph is sound.
    world.graph();
    let first = world.extend(Formulas::of(members)?)?;
    let left = left_of_each(alloc, world, first, other)?;
    Ok(put(alloc, world, Formula::or(Formulas::of(left)?))?)
}
