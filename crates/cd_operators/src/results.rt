//! The types of sums and of differences.
ghost use Rattle.std.specs.Prelude.{◌≡◌, ◌<◌, length, IfOk, OnErr};
ghost use Rattle.cd_model.specs.Formula.{IsGraph};
ghost use Rattle.cd_graph.specs.Nodes.{nodes};
ghost use Rattle.cd_empty.specs.Growth.{Grows};
ghost use Rattle.cd_empty.specs.Seen.{graph_of};
ghost use Rattle.cd_operators.specs.Inner.Results.{AreIntegersOf, AreResults};

use crate::combined::combined;
use crate::operation::Operation;
use cd_builders::put;
use cd_empty::World;
use cd_graph::built_in::INT;
use cd_graph::{Formula, Graph};
use cd_needs::asking::question;
use cd_normal::basics;
use cd_products::known_node;
use cd_sets::int_set::IntSet;
use cd_sets::node_id::NodeId;
use std::alloc::{AllocError, Global};

/// A node that holds exactly the results of an operation on an integer of the first node and one of
/// the second, as far as they are integers of 128 bits.
///
/// # Errors
///
/// Want of memory. The graph stays as it was.
pub(crate) fn results(
    alloc: Global,
    world: &mut World,
    operation: Operation,
    first: NodeId,
    second: NodeId,
) -> Result<NodeId, AllocError>
    requires first { first.0 < length (graph_of world.old) }
    requires second { second.0 < length (graph_of world.old) }
    ensures results { IfOk result (λ id.
        AreResults operation (graph_of world.old) (graph_of world.new) first second id) }
    ensures node { IfOk result (λ id. id.0 < length (graph_of world.new)) }
    ensures unchanged { OnErr result (graph_of world.new ≡ graph_of world.old) }
    ensures sound { IsGraph (graph_of world.new) }
    ensures grows { Grows world.old world.new }
{
    let one = integers_of(alloc, world.graph(), first)?;
    let other = integers_of(alloc, world.graph(), second)?;
    let all = Formula::ints(combined(alloc, operation, &one, &other)?);
    let id = put(alloc, world, all)?;
    Ok(known_node(world, id, &[first, second, INT]))
}

// The integers of a node.
fn integers_of(alloc: Global, graph: &Graph, id: NodeId) -> Result<IntSet, AllocError>
    requires { id.0 < length (nodes graph.now) }
    ensures { IfOk result (λ set. AreIntegersOf (nodes graph.now) id set) }
{
    let asked = question(alloc, &[id], &[])?;
    Ok(basics(alloc, graph, &asked)?.integers)
}
