//! Nodes that are there already.
ghost use Rattle.std.specs.Prelude.{◌≡◌, ◌<◌, length, IsTrue};
ghost use Rattle.cd_sets.specs.declared.node_id.NodeId.{NodeId as AnId};
ghost use Rattle.cd_model.specs.AllOf.{AllOf};
ghost use Rattle.cd_model.specs.Formula.{IsWithin};
ghost use Rattle.cd_empty.specs.Growth.{Grows};
ghost use Rattle.cd_empty.specs.Seen.{graph_of};
ghost use Rattle.cd_products.specs.Keeping.{AreValuesWithin, HoldSame};

use crate::covered::is_seen_within;
use crate::likely::are_likely_same;
use cd_empty::World;
use cd_sets::node_id::NodeId;
use cd_verdicts::Verdict;

/// The first of some nodes that holds what a node holds, or the node itself where none of them is
/// found to do so. Where memory runs out while a node is looked at, it is passed over.
pub fn known_node(world: &mut World, id: NodeId, others: &[NodeId]) -> NodeId
    requires id { id.0 < length (graph_of world.old) }
    requires others { AllOf (λ other. other.0 < length (graph_of world.old)) others.now }
    ensures same { HoldSame (graph_of world.old) id result }
    ensures node { result.0 < length (graph_of world.old) }
    ensures graph { graph_of world.new ≡ graph_of world.old }
    ensures grows { Grows world.old world.new }
{
    for other in others {
        if is_same(world, id, *other) {
            return *other;
        }
    }
    id
}

// Whether two nodes are found to hold the same.
fn is_same(world: &mut World, one: NodeId, other: NodeId) -> bool
    requires one { one.0 < length (graph_of world.old) }
    requires other { other.0 < length (graph_of world.old) }
    ensures same { IsTrue result → HoldSame (graph_of world.old) one other }
    ensures graph { graph_of world.new ≡ graph_of world.old }
    ensures grows { Grows world.old world.new }
{
    // The contract of this call says that the graph begins with the built-in nodes.
    if !are_likely_same(world.graph(), one, other) {
        return false;
    }
    is_within(world, one, other) && is_within(world, other, one)
}

// Whether what is in the one node is found to be in the other.
fn is_within(world: &mut World, one: NodeId, other: NodeId) -> bool
    requires one { one.0 < length (graph_of world.old) }
    requires other { other.0 < length (graph_of world.old) }
    ensures elements { IsTrue result → IsWithin (graph_of world.old) one other }
    ensures values { IsTrue result → AreValuesWithin (graph_of world.old) one other }
    ensures graph { graph_of world.new ≡ graph_of world.old }
    ensures grows { Grows world.old world.new }
{
    if is_seen_within(world.graph(), one, other) {
        return true;
    }
    match world.subtype(one, other) {
        Ok(Verdict::Empty) => true,
        Ok(Verdict::Inhabited(_)) | Err(_) => false,
    }
}
