//! Built-in nodes, and what is known of them in the graph of a world.
ghost use Rattle.std.specs.Prelude.{◌≡◌, ◌<◌, ◌↔◌, true, length};
ghost use Rattle.cd_model.specs.Formula.{IsGraph};
ghost use Rattle.cd_model.specs.Membership.{answers};
ghost use Rattle.cd_model.specs.Thing.{Thing};
ghost use Rattle.cd_matching.specs.Sequences.{nil};
ghost use Rattle.cd_empty.specs.Seen.{graph_of};

use cd_empty::World;
use cd_graph::built_in::{EMPTY, NIL};
use cd_sets::node_id::NodeId;

/// The node that holds nothing.
pub(crate) fn empty(world: &World) -> NodeId
    ensures holds { (e : Thing) → answers (graph_of world.now) e result true → ⊥ }
    ensures node { result.0 < length (graph_of world.now) }
    ensures sound { IsGraph (graph_of world.now) }
{
    // The contract of this call says that the graph begins with the built-in nodes.
    world.graph();
    EMPTY
}

/// The node of the empty sequence.
pub(crate) fn nil(world: &World) -> NodeId
    ensures holds { (e : Thing) → answers (graph_of world.now) e result true ↔ (e ≡ nil) }
    ensures node { result.0 < length (graph_of world.now) }
    ensures sound { IsGraph (graph_of world.now) }
{
    // The contract of this call says that the graph begins with the built-in nodes.
    world.graph();
    NIL
}
