//! The type of the items of sequences.
ghost use Rattle.std.specs.Prelude.{◌≡◌, ◌<◌, length, IfOk, OnErr};
ghost use Rattle.cd_meaning.specs.Sequences.{IsItemOf};
ghost use Rattle.cd_meaning.specs.Sets.{◌⊆◌, elements_of};
ghost use Rattle.cd_model.specs.Formula.{IsGraph};
ghost use Rattle.cd_empty.specs.Growth.{Grows};
ghost use Rattle.cd_empty.specs.Seen.{graph_of};

use crate::of_sequences::ending::ending;
use crate::of_sequences::explore::explore;
use crate::of_sequences::item_questions::item_questions;
use cd_builders::union;
use cd_empty::World;
use cd_sets::node_id::NodeId;
use std::alloc::{AllocError, Global};

/// A node that holds exactly the items of the sequences of a node. Where one node of the graph is
/// found that holds them it is that node.
///
/// # Errors
///
/// Want of memory. The graph stays as it was.
pub fn items(alloc: Global, world: &mut World, list: NodeId) -> Result<NodeId, AllocError>
    requires { list.0 < length (graph_of world.old) }
    ensures has { IfOk result (λ id. IsItemOf (elements_of (graph_of world.old) list)
        ⊆ elements_of (graph_of world.new) id) }
    ensures only { IfOk result (λ id. elements_of (graph_of world.new) id
        ⊆ IsItemOf (elements_of (graph_of world.old) list)) }
    ensures node { IfOk result (λ id. id.0 < length (graph_of world.new)) }
    ensures unchanged { OnErr result (graph_of world.new ≡ graph_of world.old) }
    ensures sound { IsGraph (graph_of world.new) }
    ensures grows { Grows world.old world.new }
{
    // The contract of this call says that the graph is sound.
    world.graph();
    let explored = explore(alloc, world, list)?;
    let states = explored.states.as_slice();
    let marks = ending(alloc, states)?;
    let questions = item_questions(alloc, states, marks.as_slice())?;
    union(alloc, world, questions.items())
}
