ghost use Rattle.std.specs.Prelude.{◌≡◌, ◌<◌, map, length, IfOk, OnErr};
ghost use Rattle.cd_model.specs.AllOf.{AllOf};
ghost use Rattle.cd_model.specs.Formula.{IsGraph};
ghost use Rattle.cd_meaning.specs.Sets.{◌⊆◌, elements_of};
ghost use Rattle.cd_typing.specs.Typ.{typ};
ghost use Rattle.cd_empty.specs.Growth.{Grows};
ghost use Rattle.cd_empty.specs.Seen.{graph_of};
ghost use Rattle.cd_forms.specs.Unions.{IsInOne};

use crate::members::{members_of, questions_of};
use cd_empty::World;
use cd_sets::node_id::NodeId;
use std::alloc::{AllocError, Global};

/// A node that holds exactly what is in one of these nodes. It is one of them, or a built-in one,
/// where that is found to hold the same.
///
/// # Errors
///
/// Want of memory. The graph stays as it was.
pub fn union(alloc: Global, world: &mut World, parts: &[NodeId]) -> Result<NodeId, AllocError>
    requires { AllOf (λ id. id.0 < length (graph_of world.old)) parts.now }
    ensures has { IfOk result (λ id. IsInOne (map (typ (graph_of world.old)) parts.now)
        ⊆ elements_of (graph_of world.new) id) }
    ensures only { IfOk result (λ id. elements_of (graph_of world.new) id
        ⊆ IsInOne (map (typ (graph_of world.old)) parts.now)) }
    ensures node { IfOk result (λ id. id.0 < length (graph_of world.new)) }
    ensures unchanged { OnErr result (graph_of world.new ≡ graph_of world.old) }
    ensures sound { IsGraph (graph_of world.new) }
    ensures grows { Grows world.old world.new }
{
    // The contract of this call says that the graph begins with the built-in nodes.
    world.graph();
    let members = members_of(alloc, parts)?;
    let questions = questions_of(alloc, members.ids())?;
    cd_builders::union(alloc, world, questions.as_slice())
}
