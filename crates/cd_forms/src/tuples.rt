ghost use Rattle.std.specs.Prelude.{◌≡◌, ◌<◌, map, length, IfOk, OnErr};
ghost use Rattle.cd_model.specs.AllOf.{AllOf};
ghost use Rattle.cd_model.specs.Formula.{IsGraph};
ghost use Rattle.cd_meaning.specs.Sets.{◌⊆◌, elements_of};
ghost use Rattle.cd_typing.specs.Results.{IsTupleOf};
ghost use Rattle.cd_typing.specs.Typ.{typ};
ghost use Rattle.cd_empty.specs.Growth.{Grows};
ghost use Rattle.cd_empty.specs.Seen.{graph_of};

use crate::built_in::empty;
use crate::rows::row_before;
use cd_empty::World;
use cd_sets::node_id::NodeId;
use std::alloc::{AllocError, Global};

/// A node that holds exactly the tuples of elements of these nodes, grouped to the right: of one
/// node its elements, and of none nothing.
///
/// # Errors
///
/// Want of memory. The graph stays as it was.
pub fn tuple(alloc: Global, world: &mut World, parts: &[NodeId]) -> Result<NodeId, AllocError>
    requires { AllOf (λ id. id.0 < length (graph_of world.old)) parts.now }
    ensures has { IfOk result (λ id. IsTupleOf (map (typ (graph_of world.old)) parts.now)
        ⊆ elements_of (graph_of world.new) id) }
    ensures only { IfOk result (λ id. elements_of (graph_of world.new) id
        ⊆ IsTupleOf (map (typ (graph_of world.old)) parts.now)) }
    ensures node { IfOk result (λ id. id.0 < length (graph_of world.new)) }
    ensures unchanged { OnErr result (graph_of world.new ≡ graph_of world.old) }
    ensures sound { IsGraph (graph_of world.new) }
    ensures grows { Grows world.old world.new }
{
    match parts {
        [] => Ok(empty(world)),
        [heads @ .., last] => row_before(alloc, world, heads, *last),
    }
}
