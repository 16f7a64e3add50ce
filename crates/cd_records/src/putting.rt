//! Batches that are put into the graph.
ghost use Rattle.std.specs.Prelude.{◌≡◌, ◌+◌, ◌++◌, length, map, IfOk, OnOk, OnErr};
ghost use Rattle.cd_model.specs.AllOf.{AllOf};
ghost use Rattle.cd_model.specs.Formula.{IsFormula, IsGraph};
ghost use Rattle.cd_graph.specs.PlainFormula.{plain};
ghost use Rattle.cd_empty.specs.Growth.{Grows};
ghost use Rattle.cd_empty.specs.Seen.{graph_of};

use crate::made::Made;
use cd_empty::World;
use cd_graph::Formulas;
use cd_sets::node_id::NodeId;
use std::alloc::AllocError;

/// Puts the formulas of a batch into the graph, and gives the node of the last of them.
pub(crate) fn put_in(world: &mut World, made: Made) -> Result<NodeId, AllocError>
    requires { AllOf (IsFormula (length (graph_of world.old)
        + length (map plain made.batch.items))) (map plain made.batch.items) }
    ensures id { IfOk result (λ id. id ≡ made.id) }
    ensures added { OnOk result
        (graph_of world.new ≡ graph_of world.old ++ map plain made.batch.items) }
    ensures unchanged { OnErr result (graph_of world.new ≡ graph_of world.old) }
    ensures sound { IsGraph (graph_of world.new) }
    ensures grows { Grows world.old world.new }
{
    // The contract of this call says that the graph is sound.
    world.graph();
    let Made { batch, id } = made;
    world.extend(Formulas::of(batch)?)?;
    Ok(id)
}
