//! One node more.
ghost use Rattle.std.specs.Prelude.{◌≡◌, ◌<◌, length, IfOk};
ghost use Rattle.cd_model.specs.Formula.{IsFormula, IsGraph, formula_at};
ghost use Rattle.cd_graph.specs.PlainFormula.{plain};
ghost use Rattle.cd_empty.specs.Growth.{Grows};
ghost use Rattle.cd_empty.specs.Seen.{graph_of};

use cd_empty::World;
use cd_graph::{Formula, Formulas};
use cd_sets::node_id::NodeId;
use std::alloc::{AllocError, Global};

/// A node with this formula, which is over the nodes of the graph.
///
/// # Errors
///
/// Want of memory.
pub(crate) fn put(alloc: Global, world: &mut World, formula: Formula) -> Result<NodeId, AllocError>
    requires { IsFormula (length (graph_of world.old)) (plain formula) }
    ensures node { IfOk result (λ id. id.0 < length (graph_of world.new)) }
    ensures formula { IfOk result (λ id. formula_at (graph_of world.new) id ≡ plain formula) }
    ensures sound { IsGraph (graph_of world.new) }
    ensures grows { Grows world.old world.new }
{
    // The contract of this call says that the graph is sound.
    world.graph();
    let formulas = vec![in alloc; formula]?;
    world.extend(Formulas::of(formulas)?)
}
