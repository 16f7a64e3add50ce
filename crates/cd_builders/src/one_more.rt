//! One node more.
ghost use Rattle.std.specs.Prelude.{◌≡◌, ◌<◌, ◌↔◌, ◌++◌, ◌∷◌, [], true, length, IfOk, OnOk, OnErr};
ghost use Rattle.cd_model.specs.Formula.{IsFormula, IsGraph};
ghost use Rattle.cd_model.specs.Membership.{holds, reader, answers};
ghost use Rattle.cd_model.specs.Thing.{Thing};
ghost use Rattle.cd_graph.specs.PlainFormula.{plain};
ghost use Rattle.cd_empty.specs.Growth.{Grows};
ghost use Rattle.cd_empty.specs.Seen.{graph_of};

use cd_empty::World;
use cd_graph::{Formula, Formulas};
use cd_sets::node_id::NodeId;
use std::alloc::{AllocError, Global};

/// A node with this formula, which is over the nodes of the graph: the last one. It holds what the
/// formula holds.
///
/// # Errors
///
/// Want of memory. The graph stays as it was.
pub fn put(alloc: Global, world: &mut World, formula: Formula) -> Result<NodeId, AllocError>
    requires { IsFormula (length (graph_of world.old)) (plain formula) }
    ensures holds { IfOk result (λ id. (e : Thing)
        → holds (reader (graph_of world.old) e) (plain formula) true
        ↔ answers (graph_of world.new) e id true) }
    ensures node { IfOk result (λ id. id.0 < length (graph_of world.new)) }
    ensures last { IfOk result (λ id. id.0 ≡ length (graph_of world.old)) }
    ensures added { OnOk result (graph_of world.new ≡ graph_of world.old ++ plain formula ∷ []) }
    ensures unchanged { OnErr result (graph_of world.new ≡ graph_of world.old) }
    ensures sound { IsGraph (graph_of world.new) }
    ensures grows { Grows world.old world.new }
{
    // The contract of this call says that the graph is sound.
    world.graph();
    let formulas = vec![in alloc; formula]?;
    world.extend(Formulas::of(formulas)?)
}
