//! Formulas that are to be put into a graph, each under the number that comes next then.
ghost use Rattle.std.specs.Prelude.{◌≡◌, ◌+◌, ◌++◌, ◌∷◌, [], length, map, IfOk, OnOk};
ghost use Rattle.cd_graph.specs.Nodes.{nodes};
ghost use Rattle.cd_graph.specs.PlainFormula.{plain};

use cd_graph::{Formula, Graph};
use cd_sets::node_id::NodeId;
use std::alloc::AllocError;

/// Puts a formula after those of a batch, and gives the node that is to have it. No graph has so
/// many that their number is no word.
pub(crate) fn put(
    graph: &Graph,
    batch: &mut Vec<Formula>,
    formula: Formula,
) -> Result<NodeId, AllocError>
    ensures number { IfOk result
        (λ id. id.0 ≡ length (nodes graph.now) + length (map plain batch.old.items)) }
    ensures added { OnOk result (map plain batch.new.items
        ≡ map plain batch.old.items ++ plain formula ∷ []) }
{
    match graph.len().checked_add(batch.len()) {
        Some(number) => {
            batch.push(formula)?;
            Ok(NodeId(number))
        }
        None => Err(AllocError),
    }
}
