//! Nodes of a graph by their numbers.
ghost use Rattle.std.specs.Prelude.{◌≡◌, MatchOption, IfSome, length};
ghost use Rattle.cd_graph.specs.Nodes.{nodes};
ghost use Rattle.cd_graph.specs.PlainFormula.{plain};
ghost use Rattle.cd_model.specs.Formula.{formula_at, IsFormula, Nothing};

use cd_graph::{Formula, Graph};
use cd_sets::node_id::NodeId;

/// The formula of a node, if the number is one of the graph.
pub(crate) fn node_formula(graph: &Graph, id: NodeId) -> Option<&Formula>
    ensures is { let all = nodes graph.now in
        MatchOption result (formula_at all id ≡ Nothing)
        (λ formula. plain formula.now ≡ formula_at all id) }
    ensures sound { IfSome result
        (λ formula. IsFormula (length (nodes graph.now)) (plain formula.now)) }
{
    if id.0 < graph.len() {
        return Some(graph.formula(id));
    }
    None
}
