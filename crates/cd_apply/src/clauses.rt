//! The clauses of the functions in a node.
ghost use Rattle.std.specs.Prelude.{◌≡◌, ◌<◌, length, map, IfOk};
ghost use Rattle.cd_graph.specs.Nodes.{nodes};
ghost use Rattle.cd_normal.specs.PlainClause.{plain_clause};
ghost use Rattle.cd_apply.specs.Inner.FunctionClauses.{AreClausesOf, functions_among};
ghost use Rattle.cd_apply.specs.Inner.PlainClauses.{plain_function_clause};

use cd_graph::Graph;
use cd_needs::asking::question;
use cd_normal::clause::Clause;
use cd_normal::clauses;
use cd_sets::node_id::NodeId;
use std::alloc::{AllocError, Global};
use std::rc::Rc;

/// The functions in each of the wanted arrows, and in none of the refused ones. An arrow is its
/// argument and its result.
#[derive(Drop)]
pub(crate) struct FunctionClause {
    pub(crate) wanted: Rc<Vec<(NodeId, NodeId)>>,
    pub(crate) refused: Rc<Vec<(NodeId, NodeId)>>,
}

/// The clauses of the functions in a node: a function is in the node exactly when it is in one of
/// them.
pub(crate) fn function_clauses(
    alloc: Global,
    graph: &Graph,
    function: NodeId,
) -> Result<Vec<FunctionClause>, AllocError>
    requires { function.0 < length (nodes graph.now) }
    ensures { IfOk result (λ found.
        AreClausesOf (nodes graph.now) function (map plain_function_clause found.items)) }
{
    let question = question(alloc, &[function], &[])?;
    let all = clauses(alloc, graph, &question)?;
    functions_among(alloc, all.as_slice())
}

// Those of functions among clauses.
fn functions_among(alloc: Global, clauses: &[Clause<'_>]) -> Result<Vec<FunctionClause>, AllocError>
    ensures { IfOk result (λ found. map plain_function_clause found.items
        ≡ functions_among (map plain_clause clauses.now)) }
{
    let mut found = Vec::new(alloc);
    for clause in clauses {
        if let Clause::Arrows(wanted, refused) = clause {
            let wanted = wanted.clone()?;
            let refused = refused.clone()?;
            found.push(FunctionClause { wanted, refused })?;
        }
    }
    Ok(found)
}
