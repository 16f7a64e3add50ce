//! Copies of graphs.
ghost use Rattle.std.specs.Prelude.{◌≡◌, drop, IfOk};
ghost use Rattle.cd_graph.specs.Nodes.{nodes};
ghost use Rattle.cd_graph.specs.PlainFormula.{plain_list};

use cd_graph::{Formulas, Graph};
use cd_sets::node_id::NodeId;
use std::alloc::{AllocError, Global};

/// An equal graph.
///
/// # Errors
///
/// Want of memory.
pub fn copy(alloc: Global, graph: &Graph) -> Result<Graph, AllocError>
    ensures { IfOk result (λ copy. nodes copy ≡ nodes graph.now) }
{
    // The contract of this call says that the graph is sound and begins with the built-in nodes.
    graph.knows();
    let mut copy = Graph::new(alloc)?;
    let formulas = formulas_after(alloc, graph, copy.len())?;
    copy.extend(formulas)?;
    Ok(copy)
}

/// Copies of the formulas of a graph from a place on.
///
/// # Errors
///
/// Want of memory.
pub fn formulas_after(alloc: Global, graph: &Graph, first: usize) -> Result<Formulas, AllocError>
    ensures { IfOk result (λ formulas. plain_list formulas ≡ drop first (nodes graph.now)) }
{
    let mut formulas = Vec::new(alloc);
    for place in first..graph.len() {
        formulas.push(graph.formula(NodeId(place)).copy()?)?;
    }
    Formulas::of(formulas)
}
