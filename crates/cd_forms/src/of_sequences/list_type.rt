//! The type of all sequences of items.
ghost use Rattle.std.specs.Prelude.{◌≡◌, ◌<◌, length, IfOk, OnErr};
ghost use Rattle.cd_meaning.specs.Sequences.{IsListOf};
ghost use Rattle.cd_meaning.specs.Sets.{◌⊆◌, elements_of};
ghost use Rattle.cd_model.specs.Formula.{IsGraph};
ghost use Rattle.cd_graph.specs.Nodes.{nodes};
ghost use Rattle.cd_graph.specs.PlainFormula.{plain};
ghost use Rattle.cd_empty.specs.Growth.{Grows};
ghost use Rattle.cd_empty.specs.Seen.{graph_of};
ghost use Rattle.cd_forms.specs.Inner.ListFormulas.{list_formula};

use cd_empty::World;
use cd_graph::built_in::{CHAR, NIL, STRING};
use cd_graph::{Formula, Formulas, Graph};
use cd_sets::node_id::NodeId;
use std::alloc::{AllocError, Global};

/// A node that holds exactly the sequences whose items are all in a node.
///
/// # Errors
///
/// Want of memory. The graph stays as it was.
pub fn list_of(alloc: Global, world: &mut World, item: NodeId) -> Result<NodeId, AllocError>
    requires { item.0 < length (graph_of world.old) }
    ensures has { IfOk result (λ id. IsListOf (elements_of (graph_of world.old) item)
        ⊆ elements_of (graph_of world.new) id) }
    ensures only { IfOk result (λ id. elements_of (graph_of world.new) id
        ⊆ IsListOf (elements_of (graph_of world.old) item)) }
    ensures node { IfOk result (λ id. id.0 < length (graph_of world.new)) }
    ensures unchanged { OnErr result (graph_of world.new ≡ graph_of world.old) }
    ensures sound { IsGraph (graph_of world.new) }
    ensures grows { Grows world.old world.new }
{
    // The contract of this call says that the graph is sound and begins with the built-in nodes.
    world.graph();
    if item.0 == CHAR.0 {
        return Ok(STRING);
    }
    let list = list_formula(alloc, world.graph(), item)?;
    world.extend(Formulas::of(vec![in alloc; list]?)?)
}

// The formula of such a node where it comes next.
fn list_formula(alloc: Global, graph: &Graph, item: NodeId) -> Result<Formula, AllocError>
    ensures { IfOk result
        (λ is. plain is ≡ list_formula item (record { 0 = length (nodes graph.now) })) }
{
    let list = NodeId(graph.len());
    let nil = graph.formula(NIL).copy()?;
    let members = vec![in alloc; Formula::pair(item, list), nil]?;
    Ok(Formula::or(Formulas::of(members)?))
}
