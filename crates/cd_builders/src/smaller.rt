//! Nodes that hold what another node holds, in less.
ghost use Rattle.std.specs.Prelude.{◌<◌, ◌↔◌, true, length, IfOk};
ghost use Rattle.std.specs.Option.{IfSome};
ghost use Rattle.cd_model.specs.AllOf.{AllOf};
ghost use Rattle.cd_model.specs.Formula.{IsGraph};
ghost use Rattle.cd_model.specs.Membership.{answers};
ghost use Rattle.cd_model.specs.Thing.{Thing, IsElement};
ghost use Rattle.cd_graph.specs.Nodes.{nodes};
ghost use Rattle.cd_graph.specs.PlainFormula.{plain};
ghost use Rattle.cd_empty.specs.Growth.{Grows};
ghost use Rattle.cd_empty.specs.Seen.{graph_of};
ghost use Rattle.cd_builders.specs.Inner.Members.{IsOfSame};

use crate::one_more::put;
use cd_empty::World;
use cd_graph::built_in::{BOOL, INT};
use cd_graph::{Formula, Graph};
use cd_needs::asking::question;
use cd_products::{known_node, question_formula};
use cd_sets::node_id::NodeId;
use std::alloc::{AllocError, Global};

/// A node that holds the same as a node: one of some others, where it is found to do so; else one
/// with a set of each basic kind, or a built-in one, where there are no other things; else the node
/// itself.
pub(crate) fn smaller(alloc: Global, world: &mut World, made: NodeId, others: &[NodeId]) -> NodeId
    requires made { made.0 < length (graph_of world.old) }
    requires others { AllOf (λ id. id.0 < length (graph_of world.old)) others.now }
    ensures holds { (e : Thing) → IsElement e → answers (graph_of world.old) e made true
        ↔ answers (graph_of world.new) e result true }
    ensures node { result.0 < length (graph_of world.new) }
    ensures sound { IsGraph (graph_of world.new) }
    ensures grows { Grows world.old world.new }
{
    // The contract of this call says that the graph is sound.
    world.graph();
    let known = known_node(world, made, others);
    if known.0 == made.0 {
        return in_sets(alloc, world, made);
    }
    known
}

// A node that has a set of each basic kind and holds the same as a node where there are no other
// things in it, or else the node itself.
fn in_sets(alloc: Global, world: &mut World, id: NodeId) -> NodeId
    requires { id.0 < length (graph_of world.old) }
    ensures holds { (e : Thing) → IsElement e → answers (graph_of world.old) e id true
        ↔ answers (graph_of world.new) e result true }
    ensures node { result.0 < length (graph_of world.new) }
    ensures sound { IsGraph (graph_of world.new) }
    ensures grows { Grows world.old world.new }
{
    match sets_of(alloc, world.graph(), id) {
        Ok(Some(formula)) => put_or(alloc, world, formula, id),
        Ok(None) | Err(_) => id,
    }
}

// A node with a formula that holds the same as a node, or a built-in one; that node where memory
// runs out.
fn put_or(alloc: Global, world: &mut World, formula: Formula, id: NodeId) -> NodeId
    requires id { id.0 < length (graph_of world.old) }
    requires same { IsOfSame (graph_of world.old) id (plain formula) }
    ensures holds { (e : Thing) → IsElement e → answers (graph_of world.old) e id true
        ↔ answers (graph_of world.new) e result true }
    ensures node { result.0 < length (graph_of world.new) }
    ensures sound { IsGraph (graph_of world.new) }
    ensures grows { Grows world.old world.new }
{
    // The contract of this call says that the graph begins with the built-in nodes.
    world.graph();
    match put(alloc, world, formula) {
        Ok(made) => known_node(world, made, &[BOOL, INT]),
        Err(_) => id,
    }
}

// A formula with a set of each basic kind that holds what a node holds, if there are no other
// things in it by its form.
fn sets_of(alloc: Global, graph: &Graph, id: NodeId) -> Result<Option<Formula>, AllocError>
    requires { id.0 < length (nodes graph.now) }
    ensures { IfOk result
        (λ found. IfSome found (λ is. IsOfSame (nodes graph.now) id (plain is))) }
{
    let question = question(alloc, &[id], &[])?;
    let formula = question_formula(alloc, graph, &question)?;
    if is_union(&formula) {
        return Ok(Some(formula));
    }
    Ok(None)
}

// The formula of a question is a union where it was made of sets.
fn is_union(formula: &Formula) -> bool {
    match formula {
        Formula::Or(_) => true,
        _ => false,
    }
}
