//! A node of what is in one of some questions.
ghost use Rattle.std.specs.Prelude.{◌≡◌, ◌<◌, ℕ, length, IfOk, OnErr};
ghost use Rattle.cd_model.specs.AllOf.{AllOf};
ghost use Rattle.cd_model.specs.Formula.{IsGraph};
ghost use Rattle.cd_rules.specs.Family.{AsksNodes};
ghost use Rattle.cd_empty.specs.Growth.{Grows};
ghost use Rattle.cd_empty.specs.Seen.{graph_of};
ghost use Rattle.cd_builders.specs.Unions.{HoldsUnion};

use crate::alone::only_node;
use crate::formulas::union_formula;
use crate::one_more::put;
use crate::outermost::outermost;
use crate::smaller::smaller;
use cd_empty::World;
use cd_sets::node_id::NodeId;
use cd_sets::question::Question;
use std::alloc::{AllocError, Global};

/// A node that holds exactly what is in one of some questions. It is one that they ask for, or a
/// built-in one, where that is found to hold the same.
///
/// # Errors
///
/// Want of memory. The graph stays as it was.
pub fn union(alloc: Global, world: &mut World, questions: &[Question]) -> Result<NodeId, AllocError>
    requires { AllOf (AsksNodes (length (graph_of world.old))) questions.now }
    ensures union { IfOk result
        (HoldsUnion (graph_of world.old) questions.now (graph_of world.new)) }
    ensures unchanged { OnErr result (graph_of world.new ≡ graph_of world.old) }
    ensures sound { IsGraph (graph_of world.new) }
    ensures grows { Grows world.old world.new }
{
    // The contract of this call says that the graph begins with the built-in nodes.
    world.graph();
    match only_node(questions) {
        Some(id) => Ok(id),
        None => outer_union(alloc, world, questions),
    }
}

// The same, where the node is not seen by the form of the questions: those within others go first,
// by nodes that were there before, so that verdicts on them serve again.
fn outer_union(
    alloc: Global,
    world: &mut World,
    questions: &[Question],
) -> Result<NodeId, AllocError>
    requires { AllOf (AsksNodes (length (graph_of world.old))) questions.now }
    ensures union { IfOk result
        (HoldsUnion (graph_of world.old) questions.now (graph_of world.new)) }
    ensures unchanged { OnErr result (graph_of world.new ≡ graph_of world.old) }
    ensures sound { IsGraph (graph_of world.new) }
    ensures grows { Grows world.old world.new }
{
    // The contract of this call says that the graph is sound.
    world.graph();
    let left = outermost(alloc, world, questions)?;
    match only_node(left.as_slice()) {
        Some(id) => Ok(id),
        None => made_node(alloc, world, left.as_slice()),
    }
}

// A node that is put in, or another one that holds the same.
fn made_node(alloc: Global, world: &mut World, questions: &[Question]) -> Result<NodeId, AllocError>
    requires { AllOf (AsksNodes (length (graph_of world.old))) questions.now }
    ensures union { IfOk result
        (HoldsUnion (graph_of world.old) questions.now (graph_of world.new)) }
    ensures unchanged { OnErr result (graph_of world.new ≡ graph_of world.old) }
    ensures sound { IsGraph (graph_of world.new) }
    ensures grows { Grows world.old world.new }
{
    // The contract of this call says that the graph is sound and begins with the built-in nodes.
    world.graph();
    let formula = union_formula(alloc, world.graph(), questions)?;
    let made = put(alloc, world, formula)?;
    Ok(smaller(alloc, world, made, asked_by_one(questions)))
}

// The nodes that a question asks for, where it is the only one.
fn asked_by_one(questions: &[Question]) -> &[NodeId]
    ensures { (count : ℕ) → AllOf (AsksNodes count) questions.now
        → AllOf (λ id. id.0 < count) result.now }
{
    match questions {
        [question] => question.pos.ids(),
        _ => &[],
    }
}
