//! Questions without those that are within another one.
ghost use Rattle.std.specs.Prelude.{◌≡◌, ◌<◌, length, IfOk, OnOk, IsTrue};
ghost use Rattle.cd_model.specs.AllOf.{AllOf};
ghost use Rattle.cd_rules.specs.Family.{AsksNodes};
ghost use Rattle.cd_empty.specs.Growth.{Grows};
ghost use Rattle.cd_empty.specs.Seen.{graph_of};
ghost use Rattle.cd_builders.specs.Inner.Outermost.{AskSame, IsKept, IsWithin};
ghost use Rattle.cd_builders.specs.Inner.Outermost.{IsWithinNode, IsWithinOne};

use crate::alone::alone;
use cd_empty::World;
use cd_graph::Graph;
use cd_products::{is_likely_within, without};
use cd_sets::node_id::NodeId;
use cd_sets::question::Question;
use cd_verdicts::Verdict;
use std::alloc::{AllocError, Global};

/// Some questions, without those that are within a node that another one asks for alone.
pub(crate) fn outermost(
    alloc: Global,
    world: &mut World,
    questions: &[Question],
) -> Result<Vec<Question>, AllocError>
    requires { AllOf (AsksNodes (length (graph_of world.old))) questions.now }
    ensures same { IfOk result
        (λ kept. AskSame (graph_of world.old) questions.now kept.items) }
    ensures graph { graph_of world.new ≡ graph_of world.old }
    ensures grows { Grows world.old world.new }
{
    let backwards = one_way(alloc, world, questions)?;
    Ok(one_way(alloc, world, backwards.as_slice())?)
}

// Some questions in reverse order, without those that are within a node that one before asks for
// alone.
fn one_way(
    alloc: Global,
    world: &mut World,
    questions: &[Question],
) -> Result<Vec<Question>, AllocError>
    requires { AllOf (AsksNodes (length (graph_of world.old))) questions.now }
    ensures same { IfOk result
        (λ kept. AskSame (graph_of world.old) questions.now kept.items) }
    ensures graph { graph_of world.new ≡ graph_of world.old }
    ensures grows { Grows world.old world.new }
{
    let mut kept = Vec::new(alloc);
    for question in questions {
        keep(world, question, &mut kept)?;
    }
    Ok(kept)
}

// Puts a question before others, unless it is within a node that one of them asks for alone.
fn keep(world: &mut World, question: &Question, kept: &mut Vec<Question>) -> Result<(), AllocError>
    requires question { AsksNodes (length (graph_of world.old)) question.now }
    requires kept { AllOf (AsksNodes (length (graph_of world.old))) kept.old.items }
    ensures kept { OnOk result
        (IsKept (graph_of world.old) question.now kept.old.items kept.new.items) }
    ensures graph { graph_of world.new ≡ graph_of world.old }
    ensures grows { Grows world.old world.new }
{
    if is_within_one(world, question, kept.as_slice())? {
        return Ok(());
    }
    Ok(kept.insert(0, question.copy()?)?)
}

// Whether a question is found to be within a node that another one asks for alone.
fn is_within_one(
    world: &mut World,
    question: &Question,
    others: &[Question],
) -> Result<bool, AllocError>
    requires question { AsksNodes (length (graph_of world.old)) question.now }
    requires others { AllOf (AsksNodes (length (graph_of world.old))) others.now }
    ensures within { IfOk result
        (λ answer. IsTrue answer → IsWithinOne (graph_of world.old) question.now others.now) }
    ensures graph { graph_of world.new ≡ graph_of world.old }
    ensures grows { Grows world.old world.new }
{
    for other in others {
        if is_within(world, question, other)? {
            return Ok(true);
        }
    }
    Ok(false)
}

// Whether a question is found to be within the node that another one asks for alone.
fn is_within(world: &mut World, question: &Question, other: &Question) -> Result<bool, AllocError>
    requires question { AsksNodes (length (graph_of world.old)) question.now }
    requires other { AsksNodes (length (graph_of world.old)) other.now }
    ensures within { IfOk result
        (λ answer. IsTrue answer → IsWithin (graph_of world.old) question.now other.now) }
    ensures graph { graph_of world.new ≡ graph_of world.old }
    ensures grows { Grows world.old world.new }
{
    // The contract of this call says that the graph begins with the built-in nodes.
    world.graph();
    match alone(other) {
        Some(id) => is_within_node(world, question, id),
        None => Ok(false),
    }
}

// Whether a question is found to be within a node.
fn is_within_node(world: &mut World, question: &Question, id: NodeId) -> Result<bool, AllocError>
    requires asks { AsksNodes (length (graph_of world.old)) question.now }
    requires node { id.0 < length (graph_of world.old) }
    ensures within { IfOk result
        (λ answer. IsTrue answer → IsWithinNode (graph_of world.old) question.now id) }
    ensures graph { graph_of world.new ≡ graph_of world.old }
    ensures grows { Grows world.old world.new }
{
    if !may_be_within(world.graph(), question, id) {
        return Ok(false);
    }
    match world.decide(&without(id, question)?)? {
        Verdict::Empty => Ok(true),
        Verdict::Inhabited(_) => Ok(false),
    }
}

// Whether it is worth asking if a question is within a node.
fn may_be_within(graph: &Graph, question: &Question, id: NodeId) -> bool {
    match alone(question) {
        Some(one) => is_likely_within(graph, one, id),
        None => true,
    }
}
