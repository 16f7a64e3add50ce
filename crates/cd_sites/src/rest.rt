//! What is left of nodes outside another one.
ghost use Rattle.std.specs.Prelude.{◌≡◌, ◌<◌, ◌≤◌, ◌++◌, length, map, option_map, Some, IfOk, OnOk};
ghost use Rattle.cd_model.specs.Formula.{IsGraph};
ghost use Rattle.cd_graph.specs.Nodes.{nodes};
ghost use Rattle.cd_graph.specs.PlainFormula.{plain};
ghost use Rattle.cd_empty.specs.Growth.{Grows};
ghost use Rattle.cd_empty.specs.Seen.{graph_of};
ghost use Rattle.cd_sites.specs.Inner.Differences.{IsRest, AreLeft, formulas_in};

use crate::tests::is_within;
use cd_empty::World;
use cd_graph::{Formula, Graph};
use cd_needs::asking::question;
use cd_products::{are_disjoint, question_formula};
use cd_sets::node_id::NodeId;
use std::alloc::{AllocError, Global};

/// For each node of the graph from the first one on a formula of what of it is outside the other
/// node, if there is anything.
pub(crate) fn left_of_each(
    alloc: Global,
    world: &mut World,
    first: NodeId,
    other: NodeId,
) -> Result<Vec<Formula>, AllocError>
    requires first { first.0 ≤ length (graph_of world.old) }
    requires other { other.0 < length (graph_of world.old) }
    ensures left { IfOk result (λ left. AreLeft (graph_of world.old) other first.0
        (length (graph_of world.old)) (map plain left.items)) }
    ensures graph { graph_of world.new ≡ graph_of world.old }
    ensures sound { IsGraph (graph_of world.new) }
    ensures grows { Grows world.old world.new }
{
    let mut left = Vec::new(alloc);
    for number in first.0..world.graph().len() {
        add(&mut left, rest_of(alloc, world, NodeId(number), other)?)?;
    }
    Ok(left)
}

// Puts a formula after others, if it is there.
fn add(all: &mut Vec<Formula>, one: Option<Formula>) -> Result<(), AllocError>
    ensures { OnOk result (map plain all.new.items
        ≡ map plain all.old.items ++ formulas_in (option_map plain one)) }
{
    match one {
        Some(formula) => Ok(all.push(formula)?),
        None => Ok(()),
    }
}

// A formula of what is in the one node and outside the other: that of the one node, where nothing
// is in both, and none, where all of the one is in the other.
fn rest_of(
    alloc: Global,
    world: &mut World,
    one: NodeId,
    other: NodeId,
) -> Result<Option<Formula>, AllocError>
    requires one { one.0 < length (graph_of world.old) }
    requires other { other.0 < length (graph_of world.old) }
    ensures rest { IfOk result
        (λ left. IsRest (graph_of world.old) one other (option_map plain left)) }
    ensures graph { graph_of world.new ≡ graph_of world.old }
    ensures sound { IsGraph (graph_of world.new) }
    ensures grows { Grows world.old world.new }
{
    if are_disjoint(alloc, world, one, other)? {
        return Ok(Some(world.graph().formula(one).copy()?));
    }
    if is_within(world, one, other)? {
        return Ok(None);
    }
    Ok(Some(formula_without(alloc, world.graph(), one, other)?))
}

/// A formula of what is in the one node and outside the other.
pub(crate) fn formula_without(
    alloc: Global,
    graph: &Graph,
    one: NodeId,
    other: NodeId,
) -> Result<Formula, AllocError>
    requires one { one.0 < length (nodes graph.now) }
    requires other { other.0 < length (nodes graph.now) }
    ensures { IfOk result (λ is. IsRest (nodes graph.now) one other (Some (plain is))) }
{
    let asked = question(alloc, &[one], &[other])?;
    question_formula(alloc, graph, &asked)
}
