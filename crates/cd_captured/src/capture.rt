//! Nodes that hold what variables capture.
ghost use Rattle.std.specs.Prelude.{◌≡◌, ◌<◌, ◌≤◌, ◌+◌, map, length, IfOk, OnErr};
ghost use Rattle.cd_model.specs.AllOf.{AllOf};
ghost use Rattle.cd_model.specs.Formula.{IsGraph};
ghost use Rattle.cd_graph.specs.Nodes.{nodes};
ghost use Rattle.cd_graph.specs.PlainFormula.{plain};
ghost use Rattle.cd_matching.specs.PlainKernel.{plain_kernel, plain_nodes};
ghost use Rattle.cd_empty.specs.Growth.{Grows};
ghost use Rattle.cd_empty.specs.Seen.{graph_of};
ghost use Rattle.cd_filter.specs.Accepting.{IsAcceptedFrom};
ghost use Rattle.cd_explored.specs.Captures.{AreExactCaptures, AreWideCaptures};
ghost use Rattle.cd_explored.specs.Inner.Made.{AreFormulas};
ghost use Rattle.cd_explored.specs.Inner.Plan.{IsSoundPlan, StandOnce, plan_from, named_from};
ghost use Rattle.cd_explored.specs.Inner.PlainSteps.{plain_places};
ghost use Rattle.cd_explored.specs.Inner.Reached.{rows_of};

use crate::known::use_known;
use cd_empty::World;
use cd_explored::base::Base;
use cd_explored::constants::texts_of;
use cd_explored::explore::{Explored, explore};
use cd_explored::formulas::formulas;
use cd_explored::nodes::place;
use cd_explored::plan::Plan;
use cd_filter::AcceptedNodes;
use cd_graph::{Formula, Formulas, Graph};
use cd_matching::kernel::Kernel;
use cd_sets::node_id::NodeId;
use cd_syntax::name::Name;
use std::alloc::{AllocError, Global};

/// The types of what the variables of a kernel capture from what is in a node: for each variable
/// its name, and a node that holds exactly the elements that it captures from the elements of
/// `matched` that the kernel takes, and each value that it captures from such a value. Where a node
/// that was asked of on the way is found to hold the same, it is that node.
///
/// # Errors
///
/// Want of memory. The graph stays as it was.
pub fn captured(
    alloc: Global,
    world: &mut World,
    matched: NodeId,
    kernel: &Kernel,
    accepted: AcceptedNodes,
) -> Result<Vec<(Name, NodeId)>, AllocError>
    requires accepted { IsAcceptedFrom (graph_of world.old) (plain_kernel kernel.now)
        accepted.first }
    requires matched { matched.0 < length (graph_of world.old) }
    ensures names { IfOk result (λ captured. map (λ one. one.0) captured.items
        ≡ kernel.now.variables.items) }
    ensures elements { IfOk result (λ captured. AreExactCaptures (graph_of world.new) matched
        (plain_kernel kernel.now) (map (λ one. one.1) captured.items)) }
    ensures values { IfOk result (λ captured. AreWideCaptures (graph_of world.new) matched
        (plain_kernel kernel.now) (map (λ one. one.1) captured.items)) }
    ensures nodes { IfOk result (λ captured.
        AllOf (λ one. one.1.0 < length (graph_of world.new)) captured.items) }
    ensures unchanged { OnErr result (graph_of world.new ≡ graph_of world.old) }
    ensures sound { IsGraph (graph_of world.new) }
    ensures grows { Grows world.old world.new }
{
    let base = Base {
        alloc,
        kernel,
        first: accepted.first,
    };
    let first = world.graph().len();
    let explored = explore(&base, world, matched)?;
    let batch = batch_of(alloc, world.graph(), kernel, &explored, first)?;
    let mut captured = named(alloc, kernel.variables.as_slice(), first)?;
    world.extend(Formulas::of(batch)?)?;
    use_known(world, &explored, &mut captured);
    Ok(captured)
}

// The formulas for all that variables capture, which are to stand in the graph from this number on.
fn batch_of(
    alloc: Global,
    graph: &Graph,
    kernel: &Kernel,
    explored: &Explored<'_>,
    first: usize,
) -> Result<Vec<Formula>, AllocError>
    requires { IsSoundPlan (plan_from (nodes graph.now) first (plain_nodes kernel.now.nodes.items)
        (plain_places explored.now.places) (rows_of explored.now.steps.items)) }
    ensures formulas { IfOk result (λ batch. AreFormulas (plan_from (nodes graph.now) first
        (plain_nodes kernel.now.nodes.items) (plain_places explored.now.places)
        (rows_of explored.now.steps.items)) (length kernel.now.variables.items)
        (map plain batch.items)) }
    ensures once { StandOnce (plain_places explored.now.places) }
{
    // The contract of this call says that each place stands once.
    let _count = explored.places.len();
    let texts = texts_of(alloc, kernel.nodes.as_slice())?;
    let plan = Plan {
        alloc,
        graph,
        explored,
        texts: texts.as_slice(),
        first,
    };
    formulas(&plan, kernel.variables.len())
}

// The variables with their nodes, of which the first one has this number.
fn named(alloc: Global, names: &[Name], first: usize) -> Result<Vec<(Name, NodeId)>, AllocError>
    ensures { IfOk result (λ named. named.items ≡ named_from first names.now) }
{
    let mut named = Vec::new(alloc);
    for (number, name) in names.iter().enumerate() {
        named.push((name.copy()?, place(first, number)?))?;
    }
    Ok(named)
}
