//! The steps of places.
ghost use Rattle.std.specs.Prelude.{◌≡◌, List, Some, length, slice_get, IfOk, IsTrue};
ghost use Rattle.cd_matching.specs.Kernel.{KernelNode as AKernelNode};
ghost use Rattle.cd_matching.specs.PlainKernel.{plain_kernel, plain_node};
ghost use Rattle.cd_sets.specs.declared.node_id.NodeId.{NodeId};
ghost use Rattle.cd_empty.specs.Growth.{Grows};
ghost use Rattle.cd_empty.specs.Seen.{graph_of};
ghost use Rattle.cd_filter.specs.Accepting.{IsAcceptedFrom};
ghost use Rattle.cd_filter.specs.Table.{Step as AStep};
ghost use Rattle.cd_explored.specs.Inner.Exploring.{AreSettling};
ghost use Rattle.cd_explored.specs.Inner.NodeSteps.{IsInRange, AreNodeSteps, HasProducts};
ghost use Rattle.cd_explored.specs.Inner.NumberedSteps.{AreNumbered};
ghost use Rattle.cd_explored.specs.Inner.PlainSteps.{plain_place, plain_places, all_steps};

use crate::base::Base;
use crate::lead::Lead;
use crate::node_steps::node_steps;
use crate::numbering::number_all;
use crate::place::Place;
use crate::places::Places;
use crate::step::Step;
use cd_empty::World;
use cd_matching::kernel::KernelNode;
use cd_verdicts::Verdict;
use std::alloc::AllocError;

/// The steps of a place: those of its node, or none where nothing comes there. The places that they
/// lead to are numbered.
pub(crate) fn settle<'k>(
    base: &Base<'k>,
    world: &mut World,
    place: &Place,
    places: &mut Places,
) -> Result<Vec<Step<'k>>, AllocError>
    requires accepted { IsAcceptedFrom (graph_of world.old) (plain_kernel base.now.kernel.now)
        base.now.first }
    requires place { IsInRange (length (graph_of world.old))
        (length (plain_kernel base.now.kernel.now).nodes) (plain_place place.now) }
    ensures steps { IfOk result (λ steps. (all : List AStep)
        × AreNumbered (plain_places places.old) (plain_places places.new) steps.items all
        × AreSettling (graph_of world.old) (plain_kernel base.now.kernel.now) base.now.first
        (plain_place place.now) all) }
    ensures graph { graph_of world.new ≡ graph_of world.old }
    ensures grows { Grows world.old world.new }
{
    let leads = leads_of(base, world, place)?;
    number_all(base.alloc, places, leads)
}

// The steps with their places.
fn leads_of<'k>(
    base: &Base<'k>,
    world: &mut World,
    place: &Place,
) -> Result<Vec<Lead<'k>>, AllocError>
    requires accepted { IsAcceptedFrom (graph_of world.old) (plain_kernel base.now.kernel.now)
        base.now.first }
    requires place { IsInRange (length (graph_of world.old))
        (length (plain_kernel base.now.kernel.now).nodes) (plain_place place.now) }
    ensures steps { IfOk result (λ leads. AreSettling (graph_of world.old)
        (plain_kernel base.now.kernel.now) base.now.first (plain_place place.now)
        (all_steps leads.items)) }
    ensures graph { graph_of world.new ≡ graph_of world.old }
    ensures grows { Grows world.old world.new }
{
    if has_products(&base.kernel.nodes[place.number]) {
        return steps_at(base, world, place);
    }
    match world.decide(&place.question)? {
        Verdict::Empty => Ok(Vec::new(base.alloc)),
        Verdict::Inhabited(_) => steps_at(base, world, place),
    }
}

// The steps of the node of a place at its question.
fn steps_at<'k>(
    base: &Base<'k>,
    world: &mut World,
    place: &Place,
) -> Result<Vec<Lead<'k>>, AllocError>
    requires accepted { IsAcceptedFrom (graph_of world.old) (plain_kernel base.now.kernel.now)
        base.now.first }
    requires place { IsInRange (length (graph_of world.old))
        (length (plain_kernel base.now.kernel.now).nodes) (plain_place place.now) }
    ensures steps { IfOk result (λ leads. (node : AKernelNode NodeId)
        → slice_get (plain_kernel base.now.kernel.now).nodes place.now.number ≡ Some node
        → AreNodeSteps (graph_of world.old) (plain_kernel base.now.kernel.now).nodes base.now.first
        place.now.question node (all_steps leads.items)) }
    ensures graph { graph_of world.new ≡ graph_of world.old }
    ensures grows { Grows world.old world.new }
{
    let kernel = base.kernel;
    node_steps(
        base,
        world,
        place.number,
        &place.question,
        &kernel.nodes[place.number],
    )
}

// Whether the steps of a node are those of products, of which there are some just where something
// comes to it, so that this is no question.
fn has_products(node: &KernelNode) -> bool
    ensures { IsTrue result → HasProducts (plain_node node.now) }
{
    match node {
        KernelNode::Pair(_, _) | KernelNode::Gather(_, _, _) | KernelNode::Xml(_, _, _) => true,
        _ => false,
    }
}
