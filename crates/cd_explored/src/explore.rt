//! All places that are come to.
ghost use Rattle.std.specs.Prelude.{◌≡◌, ◌<◌, zero, map, length, Some, IfOk, slice_get};
ghost use Rattle.cd_graph.specs.Nodes.{nodes};
ghost use Rattle.cd_matching.specs.PlainKernel.{plain_kernel};
ghost use Rattle.cd_empty.specs.Growth.{Grows};
ghost use Rattle.cd_empty.specs.Seen.{graph_of};
ghost use Rattle.cd_filter.specs.Accepting.{place_of, IsAcceptedFrom};
ghost use Rattle.cd_filter.specs.Table.{Table, first_place};
ghost use Rattle.cd_explored.specs.Explored.{IsExplored};
ghost use Rattle.cd_explored.specs.Inner.PlainSteps.{plain_place, plain_places, AreEntries};

use crate::base::Base;
use crate::place::Place;
use crate::places::Places;
use crate::settle::settle;
use crate::step::Step;
use cd_empty::World;
use cd_graph::Graph;
use cd_products::within;
use cd_sets::id_set::IdSet;
use cd_sets::node_id::NodeId;
use cd_sets::question::Question;
use std::alloc::AllocError;

/// The places that what is matched comes to, and the steps of each.
#[derive(Drop)]
pub struct Explored<'k> {
    pub places: Places,
    pub steps: Vec<Vec<Step<'k>>>,
}

/// Explores from the root on what of a node comes there.
pub fn explore<'k>(
    base: &Base<'k>,
    world: &mut World,
    matched: NodeId,
) -> Result<Explored<'k>, AllocError>
    requires accepted { IsAcceptedFrom (graph_of world.old) (plain_kernel base.now.kernel.now)
        base.now.first }
    requires matched { matched.0 < length (graph_of world.old) }
    ensures explored { IfOk result (λ explored. (table : Table)
        × AreEntries (plain_places explored.places)
        (map (λ steps. steps.items) explored.steps.items) table
        × (map (λ entry. entry.0) table ≡ plain_places explored.places)
        × IsExplored (graph_of world.old) (plain_kernel base.now.kernel.now)
        (place_of (plain_kernel base.now.kernel.now).nodes base.now.first)
        (first_place (plain_kernel base.now.kernel.now) matched
        (place_of (plain_kernel base.now.kernel.now).nodes base.now.first)) table) }
    ensures first { IfOk result (λ explored. slice_get (plain_places explored.places) zero
        ≡ Some (first_place (plain_kernel base.now.kernel.now) matched
        (place_of (plain_kernel base.now.kernel.now).nodes base.now.first))) }
    ensures graph { graph_of world.new ≡ graph_of world.old }
    ensures grows { Grows world.old world.new }
{
    let mut places = Places::new(base.alloc);
    places.number(root_place(base, world.graph(), matched)?)?;
    let mut steps = Vec::new(base.alloc);
    while let Some(place) = places.get(steps.len()) {
        let place = place.copy()?;
        steps.push(settle(base, world, &place, &mut places)?)?;
    }
    Ok(Explored { places, steps })
}

// The place of what of a node is taken by the root.
fn root_place(base: &Base<'_>, graph: &Graph, matched: NodeId) -> Result<Place, AllocError>
    requires { IsAcceptedFrom (nodes graph.now) (plain_kernel base.now.kernel.now) base.now.first }
    ensures { IfOk result (λ place. plain_place place
        ≡ first_place (plain_kernel base.now.kernel.now) matched
        (place_of (plain_kernel base.now.kernel.now).nodes base.now.first)) }
{
    let root = base.kernel.root;
    let all = Question {
        pos: IdSet::new(base.alloc),
        neg: IdSet::new(base.alloc),
    };
    let matched = within(matched, &all)?;
    let taken = within(base.accepting(graph, root), &matched)?;
    Ok(Place::at(root, taken))
}
