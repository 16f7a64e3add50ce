//! Attempts at pairs.
ghost use Rattle.std.specs.Prelude.{◌≡◌, ◌++◌, List, length, map, IfOk};
ghost use Rattle.cd_graph.specs.Nodes.{nodes};
ghost use Rattle.cd_model.specs.AllOf.{AllOf};
ghost use Rattle.cd_model.specs.Thing.{Thing};
ghost use Rattle.cd_rules.specs.Within.{IsPairWithin};
ghost use Rattle.cd_elements.specs.Elements.{table};
ghost use Rattle.cd_elements.specs.Table.{Names, element_at};
ghost use Rattle.cd_facts.specs.Facts.{AreRight};
ghost use Rattle.cd_tasks.specs.PlainTask.{plain_task};
ghost use Rattle.cd_tasks.specs.declared.task.Task.TheVariants.{Pair};
ghost use Rattle.cd_members.specs.Attempts.{IsAttempt};
ghost use Rattle.cd_members.specs.Held.{IsHeldAt, IsSoAt, pair_in};
ghost use Rattle.cd_members.specs.Inner.Holding.{IsPlace};
ghost use Rattle.cd_members.specs.Inner.Ready.{IsReady};

use crate::attempt::Attempt;
use crate::held::{add_if, looked_at};
use crate::making::make;
use cd_elements::{ElementId, Elements, Shape};
use cd_facts::Facts;
use cd_graph::Graph;
use cd_sets::node_id::NodeId;
use cd_tasks::PairTask;
use std::alloc::AllocError;

/// Attempts a task for a pair: makes the pair of the elements.
pub(crate) fn attempt_pair(
    graph: &Graph,
    elements: &mut Elements,
    facts: &mut Facts,
    task: &PairTask,
    ids: &[ElementId],
) -> Result<Attempt, AllocError>
    requires ready { let all = table elements.old in
        IsReady (nodes graph.now) all (plain_task (Pair task.now)) ids.now }
    requires right { AreRight (nodes graph.now) (table elements.old) facts.old }
    ensures attempt { let parts = map (element_at (table elements.old)) ids.now in IfOk result
        (IsAttempt (nodes graph.now) (table elements.new) (plain_task (Pair task.now)) parts) }
    ensures right { AreRight (nodes graph.now) (table elements.new) facts.new }
    ensures grows { (more : List Thing) × (table elements.new ≡ table elements.old ++ more) }
{
    let first = ids[0];
    let second = ids[1];
    match place_of(graph, elements, facts, task.left.as_slice(), first, second)? {
        Some(place) => Ok(Attempt::Held(place)),
        None => Ok(Attempt::Made(make(graph, elements, Shape::Pair(first, second))?)),
    }
}

// The place of the first of these pairs of nodes that the pair of two elements is in, if it is in
// one.
fn place_of(
    graph: &Graph,
    elements: &Elements,
    facts: &mut Facts,
    left: &[(NodeId, NodeId)],
    first: ElementId,
    second: ElementId,
) -> Result<Option<usize>, AllocError>
    requires left { AllOf (IsPairWithin (length (nodes graph.now))) left.now }
    requires first { Names (table elements.now) first }
    requires second { Names (table elements.now) second }
    requires right { AreRight (nodes graph.now) (table elements.now) facts.old }
    ensures place { let all = table elements.now in
        IfOk result (IsPlace
        (pair_in (nodes graph.now) (element_at all first) (element_at all second)) left.now) }
    ensures right { AreRight (nodes graph.now) (table elements.now) facts.new }
{
    for place in 0..left.len() {
        if is_in(graph, elements, facts, left[place], first, second)? {
            return Ok(Some(place));
        }
    }
    Ok(None)
}

/// The places of the first pairs of nodes left of a task that the pair of the elements is in.
pub(crate) fn places_of_pair(
    graph: &Graph,
    elements: &Elements,
    facts: &mut Facts,
    task: &PairTask,
    ids: &[ElementId],
) -> Result<Vec<usize>, AllocError>
    requires ready { let all = table elements.now in
        IsReady (nodes graph.now) all (plain_task (Pair task.now)) ids.now }
    requires right { AreRight (nodes graph.now) (table elements.now) facts.old }
    ensures held { let parts = map (element_at (table elements.now)) ids.now in IfOk result
        (λ places. AllOf (IsHeldAt (nodes graph.now) parts (plain_task (Pair task.now)))
        places.items) }
    ensures right { AreRight (nodes graph.now) (table elements.now) facts.new }
{
    places_in(graph, elements, facts, task.left.as_slice(), ids[0], ids[1])
}

// The places of the first of these pairs of nodes that the pair of two elements is in.
fn places_in(
    graph: &Graph,
    elements: &Elements,
    facts: &mut Facts,
    left: &[(NodeId, NodeId)],
    first: ElementId,
    second: ElementId,
) -> Result<Vec<usize>, AllocError>
    requires left { AllOf (IsPairWithin (length (nodes graph.now))) left.now }
    requires first { Names (table elements.now) first }
    requires second { Names (table elements.now) second }
    requires right { AreRight (nodes graph.now) (table elements.now) facts.old }
    ensures places { let all = table elements.now in IfOk result (λ places. AllOf
        (IsSoAt (pair_in (nodes graph.now) (element_at all first) (element_at all second)) left.now)
        places.items) }
    ensures right { AreRight (nodes graph.now) (table elements.now) facts.new }
{
    let mut places = Vec::new(facts.allocator());
    for place in 0..looked_at(left.len()) {
        let held = is_in(graph, elements, facts, left[place], first, second)?;
        add_if(held, place, &mut places)?;
    }
    Ok(places)
}

// Whether the pair of two elements is in a pair of nodes.
fn is_in(
    graph: &Graph,
    elements: &Elements,
    facts: &mut Facts,
    parts: (NodeId, NodeId),
    first: ElementId,
    second: ElementId,
) -> Result<bool, AllocError>
    requires parts { IsPairWithin (length (nodes graph.now)) parts }
    requires first { Names (table elements.now) first }
    requires second { Names (table elements.now) second }
    requires right { AreRight (nodes graph.now) (table elements.now) facts.old }
    ensures answer { let all = table elements.now in
        IfOk result
        (pair_in (nodes graph.now) (element_at all first) (element_at all second) parts) }
    ensures right { AreRight (nodes graph.now) (table elements.now) facts.new }
{
    if !facts.is_in(graph, elements, first, parts.0)? {
        return Ok(false);
    }
    facts.is_in(graph, elements, second, parts.1)
}
