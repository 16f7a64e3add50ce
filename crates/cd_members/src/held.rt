//! The first of the members that hold what elements make.
ghost use Rattle.std.specs.Prelude.{◌≡◌, ◌≤◌, length, map, IfOk, OnOk};
ghost use Rattle.cd_graph.specs.Nodes.{nodes};
ghost use Rattle.cd_model.specs.AllOf.{AllOf};
ghost use Rattle.cd_model.specs.Membership.{answers};
ghost use Rattle.cd_rules.specs.InWay.{AreInWay};
ghost use Rattle.cd_rules.specs.Tasks.{IsTaskOfNodes, questions_of};
ghost use Rattle.cd_elements.specs.Elements.{table};
ghost use Rattle.cd_elements.specs.Table.{Names, element_at};
ghost use Rattle.cd_facts.specs.Facts.{AreRight};
ghost use Rattle.cd_members.specs.Held.{IsHeldAt};
ghost use Rattle.cd_members.specs.Inner.Holding.{AddsPlace};
ghost use Rattle.cd_tasks.specs.PlainTask.{plain_task};

use crate::pair::places_of_pair;
use crate::xml::places_of_xml;
use cd_elements::{ElementId, Elements};
use cd_facts::Facts;
use cd_graph::Graph;
use cd_tasks::Task;
use std::alloc::AllocError;

/// The places of members left of a task that hold the pair or the XML element of some elements, of
/// which each is in one of the task's questions. The first members are looked at, and so many at
/// most. For other tasks it gives none.
///
/// # Errors
///
/// Want of memory. There may be more facts.
pub fn held_places(
    graph: &Graph,
    elements: &Elements,
    facts: &mut Facts,
    task: &Task<'_>,
    ids: &[ElementId],
) -> Result<Vec<usize>, AllocError>
    requires task { IsTaskOfNodes (length (nodes graph.now)) (plain_task task.now) }
    requires named { AllOf (Names (table elements.now)) ids.now }
    requires parts { AreInWay
        (map (λ id. answers (nodes graph.now) (element_at (table elements.now) id)) ids.now)
        (questions_of (plain_task task.now)) }
    requires right { AreRight (nodes graph.now) (table elements.now) facts.old }
    ensures held { let parts = map (element_at (table elements.now)) ids.now in IfOk result
        (λ places. AllOf (IsHeldAt (nodes graph.now) parts (plain_task task.now)) places.items) }
    ensures right { AreRight (nodes graph.now) (table elements.now) facts.new }
{
    match task {
        Task::Pair(task) => places_of_pair(graph, elements, facts, task, ids),
        Task::Xml(task) => places_of_xml(graph, elements, facts, task, ids),
        Task::Arrow(_) | Task::Record(_) => Ok(Vec::new(facts.allocator())),
    }
}

// How many of the members left are looked at. To look at more of them costs more than a better
// choice saves.
const LOOKED_AT: usize = 64;

/// How many of so many members are looked at.
pub(crate) fn looked_at(count: usize) -> usize
    ensures { result ≤ count }
{
    if count < LOOKED_AT { count } else { LOOKED_AT }
}

/// Adds the place of a member, if it holds what is made.
pub(crate) fn add_if(held: bool, place: usize, places: &mut Vec<usize>) -> Result<(), AllocError>
    ensures { OnOk result (AddsPlace held place places.old.items places.new.items) }
{
    if held {
        places.push(place)?;
    }
    Ok(())
}
