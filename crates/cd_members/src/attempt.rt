//! Attempts at tasks.
ghost use Rattle.std.specs.Prelude.{◌≡◌, ◌++◌, List, length, map, IfOk};
ghost use Rattle.cd_graph.specs.Nodes.{nodes};
ghost use Rattle.cd_model.specs.AllOf.{AllOf};
ghost use Rattle.cd_model.specs.Membership.{answers};
ghost use Rattle.cd_model.specs.Thing.{Thing};
ghost use Rattle.cd_rules.specs.InWay.{AreInWay};
ghost use Rattle.cd_rules.specs.Tasks.{IsTaskOfNodes, questions_of};
ghost use Rattle.cd_elements.specs.Elements.{table};
ghost use Rattle.cd_elements.specs.Table.{Names, element_at};
ghost use Rattle.cd_facts.specs.Facts.{AreRight};
ghost use Rattle.cd_tasks.specs.PlainTask.{plain_task};
ghost use Rattle.cd_members.specs.Attempts.{IsAttempt};

use crate::arrow::attempt_arrow;
use crate::pair::attempt_pair;
use crate::record::attempt_record;
use crate::xml::attempt_xml;
use cd_elements::{ElementId, Elements};
use cd_facts::Facts;
use cd_graph::Graph;
use cd_tasks::Task;
use std::alloc::{AllocError, Global};

/// What an attempt at a task gives.
#[derive(Drop)]
pub enum Attempt {
    /// The member at this place of those left holds what was made.
    Held(usize),
    /// This element is in the clause.
    Made(ElementId),
    /// A function that has this pair too is outside the task's arrow. Without a result it fails
    /// there.
    Maps(ElementId, Option<ElementId>),
}

/// Makes of elements of a task's questions, one of each, a thing for the task, or the pair of a
/// function, and looks whether it is right by each member that is left. The elements are those that
/// the numbers name in the table as it was.
///
/// # Errors
///
/// Want of memory. The table may have new elements, and the facts more facts.
pub fn attempt_task(
    alloc: Global,
    graph: &Graph,
    elements: &mut Elements,
    facts: &mut Facts,
    task: &Task<'_>,
    ids: &[ElementId],
) -> Result<Attempt, AllocError>
    requires task { IsTaskOfNodes (length (nodes graph.now)) (plain_task task.now) }
    requires named { AllOf (Names (table elements.old)) ids.now }
    requires parts { AreInWay
        (map (λ id. answers (nodes graph.now) (element_at (table elements.old) id)) ids.now)
        (questions_of (plain_task task.now)) }
    requires right { AreRight (nodes graph.now) (table elements.old) facts.old }
    ensures attempt { let parts = map (element_at (table elements.old)) ids.now in IfOk result
        (IsAttempt (nodes graph.now) (table elements.new) (plain_task task.now) parts) }
    ensures right { AreRight (nodes graph.now) (table elements.new) facts.new }
    ensures grows { (more : List Thing) × (table elements.new ≡ table elements.old ++ more) }
{
    match task {
        Task::Pair(task) => attempt_pair(graph, elements, facts, task, ids),
        Task::Xml(task) => attempt_xml(graph, elements, facts, task, ids),
        Task::Arrow(task) => attempt_arrow(graph, elements, facts, task, ids),
        Task::Record(task) => attempt_record(alloc, graph, elements, facts, task, ids),
    }
}
