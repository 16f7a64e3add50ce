//! Attempts at the pairs by which functions are outside arrows.
ghost use Rattle.std.specs.Prelude.{◌≡◌, ◌++◌, List, length, map, IfOk};
ghost use Rattle.cd_graph.specs.Nodes.{nodes};
ghost use Rattle.cd_model.specs.AllOf.{AllOf};
ghost use Rattle.cd_model.specs.Thing.{Thing};
ghost use Rattle.cd_rules.specs.Within.{IsPairWithin};
ghost use Rattle.cd_elements.specs.Elements.{table};
ghost use Rattle.cd_elements.specs.Table.{Names, IsResult, element_at, result_at};
ghost use Rattle.cd_facts.specs.Facts.{AreRight};
ghost use Rattle.cd_tasks.specs.PlainTask.{plain_task};
ghost use Rattle.cd_tasks.specs.declared.task.Task.TheVariants.{Arrow};
ghost use Rattle.cd_members.specs.Attempts.{IsAttempt};
ghost use Rattle.cd_members.specs.Held.{breaks};
ghost use Rattle.cd_members.specs.Inner.Holding.{IsPlace};
ghost use Rattle.cd_members.specs.Inner.Ready.{IsReady};

use crate::attempt::Attempt;
use cd_elements::{ElementId, Elements};
use cd_facts::Facts;
use cd_graph::Graph;
use cd_sets::node_id::NodeId;
use cd_tasks::ArrowTask;
use std::alloc::AllocError;

/// Attempts a task for a refused arrow: the pair of the elements, which fails where there is one
/// alone.
pub(crate) fn attempt_arrow(
    graph: &Graph,
    elements: &Elements,
    facts: &mut Facts,
    task: &ArrowTask,
    ids: &[ElementId],
) -> Result<Attempt, AllocError>
    requires ready { let all = table elements.now in
        IsReady (nodes graph.now) all (plain_task (Arrow task.now)) ids.now }
    requires right { AreRight (nodes graph.now) (table elements.now) facts.old }
    ensures attempt { let parts = map (element_at (table elements.now)) ids.now in IfOk result
        (IsAttempt (nodes graph.now) (table elements.now) (plain_task (Arrow task.now)) parts) }
    ensures right { AreRight (nodes graph.now) (table elements.now) facts.new }
{
    // The contract of this call says that each element of the table is one.
    elements.knows();
    let from = ids[0];
    let to = ids.get(1).copied();
    match place_of(graph, elements, facts, task.left.as_slice(), from, to)? {
        Some(place) => Ok(Attempt::Held(place)),
        None => Ok(Attempt::Maps(from, to)),
    }
}

// The place of the first of these arrows that a pair breaks, if it breaks one.
fn place_of(
    graph: &Graph,
    elements: &Elements,
    facts: &mut Facts,
    left: &[(NodeId, NodeId)],
    from: ElementId,
    to: Option<ElementId>,
) -> Result<Option<usize>, AllocError>
    requires left { AllOf (IsPairWithin (length (nodes graph.now))) left.now }
    requires from { Names (table elements.now) from }
    requires to { IsResult (table elements.now) to }
    requires right { AreRight (nodes graph.now) (table elements.now) facts.old }
    ensures place { let all = table elements.now in
        IfOk result (IsPlace
        (breaks (nodes graph.now) (element_at all from) (result_at all to)) left.now) }
    ensures right { AreRight (nodes graph.now) (table elements.now) facts.new }
{
    for place in 0..left.len() {
        if breaks(graph, elements, facts, left[place], from, to)? {
            return Ok(Some(place));
        }
    }
    Ok(None)
}

// Whether a pair breaks an arrow: its argument is in the arrow's, and it has no result in the
// arrow's.
fn breaks(
    graph: &Graph,
    elements: &Elements,
    facts: &mut Facts,
    arrow: (NodeId, NodeId),
    from: ElementId,
    to: Option<ElementId>,
) -> Result<bool, AllocError>
    requires arrow { IsPairWithin (length (nodes graph.now)) arrow }
    requires from { Names (table elements.now) from }
    requires to { IsResult (table elements.now) to }
    requires right { AreRight (nodes graph.now) (table elements.now) facts.old }
    ensures answer { let all = table elements.now in
        IfOk result (breaks (nodes graph.now) (element_at all from) (result_at all to) arrow) }
    ensures right { AreRight (nodes graph.now) (table elements.now) facts.new }
{
    if !facts.is_in(graph, elements, from, arrow.0)? {
        return Ok(false);
    }
    match to {
        Some(to) => Ok(!facts.is_in(graph, elements, to, arrow.1)?),
        None => Ok(true),
    }
}
