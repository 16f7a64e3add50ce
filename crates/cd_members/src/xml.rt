//! Attempts at XML elements.
ghost use Rattle.std.specs.Prelude.{◌≡◌, ◌++◌, List, length, map, IfOk};
ghost use Rattle.cd_graph.specs.Nodes.{nodes};
ghost use Rattle.cd_model.specs.AllOf.{AllOf};
ghost use Rattle.cd_model.specs.Thing.{Thing};
ghost use Rattle.cd_rules.specs.Within.{IsXmlWithin};
ghost use Rattle.cd_elements.specs.Elements.{table};
ghost use Rattle.cd_elements.specs.Table.{Names, element_at};
ghost use Rattle.cd_facts.specs.Facts.{AreRight};
ghost use Rattle.cd_tasks.specs.PlainTask.{plain_task};
ghost use Rattle.cd_tasks.specs.declared.task.Task.TheVariants.{Xml};
ghost use Rattle.cd_members.specs.Attempts.{IsAttempt};
ghost use Rattle.cd_members.specs.Held.{IsHeldAt, IsSoAt, xml_in};
ghost use Rattle.cd_members.specs.Inner.Holding.{IsPlace};
ghost use Rattle.cd_members.specs.Inner.Ready.{IsReady};

use crate::attempt::Attempt;
use crate::held::{add_if, looked_at};
use crate::making::make;
use cd_elements::{ElementId, Elements, Shape};
use cd_facts::Facts;
use cd_graph::Graph;
use cd_sets::node_id::NodeId;
use cd_tasks::XmlTask;
use std::alloc::AllocError;

/// Attempts a task for an XML element: makes the one of the elements.
pub(crate) fn attempt_xml(
    graph: &Graph,
    elements: &mut Elements,
    facts: &mut Facts,
    task: &XmlTask,
    ids: &[ElementId],
) -> Result<Attempt, AllocError>
    requires ready { let all = table elements.old in
        IsReady (nodes graph.now) all (plain_task (Xml task.now)) ids.now }
    requires right { AreRight (nodes graph.now) (table elements.old) facts.old }
    ensures attempt { let parts = map (element_at (table elements.old)) ids.now in IfOk result
        (IsAttempt (nodes graph.now) (table elements.new) (plain_task (Xml task.now)) parts) }
    ensures right { AreRight (nodes graph.now) (table elements.new) facts.new }
    ensures grows { (more : List Thing) × (table elements.new ≡ table elements.old ++ more) }
{
    // The contract of this call says that the graph begins with the built-in nodes.
    graph.knows();
    let (tag, attributes, content) = (ids[0], ids[1], ids[2]);
    let left = task.left.as_slice();
    match place_of(graph, elements, facts, left, tag, attributes, content)? {
        Some(place) => Ok(Attempt::Held(place)),
        None => Ok(Attempt::Made(make(graph, elements, Shape::Xml(tag, attributes, content))?)),
    }
}

// The place of the first of these formulas that the XML element of three elements is in, if it is
// in one.
fn place_of(
    graph: &Graph,
    elements: &Elements,
    facts: &mut Facts,
    left: &[(NodeId, NodeId, NodeId)],
    tag: ElementId,
    attributes: ElementId,
    content: ElementId,
) -> Result<Option<usize>, AllocError>
    requires left { AllOf (IsXmlWithin (length (nodes graph.now))) left.now }
    requires tag { Names (table elements.now) tag }
    requires attributes { Names (table elements.now) attributes }
    requires content { Names (table elements.now) content }
    requires right { AreRight (nodes graph.now) (table elements.now) facts.old }
    ensures place { let all = table elements.now in
        IfOk result (IsPlace (xml_in (nodes graph.now) (element_at all tag)
        (element_at all attributes) (element_at all content)) left.now) }
    ensures right { AreRight (nodes graph.now) (table elements.now) facts.new }
{
    for place in 0..left.len() {
        if is_in(
            graph,
            elements,
            facts,
            left[place],
            tag,
            attributes,
            content,
        )? {
            return Ok(Some(place));
        }
    }
    Ok(None)
}

/// The places of the first formulas left of a task that the XML element of the elements is in.
pub(crate) fn places_of_xml(
    graph: &Graph,
    elements: &Elements,
    facts: &mut Facts,
    task: &XmlTask,
    ids: &[ElementId],
) -> Result<Vec<usize>, AllocError>
    requires ready { let all = table elements.now in
        IsReady (nodes graph.now) all (plain_task (Xml task.now)) ids.now }
    requires right { AreRight (nodes graph.now) (table elements.now) facts.old }
    ensures held { let parts = map (element_at (table elements.now)) ids.now in IfOk result
        (λ places. AllOf (IsHeldAt (nodes graph.now) parts (plain_task (Xml task.now)))
        places.items) }
    ensures right { AreRight (nodes graph.now) (table elements.now) facts.new }
{
    let left = task.left.as_slice();
    places_in(graph, elements, facts, left, ids[0], ids[1], ids[2])
}

// The places of the first of these formulas that the XML element of three elements is in.
fn places_in(
    graph: &Graph,
    elements: &Elements,
    facts: &mut Facts,
    left: &[(NodeId, NodeId, NodeId)],
    tag: ElementId,
    attributes: ElementId,
    content: ElementId,
) -> Result<Vec<usize>, AllocError>
    requires left { AllOf (IsXmlWithin (length (nodes graph.now))) left.now }
    requires tag { Names (table elements.now) tag }
    requires attributes { Names (table elements.now) attributes }
    requires content { Names (table elements.now) content }
    requires right { AreRight (nodes graph.now) (table elements.now) facts.old }
    ensures places { let all = table elements.now in IfOk result (λ places. AllOf
        (IsSoAt (xml_in (nodes graph.now) (element_at all tag) (element_at all attributes)
        (element_at all content)) left.now) places.items) }
    ensures right { AreRight (nodes graph.now) (table elements.now) facts.new }
{
    let mut places = Vec::new(facts.allocator());
    for place in 0..looked_at(left.len()) {
        let parts = left[place];
        let held = is_in(graph, elements, facts, parts, tag, attributes, content)?;
        add_if(held, place, &mut places)?;
    }
    Ok(places)
}

// Whether the XML element of three elements is in an XML formula of nodes.
fn is_in(
    graph: &Graph,
    elements: &Elements,
    facts: &mut Facts,
    parts: (NodeId, NodeId, NodeId),
    tag: ElementId,
    attributes: ElementId,
    content: ElementId,
) -> Result<bool, AllocError>
    requires parts { IsXmlWithin (length (nodes graph.now)) parts }
    requires tag { Names (table elements.now) tag }
    requires attributes { Names (table elements.now) attributes }
    requires content { Names (table elements.now) content }
    requires right { AreRight (nodes graph.now) (table elements.now) facts.old }
    ensures answer { let all = table elements.now in
        IfOk result (xml_in (nodes graph.now) (element_at all tag) (element_at all attributes)
        (element_at all content) parts) }
    ensures right { AreRight (nodes graph.now) (table elements.now) facts.new }
{
    if !facts.is_in(graph, elements, tag, parts.0)? {
        return Ok(false);
    }
    if !facts.is_in(graph, elements, attributes, parts.1)? {
        return Ok(false);
    }
    facts.is_in(graph, elements, content, parts.2)
}
