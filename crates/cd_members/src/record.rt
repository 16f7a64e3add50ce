//! Attempts at records.
ghost use Rattle.std.specs.Prelude.{◌≡◌, ◌++◌, [], List, length, map, IfOk};
ghost use Rattle.cd_graph.specs.Nodes.{nodes};
ghost use Rattle.cd_model.specs.AllOf.{AllOf};
ghost use Rattle.cd_model.specs.Membership.{answers};
ghost use Rattle.cd_model.specs.Thing.{Thing, Fields as ThingFields, IsElement, Record as ARecord};
ghost use Rattle.cd_needs.specs.RecordType.{record_type, record_types};
ghost use Rattle.cd_needs.specs.PlainReasons.{plain_reasons};
ghost use Rattle.cd_rules.specs.InRow.{IsForRow, thing_at};
ghost use Rattle.cd_rules.specs.Tasks.{row_of_given};
ghost use Rattle.cd_rules.specs.Within.{IsTypeWithin};
ghost use Rattle.cd_elements.specs.Elements.{table};
ghost use Rattle.cd_elements.specs.Table.{Names, element_at};
ghost use Rattle.cd_facts.specs.Facts.{Fact, AreRight};
ghost use Rattle.cd_tasks.specs.PlainTask.{plain_task};
ghost use Rattle.cd_tasks.specs.declared.task.Task.TheVariants.{Record};
ghost use Rattle.cd_members.specs.Attempts.{IsAttempt};
ghost use Rattle.cd_members.specs.Held.{record_in};
ghost use Rattle.cd_members.specs.Inner.Holding.{IsPlace};
ghost use Rattle.cd_members.specs.Inner.Ready.{IsReady};
ghost use Rattle.cd_members.specs.Inner.RecordFields.{put_all};

use crate::attempt::Attempt;
use crate::labels::labels_of;
use crate::making::make;
use crate::parts::put;
use cd_elements::{ElementId, Elements, Parts, Shape};
use cd_facts::Facts;
use cd_graph::Graph;
use cd_graph::fields::Fields;
use cd_syntax::name::Name;
use cd_tasks::RecordTask;
use std::alloc::{AllocError, Global};

/// Attempts a task for a record: makes a record of the elements for the row of what was given.
pub(crate) fn attempt_record(
    alloc: Global,
    graph: &Graph,
    elements: &mut Elements,
    facts: &mut Facts,
    task: &RecordTask<'_>,
    ids: &[ElementId],
) -> Result<Attempt, AllocError>
    requires ready { let all = table elements.old in
        IsReady (nodes graph.now) all (plain_task (Record task.now)) ids.now }
    requires right { AreRight (nodes graph.now) (table elements.old) facts.old }
    ensures attempt { let parts = map (element_at (table elements.old)) ids.now in IfOk result
        (IsAttempt (nodes graph.now) (table elements.new) (plain_task (Record task.now)) parts) }
    ensures right { AreRight (nodes graph.now) (table elements.new) facts.new }
    ensures grows { (more : List Thing) × (table elements.new ≡ table elements.old ++ more) }
{
    let id = make_record(alloc, graph, elements, task, ids)?;
    match place_of(graph, elements, facts, task.left.as_slice(), id)? {
        Some(place) => Ok(Attempt::Held(place)),
        None => Ok(Attempt::Made(id)),
    }
}

// Makes a record of the elements for the row of what was given. Facts stay right.
fn make_record(
    alloc: Global,
    graph: &Graph,
    elements: &mut Elements,
    task: &RecordTask<'_>,
    ids: &[ElementId],
) -> Result<ElementId, AllocError>
    requires { let all = table elements.old in
        IsReady (nodes graph.now) all (plain_task (Record task.now)) ids.now }
    ensures made { let wanted = record_types task.now.wanted.value.items in
        let refused = record_types task.now.refused.value.items in
        let row = row_of_given wanted refused (plain_reasons task.now.given.items) in
        let all = table elements.new in
        IfOk result (λ id. Names all id × IsElement (element_at all id)
        × ((fields : ThingFields) × (element_at all id ≡ ARecord fields)
        × IsForRow (answers (nodes graph.now)) (thing_at fields) row)) }
    ensures grows { (more : List Thing) × (table elements.new ≡ table elements.old ++ more) }
    ensures right { (facts : List Fact) → AreRight (nodes graph.now) (table elements.old) facts
        → AreRight (nodes graph.now) (table elements.new) facts }
{
    let row = task.row(alloc)?;
    let labels = labels_of(alloc, &row)?;
    let parts = parts_of(alloc, labels, ids)?;
    Ok(make(graph, elements, Shape::Record(Parts::of(parts)))?)
}

// The fields that have these elements at these labels.
fn parts_of(
    alloc: Global,
    labels: Vec<Name>,
    ids: &[ElementId],
) -> Result<Vec<(Name, ElementId)>, AllocError>
    ensures { IfOk result (λ parts. parts.items ≡ put_all labels.items ids.now []) }
{
    let mut parts = Vec::new(alloc);
    let mut rest = ids;
    for label in labels {
        match rest {
            [] => return Ok(parts),
            [id, others @ ..] => {
                put(&mut parts, label, *id)?;
                rest = others;
            }
        }
    }
    Ok(parts)
}

// The place of the first of these record types that an element is in, if it is in one.
fn place_of(
    graph: &Graph,
    elements: &Elements,
    facts: &mut Facts,
    left: &[&Fields],
    id: ElementId,
) -> Result<Option<usize>, AllocError>
    requires left { AllOf (IsTypeWithin (length (nodes graph.now))) (record_types left.now) }
    requires id { Names (table elements.now) id }
    requires right { AreRight (nodes graph.now) (table elements.now) facts.old }
    ensures place { let e = element_at (table elements.now) id in
        IfOk result (IsPlace (record_in (nodes graph.now) e) (record_types left.now)) }
    ensures right { AreRight (nodes graph.now) (table elements.now) facts.new }
{
    for place in 0..left.len() {
        if facts.is_in_type(graph, elements, id, left[place])? {
            return Ok(Some(place));
        }
    }
    Ok(None)
}
