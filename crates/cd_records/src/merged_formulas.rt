//! The record type of merged records.
ghost use Rattle.std.specs.Prelude.{◌≡◌, [], map, if◌then◌else◌, IfOk};
ghost use Rattle.cd_graph.specs.Nodes.{nodes};
ghost use Rattle.cd_graph.specs.PlainFormula.{plain};
ghost use Rattle.cd_needs.specs.PlainReasons.{plain_labels};
ghost use Rattle.cd_needs.specs.RecordTypes.{plain_row};
ghost use Rattle.cd_records.specs.Inner.Labels.{row_labels};
ghost use Rattle.cd_records.specs.Inner.Rests.{IsMergedSaid};
ghost use Rattle.cd_records.specs.Inner.Rows.{AreRowsIn};
ghost use Rattle.cd_records.specs.Inner.Standing.{IsMadeFor};
ghost use Rattle.cd_records.specs.Inner.Plain.{plain_questions, plain_said};
ghost use Rattle.cd_records.specs.Inner.Saying.{asked_by, with_questions};
ghost use Rattle.cd_records.specs.Inner.Saying.{merged_entry, merged_entries, merged_every};

use crate::batch::put;
use crate::labels::add_labels;
use crate::made::Made;
use crate::questions::{add_asked, add_every};
use crate::record_type::record_of;
use crate::rows::one_may_lack;
use crate::said::Said;
use cd_graph::Graph;
use cd_needs::row::Row;
use cd_sets::question::Question;
use cd_syntax::name::Name;
use std::alloc::{AllocError, Global};

/// The formulas for merged records.
pub(crate) fn made_of(
    alloc: Global,
    graph: &Graph,
    first: &[Row],
    second: &[Row],
) -> Result<Made, AllocError>
    requires first { AreRowsIn (nodes graph.now) (map plain_row first.now) }
    requires second { AreRowsIn (nodes graph.now) (map plain_row second.now) }
    ensures { IfOk result (λ made. IsMadeFor (nodes graph.now)
        (IsMergedSaid (nodes graph.now) (map plain_row first.now) (map plain_row second.now))
        (map plain made.batch.items) made.id) }
{
    let said = said_of(alloc, first, second)?;
    let every = every_of(alloc, first, second)?;
    let mut batch = Vec::new(alloc);
    let record = record_of(alloc, graph, &mut batch, said.as_slice(), every.as_slice())?;
    let id = put(graph, &mut batch, record)?;
    Ok(Made { batch, id })
}

// What may stand at each label that a row of the one or of the other names.
fn said_of<'r>(
    alloc: Global,
    first: &'r [Row],
    second: &'r [Row],
) -> Result<Vec<Said<'r>>, AllocError>
    ensures { IfOk result (λ said. map plain_said said.items
        ≡ merged_entries (map plain_row first.now) (map plain_row second.now)
        (row_labels (map plain_row second.now) (row_labels (map plain_row first.now) []))) }
{
    let mut labels = Vec::new(alloc);
    add_labels(first, &mut labels)?;
    add_labels(second, &mut labels)?;
    said_at_all(alloc, first, second, labels.as_slice())
}

// What may stand at each of these labels.
fn said_at_all<'r>(
    alloc: Global,
    first: &'r [Row],
    second: &'r [Row],
    labels: &[&'r Name],
) -> Result<Vec<Said<'r>>, AllocError>
    ensures { IfOk result (λ said. map plain_said said.items
        ≡ merged_entries (map plain_row first.now) (map plain_row second.now)
        (plain_labels labels.now)) }
{
    let mut all = Vec::new(alloc);
    for label in labels {
        all.push(said_at(alloc, first, second, label)?)?;
    }
    Ok(all)
}

// What may stand at a label: what the second has there, or else what the first has.
fn said_at<'r>(
    alloc: Global,
    first: &'r [Row],
    second: &'r [Row],
    label: &'r Name,
) -> Result<Said<'r>, AllocError>
    ensures { IfOk result (λ said. plain_said said ≡ (
      label.now,
      merged_entry (map plain_row first.now) (map plain_row second.now) label.now,
    )) }
{
    let lacked = one_may_lack(second, label);
    let questions = asked_at(alloc, first, second, label, lacked)?;
    let optional = lacked && one_may_lack(first, label);
    Ok(Said {
        label,
        optional,
        questions,
    })
}

// What the second asks there, and the first too where the second may lack it.
fn asked_at<'r>(
    alloc: Global,
    first: &'r [Row],
    second: &'r [Row],
    label: &Name,
    lacked: bool,
) -> Result<Vec<&'r Question>, AllocError>
    ensures { IfOk result (λ questions. plain_questions questions.items
        ≡ with_questions (if lacked then asked_by (map plain_row first.now) label.now else [])
        (with_questions (asked_by (map plain_row second.now) label.now) [])) }
{
    let mut questions = Vec::new(alloc);
    add_asked(second, label, &mut questions)?;
    if !lacked {
        return Ok(questions);
    }
    add_asked(first, label, &mut questions)?;
    Ok(questions)
}

// What may stand at a label that none of them names.
fn every_of<'r>(
    alloc: Global,
    first: &'r [Row],
    second: &'r [Row],
) -> Result<Vec<&'r Question>, AllocError>
    ensures { IfOk result (λ every. plain_questions every.items
        ≡ merged_every (map plain_row first.now) (map plain_row second.now)) }
{
    let mut questions = Vec::new(alloc);
    add_every(second, &mut questions)?;
    add_every(first, &mut questions)?;
    Ok(questions)
}
