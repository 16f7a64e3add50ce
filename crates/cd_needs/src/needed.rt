//! The questions of a row that have to have elements.
ghost use Rattle.std.specs.Prelude.{◌≡◌, [], ◌∷◌, ◌++◌, map, IfOk, OnOk};
ghost use Rattle.cd_rules.specs.Needs.{question as question_of};
ghost use Rattle.cd_rules.specs.Rows.{types_elsewhere, row_of};
ghost use Rattle.cd_rules.specs.Tasks.{present};
ghost use Rattle.cd_needs.specs.RecordType.{record_types};
ghost use Rattle.cd_needs.specs.Inner.PlainCells.{cells_at};
ghost use Rattle.cd_needs.specs.PlainReasons.{plain_labels, plain_reasons};

use crate::asking::question;
use crate::cell::{may_be_absent, value_at};
use crate::reasons::Chosen;
use cd_graph::fields::Fields;
use cd_sets::node_id::NodeId;
use cd_sets::question::Question;
use cd_syntax::name::Name;
use std::alloc::{AllocError, Global};

/// The nodes of the types for labels that they do not name.
pub(crate) fn rests(alloc: Global, types: &[&Fields]) -> Result<Vec<NodeId>, AllocError>
    ensures { IfOk result (λ nodes.
        nodes.items ≡ map (λ type. type.rest) (record_types types.now)) }
{
    let mut nodes = Vec::new(alloc);
    for fields in types {
        nodes.push(fields.rest)?;
    }
    Ok(nodes)
}

/// Adds what some value is in, at labels that no type names, for each type with such a label as its
/// reason.
pub(crate) fn add_elsewhere(
    alloc: Global,
    rests: &[NodeId],
    reasons: &[Chosen<'_>],
    questions: &mut Vec<Question>,
) -> Result<(), AllocError>
    ensures { OnOk result (questions.new.items ≡ questions.old.items
        ++ map (λ type. question_of rests.now (type.rest ∷ []))
        (types_elsewhere (plain_reasons reasons.now))) }
{
    for chosen in reasons {
        if chosen.reason.is_none() {
            questions.push(question(alloc, rests, &[chosen.refused.rest])?)?;
        }
    }
    Ok(())
}

// What the values are in at the labels that may not be absent.
fn values(
    alloc: Global,
    labels: &[&Name],
    wanted: &[&Fields],
    reasons: &[Chosen<'_>],
) -> Result<Vec<Question>, AllocError>
    ensures { IfOk result (λ questions. questions.items
        ≡ present (cells_at (record_types wanted.now) (plain_reasons reasons.now)
        (plain_labels labels.now))) }
{
    let mut questions = Vec::new(alloc);
    for label in labels {
        if !may_be_absent(wanted, reasons, label) {
            questions.push(value_at(alloc, wanted, reasons, label)?)?;
        }
    }
    Ok(questions)
}

/// The questions of the row of a choice of reasons of which each has to have an element: those of
/// the labels that may not be absent, and those of other labels.
///
/// # Errors
///
/// Want of memory.
pub fn needed_questions(
    alloc: Global,
    labels: &[&Name],
    wanted: &[&Fields],
    reasons: &[Chosen<'_>],
) -> Result<Vec<Question>, AllocError>
    ensures { let row = row_of (plain_labels labels.now) (record_types wanted.now)
        (plain_reasons reasons.now) in
        IfOk result (λ questions. questions.items ≡ present row.cells ++ row.some) }
{
    let mut questions = values(alloc, labels, wanted, reasons)?;
    let rests = rests(alloc, wanted)?;
    add_elsewhere(alloc, rests.as_slice(), reasons, &mut questions)?;
    Ok(questions)
}
