//! Lists of questions, each of them once.
ghost use Rattle.std.specs.Prelude.{◌≡◌, [], ◌∷◌, ◌++◌, map, IfOk, OnOk};
ghost use Rattle.std.specs.List.{list_any};
ghost use Rattle.cd_sets.specs.Asking.{same_question};
ghost use Rattle.cd_needs.specs.RecordTypes.{plain_row};
ghost use Rattle.cd_records.specs.Inner.Plain.{plain_questions};
ghost use Rattle.cd_records.specs.Inner.Saying.{asked_by, every_of, with_question, with_questions};

use crate::rows::asked_at;
use cd_needs::row::Row;
use cd_sets::question::Question;
use cd_syntax::name::Name;
use std::alloc::{AllocError, Global};

/// These questions, each of them once.
pub(crate) fn distinct(alloc: Global, questions: &[Question]) -> Result<Vec<&Question>, AllocError>
    ensures { IfOk result (λ all. plain_questions all.items ≡ with_questions questions.now []) }
{
    let mut all = Vec::new(alloc);
    for question in questions {
        add_question(question, &mut all)?;
    }
    Ok(all)
}

/// Copies of questions.
pub(crate) fn copies(alloc: Global, questions: &[&Question]) -> Result<Vec<Question>, AllocError>
    ensures { IfOk result (λ all. all.items ≡ plain_questions questions.now) }
{
    let mut all = Vec::with_capacity(alloc, questions.len())?;
    for question in questions {
        all.push(question.copy()?)?;
    }
    Ok(all)
}

/// Adds what rows ask at a label.
pub(crate) fn add_asked<'r>(
    rows: &'r [Row],
    label: &Name,
    questions: &mut Vec<&'r Question>,
) -> Result<(), AllocError>
    ensures { OnOk result (plain_questions questions.new.items
        ≡ with_questions (asked_by (map plain_row rows.now) label.now)
        (plain_questions questions.old.items)) }
{
    for row in rows {
        add_question(asked_at(row, label), questions)?;
    }
    Ok(())
}

/// Adds what rows ask at a label of no cell.
pub(crate) fn add_every<'r>(
    rows: &'r [Row],
    questions: &mut Vec<&'r Question>,
) -> Result<(), AllocError>
    ensures { OnOk result (plain_questions questions.new.items
        ≡ with_questions (every_of (map plain_row rows.now))
        (plain_questions questions.old.items)) }
{
    for row in rows {
        add_question(&row.every, questions)?;
    }
    Ok(())
}

// Adds a question, if it is not there yet.
fn add_question<'q>(
    question: &'q Question,
    questions: &mut Vec<&'q Question>,
) -> Result<(), AllocError>
    ensures { OnOk result (plain_questions questions.new.items
        ≡ with_question question.now (plain_questions questions.old.items)) }
{
    if is_among(question, questions.as_slice()) {
        return Ok(());
    }
    Ok(questions.push(question)?)
}

// Whether a question is one of these.
fn is_among(question: &Question, questions: &[&Question]) -> bool
    ensures { result ≡ list_any (same_question question.now) (plain_questions questions.now) }
{
    for other in questions {
        if question == *other {
            return true;
        }
    }
    false
}
