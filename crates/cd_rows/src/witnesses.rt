//! Which rows have records.
ghost use Rattle.std.specs.Prelude.{◌≡◌, [], ◌∷◌, ◌++◌, Bool, List, length, map, IfOk, OnOk};
ghost use Rattle.cd_sets.specs.declared.question.Question.{Question as AQuestion};
ghost use Rattle.cd_model.specs.AllOf.{AllOf};
ghost use Rattle.cd_rules.specs.Family.{AsksNodes};
ghost use Rattle.cd_rules.specs.Tasks.{present};
ghost use Rattle.cd_needs.specs.Inner.PlainCells.{plain_cells};
ghost use Rattle.cd_needs.specs.RecordTypes.{plain_row};
ghost use Rattle.cd_empty.specs.Seen.{graph_of};
ghost use Rattle.cd_products.specs.Inner.After.{IsAfter};
ghost use Rattle.cd_products.specs.Inner.Tests.{IsTest, IsTested};
ghost use Rattle.cd_rows.specs.RecordRows.{RowAsksNodes};
ghost use Rattle.cd_rows.specs.Inner.Refining.{keep as keep_rows, needed};

use crate::copied::copy_of;
use cd_empty::World;
use cd_needs::row::{FieldCell, Row};
use cd_sets::question::Question;
use cd_syntax::name::Name;
use cd_verdicts::Verdict;
use std::alloc::AllocError;

/// Adds the rows that have a record.
pub(crate) fn keep(world: &mut World, rows: &[Row], kept: &mut Vec<Row>) -> Result<(), AllocError>
    requires { AllOf (RowAsksNodes (length (graph_of world.old))) (map plain_row rows.now) }
    ensures exact { OnOk result ((test : List AQuestion → Bool) → IsTest (graph_of world.old) test
        → map plain_row kept.new.items
        ≡ map plain_row kept.old.items ++ keep_rows test (map plain_row rows.now)) }
    ensures after { IsAfter world.old world.new }
{
    for row in rows {
        keep_one(world, row, kept)?;
    }
    Ok(())
}

/// Adds a row if it has a record.
pub(crate) fn keep_one(world: &mut World, row: &Row, kept: &mut Vec<Row>) -> Result<(), AllocError>
    requires { RowAsksNodes (length (graph_of world.old)) (plain_row row.now) }
    ensures exact { OnOk result ((test : List AQuestion → Bool) → IsTest (graph_of world.old) test
        → map plain_row kept.new.items
        ≡ map plain_row kept.old.items ++ keep_rows test (plain_row row.now ∷ [])) }
    ensures after { IsAfter world.old world.new }
{
    if has_record(world, row)? {
        kept.push(copy_of(row)?)?;
    }
    Ok(())
}

// Whether a row has a record.
fn has_record(world: &mut World, row: &Row) -> Result<bool, AllocError>
    requires { RowAsksNodes (length (graph_of world.old)) (plain_row row.now) }
    ensures tested { IfOk result
        (λ answer. IsTested (graph_of world.old) (needed (plain_row row.now)) answer) }
    ensures after { IsAfter world.old world.new }
{
    if cells_have_witnesses(world, row.fields.as_slice())? {
        are_inhabited(world, row.some.items())
    } else {
        Ok(false)
    }
}

// Whether each cell may be absent or has an element.
fn cells_have_witnesses(world: &mut World, cells: &[(Name, FieldCell)]) -> Result<bool, AllocError>
    requires { AllOf (AsksNodes (length (graph_of world.old))) (present (plain_cells cells.now)) }
    ensures tested { IfOk result
        (λ answer. IsTested (graph_of world.old) (present (plain_cells cells.now)) answer) }
    ensures after { IsAfter world.old world.new }
{
    match cells {
        [] => Ok(true),
        [cell, rest @ ..] => {
            if cell.1.absent {
                cells_have_witnesses(world, rest)
            } else {
                match world.decide(&cell.1.value)? {
                    Verdict::Empty => Ok(false),
                    Verdict::Inhabited(_) => cells_have_witnesses(world, rest),
                }
            }
        }
    }
}

// Whether each of these questions has an element.
fn are_inhabited(world: &mut World, questions: &[Question]) -> Result<bool, AllocError>
    requires { AllOf (AsksNodes (length (graph_of world.old))) questions.now }
    ensures tested { IfOk result (λ answer. IsTested (graph_of world.old) questions.now answer) }
    ensures after { IsAfter world.old world.new }
{
    match questions {
        [] => Ok(true),
        [first, rest @ ..] => match world.decide(first)? {
            Verdict::Empty => Ok(false),
            Verdict::Inhabited(_) => are_inhabited(world, rest),
        },
    }
}
