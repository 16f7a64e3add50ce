//! What is left of rows where a label goes.
ghost use Rattle.std.specs.Prelude.{◌≡◌, ◌++◌, length, map, IfOk, OnOk};
ghost use Rattle.cd_needs.specs.RecordTypes.{plain_row};
ghost use Rattle.cd_empty.specs.Seen.{graph_of};
ghost use Rattle.cd_products.specs.Inner.After.{IsAfter};
ghost use Rattle.cd_rows.specs.RecordRows.{RowAsksNodes};
ghost use Rattle.cd_records.specs.Inner.Plain.{plain_choice, plain_rest};
ghost use Rattle.cd_records.specs.Inner.Rests.{AddsRests, AreRests, rests_of_choices};
ghost use Rattle.cd_records.specs.Inner.Rows.{AreRowsIn};

use crate::choice::Choice;
use crate::questions::distinct;
use crate::rest::Rest;
use crate::rows::has_cell;
use crate::splitting::choices_of;
use cd_empty::World;
use cd_needs::row::Row;
use cd_syntax::name::Name;
use std::alloc::{AllocError, Global};

/// The rests of rows.
pub(crate) fn rests_of<'r>(
    alloc: Global,
    world: &mut World,
    rows: &'r [Row],
    label: &Name,
) -> Result<Vec<Rest<'r>>, AllocError>
    requires { AreRowsIn (graph_of world.old) (map plain_row rows.now) }
    ensures rests { IfOk result (λ rests. AreRests (graph_of world.old) label.now
        (map plain_row rows.now) (map plain_rest rests.items)) }
    ensures after { IsAfter world.old world.new }
{
    let mut rests = Vec::new(alloc);
    for row in rows {
        add_rests(alloc, world, row, label, &mut rests)?;
    }
    Ok(rests)
}

// Adds those of a row.
fn add_rests<'r>(
    alloc: Global,
    world: &mut World,
    row: &'r Row,
    label: &Name,
    rests: &mut Vec<Rest<'r>>,
) -> Result<(), AllocError>
    requires { RowAsksNodes (length (graph_of world.old)) (plain_row row.now) }
    ensures adds { OnOk result (AddsRests (graph_of world.old) label.now (plain_row row.now)
        (map plain_rest rests.old.items) (map plain_rest rests.new.items)) }
    ensures after { IsAfter world.old world.new }
{
    if has_cell(row, label) {
        let left = distinct(alloc, row.some.items())?;
        return Ok(rests.push(Rest { row, left })?);
    }
    let choices = choices_of(alloc, world, row)?;
    Ok(add_choices(alloc, row, choices.as_slice(), rests)?)
}

// Adds those of choices.
fn add_choices<'r>(
    alloc: Global,
    row: &'r Row,
    choices: &[Choice<'r>],
    rests: &mut Vec<Rest<'r>>,
) -> Result<(), AllocError>
    ensures { OnOk result (map plain_rest rests.new.items ≡ map plain_rest rests.old.items
        ++ rests_of_choices (plain_row row.now) (map plain_choice choices.now)) }
{
    for choice in choices {
        let left = Vec::from_slice(alloc, choice.left.as_slice())?;
        rests.push(Rest { row, left })?;
    }
    Ok(())
}
