//! Rows less a record type.
ghost use Rattle.std.specs.Prelude.{◌≡◌, [], ◌∷◌, ◌++◌, map, IfOk, OnOk};
ghost use Rattle.cd_needs.specs.Inner.PlainCells.{plain_cells};
ghost use Rattle.cd_needs.specs.RecordType.{record_type};
ghost use Rattle.cd_needs.specs.RecordTypes.{plain_row};
ghost use Rattle.cd_rows.specs.Inner.PlainClauses.{plain_labelled};
ghost use Rattle.cd_rows.specs.Inner.Refining.{less_row, with_cells, with_outside};
ghost use Rattle.cd_rows.specs.Inner.Refining.{less_after, within_type, without_type};

use crate::copied::add_copies;
use crate::narrowed::{outside_node, within, without};
use cd_graph::fields::Fields;
use cd_needs::row::{FieldCell, Row};
use cd_sets::question::{Question, Questions};
use cd_syntax::name::Name;
use std::alloc::{AllocError, Global};

/// What of a row is outside a record type, as rows that have no record in common: outside it at the
/// label of the first cell, or within it there and outside it at the label of a later one, or at a
/// label of no cell.
pub(crate) fn less(alloc: Global, refused: &Fields, row: &Row) -> Result<Vec<Row>, AllocError>
    ensures { IfOk result (λ rows.
        map plain_row rows.items ≡ less_row (record_type refused.now) (plain_row row.now)) }
{
    less_cells(alloc, refused, row, row.fields.as_slice())
}

// The same of a row with these cells.
fn less_cells(
    alloc: Global,
    refused: &Fields,
    row: &Row,
    cells: &[(Name, FieldCell)],
) -> Result<Vec<Row>, AllocError>
    ensures { let type = record_type refused.now in
        IfOk result (λ rows. map plain_row rows.items
        ≡ less_after type (plain_row row.now) [] (plain_cells cells.now)
        ++ (with_outside type.rest (plain_row row.now)
        (map (within_type type) (plain_cells cells.now)) ∷ [])) }
{
    let mut rows = Vec::new(alloc);
    let mut before = Vec::new(alloc);
    for index in 0..cells.len() {
        let cell = &cells[index];
        let left = &cells[index + 1..];
        rows.push(outside_at(refused, row, before.as_slice(), cell, left)?)?;
        before.push(within_cell(refused, cell)?)?;
    }
    rows.push(outside_rest(refused, row, before)?)?;
    Ok(rows)
}

// A row with these cells, the middle one outside a type.
fn outside_at(
    refused: &Fields,
    row: &Row,
    before: &[(Name, FieldCell)],
    cell: &(Name, FieldCell),
    left: &[(Name, FieldCell)],
) -> Result<Row, AllocError>
    ensures { let type = record_type refused.now in
        IfOk result (λ made. plain_row made ≡ with_cells (plain_row row.now)
        (plain_cells before.now
        ++ (without_type type (plain_labelled cell.now) ∷ plain_cells left.now))) }
{
    let mut fields = Vec::new(*row.fields.allocator());
    add_copies(before, &mut fields)?;
    fields.push(without_cell(refused, cell)?)?;
    add_copies(left, &mut fields)?;
    Ok(Row {
        fields,
        every: row.every.copy()?,
        some: row.some.copy()?,
    })
}

// A row with these cells, and a value outside the rest of a type at a label of no cell.
fn outside_rest(
    refused: &Fields,
    row: &Row,
    cells: Vec<(Name, FieldCell)>,
) -> Result<Row, AllocError>
    ensures { IfOk result (λ made. plain_row made
        ≡ with_outside refused.now.rest (plain_row row.now) (plain_cells cells.items)) }
{
    let outside = outside_node(refused.rest, &row.every)?;
    let some = with_first(*cells.allocator(), outside, row.some.items())?;
    let every = row.every.copy()?;
    Ok(Row {
        fields: cells,
        every,
        some,
    })
}

// A question and others.
fn with_first(alloc: Global, first: Question, others: &[Question]) -> Result<Questions, AllocError>
    ensures { IfOk result (λ all. all ≡ first ∷ others.now) }
{
    let mut all = Vec::new(alloc);
    all.push(first)?;
    for other in others {
        all.push(other.copy()?)?;
    }
    Ok(Questions::of(all))
}

// A cell within a type.
fn within_cell(refused: &Fields, cell: &(Name, FieldCell)) -> Result<(Name, FieldCell), AllocError>
    ensures { IfOk result (λ narrowed. plain_labelled narrowed
        ≡ within_type (record_type refused.now) (plain_labelled cell.now)) }
{
    let narrowed = within(refused.at(&cell.0), &cell.1)?;
    Ok((cell.0.copy()?, narrowed))
}

// A cell outside a type.
fn without_cell(refused: &Fields, cell: &(Name, FieldCell)) -> Result<(Name, FieldCell), AllocError>
    ensures { IfOk result (λ narrowed. plain_labelled narrowed
        ≡ without_type (record_type refused.now) (plain_labelled cell.now)) }
{
    let narrowed = without(refused.at(&cell.0), &cell.1)?;
    Ok((cell.0.copy()?, narrowed))
}
