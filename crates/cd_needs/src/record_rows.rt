//! The rows of a clause of records.
ghost use Rattle.std.specs.Prelude.{◌≡◌, map, IfOk};
ghost use Rattle.cd_rules.specs.Rows.{row_of};
ghost use Rattle.cd_needs.specs.RecordType.{record_types};
ghost use Rattle.cd_needs.specs.Inner.PlainCells.{plain_cells, cells_at};
ghost use Rattle.cd_needs.specs.PlainReasons.{plain_labels, plain_reasons};
ghost use Rattle.cd_needs.specs.RecordTypes.{plain_row};

use crate::asking::question;
use crate::cell::cell_at;
use crate::needed::{add_elsewhere, rests};
use crate::reasons::Chosen;
use crate::row::{FieldCell, Row};
use cd_graph::fields::Fields;
use cd_sets::question::Questions;
use cd_syntax::name::Name;
use std::alloc::{AllocError, Global};

// What may stand at each of the labels.
fn cells(
    alloc: Global,
    labels: &[&Name],
    wanted: &[&Fields],
    reasons: &[Chosen<'_>],
) -> Result<Vec<(Name, FieldCell)>, AllocError>
    ensures { IfOk result (λ cells.
        plain_cells cells.items ≡ cells_at (record_types wanted.now) (plain_reasons reasons.now)
        (plain_labels labels.now)) }
{
    let mut cells = Vec::new(alloc);
    for label in labels {
        let cell = cell_at(alloc, wanted, reasons, label)?;
        cells.push((label.copy()?, cell))?;
    }
    Ok(cells)
}

/// The row of a choice of reasons.
///
/// # Errors
///
/// Want of memory.
pub fn row(
    alloc: Global,
    labels: &[&Name],
    wanted: &[&Fields],
    reasons: &[Chosen<'_>],
) -> Result<Row, AllocError>
    ensures { IfOk result (λ row.
        plain_row row ≡ row_of (plain_labels labels.now) (record_types wanted.now)
        (plain_reasons reasons.now)) }
{
    let rests = rests(alloc, wanted)?;
    let mut some = Vec::new(alloc);
    add_elsewhere(alloc, rests.as_slice(), reasons, &mut some)?;
    Ok(Row {
        fields: cells(alloc, labels, wanted, reasons)?,
        every: question(alloc, rests.as_slice(), &[])?,
        some: Questions::of(some),
    })
}
