//! Copies of rows.
ghost use Rattle.std.specs.Prelude.{◌≡◌, ◌++◌, IfOk, OnOk};
ghost use Rattle.cd_needs.specs.Inner.PlainCells.{plain_cells};
ghost use Rattle.cd_needs.specs.RecordTypes.{plain_row};
ghost use Rattle.cd_rows.specs.Inner.PlainClauses.{plain_labelled};

use cd_needs::row::{FieldCell, Row};
use cd_syntax::name::Name;
use std::alloc::AllocError;

/// An equal row.
pub(crate) fn copy_of(row: &Row) -> Result<Row, AllocError>
    ensures { IfOk result (λ copy. plain_row copy ≡ plain_row row.now) }
{
    let mut fields = Vec::new(*row.fields.allocator());
    add_copies(row.fields.as_slice(), &mut fields)?;
    Ok(Row {
        fields,
        every: row.every.copy()?,
        some: row.some.copy()?,
    })
}

/// Adds equal cells.
pub(crate) fn add_copies(
    cells: &[(Name, FieldCell)],
    all: &mut Vec<(Name, FieldCell)>,
) -> Result<(), AllocError>
    ensures { OnOk result
        (plain_cells all.new.items ≡ plain_cells all.old.items ++ plain_cells cells.now) }
{
    for cell in cells {
        all.push(copy_of_cell(cell)?)?;
    }
    Ok(())
}

// An equal cell.
fn copy_of_cell(cell: &(Name, FieldCell)) -> Result<(Name, FieldCell), AllocError>
    ensures { IfOk result (λ copy.
        plain_labelled copy ≡ plain_labelled cell.now) }
{
    let copy = FieldCell {
        absent: cell.1.absent,
        value: cell.1.value.copy()?,
    };
    Ok((cell.0.copy()?, copy))
}
