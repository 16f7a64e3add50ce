//! The labels of the fields of a record that is made for a row.
ghost use Rattle.std.specs.Prelude.{◌≡◌, ◌++◌, map, IfOk};
ghost use Rattle.cd_needs.specs.RecordTypes.{plain_cell, plain_row};
ghost use Rattle.cd_members.specs.Inner.RecordFields.{labels, present_fields, fresh_fields};
ghost use Rattle.cd_members.specs.Inner.RecordFields.{record_fields};

use crate::fresh::{longest, row_of_a};
use cd_needs::row::{FieldCell, Row};
use cd_sets::question::Question;
use cd_syntax::name::Name;
use std::alloc::{AllocError, Global};

/// The labels of the cells that may not be absent, and a label of no cell for each of the other
/// questions.
pub(crate) fn labels_of(alloc: Global, row: &Row) -> Result<Vec<Name>, AllocError>
    ensures { IfOk result (λ all. all.items ≡ labels (record_fields (plain_row row.now))) }
{
    let cells = row.fields.as_slice();
    let all = of_cells(alloc, cells)?;
    Ok(with_fresh(alloc, all, longest(cells), row.some.items())?)
}

// The labels of the cells that may not be absent.
fn of_cells(alloc: Global, cells: &[(Name, FieldCell)]) -> Result<Vec<Name>, AllocError>
    ensures { IfOk result (λ all. all.items
        ≡ labels (present_fields (map (λ cell. (cell.0, plain_cell cell.1)) cells.now))) }
{
    let mut all = Vec::new(alloc);
    for (label, cell) in cells {
        if !cell.absent {
            all.push(label.copy()?)?;
        }
    }
    Ok(all)
}

// These labels, and one more for each of the questions, longer than that.
fn with_fresh(
    alloc: Global,
    names: Vec<Name>,
    least: usize,
    some: &[Question],
) -> Result<Vec<Name>, AllocError>
    ensures { IfOk result (λ all. all.items ≡ names.items ++ labels (fresh_fields least some.now)) }
{
    let mut all = names;
    let mut label = row_of_a(alloc, least)?;
    for _question in some {
        all.push(Name::of_characters(alloc, label.as_slice())?)?;
        label.push('a')?;
    }
    Ok(all)
}
