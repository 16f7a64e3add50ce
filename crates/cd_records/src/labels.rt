//! Labels in rising order.
ghost use Rattle.std.specs.Prelude.{◌≡◌, ◌≤◌, ◌++◌, ◌∷◌, [], length, take, drop, map, IfOk, OnOk};
ghost use Rattle.std.specs.Prelude.{MatchOption};
ghost use Rattle.cd_needs.specs.Inner.PlainCells.{plain_cells};
ghost use Rattle.cd_needs.specs.PlainReasons.{plain_labels};
ghost use Rattle.cd_needs.specs.RecordTypes.{plain_row};
ghost use Rattle.cd_records.specs.Inner.Labels.{inserted, all_inserted, labels_in, row_labels};

use cd_needs::row::{FieldCell, Row};
use cd_syntax::name::Name;
use cd_syntax::order::compare;
use std::alloc::AllocError;
use std::cmp::Ordering;

/// Adds the labels of rows to labels in rising order.
pub(crate) fn add_labels<'r>(rows: &'r [Row], labels: &mut Vec<&'r Name>) -> Result<(), AllocError>
    ensures { OnOk result (plain_labels labels.new.items
        ≡ row_labels (map plain_row rows.now) (plain_labels labels.old.items)) }
{
    for row in rows {
        add_cells(row.fields.as_slice(), labels)?;
    }
    Ok(())
}

/// Adds the labels of cells.
pub(crate) fn add_cells<'r>(
    cells: &'r [(Name, FieldCell)],
    labels: &mut Vec<&'r Name>,
) -> Result<(), AllocError>
    ensures { OnOk result (plain_labels labels.new.items
        ≡ all_inserted (labels_in (plain_cells cells.now)) (plain_labels labels.old.items)) }
{
    for cell in cells {
        add_label(&cell.0, labels)?;
    }
    Ok(())
}

/// Adds a label, if it is not there yet.
pub(crate) fn add_label<'r>(label: &'r Name, labels: &mut Vec<&'r Name>) -> Result<(), AllocError>
    ensures { OnOk result (plain_labels labels.new.items
        ≡ inserted label.now (plain_labels labels.old.items)) }
{
    match place_for(labels.as_slice(), label) {
        Some(index) => Ok(labels.insert(index, label)?),
        None => Ok(()),
    }
}

// Where a label is to stand: before the first that is above it, if it is not there.
fn place_for(labels: &[&Name], label: &Name) -> Option<usize>
    ensures { MatchOption result
        (inserted label.now (plain_labels labels.now) ≡ plain_labels labels.now)
        (λ index. (index ≤ length labels.now) × (inserted label.now (plain_labels labels.now)
        ≡ take index (plain_labels labels.now)
        ++ label.now ∷ drop index (plain_labels labels.now))) }
{
    for index in 0..labels.len() {
        match compare(label, labels[index]) {
            Ordering::Less => return Some(index),
            Ordering::Equal => return None,
            Ordering::Greater => {}
        }
    }
    Some(labels.len())
}
