//! What rows say of labels.
ghost use Rattle.std.specs.Prelude.{◌≡◌, map};
ghost use Rattle.cd_needs.specs.RecordTypes.{plain_row};
ghost use Rattle.cd_rows.specs.RecordRows.{asked_at as asked_at_of, may_lack as may_lack_of};
ghost use Rattle.cd_records.specs.Inner.Rows.{has_cell as has_cell_of};
ghost use Rattle.cd_records.specs.Inner.Saying.{one_may_lack as one_may_lack_of};

use cd_graph::fields::is_same;
use cd_needs::row::Row;
use cd_sets::question::Question;
use cd_syntax::name::Name;

/// What a value at a label is in.
pub(crate) fn asked_at<'r>(row: &'r Row, label: &Name) -> &'r Question
    ensures { result.now ≡ asked_at_of (plain_row row.now) label.now }
{
    for (name, cell) in row.fields.iter() {
        if is_same(name, label) {
            return &cell.value;
        }
    }
    &row.every
}

/// Whether nothing may stand at a label.
pub(crate) fn may_lack(row: &Row, label: &Name) -> bool
    ensures { result ≡ may_lack_of (plain_row row.now) label.now }
{
    for (name, cell) in row.fields.iter() {
        if is_same(name, label) {
            return cell.absent;
        }
    }
    true
}

/// Whether nothing may stand at a label, by one of the rows.
pub(crate) fn one_may_lack(rows: &[Row], label: &Name) -> bool
    ensures { result ≡ one_may_lack_of (map plain_row rows.now) label.now }
{
    for row in rows {
        if may_lack(row, label) {
            return true;
        }
    }
    false
}

/// Whether a label has a cell.
pub(crate) fn has_cell(row: &Row, label: &Name) -> bool
    ensures { result ≡ has_cell_of (plain_row row.now).cells label.now }
{
    for (name, _) in row.fields.iter() {
        if is_same(name, label) {
            return true;
        }
    }
    false
}
