//! Fields by rising labels.
ghost use Rattle.std.specs.Prelude.{◌≡◌, ◌<◌, length, None};
ghost use Rattle.std.specs.Ordering.{nat_cmp};
ghost use Rattle.std.specs.Cmp.Lexicographic.{slice_cmp};
ghost use Rattle.cd_model.specs.AllOf.{AllOf};
ghost use Rattle.cd_model.specs.Thing.{LabelsRise};
ghost use Rattle.cd_cells.specs.Cells.{name_at, fields_of, IsPart};
ghost use Rattle.cd_cells.specs.Table.{table, names};
ghost use Rattle.cd_notation.specs.Open.{fields_read, LabelsDiffer};

use cd_cells::{Part, Values};
use std::cmp::Ordering;

/// Puts fields in the order of their labels, where no label stands twice. Where they rise already,
/// the labels are compared once along the fields.
pub fn sort_fields(values: &Values, parts: &mut [Part])
    requires parts { AllOf (IsPart (names values.now) (length (table values.now))) parts.old }
    requires differ { LabelsDiffer parts.old }
    ensures fields { fields_of (names values.now) (table values.now) parts.new
        ≡ fields_read (names values.now) (table values.now) parts.old }
    ensures rise { LabelsRise None (fields_of (names values.now) (table values.now) parts.new) }
    ensures parts { AllOf (IsPart (names values.now) (length (table values.now))) parts.new }
{
    // Each name has one number.
    values.knows();
    parts.sort_unstable_by(|one, other| compare(values, one, other));
}

// The order of the labels of two fields.
fn compare(values: &Values, one: &Part, other: &Part) -> Ordering
    ensures { let name = name_at (names values.now) in
        result ≡ slice_cmp nat_cmp (name one.now.label) (name other.now.label) }
{
    let name = values.name_of(one.label);
    let other = values.name_of(other.label);
    name.chars().cmp(other.chars())
}
