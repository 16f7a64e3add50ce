//! The names of a table, and fields by their labels.
ghost use Rattle.std.specs.Prelude.{◌≡◌, bytes_eq};
ghost use Rattle.std.specs.List.{find};
ghost use Rattle.std.specs.Str.{chars};
ghost use Rattle.cd_cells.specs.Cells.{name_at};
ghost use Rattle.cd_cells.specs.FieldOf.{is_of};
ghost use Rattle.cd_cells.specs.Table.{names};

use crate::cell::Part;
use crate::values::Values;

/// Whether the name of this number has this text.
pub fn is_named(values: &Values, name: u32, text: &str) -> bool
    ensures { result ≡ bytes_eq (name_at (names values.now) name) (chars text.now) }
{
    values.name_of(name) == text
}

/// The field of a label, if there is one.
pub fn field_of(values: &Values, parts: &[Part], label: &str) -> Option<Part>
    ensures { result ≡ find (is_of (names values.now) (chars label.now)) parts.now }
{
    parts
        .iter()
        .copied()
        .find(|part| is_named(values, part.label, label))
}
