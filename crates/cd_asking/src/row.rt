//! Fields of records that have answered.

use crate::node_sets::SetId;

/// The number of a row of fields.
#[derive(Clone, Copy, PartialEq, Eq, Hash)]
pub(crate) struct RowId(pub(crate) u32);

/// A field of a record that has answered.
#[derive(Clone, Copy, PartialEq, Eq, Hash)]
pub(crate) struct Answered {
    /// The number of its label.
    pub(crate) label: u32,
    /// The nodes that hold its value.
    pub(crate) nodes: SetId,
}

/// A row and a field after it.
#[derive(Clone, Copy, PartialEq, Eq, Hash)]
pub(crate) struct Longer {
    pub(crate) row: RowId,
    pub(crate) field: Answered,
}
