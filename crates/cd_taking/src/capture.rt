//! A capture.

use cd_cells::ValueId;

/// What a variable of a kernel captures.
#[derive(Clone, Copy)]
pub struct Capture {
    /// The number of the variable.
    pub variable: usize,
    /// Its value.
    pub value: ValueId,
}
