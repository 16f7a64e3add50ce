//! What an operation ends with.
use cd_cells::ValueId;

/// What an operation ends with. Its value is one of the table.
#[derive(Clone, Copy)]
pub enum Ending {
    /// A value.
    Done(ValueId),
    /// A value that was raised.
    Raised(ValueId),
    /// An integer beyond 128 bits.
    Overflow,
    /// The language says nothing of what comes here.
    Stuck,
}
