//! How a run ends.
use cd_cells::ValueId;

/// How a run ended. Its value is one of the table.
#[derive(Clone, Copy)]
pub enum Outcome {
    /// With a value.
    Done(ValueId),
    /// With a value that was raised and not caught.
    Raised(ValueId),
    /// With an integer beyond 128 bits.
    Overflow,
    /// A unit was wanted, and none was left.
    Spent,
    /// The language says nothing of what came.
    Stuck,
}

/// How a run ended, and the units that are left.
#[derive(Clone, Copy)]
pub struct Ran {
    /// How it ended.
    pub outcome: Outcome,
    /// How many units are left.
    pub left: u64,
}
