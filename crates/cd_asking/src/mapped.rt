//! An entry of the table of arrows.

use cd_sets::node_id::NodeId;

/// The closures of a function are in the arrow of these nodes.
#[derive(Clone, Copy, PartialEq, Eq, Hash)]
pub struct Mapped {
    /// The number of the function, or none: then of each function that is not listed.
    pub function: Option<usize>,
    /// The argument of the arrow.
    pub argument: NodeId,
    /// The result of the arrow.
    pub result: NodeId,
}
