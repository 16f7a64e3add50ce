//! Arrows between nodes.

use cd_sets::node_id::NodeId;

/// The functions that map what is in a node into another one.
#[derive(Clone, Copy, PartialEq, Eq, Hash)]
pub(crate) struct NodeArrow {
    pub(crate) argument: NodeId,
    pub(crate) result: NodeId,
}
