//! Arrows that are asked.

use crate::arrow::NodeArrow;
use cd_sets::node_id::NodeId;

/// An arrow, and a node that holds just what is in it.
#[derive(Clone, Copy)]
pub(crate) struct Asked {
    pub(crate) arrow: NodeArrow,
    pub(crate) node: NodeId,
}
