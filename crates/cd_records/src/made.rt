use cd_graph::Formula;
use cd_sets::node_id::NodeId;

/// Formulas to be put into a graph, and the node that is to have the last of them.
#[derive(Drop)]
pub(crate) struct Made {
    pub(crate) batch: Vec<Formula>,
    pub(crate) id: NodeId,
}
