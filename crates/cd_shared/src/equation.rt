use cd_graph::Formula;
use cd_sets::node_id::NodeId;

/// What a node holds, by what other nodes hold.
#[derive(Drop)]
pub enum Equation {
    /// This formula.
    Is(Formula),
    /// What this node holds.
    Same(NodeId),
    /// What is in each node that stands with true, and in none that stands with false.
    And(Vec<(bool, NodeId)>),
    /// What is in one of these nodes.
    Or(Vec<NodeId>),
}
