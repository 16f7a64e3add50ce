use cd_elements::ElementId;
use cd_sets::node_id::NodeId;

/// The question whether an element is in a node.
#[derive(Clone, Copy, PartialEq, Eq, Hash)]
pub struct Membership {
    /// The element, by its number in the table.
    pub id: ElementId,
    /// The node of the graph.
    pub node: NodeId,
}
