//! A function of a program, with the nodes of its interface.

use cd_program::expr::FunctionTree;
use cd_sets::node_id::NodeId;

/// A function, and the nodes of its interface.
#[derive(Drop)]
pub struct FunctionNodes<'p> {
    /// The function.
    pub function: &'p FunctionTree,
    /// The nodes of what each arrow takes and of what it gives, in turn.
    pub arrows: Vec<(NodeId, NodeId)>,
    /// The node of the functions that are in all of its arrows.
    pub whole: NodeId,
}
