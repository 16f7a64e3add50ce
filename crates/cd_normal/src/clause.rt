use cd_graph::fields::Fields;
use cd_sets::node_id::NodeId;
use std::rc::Rc;

/// What a question says of the things of one kind: the formulas that a thing is in, and those that
/// it is outside. Whoever works at a clause shares its lists.
#[derive(Drop)]
pub enum Clause<'g> {
    /// The pairs in each of the first, and in none of the second.
    Pairs(Rc<Vec<(NodeId, NodeId)>>, Rc<Vec<(NodeId, NodeId)>>),
    /// The XML elements likewise.
    Xmls(Rc<Vec<(NodeId, NodeId, NodeId)>>, Rc<Vec<(NodeId, NodeId, NodeId)>>),
    /// The records likewise.
    Records(Rc<Vec<&'g Fields>>, Rc<Vec<&'g Fields>>),
    /// The functions likewise.
    Arrows(Rc<Vec<(NodeId, NodeId)>>, Rc<Vec<(NodeId, NodeId)>>),
}
