use cd_sets::node_id::NodeId;
use cd_sets::question::Questions;

/// A clause of a question as a box of questions, one for each part, and rows of nodes: what is in
/// the box is in the clause where it is outside each row.
#[derive(Drop)]
pub(crate) struct ClauseBox {
    pub(crate) cells: Questions,
    pub(crate) refused: Vec<Vec<NodeId>>,
}
