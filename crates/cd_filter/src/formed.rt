use cd_graph::Formula;

/// A formula that is formed for a node of a kernel, and the nodes of which it is the union.
#[derive(Drop)]
pub(crate) struct Formed {
    pub(crate) members: Vec<usize>,
    pub(crate) formula: Formula,
}
