//! What tests whether values are in types.

use cd_asking::{Asker, Maps};
use cd_graph::Graph;

/// What tests whether values are in the nodes of a graph.
#[derive(Drop)]
pub struct Tests {
    /// The graph.
    pub graph: Graph,
    /// Which arrows the closures of functions are in.
    pub maps: Maps,
    /// What is known of earlier questions.
    pub asker: Asker,
}
