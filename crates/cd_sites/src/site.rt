use cd_filter::AcceptedNodes;
use cd_matching::kernel::Kernel;

/// The pattern of a branch, over the nodes of a graph.
#[derive(Clone, Copy)]
pub struct Site<'k> {
    /// The kernel of the pattern.
    pub kernel: &'k Kernel,
    /// Nodes that accept what the nodes of the kernel take.
    pub accepted: AcceptedNodes,
}
