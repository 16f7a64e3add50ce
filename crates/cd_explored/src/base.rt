ghost use Rattle.std.specs.Prelude.{◌≡◌, ◌+◌, ◌<◌, ◌≤◌, length};
ghost use Rattle.cd_graph.specs.Nodes.{nodes};
ghost use Rattle.cd_matching.specs.PlainKernel.{plain_kernel};
ghost use Rattle.cd_filter.specs.Accepting.{place_of};

use cd_graph::Graph;
use cd_matching::kernel::Kernel;
use cd_sets::node_id::NodeId;
use std::alloc::Global;

/// What exploring goes by.
#[derive(Clone, Copy)]
pub struct Base<'k> {
    pub alloc: Global,
    pub kernel: &'k Kernel,
    /// The number of the node that accepts what the first node of the kernel takes. The nodes for
    /// the others come after it.
    pub first: usize,
}

impl Base<'_> {
    /// The node of the graph that accepts what a node of the kernel takes.
    pub(crate) fn accepting(&self, graph: &Graph, number: usize) -> NodeId
        requires number { number < length (plain_kernel self.now.kernel.now).nodes }
        requires within { self.now.first + length (plain_kernel self.now.kernel.now).nodes
            ≤ length (nodes graph.now) }
        ensures { result ≡ place_of (plain_kernel self.now.kernel.now).nodes self.now.first number }
    {
        // The contract of this call says that the number of nodes is a word.
        let _count = graph.len();
        NodeId(self.first + number)
    }
}
