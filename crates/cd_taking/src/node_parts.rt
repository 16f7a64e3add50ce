//! Nodes of a kernel that take values apart.
ghost use Rattle.std.specs.Prelude.{◌≡◌, option_map, slice_get};
ghost use Rattle.cd_matching.specs.PlainKernel.{plain_nodes};
ghost use Rattle.cd_taking.specs.Inner.Machine.{pair_node, xml_node, record_node};
ghost use Rattle.cd_taking.specs.Inner.Coded.{plain_at, plain_record};

use cd_matching::kernel::{Kernel, KernelField, KernelNode};

/// A node that takes pairs: the variable that gathers, and the nodes of both parts.
#[derive(Clone, Copy)]
pub(crate) struct PairNode {
    pub(crate) variable: Option<usize>,
    pub(crate) first: usize,
    pub(crate) second: usize,
}

/// The node with this number.
#[inline]
pub(crate) fn node_at(kernel: &Kernel, node: usize) -> Option<&KernelNode>
    ensures { option_map plain_at result
        ≡ slice_get (plain_nodes kernel.now.nodes.items) node }
{
    kernel.nodes.get(node)
}

/// The node with this number, if it takes pairs.
pub(crate) fn pair_node(kernel: &Kernel, node: usize) -> Option<PairNode>
    ensures { result ≡ pair_node (slice_get (plain_nodes kernel.now.nodes.items) node) }
{
    match kernel.nodes.get(node) {
        Some(KernelNode::Pair(first, second)) => Some(PairNode {
            variable: None,
            first: *first,
            second: *second,
        }),
        Some(KernelNode::Gather(variable, first, second)) => Some(PairNode {
            variable: Some(*variable),
            first: *first,
            second: *second,
        }),
        _ => None,
    }
}

/// The nodes of the tag, the attributes and the content, if the node takes XML values.
pub(crate) fn xml_node(kernel: &Kernel, node: usize) -> Option<(usize, usize, usize)>
    ensures { result ≡ xml_node (slice_get (plain_nodes kernel.now.nodes.items) node) }
{
    match kernel.nodes.get(node) {
        Some(KernelNode::Xml(tag, attributes, content)) => Some((*tag, *attributes, *content)),
        _ => None,
    }
}

/// The fields, and whether there may be others, if the node takes records.
pub(crate) fn record_node(kernel: &Kernel, node: usize) -> Option<(&[KernelField], bool)>
    ensures { option_map plain_record result
        ≡ record_node (slice_get (plain_nodes kernel.now.nodes.items) node) }
{
    match kernel.nodes.get(node) {
        Some(KernelNode::Record(fields, more)) => Some((fields.as_slice(), *more)),
        _ => None,
    }
}
