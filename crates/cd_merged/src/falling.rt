//! Nodes that lead to earlier ones.
ghost use Rattle.std.specs.Prelude.{IsTrue};
ghost use Rattle.std.specs.List.{slice_get};
ghost use Rattle.cd_matching.specs.PlainKernel.{plain_node, plain_nodes};
ghost use Rattle.cd_merged.specs.Inner.Classes.{FallsIn};
ghost use Rattle.cd_merged.specs.Merged.{FallsFrom, IsFalling};

use cd_matching::kernel::KernelNode;

/// Whether each node leads through Both and First to earlier nodes alone.
pub(crate) fn are_falling(nodes: &[KernelNode]) -> bool
    ensures { IsTrue result → IsFalling (plain_nodes nodes.now) }
{
    for number in 0..nodes.len() {
        if !falls_at(nodes, number) {
            return false;
        }
    }
    true
}

// Whether the node with this number does, if there is one.
fn falls_at(nodes: &[KernelNode], number: usize) -> bool
    ensures { IsTrue result → FallsIn number (slice_get (plain_nodes nodes.now) number) }
{
    match nodes.get(number) {
        Some(node) => is_falling(number, node),
        None => true,
    }
}

fn is_falling(number: usize, node: &KernelNode) -> bool
    ensures { IsTrue result → FallsFrom number (plain_node node.now) }
{
    match node {
        KernelNode::Both(p, q) | KernelNode::First(p, q) => *p < number && *q < number,
        _ => true,
    }
}
