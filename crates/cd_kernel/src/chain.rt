//! Nodes that are put after others.
ghost use Rattle.std.specs.Prelude.{◌≡◌, IfOk};
ghost use Rattle.std.specs.Prelude.{Some};
ghost use Rattle.cd_matching.specs.Kernel.{Bind, Put};
ghost use Rattle.cd_matching.specs.PlainKernel.{plain_node, plain_nodes};
ghost use Rattle.cd_kernel.specs.Inner.Building.{put, put_if, chained};
ghost use Rattle.cd_kernel.specs.Inner.PlainJoint.{plain_joint};

use cd_graph::built_in::ANY;
use cd_matching::constant;
use cd_matching::kernel::KernelNode;
use cd_sets::node_id::NodeId;
use cd_syntax::constant::Constant;
use std::alloc::AllocError;

/// How the nodes of a chain are joined.
#[derive(Clone, Copy)]
pub(crate) enum Joint {
    Both,
    First,
}

impl Joint {
    fn node(self, first: usize, second: usize) -> KernelNode
        ensures { plain_node result ≡ plain_joint self first second }
    {
        match self {
            Joint::Both => KernelNode::Both(first, second),
            Joint::First => KernelNode::First(first, second),
        }
    }
}

/// Puts a node after these, and gives its number.
pub(crate) fn put(node: KernelNode, nodes: &mut Vec<KernelNode>) -> Result<usize, AllocError>
    ensures { IfOk result (λ number. (number, plain_nodes nodes.new.items)
        ≡ put (plain_node node) (plain_nodes nodes.old.items)) }
{
    let number = nodes.len();
    nodes.push(node)?;
    Ok(number)
}

/// Puts the node of a variable if it is kept, and else one that takes anything.
pub(crate) fn put_bind(
    kept: bool,
    variable: usize,
    nodes: &mut Vec<KernelNode>,
) -> Result<usize, AllocError>
    ensures { IfOk result (λ number. (number, plain_nodes nodes.new.items)
        ≡ put_if kept (Bind variable) (plain_nodes nodes.old.items)) }
{
    if kept {
        return put(KernelNode::Bind(variable), nodes);
    }
    put(KernelNode::Test(ANY), nodes)
}

/// The same of a variable that is a constant.
pub(crate) fn put_default(
    kept: bool,
    variable: usize,
    is: &Constant,
    nodes: &mut Vec<KernelNode>,
) -> Result<usize, AllocError>
    ensures { IfOk result (λ number. (number, plain_nodes nodes.new.items)
        ≡ put_if kept (Put variable is.now) (plain_nodes nodes.old.items)) }
{
    if kept {
        let is = constant::copy(is)?;
        return Ok(put(KernelNode::Put(variable, is), nodes)?);
    }
    put(KernelNode::Test(ANY), nodes)
}

/// Puts the chain of some nodes after these, and gives its number. A chain of one node is that
/// node, a chain of more joins the chains of both halves, and a chain of none is a test of `none`.
#[cycle(chain)]
pub(crate) fn chain(
    joint: Joint,
    none: NodeId,
    numbers: &[usize],
    nodes: &mut Vec<KernelNode>,
) -> Result<usize, AllocError>
    ensures { IfOk result (λ number. (number, plain_nodes nodes.new.items)
        ≡ chained (plain_joint joint) none numbers.now (plain_nodes nodes.old.items)) }
{
    match numbers {
        [] => put(KernelNode::Test(none), nodes),
        [number, rest @ ..] if rest.is_empty() => Ok(*number),
        [_, ..] => {
            let half = numbers.len() / 2;
            let first = chain(joint, none, &numbers[..half], nodes)?;
            let second = chain(joint, none, &numbers[half..], nodes)?;
            Ok(put(joint.node(first, second), nodes)?)
        }
    }
}
