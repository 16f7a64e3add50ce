//! What nodes are, by the classes of the nodes that they name.
ghost use Rattle.std.specs.Prelude.{◌≡◌};
ghost use Rattle.std.specs.Option.{IfSome};
ghost use Rattle.cd_matching.specs.Kernel.{Put};
ghost use Rattle.cd_matching.specs.PlainKernel.{plain_node, plain_nodes};
ghost use Rattle.cd_merged.specs.Inner.Classes.{class_of};
ghost use Rattle.cd_merged.specs.Inner.Keys.{node_of, HasKey};
ghost use Rattle.cd_merged.specs.Merged.{renamed};

use crate::classes::class_of;
use cd_matching::kernel::KernelNode;
use cd_sets::node_id::NodeId;
use cd_syntax::constant::Constant;

/// What a node is, by the classes of the nodes that it names. Records, and variables that are
/// constants with parts, have no key: such a node is in a class of its own.
#[derive(Clone, Copy, PartialEq, Eq, Hash)]
pub(crate) enum Key {
    Test(NodeId),
    Bind(usize),
    PutNil(usize),
    Pair(usize, usize),
    Xml(usize, usize, usize),
    Both(usize, usize),
    First(usize, usize),
    Gather(usize, usize, usize),
}

/// The key of the node with this number, if it has one.
pub(crate) fn key_at(numbers: &[usize], nodes: &[KernelNode], number: usize) -> Option<Key>
    ensures { IfSome result (HasKey numbers.now (plain_nodes nodes.now) number) }
{
    let node = nodes.get(number)?;
    key_of(numbers, node)
}

fn key_of(numbers: &[usize], node: &KernelNode) -> Option<Key>
    ensures { IfSome result (λ key.
        renamed (class_of numbers.now) (plain_node node.now) ≡ node_of key) }
{
    match node {
        KernelNode::Test(id) => Some(Key::Test(*id)),
        KernelNode::Bind(variable) => Some(Key::Bind(*variable)),
        KernelNode::Put(variable, constant) => put_key(*variable, constant),
        KernelNode::Pair(p, q) => Some(Key::Pair(class_of(numbers, *p), class_of(numbers, *q))),
        KernelNode::Xml(p, q, r) => Some(Key::Xml(
            class_of(numbers, *p),
            class_of(numbers, *q),
            class_of(numbers, *r),
        )),
        KernelNode::Record(_, _) => None,
        KernelNode::Both(p, q) => Some(Key::Both(class_of(numbers, *p), class_of(numbers, *q))),
        KernelNode::First(p, q) => Some(Key::First(class_of(numbers, *p), class_of(numbers, *q))),
        KernelNode::Gather(variable, p, q) => Some(Key::Gather(
            *variable,
            class_of(numbers, *p),
            class_of(numbers, *q),
        )),
    }
}

// The key of a variable that is a constant, which is the empty sequence.
fn put_key(variable: usize, constant: &Constant) -> Option<Key>
    ensures { IfSome result (λ key. Put variable constant.now ≡ node_of key) }
{
    match constant {
        Constant::Nil => Some(Key::PutNil(variable)),
        _ => None,
    }
}
