//! Nodes with the numbers of classes in place of those of nodes.
ghost use Rattle.std.specs.Prelude.{◌≡◌, [], ◌∷◌, ◌++◌, map, IfOk, OnOk};
ghost use Rattle.cd_matching.specs.PlainKernel.{plain_kernel_field, plain_kind, plain_node};
ghost use Rattle.cd_matching.specs.PlainKernel.{plain_nodes};
ghost use Rattle.cd_merged.specs.Inner.Classes.{class_of, nodes_at};
ghost use Rattle.cd_merged.specs.Merged.{renamed, renamed_field, renamed_kind};

use crate::classes::class_of;
use cd_matching::constant;
use cd_matching::kernel::{FieldKind, KernelField, KernelNode};
use std::alloc::{AllocError, Global};

/// The nodes with these numbers, where the nodes that they name are replaced by their classes.
pub(crate) fn renamed_nodes(
    alloc: Global,
    nodes: &[KernelNode],
    numbers: &[usize],
    firsts: &[usize],
) -> Result<Vec<KernelNode>, AllocError>
    ensures { IfOk result (λ all. plain_nodes all.items
        ≡ map (renamed (class_of numbers.now)) (plain_nodes (nodes_at nodes.now firsts.now))) }
{
    let mut all = Vec::new(alloc);
    for first in firsts {
        add_renamed(alloc, nodes, numbers, *first, &mut all)?;
    }
    Ok(all)
}

// Puts the node with this number after others, if there is one.
fn add_renamed(
    alloc: Global,
    nodes: &[KernelNode],
    numbers: &[usize],
    first: usize,
    all: &mut Vec<KernelNode>,
) -> Result<(), AllocError>
    ensures { OnOk result (plain_nodes all.new.items ≡ plain_nodes all.old.items
        ++ map (renamed (class_of numbers.now)) (plain_nodes (nodes_at nodes.now (first ∷ [])))) }
{
    match nodes.get(first) {
        Some(node) => Ok(all.push(renamed(alloc, numbers, node)?)?),
        None => Ok(()),
    }
}

fn renamed(alloc: Global, numbers: &[usize], node: &KernelNode) -> Result<KernelNode, AllocError>
    ensures { IfOk result (λ image.
        plain_node image ≡ renamed (class_of numbers.now) (plain_node node.now)) }
{
    Ok(match node {
        KernelNode::Test(id) => KernelNode::Test(*id),
        KernelNode::Bind(variable) => KernelNode::Bind(*variable),
        KernelNode::Put(variable, is) => KernelNode::Put(*variable, constant::copy(is)?),
        KernelNode::Pair(p, q) => KernelNode::Pair(class_of(numbers, *p), class_of(numbers, *q)),
        KernelNode::Xml(p, q, r) => KernelNode::Xml(
            class_of(numbers, *p),
            class_of(numbers, *q),
            class_of(numbers, *r),
        ),
        KernelNode::Record(fields, more) => {
            KernelNode::Record(renamed_fields(alloc, numbers, fields.as_slice())?, *more)
        }
        KernelNode::Both(p, q) => KernelNode::Both(class_of(numbers, *p), class_of(numbers, *q)),
        KernelNode::First(p, q) => KernelNode::First(class_of(numbers, *p), class_of(numbers, *q)),
        KernelNode::Gather(variable, p, q) => {
            KernelNode::Gather(*variable, class_of(numbers, *p), class_of(numbers, *q))
        }
    })
}

fn renamed_fields(
    alloc: Global,
    numbers: &[usize],
    fields: &[KernelField],
) -> Result<Vec<KernelField>, AllocError>
    ensures { IfOk result (λ all. map plain_kernel_field all.items
        ≡ map (renamed_field (class_of numbers.now)) (map plain_kernel_field fields.now)) }
{
    let mut all = Vec::new(alloc);
    for field in fields {
        let label = field.label.copy()?;
        let kind = renamed_kind(numbers, field.kind);
        all.push(KernelField { label, kind })?;
    }
    Ok(all)
}

fn renamed_kind(numbers: &[usize], kind: FieldKind) -> FieldKind
    ensures { plain_kind result ≡ renamed_kind (class_of numbers.now) (plain_kind kind) }
{
    match kind {
        FieldKind::Present(number) => FieldKind::Present(class_of(numbers, number)),
        FieldKind::Optional(id) => FieldKind::Optional(id),
    }
}
