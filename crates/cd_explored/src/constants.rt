//! The texts of constants.
ghost use Rattle.std.specs.Prelude.{◌≡◌, map, IfOk};
ghost use Rattle.cd_matching.specs.PlainKernel.{plain_node, plain_nodes};
ghost use Rattle.cd_explored.specs.Inner.Plan.{text_of, text_in};

use cd_builders::characters;
use cd_matching::kernel::KernelNode;
use cd_syntax::constant::Constant;
use std::alloc::{AllocError, Global};

/// The texts of the constants of the nodes of a kernel; a node without one has the empty text.
pub fn texts_of(alloc: Global, nodes: &[KernelNode]) -> Result<Vec<Vec<char>>, AllocError>
    ensures { IfOk result (λ texts.
        map (λ text. text.items) texts.items ≡ map text_in (plain_nodes nodes.now)) }
{
    let mut texts = Vec::new(alloc);
    for node in nodes {
        texts.push(text_in(alloc, node)?)?;
    }
    Ok(texts)
}

// The text of the constant of a node.
fn text_in(alloc: Global, node: &KernelNode) -> Result<Vec<char>, AllocError>
    ensures { IfOk result (λ text. text.items ≡ text_in (plain_node node.now)) }
{
    match node {
        KernelNode::Put(_, constant) => text_of(alloc, constant),
        _ => Ok(Vec::new(alloc)),
    }
}

// The text that a constant is.
fn text_of(alloc: Global, constant: &Constant) -> Result<Vec<char>, AllocError>
    ensures { IfOk result (λ text. text.items ≡ text_of constant.now) }
{
    match constant {
        Constant::Text(text) => characters(alloc, text),
        _ => Ok(Vec::new(alloc)),
    }
}
