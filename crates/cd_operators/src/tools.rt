//! Nodes that operators ask about.
ghost use Rattle.std.specs.Prelude.{IfOk};
ghost use Rattle.cd_model.specs.Formula.{IsGraph};
ghost use Rattle.cd_empty.specs.Growth.{Grows};
ghost use Rattle.cd_empty.specs.Seen.{graph_of};
ghost use Rattle.cd_operators.specs.Tools.{AreTools};

use cd_empty::World;
use cd_forms::{constant, list_of, tuple};
use cd_graph::built_in::{ANY, INT};
use cd_sets::node_id::NodeId;
use cd_syntax::constant::Constant;
use std::alloc::{AllocError, Global};

/// Nodes that operators ask about.
#[derive(Clone, Copy)]
pub struct Tools {
    /// The sequences.
    pub sequences: NodeId,
    /// The sequences of sequences.
    pub lists: NodeId,
    /// The integer 0.
    pub zero: NodeId,
    /// The sequences of one integer at least.
    pub numbers: NodeId,
}

/// Puts these nodes into the graph.
///
/// # Errors
///
/// Want of memory.
pub fn put_tools(alloc: Global, world: &mut World) -> Result<Tools, AllocError>
    ensures tools { IfOk result (λ tools. AreTools (graph_of world.new) tools) }
    ensures sound { IsGraph (graph_of world.new) }
    ensures grows { Grows world.old world.new }
{
    // The contract of this call says that the graph begins with the built-in nodes.
    world.graph();
    let sequences = list_of(alloc, world, ANY)?;
    let lists = list_of(alloc, world, sequences)?;
    let zero = constant(alloc, world, &Constant::Int(0))?;
    let integers = list_of(alloc, world, INT)?;
    let numbers = tuple(alloc, world, &[INT, integers])?;
    Ok(Tools {
        sequences,
        lists,
        zero,
        numbers,
    })
}
