//! Nodes of arrows, to be asked.
ghost use Rattle.std.specs.Prelude.{◌≡◌, map, length, IfOk};
ghost use Rattle.cd_model.specs.AllOf.{AllOf};
ghost use Rattle.cd_model.specs.Formula.{IsGraph};
ghost use Rattle.cd_empty.specs.Growth.{Grows};
ghost use Rattle.cd_empty.specs.Seen.{graph_of};
ghost use Rattle.cd_closures.specs.Inner.Asked.{IsAsked, IsBelow};

use crate::arrow::NodeArrow;
use crate::asked::Asked;
use crate::put::put;
use cd_empty::World;
use cd_graph::Formula;
use std::alloc::{AllocError, Global};

/// A node for each of some arrows.
///
/// # Errors
///
/// Want of memory.
pub(crate) fn put_all(
    alloc: Global,
    world: &mut World,
    arrows: &[NodeArrow],
) -> Result<Vec<Asked>, AllocError>
    requires { AllOf (IsBelow (length (graph_of world.old))) arrows.now }
    ensures arrows { IfOk result (λ all. map (λ one. one.arrow) all.items ≡ arrows.now) }
    ensures asked { IfOk result (λ all. AllOf (IsAsked (graph_of world.new)) all.items) }
    ensures sound { IsGraph (graph_of world.new) }
    ensures grows { Grows world.old world.new }
{
    // The contract of this call says that the graph is sound.
    world.graph();
    let mut all = Vec::new(alloc);
    for arrow in arrows {
        all.push(put_one(alloc, world, *arrow)?)?;
    }
    Ok(all)
}

// A node for an arrow.
fn put_one(alloc: Global, world: &mut World, arrow: NodeArrow) -> Result<Asked, AllocError>
    requires { IsBelow (length (graph_of world.old)) arrow }
    ensures arrow { IfOk result (λ one. one.arrow ≡ arrow) }
    ensures asked { IfOk result (IsAsked (graph_of world.new)) }
    ensures sound { IsGraph (graph_of world.new) }
    ensures grows { Grows world.old world.new }
{
    let node = put(alloc, world, Formula::arrow(arrow.argument, arrow.result))?;
    Ok(Asked { arrow, node })
}
