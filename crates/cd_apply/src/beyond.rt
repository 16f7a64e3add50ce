//! Arguments at which functions may fail.
ghost use Rattle.std.specs.Prelude.{◌≡◌, ◌<◌, length, map, IfOk};
ghost use Rattle.cd_model.specs.AllOf.{AllOf};
ghost use Rattle.cd_rules.specs.Within.{IsPairWithin};
ghost use Rattle.cd_empty.specs.Growth.{Grows};
ghost use Rattle.cd_empty.specs.Seen.{graph_of, table_of};
ghost use Rattle.cd_apply.specs.Inner.Found.{IsFoundBeyond};

use crate::found::element_in;
use cd_elements::ElementId;
use cd_empty::World;
use cd_needs::asking::question;
use cd_sets::node_id::NodeId;
use std::alloc::{AllocError, Global};

/// An element of a node that is outside the argument of each of these arrows, if there is one.
pub(crate) fn beyond(
    alloc: Global,
    world: &mut World,
    argument: NodeId,
    arrows: &[(NodeId, NodeId)],
) -> Result<Option<ElementId>, AllocError>
    requires argument { argument.0 < length (graph_of world.old) }
    requires arrows { AllOf (IsPairWithin (length (graph_of world.old))) arrows.now }
    ensures found { IfOk result
        (IsFoundBeyond (graph_of world.old) (table_of world.new) argument arrows.now) }
    ensures graph { graph_of world.new ≡ graph_of world.old }
    ensures grows { Grows world.old world.new }
{
    let refused = arguments_of(alloc, arrows)?;
    let question = question(alloc, &[argument], refused.as_slice())?;
    element_in(world, &question)
}

// The arguments of arrows.
fn arguments_of(alloc: Global, arrows: &[(NodeId, NodeId)]) -> Result<Vec<NodeId>, AllocError>
    ensures { IfOk result (λ ids. ids.items ≡ map (λ arrow. arrow.0) arrows.now) }
{
    let mut ids = Vec::with_capacity(alloc, arrows.len())?;
    for arrow in arrows {
        ids.push(arrow.0)?;
    }
    Ok(ids)
}
