//! What is needed of a type, and lists of types.
ghost use Rattle.std.specs.Prelude.{◌≡◌, ◌<◌, ◌++◌, ◌∷◌, [], length, IfErr, OnOk};
ghost use Rattle.cd_meaning.specs.Sets.{◌⊆◌, elements_of};
ghost use Rattle.cd_empty.specs.Growth.{Grows};
ghost use Rattle.cd_empty.specs.Seen.{graph_of, table_of};
ghost use Rattle.cd_check.specs.Inner.Known.{IsOutside};

use crate::fault::{CheckError, ill_typed};
use cd_empty::World;
use cd_operators::outside;
use cd_sets::node_id::NodeId;
use cd_typing::rule::Rule;
use std::alloc::AllocError;

/// Refuses what stands at a place where its type is not within a node.
pub(crate) fn need_at(
    world: &mut World,
    id: NodeId,
    needed: NodeId,
    rule: Rule,
    at: usize,
) -> Result<(), CheckError>
    requires id { id.0 < length (graph_of world.old) }
    requires needed { needed.0 < length (graph_of world.old) }
    ensures within { OnOk result
        (elements_of (graph_of world.old) id ⊆ elements_of (graph_of world.old) needed) }
    ensures fault { IfErr result
        (IsOutside (graph_of world.old) (table_of world.new) id needed at rule) }
    ensures graph { graph_of world.new ≡ graph_of world.old }
    ensures grows { Grows world.old world.new }
{
    match outside(world, id, needed)? {
        None => Ok(()),
        Some(element) => Err(ill_typed(at, rule, element)),
    }
}

/// Puts a node after others.
pub(crate) fn add(ids: &mut Vec<NodeId>, id: NodeId) -> Result<(), AllocError>
    ensures { OnOk result (ids.new.items ≡ ids.old.items ++ id ∷ []) }
{
    ids.push(id)?;
    Ok(())
}
