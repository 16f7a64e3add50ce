//! Items of a sequence, put before those that follow them.
ghost use Rattle.std.specs.Prelude.{◌≡◌, ◌<◌, [], ◌∷◌, map, length, IfOk};
ghost use Rattle.cd_model.specs.AllOf.{AllOf};
ghost use Rattle.cd_model.specs.Formula.{IsGraph};
ghost use Rattle.cd_meaning.specs.Sets.{elements_of};
ghost use Rattle.cd_meaning.specs.Sequences.{IsJoinOf};
ghost use Rattle.cd_program.specs.PlainExpr.{plain_item};
ghost use Rattle.cd_typing.specs.Typ.{typ};
ghost use Rattle.cd_empty.specs.Growth.{Grows};
ghost use Rattle.cd_empty.specs.Seen.{graph_of};
ghost use Rattle.cd_forms.specs.Inner.Chains.{AreBefore};
ghost use Rattle.cd_forms.specs.Inner.Putting.{IsPartPut, IsPut, ArePut};

use crate::built_in::nil;
use crate::of_sequences::joined;
use crate::rows::row_before;
use crate::texts::text_before;
use cd_empty::World;
use cd_program::expr::Item;
use cd_sets::node_id::NodeId;
use std::alloc::{AllocError, Global};

/// The node of the sequences of items, of which the last part is that of the last item with a part,
/// and so on: None where there are too few parts. The parts that are taken are off the list then.
///
/// # Errors
///
/// Want of memory.
pub(crate) fn put_items(
    alloc: Global,
    world: &mut World,
    items: &[Item],
    parts: &mut Vec<NodeId>,
) -> Result<Option<NodeId>, AllocError>
    requires { AllOf (λ id. id.0 < length (graph_of world.old)) parts.old.items }
    ensures put { IfOk result (λ found. ArePut (graph_of world.old) (graph_of world.new)
        (map plain_item items.now) parts.old.items parts.new.items found) }
    ensures sound { IsGraph (graph_of world.new) }
    ensures grows { Grows world.old world.new }
{
    let mut rest = nil(world);
    let mut left = items;
    while let [front @ .., item] = left {
        match put_item(alloc, world, item, parts, rest)? {
            Some(id) => rest = id,
            None => return Ok(None),
        }
        left = front;
    }
    Ok(Some(rest))
}

// The node of an item before what is in a node.
fn put_item(
    alloc: Global,
    world: &mut World,
    item: &Item,
    parts: &mut Vec<NodeId>,
    rest: NodeId,
) -> Result<Option<NodeId>, AllocError>
    requires parts { AllOf (λ id. id.0 < length (graph_of world.old)) parts.old.items }
    requires rest { rest.0 < length (graph_of world.old) }
    ensures put { IfOk result (λ found. IsPut (graph_of world.old) (graph_of world.new)
        (plain_item item.now) parts.old.items parts.new.items rest found) }
    ensures sound { IsGraph (graph_of world.new) }
    ensures grows { Grows world.old world.new }
{
    match item {
        Item::One(_) => put_one(alloc, world, parts, rest),
        Item::Splice(_) => put_splice(alloc, world, parts, rest),
        Item::Run(text) => Ok(Some(text_before(alloc, world, text, rest)?)),
    }
}

// The node of the last part before what is in a node.
fn put_one(
    alloc: Global,
    world: &mut World,
    parts: &mut Vec<NodeId>,
    rest: NodeId,
) -> Result<Option<NodeId>, AllocError>
    requires parts { AllOf (λ id. id.0 < length (graph_of world.old)) parts.old.items }
    requires rest { rest.0 < length (graph_of world.old) }
    ensures put { IfOk result (λ found. IsPartPut (graph_of world.new)
        (λ part. AreBefore (typ (graph_of world.old) part ∷ [])
        (elements_of (graph_of world.old) rest)) parts.old.items parts.new.items found) }
    ensures sound { IsGraph (graph_of world.new) }
    ensures grows { Grows world.old world.new }
{
    // The contract of this call says that the graph is sound.
    world.graph();
    match parts.pop() {
        Some(part) => Ok(Some(row_before(alloc, world, &[part], rest)?)),
        None => Ok(None),
    }
}

// The node of the sequences of the last part, each before what is in a node.
fn put_splice(
    alloc: Global,
    world: &mut World,
    parts: &mut Vec<NodeId>,
    rest: NodeId,
) -> Result<Option<NodeId>, AllocError>
    requires parts { AllOf (λ id. id.0 < length (graph_of world.old)) parts.old.items }
    requires rest { rest.0 < length (graph_of world.old) }
    ensures put { IfOk result (λ found. IsPartPut (graph_of world.new)
        (λ part. IsJoinOf (elements_of (graph_of world.old) part)
        (elements_of (graph_of world.old) rest)) parts.old.items parts.new.items found) }
    ensures sound { IsGraph (graph_of world.new) }
    ensures grows { Grows world.old world.new }
{
    // The contract of this call says that the graph is sound.
    world.graph();
    match parts.pop() {
        Some(part) => Ok(Some(joined(alloc, world, part, rest)?)),
        None => Ok(None),
    }
}
