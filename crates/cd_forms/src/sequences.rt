ghost use Rattle.std.specs.Prelude.{◌≡◌, ◌<◌, map, length, IfOk};
ghost use Rattle.cd_model.specs.AllOf.{AllOf};
ghost use Rattle.cd_model.specs.Formula.{IsGraph};
ghost use Rattle.cd_meaning.specs.Sets.{◌⊆◌, elements_of};
ghost use Rattle.cd_program.specs.Expr.{items_of};
ghost use Rattle.cd_program.specs.PlainExpr.{plain_item};
ghost use Rattle.cd_typing.specs.Results.{IsSequenceOf};
ghost use Rattle.cd_typing.specs.Typ.{typ};
ghost use Rattle.cd_empty.specs.Growth.{Grows};
ghost use Rattle.cd_empty.specs.Seen.{graph_of};
ghost use Rattle.cd_forms.specs.Inner.Putting.{whole};

use crate::built_in::empty;
use crate::put_items::put_items;
use cd_empty::World;
use cd_program::expr::Item;
use cd_sets::node_id::NodeId;
use std::alloc::{AllocError, Global};

/// A node that holds exactly the sequences of a sequence expression, where these are the nodes of
/// its items that are expressions: an element of each as one item, or the items of a sequence in
/// it where it is spliced, and the characters of runs. There is none where there are more nodes
/// than such items, or fewer.
///
/// # Errors
///
/// Want of memory. The graph may have grown.
pub fn sequence(
    alloc: Global,
    world: &mut World,
    items: &[Item],
    parts: Vec<NodeId>,
) -> Result<NodeId, AllocError>
    requires { AllOf (λ id. id.0 < length (graph_of world.old)) parts.items }
    ensures has { IfOk result (λ id. IsSequenceOf (items_of (map plain_item items.now))
        (map (typ (graph_of world.old)) parts.items) ⊆ elements_of (graph_of world.new) id) }
    ensures only { IfOk result (λ id. elements_of (graph_of world.new) id
        ⊆ IsSequenceOf (items_of (map plain_item items.now))
        (map (typ (graph_of world.old)) parts.items)) }
    ensures node { IfOk result (λ id. id.0 < length (graph_of world.new)) }
    ensures sound { IsGraph (graph_of world.new) }
    ensures grows { Grows world.old world.new }
{
    let mut left = parts;
    let found = put_items(alloc, world, items, &mut left)?;
    Ok(whole(found, left.as_slice(), empty(world)))
}

// The node of a whole sequence, where no part is left, or else the one that holds nothing.
fn whole(found: Option<NodeId>, left: &[NodeId], nothing: NodeId) -> NodeId
    ensures { result ≡ whole found left.now nothing }
{
    match found {
        Some(id) if left.is_empty() => id,
        _ => nothing,
    }
}
