//! Questions with another node in the place of one.
ghost use Rattle.std.specs.Prelude.{◌≡◌, map, IfOk};
ghost use Rattle.cd_sets.specs.declared.node_id.NodeId.{NodeId as AnId};
ghost use Rattle.cd_sets.specs.IdSet.{holds};
ghost use Rattle.cd_explored.specs.Inner.Choices.{IsSwapped, in_place};

use cd_sets::id_set::IdSet;
use cd_sets::node_id::NodeId;
use cd_sets::question::Question;
use std::alloc::{AllocError, Global};

/// A question that wants another node where it wants this one, and else what it wants.
pub(crate) fn swapped(
    alloc: Global,
    own: NodeId,
    id: NodeId,
    question: &Question,
) -> Result<Question, AllocError>
    ensures { IfOk result (λ swapped. IsSwapped own id question.now swapped) }
{
    let pos = put(alloc, own, id, question.pos.ids())?;
    let neg = question.neg.copy()?;
    Ok(Question { pos, neg })
}

// The set of some numbers, with another one in the place of one.
fn put(alloc: Global, own: NodeId, id: NodeId, ids: &[NodeId]) -> Result<IdSet, AllocError>
    ensures { IfOk result
        (λ set. (one : AnId) → holds set one ≡ holds (map (in_place own id) ids.now) one) }
{
    let mut set = IdSet::new(alloc);
    for one in ids {
        set.insert(in_place(own, id, *one))?;
    }
    Ok(set)
}

// The number, or where it is that one the other.
fn in_place(own: NodeId, id: NodeId, one: NodeId) -> NodeId
    ensures { result ≡ in_place own id one }
{
    if one.0 == own.0 { id } else { one }
}
