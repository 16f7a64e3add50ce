//! Whether what is in one node is in another.
ghost use Rattle.std.specs.Prelude.{◌≡◌, ◌<◌, length, IfOk, IsTrue};
ghost use Rattle.cd_model.specs.Formula.{IsGraph, IsWithin};
ghost use Rattle.cd_empty.specs.Growth.{Grows};
ghost use Rattle.cd_empty.specs.Seen.{graph_of};

use cd_empty::World;
use cd_products::{is_likely_within, is_seen_within};
use cd_sets::node_id::NodeId;
use cd_verdicts::Verdict;
use std::alloc::AllocError;

/// Whether all that is in the one node is found to be in the other. Where that is not likely it is no
/// question.
pub(crate) fn is_within(world: &mut World, one: NodeId, other: NodeId) -> Result<bool, AllocError>
    requires one { one.0 < length (graph_of world.old) }
    requires other { other.0 < length (graph_of world.old) }
    ensures within { IfOk result (λ answer. IsTrue answer
        → IsWithin (graph_of world.old) one other) }
    ensures graph { graph_of world.new ≡ graph_of world.old }
    ensures sound { IsGraph (graph_of world.new) }
    ensures grows { Grows world.old world.new }
{
    // The contract of this call says that the graph is sound.
    if is_seen_within(world.graph(), one, other) {
        return Ok(true);
    }
    if !is_likely_within(world.graph(), one, other) {
        return Ok(false);
    }
    Ok(is_empty(world.subtype(one, other)?))
}

fn is_empty(verdict: Verdict) -> bool
    ensures { IsTrue result → verdict ≡ Verdict.Empty }
{
    match verdict {
        Verdict::Empty => true,
        Verdict::Inhabited(_) => false,
    }
}
