//! Whether what is in one node is in another.
ghost use Rattle.std.specs.Prelude.{◌<◌, length, IfOk};
ghost use Rattle.cd_empty.specs.Seen.{graph_of};
ghost use Rattle.cd_replies.specs.Message.{reply_of};
ghost use Rattle.cd_sub.specs.Inner.Comparing.{ComparesNodes};

use cd_empty::World;
use cd_replies::message::{Message, no, yes};
use cd_sets::node_id::NodeId;
use cd_verdicts::Verdict;
use std::alloc::{AllocError, Global};

/// Whether what is in the first node is in the second.
pub(crate) fn compare_nodes(
    alloc: Global,
    world: &mut World,
    first: NodeId,
    second: NodeId,
) -> Result<Message, AllocError>
    requires first { first.0 < length (graph_of world.old) }
    requires second { second.0 < length (graph_of world.old) }
    ensures { IfOk result (λ message.
        ComparesNodes (graph_of world.old) first second (reply_of message)) }
{
    match world.subtype(first, second)? {
        Verdict::Empty => yes(alloc),
        Verdict::Inhabited(id) => no(alloc, world.elements().text(id)?.as_str()),
    }
}
