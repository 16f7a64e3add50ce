//! Numbers of nodes that are to be put in.
ghost use Rattle.std.specs.Prelude.{◌≡◌, ◌+◌, IfOk};
ghost use Rattle.cd_model.specs.BuiltIns.{node};

use cd_sets::node_id::NodeId;
use std::alloc::AllocError;

/// The number that is so many after the first. No graph has so many nodes that it is no word.
pub(crate) fn after(first: usize, count: usize) -> Result<usize, AllocError>
    ensures { IfOk result (λ number. number ≡ first + count) }
{
    match first.checked_add(count) {
        Some(number) => Ok(number),
        None => Err(AllocError),
    }
}

/// The node with this number.
pub(crate) fn node_after(first: usize, count: usize) -> Result<NodeId, AllocError>
    ensures { IfOk result (λ id. id ≡ node (first + count)) }
{
    Ok(NodeId(after(first, count)?))
}
