//! Questions of some nodes.
ghost use Rattle.std.specs.Prelude.{◌≡◌, IfOk};
ghost use Rattle.cd_rules.specs.Needs.{set_of, question};

use cd_sets::id_set::IdSet;
use cd_sets::node_id::NodeId;
use cd_sets::question::Question;
use std::alloc::{AllocError, Global};

/// What is in each of these nodes and in none of those.
///
/// # Errors
///
/// Want of memory.
pub fn question(alloc: Global, pos: &[NodeId], neg: &[NodeId]) -> Result<Question, AllocError>
    ensures { IfOk result (λ asked. asked ≡ question pos.now neg.now) }
{
    Ok(Question {
        pos: set_of(alloc, pos)?,
        neg: set_of(alloc, neg)?,
    })
}

// The set of these numbers.
fn set_of(alloc: Global, ids: &[NodeId]) -> Result<IdSet, AllocError>
    ensures { IfOk result (λ set. set ≡ set_of ids.now) }
{
    let mut set = IdSet::new(alloc);
    for id in ids {
        set.insert(*id)?;
    }
    // The contract of this call says that the set rises.
    set.knows();
    Ok(set)
}
