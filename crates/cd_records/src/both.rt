//! What is in two questions.
ghost use Rattle.std.specs.Prelude.{◌≡◌, ◌++◌, IfOk};
ghost use Rattle.cd_records.specs.Inner.Leaving.{both_questions};

use cd_needs::asking::question;
use cd_sets::node_id::NodeId;
use cd_sets::question::Question;
use std::alloc::{AllocError, Global};

/// The question of what is in both.
pub(crate) fn both(alloc: Global, one: &Question, other: &Question) -> Result<Question, AllocError>
    ensures { IfOk result (λ both. both ≡ both_questions one.now other.now) }
{
    let pos = joined(alloc, one.pos.ids(), other.pos.ids())?;
    let neg = joined(alloc, one.neg.ids(), other.neg.ids())?;
    question(alloc, pos.as_slice(), neg.as_slice())
}

// The one list and then the other.
fn joined(alloc: Global, one: &[NodeId], other: &[NodeId]) -> Result<Vec<NodeId>, AllocError>
    ensures { IfOk result (λ all. all.items ≡ one.now ++ other.now) }
{
    let mut all = Vec::from_slice(alloc, one)?;
    all.extend_from_slice(other)?;
    Ok(all)
}
