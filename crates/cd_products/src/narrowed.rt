//! Questions with one node more.
ghost use Rattle.std.specs.Prelude.{◌≡◌, IfOk};
ghost use Rattle.cd_rules.specs.Needs.{with_id};
ghost use Rattle.cd_products.specs.QuestionBoxes.{within_node, without_node};

use cd_sets::id_set::IdSet;
use cd_sets::node_id::NodeId;
use cd_sets::question::Question;
use std::alloc::AllocError;

/// What of a question is in a node too.
///
/// # Errors
///
/// Want of memory.
pub fn within(id: NodeId, question: &Question) -> Result<Question, AllocError>
    ensures { IfOk result (λ narrowed. narrowed ≡ within_node id question.now) }
{
    let pos = with(question.pos.copy()?, id)?;
    let neg = question.neg.copy()?;
    Ok(Question { pos, neg })
}

/// What of a question is outside a node.
///
/// # Errors
///
/// Want of memory.
pub fn without(id: NodeId, question: &Question) -> Result<Question, AllocError>
    ensures { IfOk result (λ narrowed. narrowed ≡ without_node id question.now) }
{
    let pos = question.pos.copy()?;
    let neg = with(question.neg.copy()?, id)?;
    Ok(Question { pos, neg })
}

// A set with one more number.
fn with(mut set: IdSet, id: NodeId) -> Result<IdSet, AllocError>
    ensures { IfOk result (λ all. all ≡ with_id id set) }
{
    set.knows();
    set.insert(id)?;
    // The contract of this call says that the set rises.
    set.knows();
    Ok(set)
}
