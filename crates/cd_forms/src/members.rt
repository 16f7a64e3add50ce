//! The members of a union.
ghost use Rattle.std.specs.Prelude.{◌≡◌, ◌||◌, map, IfOk, OnOk};
ghost use Rattle.cd_sets.specs.IdSet.{holds};
ghost use Rattle.cd_sets.specs.declared.node_id.NodeId.{NodeId as AnId};
ghost use Rattle.cd_forms.specs.Inner.Asking.{asking};
ghost use Rattle.cd_forms.specs.Inner.Members.{is_same, is_member};

use crate::of_sequences::asking::asking;
use cd_graph::built_in::EMPTY;
use cd_sets::id_set::IdSet;
use cd_sets::node_id::NodeId;
use cd_sets::question::Question;
use std::alloc::{AllocError, Global};

/// The nodes of a union without the empty one, each once.
pub(crate) fn members_of(alloc: Global, parts: &[NodeId]) -> Result<IdSet, AllocError>
    ensures { IfOk result (λ set. (id : AnId) → holds set id ≡ is_member parts.now id) }
{
    let mut members = IdSet::new(alloc);
    for part in parts {
        add(&mut members, *part)?;
    }
    Ok(members)
}

// Adds a node, unless it is the empty one.
fn add(members: &mut IdSet, part: NodeId) -> Result<(), AllocError>
    ensures { OnOk result ((id : AnId)
        → holds members.new id ≡ (is_same part id || holds members.old id)) }
{
    if part.0 == EMPTY.0 {
        return Ok(());
    }
    members.insert(part)
}

/// The questions that ask for one of the nodes each.
pub(crate) fn questions_of(alloc: Global, members: &[NodeId]) -> Result<Vec<Question>, AllocError>
    ensures { IfOk result (λ all. all.items ≡ map asking members.now) }
{
    let mut questions = Vec::with_capacity(alloc, members.len())?;
    for member in members {
        questions.push(asking(alloc, *member)?)?;
    }
    Ok(questions)
}
