//! Whether a question is subsumed by others.
ghost use Rattle.std.specs.Prelude.{◌≡◌};
ghost use Rattle.std.specs.List.{list_all, list_any};
ghost use Rattle.cd_sets.specs.IdSet.{holds};
ghost use Rattle.cd_apply.specs.Inner.Subsuming.{is_subsumed_by};

use cd_sets::id_set::IdSet;
use cd_sets::node_id::NodeId;
use cd_sets::question::Question;

/// Whether a question is seen to be subsumed by one of some others.
pub(crate) fn is_subsumed(question: &Question, others: &[Question]) -> bool
    ensures { result ≡ list_any (is_subsumed_by question.now) others.now }
{
    others.iter().any(|other| is_subsumed_by(question, other))
}

// Whether a question is subsumed by another.
fn is_subsumed_by(question: &Question, other: &Question) -> bool
    ensures { result ≡ is_subsumed_by question.now other.now }
{
    are_among(other.pos.ids(), &question.pos) && are_among(other.neg.ids(), &question.neg)
}

// Whether each of these numbers is in a set.
fn are_among(ids: &[NodeId], all: &IdSet) -> bool
    ensures { result ≡ list_all (holds all.now) ids.now }
{
    ids.iter().all(|id| all.contains(*id))
}
