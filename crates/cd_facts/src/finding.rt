//! What follows from what is known.
ghost use Rattle.std.specs.Prelude.{◌≡◌};
ghost use Rattle.cd_facts.specs.Inner.Finding.{look as look_of};
ghost use Rattle.cd_facts.specs.Inner.Finding.{one_of as one_of_both, opposite as opposite_of};
ghost use Rattle.cd_facts.specs.Inner.Finding.{finding_at_result};
ghost use Rattle.cd_facts.specs.Inner.Known.{known};

use crate::facts::Facts;
use cd_elements::ElementId;
use cd_sets::node_id::NodeId;

// Whether an element is in a formula, as far as it follows from what is known.
#[derive(Clone, Copy)]
pub(crate) enum Finding {
    // It is in the formula, or it is not.
    Known(bool),
    // Whether this element is in this node has to be known first.
    Unknown(ElementId, NodeId),
}

// Whether a part is in a node.
pub(crate) fn look(facts: &Facts, id: ElementId, node: NodeId) -> Finding
    ensures { result ≡ look_of (known facts.now) id node }
{
    match facts.get(id, node) {
        Some(answer) => Finding::Known(answer),
        None => Finding::Unknown(id, node),
    }
}

// Whether a result is in a node, which a pair that fails has not.
pub(crate) fn look_at_result(facts: &Facts, id: Option<ElementId>, node: NodeId) -> Finding
    ensures { result ≡ finding_at_result (known facts.now) id node }
{
    match id {
        Some(id) => look(facts, id, node),
        None => Finding::Known(false),
    }
}

// The opposite.
pub(crate) fn opposite(finding: Finding) -> Finding
    ensures { result ≡ opposite_of finding }
{
    match finding {
        Finding::Known(answer) => Finding::Known(!answer),
        Finding::Unknown(id, node) => Finding::Unknown(id, node),
    }
}

// Whether one of both is so.
pub(crate) fn one_of(first: Finding, second: Finding) -> Finding
    ensures { result ≡ one_of_both first second }
{
    match first {
        Finding::Known(true) => Finding::Known(true),
        Finding::Known(false) => second,
        Finding::Unknown(id, node) => Finding::Unknown(id, node),
    }
}
