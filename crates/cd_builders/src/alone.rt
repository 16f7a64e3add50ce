//! Nodes that hold what is in one of some questions by the form of these.
ghost use Rattle.std.specs.Option.{IfSome};
ghost use Rattle.cd_builders.specs.Unions.{IsNodeOfUnion};
ghost use Rattle.cd_builders.specs.Inner.Alone.{IsOnly, AsksAlone};

use cd_graph::built_in::{ANY, EMPTY};
use cd_sets::node_id::NodeId;
use cd_sets::question::Question;

/// The node that holds exactly what is in one of some questions in each graph, if it is seen: the
/// empty one of no question, and of one question the node that it asks for alone.
pub fn only_node(questions: &[Question]) -> Option<NodeId>
    ensures { IfSome result (IsNodeOfUnion questions.now) }
{
    match questions {
        [] => Some(EMPTY),
        [question] => alone(question),
        _ => None,
    }
}

/// The node that a question asks for alone.
pub(crate) fn alone(question: &Question) -> Option<NodeId>
    ensures { IfSome result (AsksAlone question.now) }
{
    match question.neg.ids() {
        [] => only(question.pos.ids()),
        [_, ..] => None,
    }
}

// The only node of these, where the node of everything counts for nothing.
fn only(ids: &[NodeId]) -> Option<NodeId>
    ensures { IfSome result (IsOnly ids.now) }
{
    match ids {
        [] => Some(ANY),
        [id] => Some(*id),
        [first, second] if first.0 == ANY.0 => Some(*second),
        _ => None,
    }
}
