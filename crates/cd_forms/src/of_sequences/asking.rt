//! Questions about one node.
ghost use Rattle.std.specs.Prelude.{◌≡◌, length, IfOk, IfSome};
ghost use Rattle.cd_rules.specs.Family.{AsksNodes};
ghost use Rattle.cd_empty.specs.Growth.{Grows};
ghost use Rattle.cd_empty.specs.Seen.{graph_of};
ghost use Rattle.cd_forms.specs.Inner.Asking.{asking, HasNil};

use cd_empty::World;
use cd_graph::built_in::NIL;
use cd_products::within;
use cd_sets::id_set::IdSet;
use cd_sets::node_id::NodeId;
use cd_sets::question::Question;
use cd_verdicts::Verdict;
use std::alloc::{AllocError, Global};

/// What is in a node.
pub(crate) fn asking(alloc: Global, id: NodeId) -> Result<Question, AllocError>
    ensures { IfOk result (λ question. question ≡ asking id) }
{
    let all = Question {
        pos: IdSet::new(alloc),
        neg: IdSet::new(alloc),
    };
    within(id, &all)
}

/// The node that is asked, where one is asked alone.
pub(crate) fn alone(question: &Question) -> Option<NodeId>
    ensures { IfSome result (λ id. question.now ≡ asking id) }
{
    match question.pos.ids() {
        [id] if question.neg.len() == 0 => Some(*id),
        _ => None,
    }
}

/// Whether the empty sequence is in a question.
pub(crate) fn has_nil(world: &mut World, question: &Question) -> Result<bool, AllocError>
    requires { AsksNodes (length (graph_of world.old)) question.now }
    ensures nil { IfOk result (λ answer. HasNil (graph_of world.old) question.now answer) }
    ensures graph { graph_of world.new ≡ graph_of world.old }
    ensures grows { Grows world.old world.new }
{
    // The contract of this call says that the graph begins with the built-in nodes.
    world.graph();
    let nil = within(NIL, question)?;
    match world.decide(&nil)? {
        Verdict::Empty => Ok(false),
        Verdict::Inhabited(_) => Ok(true),
    }
}
