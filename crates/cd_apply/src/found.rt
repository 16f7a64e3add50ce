//! Elements of questions.
ghost use Rattle.std.specs.Prelude.{◌≡◌, ◌<◌, length, IfOk};
ghost use Rattle.cd_rules.specs.Family.{AsksNodes};
ghost use Rattle.cd_empty.specs.Growth.{Grows};
ghost use Rattle.cd_empty.specs.Seen.{graph_of, table_of};
ghost use Rattle.cd_apply.specs.Inner.Found.{IsFoundIn, SaysInside, SaysDisjoint};

use cd_elements::ElementId;
use cd_empty::World;
use cd_products::{within, without};
use cd_sets::node_id::NodeId;
use cd_sets::question::Question;
use cd_verdicts::Verdict;
use std::alloc::AllocError;

/// An element of a question, if it has one.
pub(crate) fn element_in(
    world: &mut World,
    question: &Question,
) -> Result<Option<ElementId>, AllocError>
    requires { AsksNodes (length (graph_of world.old)) question.now }
    ensures found { IfOk result
        (IsFoundIn (graph_of world.old) (table_of world.new) question.now) }
    ensures graph { graph_of world.new ≡ graph_of world.old }
    ensures grows { Grows world.old world.new }
{
    match world.decide(question)? {
        Verdict::Empty => Ok(None),
        Verdict::Inhabited(element) => Ok(Some(element)),
    }
}

/// Whether all elements of a question are in a node.
pub(crate) fn is_inside(
    world: &mut World,
    question: &Question,
    id: NodeId,
) -> Result<bool, AllocError>
    requires question { AsksNodes (length (graph_of world.old)) question.now }
    requires id { id.0 < length (graph_of world.old) }
    ensures inside { IfOk result (SaysInside (graph_of world.old) question.now id) }
    ensures graph { graph_of world.new ≡ graph_of world.old }
    ensures grows { Grows world.old world.new }
{
    let outside = without(id, question)?;
    Ok(element_in(world, &outside)?.is_none())
}

/// Whether no element of a question is in a node.
pub(crate) fn is_disjoint(
    world: &mut World,
    question: &Question,
    id: NodeId,
) -> Result<bool, AllocError>
    requires question { AsksNodes (length (graph_of world.old)) question.now }
    requires id { id.0 < length (graph_of world.old) }
    ensures disjoint { IfOk result (SaysDisjoint (graph_of world.old) question.now id) }
    ensures graph { graph_of world.new ≡ graph_of world.old }
    ensures grows { Grows world.old world.new }
{
    let common = within(id, question)?;
    Ok(element_in(world, &common)?.is_none())
}
