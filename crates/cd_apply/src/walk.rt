//! The results of arguments by arrows.
ghost use Rattle.std.specs.Prelude.{◌≡◌, ◌<◌, length, IfOk, OnOk};
ghost use Rattle.cd_model.specs.AllOf.{AllOf};
ghost use Rattle.cd_rules.specs.Family.{AsksNodes};
ghost use Rattle.cd_rules.specs.Within.{IsPairWithin};
ghost use Rattle.cd_products.specs.QuestionBoxes.{within_node, without_node};
ghost use Rattle.cd_empty.specs.Growth.{Grows};
ghost use Rattle.cd_empty.specs.Seen.{graph_of};
ghost use Rattle.cd_apply.specs.Inner.Found.{AddsResults, IsSeenToAdd};

use crate::found::element_in;
use crate::subsumed::is_subsumed;
use cd_empty::World;
use cd_products::{within, without};
use cd_sets::node_id::NodeId;
use cd_sets::question::Question;
use std::alloc::AllocError;

/// Adds questions of the results that functions of these arrows have for these arguments, within
/// what holds results so far.
///
/// The arguments are divided by the arrows, one after the other: for those outside an arrow's
/// argument the arrow says nothing, and for those within it their results are in its result. Parts
/// without an element are dropped, and so are those whose results are in a question already.
#[cycle(walk)]
pub(crate) fn walk(
    world: &mut World,
    arrows: &[(NodeId, NodeId)],
    arguments: &Question,
    results: &Question,
    questions: &mut Vec<Question>,
) -> Result<(), AllocError>
    requires arrows { AllOf (IsPairWithin (length (graph_of world.old))) arrows.now }
    requires arguments { AsksNodes (length (graph_of world.old)) arguments.now }
    requires results { AsksNodes (length (graph_of world.old)) results.now }
    requires questions { AllOf (AsksNodes (length (graph_of world.old))) questions.old.items }
    ensures exact { OnOk result (AddsResults (graph_of world.old) arguments.now arrows.now
        results.now questions.old.items questions.new.items) }
    ensures asks { OnOk result
        (AllOf (AsksNodes (length (graph_of world.old))) questions.new.items) }
    ensures graph { graph_of world.new ≡ graph_of world.old }
    ensures grows { Grows world.old world.new }
{
    if !adds(world, arguments, results, questions.as_slice())? {
        return Ok(());
    }
    match arrows {
        [] => Ok(questions.push(results.copy()?)?),
        [arrow, rest @ ..] => {
            walk_beyond(world, arrow.0, rest, arguments, results, questions)?;
            walk_inside(world, *arrow, rest, arguments, results, questions)
        }
    }
}

// For the arguments outside that of an arrow, by the other arrows.
#[cycle(walk)]
fn walk_beyond(
    world: &mut World,
    argument: NodeId,
    rest: &[(NodeId, NodeId)],
    arguments: &Question,
    results: &Question,
    questions: &mut Vec<Question>,
) -> Result<(), AllocError>
    requires argument { argument.0 < length (graph_of world.old) }
    requires rest { AllOf (IsPairWithin (length (graph_of world.old))) rest.now }
    requires arguments { AsksNodes (length (graph_of world.old)) arguments.now }
    requires results { AsksNodes (length (graph_of world.old)) results.now }
    requires questions { AllOf (AsksNodes (length (graph_of world.old))) questions.old.items }
    ensures exact { OnOk result (AddsResults (graph_of world.old)
        (without_node argument arguments.now) rest.now results.now questions.old.items
        questions.new.items) }
    ensures asks { OnOk result
        (AllOf (AsksNodes (length (graph_of world.old))) questions.new.items) }
    ensures graph { graph_of world.new ≡ graph_of world.old }
    ensures grows { Grows world.old world.new }
{
    let outside = without(argument, arguments)?;
    walk(world, rest, &outside, results, questions)
}

// For the arguments within that of an arrow, by the other arrows.
#[cycle(walk)]
fn walk_inside(
    world: &mut World,
    arrow: (NodeId, NodeId),
    rest: &[(NodeId, NodeId)],
    arguments: &Question,
    results: &Question,
    questions: &mut Vec<Question>,
) -> Result<(), AllocError>
    requires arrow { IsPairWithin (length (graph_of world.old)) arrow }
    requires rest { AllOf (IsPairWithin (length (graph_of world.old))) rest.now }
    requires arguments { AsksNodes (length (graph_of world.old)) arguments.now }
    requires results { AsksNodes (length (graph_of world.old)) results.now }
    requires questions { AllOf (AsksNodes (length (graph_of world.old))) questions.old.items }
    ensures exact { OnOk result (AddsResults (graph_of world.old)
        (within_node arrow.0 arguments.now) rest.now (within_node arrow.1 results.now)
        questions.old.items questions.new.items) }
    ensures asks { OnOk result
        (AllOf (AsksNodes (length (graph_of world.old))) questions.new.items) }
    ensures graph { graph_of world.new ≡ graph_of world.old }
    ensures grows { Grows world.old world.new }
{
    let inside = within(arrow.0, arguments)?;
    let mapped = within(arrow.1, results)?;
    walk(world, rest, &inside, &mapped, questions)
}

// Whether there are arguments, and it is not seen that their results are in a question already.
fn adds(
    world: &mut World,
    arguments: &Question,
    results: &Question,
    questions: &[Question],
) -> Result<bool, AllocError>
    requires { AsksNodes (length (graph_of world.old)) arguments.now }
    ensures seen { IfOk result
        (IsSeenToAdd (graph_of world.old) arguments.now results.now questions.now) }
    ensures graph { graph_of world.new ≡ graph_of world.old }
    ensures grows { Grows world.old world.new }
{
    if is_subsumed(results, questions) {
        return Ok(false);
    }
    Ok(element_in(world, arguments)?.is_some())
}
