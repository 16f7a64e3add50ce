//! Arrows whose arguments hold all of some arguments, or none of them.
ghost use Rattle.std.specs.Prelude.{◌≡◌, ◌<◌, [], ◌∷◌, length, IfOk, OnOk};
ghost use Rattle.cd_model.specs.AllOf.{AllOf};
ghost use Rattle.cd_rules.specs.Family.{AsksNodes};
ghost use Rattle.cd_rules.specs.Needs.{question};
ghost use Rattle.cd_rules.specs.Within.{IsPairWithin};
ghost use Rattle.cd_empty.specs.Growth.{Grows};
ghost use Rattle.cd_empty.specs.Seen.{graph_of};
ghost use Rattle.cd_apply.specs.Inner.Found.{AddsImage, IsDivided, Divides};
ghost use Rattle.cd_apply.specs.Inner.PlainDivided.{plain_divided};

use crate::found::{is_disjoint, is_inside};
use crate::walk::walk;
use cd_empty::World;
use cd_needs::asking::question;
use cd_products::within;
use cd_sets::node_id::NodeId;
use cd_sets::question::Question;
use std::alloc::{AllocError, Global};

// What arrows say of arguments: the results are within a question, and some arrows speak of a part
// of the arguments alone.
#[derive(Drop)]
struct Divided {
    results: Question,
    unsettled: Vec<(NodeId, NodeId)>,
}

/// Adds questions of the results that functions of these arrows have for what is in a node.
pub(crate) fn add_image(
    alloc: Global,
    world: &mut World,
    argument: NodeId,
    arrows: &[(NodeId, NodeId)],
    questions: &mut Vec<Question>,
) -> Result<(), AllocError>
    requires argument { argument.0 < length (graph_of world.old) }
    requires arrows { AllOf (IsPairWithin (length (graph_of world.old))) arrows.now }
    requires questions { AllOf (AsksNodes (length (graph_of world.old))) questions.old.items }
    ensures exact { OnOk result (AddsImage (graph_of world.old) (question (argument ∷ []) [])
        arrows.now questions.old.items questions.new.items) }
    ensures asks { OnOk result
        (AllOf (AsksNodes (length (graph_of world.old))) questions.new.items) }
    ensures graph { graph_of world.new ≡ graph_of world.old }
    ensures grows { Grows world.old world.new }
{
    let arguments = question(alloc, &[argument], &[])?;
    add_results(alloc, world, &arguments, arrows, questions)
}

// Adds questions of the results that functions of these arrows have for these arguments.
fn add_results(
    alloc: Global,
    world: &mut World,
    arguments: &Question,
    arrows: &[(NodeId, NodeId)],
    questions: &mut Vec<Question>,
) -> Result<(), AllocError>
    requires arguments { AsksNodes (length (graph_of world.old)) arguments.now }
    requires arrows { AllOf (IsPairWithin (length (graph_of world.old))) arrows.now }
    requires questions { AllOf (AsksNodes (length (graph_of world.old))) questions.old.items }
    ensures exact { OnOk result (AddsImage (graph_of world.old) arguments.now arrows.now
        questions.old.items questions.new.items) }
    ensures asks { OnOk result
        (AllOf (AsksNodes (length (graph_of world.old))) questions.new.items) }
    ensures graph { graph_of world.new ≡ graph_of world.old }
    ensures grows { Grows world.old world.new }
{
    let divided = divide(alloc, world, arguments, arrows)?;
    let unsettled = divided.unsettled.as_slice();
    walk(world, unsettled, arguments, &divided.results, questions)
}

// Goes over arrows once, and puts aside those that hold all arguments or none.
fn divide(
    alloc: Global,
    world: &mut World,
    arguments: &Question,
    arrows: &[(NodeId, NodeId)],
) -> Result<Divided, AllocError>
    requires arguments { AsksNodes (length (graph_of world.old)) arguments.now }
    requires arrows { AllOf (IsPairWithin (length (graph_of world.old))) arrows.now }
    ensures divided { IfOk result (λ divided.
        IsDivided (graph_of world.old) arguments.now arrows.now (plain_divided divided)) }
    ensures graph { graph_of world.new ≡ graph_of world.old }
    ensures grows { Grows world.old world.new }
{
    let mut divided = Divided {
        results: question(alloc, &[], &[])?,
        unsettled: Vec::new(alloc),
    };
    for arrow in arrows {
        divide_by(world, arguments, *arrow, &mut divided)?;
    }
    Ok(divided)
}

// Puts an arrow to the results, to those that are left, or aside.
fn divide_by(
    world: &mut World,
    arguments: &Question,
    arrow: (NodeId, NodeId),
    divided: &mut Divided,
) -> Result<(), AllocError>
    requires arguments { AsksNodes (length (graph_of world.old)) arguments.now }
    requires arrow { IsPairWithin (length (graph_of world.old)) arrow }
    ensures divided { OnOk result (Divides (graph_of world.old) arguments.now arrow
        (plain_divided divided.old) (plain_divided divided.new)) }
    ensures graph { graph_of world.new ≡ graph_of world.old }
    ensures grows { Grows world.old world.new }
{
    if is_inside(world, arguments, arrow.0)? {
        divided.results = within(arrow.1, &divided.results)?;
    } else if !is_disjoint(world, arguments, arrow.0)? {
        divided.unsettled.push(arrow)?;
    }
    Ok(())
}
