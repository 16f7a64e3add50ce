//! Which boxes of questions are inhabited.
ghost use Rattle.std.specs.Prelude.{◌≡◌, [], ◌∷◌, ◌++◌, Bool, List, length, IfOk, OnOk};
ghost use Rattle.cd_sets.specs.declared.question.Question.{Question as AQuestion};
ghost use Rattle.cd_model.specs.AllOf.{AllOf};
ghost use Rattle.cd_rules.specs.Family.{AsksNodes};
ghost use Rattle.cd_empty.specs.Seen.{graph_of};
ghost use Rattle.cd_products.specs.Inner.After.{IsAfter};
ghost use Rattle.cd_products.specs.Inner.Tests.{IsTest, IsTested, AreOfGraph, keep_boxes};

use crate::seen::one_is_seen_empty;
use cd_empty::World;
use cd_sets::question::{Question, Questions};
use cd_verdicts::Verdict;
use std::alloc::AllocError;

/// Adds the boxes each of whose questions has an element.
pub(crate) fn keep(
    world: &mut World,
    boxes: &[Questions],
    kept: &mut Vec<Questions>,
) -> Result<(), AllocError>
    requires { AreOfGraph (graph_of world.old) boxes.now }
    ensures exact { OnOk result ((test : List AQuestion → Bool) → IsTest (graph_of world.old) test
        → kept.new.items ≡ kept.old.items ++ keep_boxes test boxes.now) }
    ensures after { IsAfter world.old world.new }
{
    for cells in boxes {
        keep_one(world, cells, kept)?;
    }
    Ok(())
}

/// Adds a box if each of its questions has an element.
pub(crate) fn keep_one(
    world: &mut World,
    cells: &Questions,
    kept: &mut Vec<Questions>,
) -> Result<(), AllocError>
    requires { AllOf (AsksNodes (length (graph_of world.old))) cells.now }
    ensures exact { OnOk result ((test : List AQuestion → Bool) → IsTest (graph_of world.old) test
        → kept.new.items ≡ kept.old.items ++ keep_boxes test (cells.now ∷ [])) }
    ensures after { IsAfter world.old world.new }
{
    if one_is_seen_empty(world.graph(), cells.items())? {
        return Ok(());
    }
    if are_inhabited(world, cells.items())? {
        kept.push(cells.copy()?)?;
    }
    Ok(())
}

// Whether each of these questions has an element.
fn are_inhabited(world: &mut World, cells: &[Question]) -> Result<bool, AllocError>
    requires { AllOf (AsksNodes (length (graph_of world.old))) cells.now }
    ensures tested { IfOk result (λ answer. IsTested (graph_of world.old) cells.now answer) }
    ensures after { IsAfter world.old world.new }
{
    match cells {
        [] => Ok(true),
        [first, rest @ ..] => match world.decide(first)? {
            Verdict::Empty => Ok(false),
            Verdict::Inhabited(_) => are_inhabited(world, rest),
        },
    }
}
