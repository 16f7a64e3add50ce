//! What may be left of a row's questions where a label goes.
ghost use Rattle.std.specs.Prelude.{[], ◌∷◌, length, map, IfOk, OnOk};
ghost use Rattle.cd_model.specs.AllOf.{AllOf};
ghost use Rattle.cd_needs.specs.RecordTypes.{plain_row};
ghost use Rattle.cd_rules.specs.Family.{AsksNodes};
ghost use Rattle.cd_empty.specs.Seen.{graph_of};
ghost use Rattle.cd_products.specs.Inner.After.{IsAfter};
ghost use Rattle.cd_rows.specs.RecordRows.{RowAsksNodes};
ghost use Rattle.cd_records.specs.Inner.Leaving.{AddsStep, AreChoices, AreSteps, ChoiceAsks};
ghost use Rattle.cd_records.specs.Inner.Leaving.{IsAddedIf, first_choice, some_of};
ghost use Rattle.cd_records.specs.Inner.Plain.{plain_choice, plain_questions};

use crate::both::both;
use crate::choice::Choice;
use crate::questions::distinct;
use cd_empty::World;
use cd_needs::row::Row;
use cd_sets::question::Question;
use cd_verdicts::Verdict;
use std::alloc::{AllocError, Global};

/// The choices of what stands at a label of no cell.
pub(crate) fn choices_of<'r>(
    alloc: Global,
    world: &mut World,
    row: &'r Row,
) -> Result<Vec<Choice<'r>>, AllocError>
    requires { RowAsksNodes (length (graph_of world.old)) (plain_row row.now) }
    ensures choices { IfOk result (λ choices. AreChoices (graph_of world.old)
        (some_of (plain_row row.now)) (first_choice (plain_row row.now) ∷ [])
        (map plain_choice choices.items)) }
    ensures after { IsAfter world.old world.new }
{
    let some = distinct(alloc, row.some.items())?;
    let first = Choice {
        taken: row.every.copy()?,
        left: Vec::new(alloc),
    };
    choices_by(alloc, world, some.as_slice(), first)
}

// What a choice becomes by some questions.
fn choices_by<'r>(
    alloc: Global,
    world: &mut World,
    some: &[&'r Question],
    first: Choice<'r>,
) -> Result<Vec<Choice<'r>>, AllocError>
    requires some { AllOf (AsksNodes (length (graph_of world.old))) (plain_questions some.now) }
    requires first { ChoiceAsks (length (graph_of world.old)) (plain_choice first) }
    ensures choices { IfOk result (λ choices. AreChoices (graph_of world.old)
        (plain_questions some.now) (plain_choice first.entry ∷ [])
        (map plain_choice choices.items)) }
    ensures after { IsAfter world.old world.new }
{
    let mut choices = vec![in alloc; first]?;
    for question in some {
        choices = steps(alloc, world, question, choices.as_slice())?;
    }
    Ok(choices)
}

// What choices become by one more question.
fn steps<'r>(
    alloc: Global,
    world: &mut World,
    question: &'r Question,
    choices: &[Choice<'r>],
) -> Result<Vec<Choice<'r>>, AllocError>
    requires question { AsksNodes (length (graph_of world.old)) question.now }
    requires choices { AllOf (ChoiceAsks (length (graph_of world.old)))
        (map plain_choice choices.now) }
    ensures steps { IfOk result (λ all. AreSteps (graph_of world.old) question.now
        (map plain_choice choices.now) (map plain_choice all.items)) }
    ensures after { IsAfter world.old world.new }
{
    let mut all = Vec::new(alloc);
    for choice in choices {
        add_steps(alloc, world, question, choice, &mut all)?;
    }
    Ok(all)
}

// Adds what a choice becomes.
fn add_steps<'r>(
    alloc: Global,
    world: &mut World,
    question: &'r Question,
    choice: &Choice<'r>,
    all: &mut Vec<Choice<'r>>,
) -> Result<(), AllocError>
    requires question { AsksNodes (length (graph_of world.old)) question.now }
    requires choice { ChoiceAsks (length (graph_of world.old)) (plain_choice choice.now) }
    ensures step { OnOk result (AddsStep (graph_of world.old) question.now
        (plain_choice choice.now) (map plain_choice all.old.items)
        (map plain_choice all.new.items)) }
    ensures after { IsAfter world.old world.new }
{
    let taken = Choice {
        taken: both(alloc, &choice.taken, question)?,
        left: Vec::from_slice(alloc, choice.left.as_slice())?,
    };
    add_inhabited(world, taken, all)?;
    let mut left = Vec::from_slice(alloc, choice.left.as_slice())?;
    left.push(question)?;
    all.push(Choice {
        taken: choice.taken.copy()?,
        left,
    })?;
    Ok(())
}

// Adds a choice if something may stand at the label.
fn add_inhabited<'r>(
    world: &mut World,
    choice: Choice<'r>,
    all: &mut Vec<Choice<'r>>,
) -> Result<(), AllocError>
    requires { AsksNodes (length (graph_of world.old)) choice.taken }
    ensures added { OnOk result (IsAddedIf (graph_of world.old) (plain_choice choice.entry)
        (map plain_choice all.old.items) (map plain_choice all.new.items)) }
    ensures after { IsAfter world.old world.new }
{
    match world.decide(&choice.taken)? {
        Verdict::Empty => Ok(()),
        Verdict::Inhabited(_) => Ok(all.push(choice)?),
    }
}
