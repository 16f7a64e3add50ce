//! What the items of sequences are asked.
ghost use Rattle.std.specs.Prelude.{◌++◌, map, IfOk, OnOk};
ghost use Rattle.cd_rules.specs.Family.{SameMembers};
ghost use Rattle.cd_forms.specs.Inner.ItemQuestions.{AreItems, items_of_steps};
ghost use Rattle.cd_forms.specs.Inner.States.{plain_state};

use crate::of_sequences::ending::is_marked;
use crate::of_sequences::numbered::Numbered;
use crate::of_sequences::state::State;
use crate::of_sequences::step::Step;
use std::alloc::{AllocError, Global};

/// What items are asked by steps to marked states, each question once.
pub(crate) fn item_questions(
    alloc: Global,
    states: &[State],
    marks: &[bool],
) -> Result<Numbered, AllocError>
    ensures { IfOk result (λ items. AreItems marks.now (map plain_state states.now) items) }
{
    let mut items = Numbered::new(alloc);
    for state in states {
        add_items(state.steps.as_slice(), marks, &mut items)?;
    }
    Ok(items)
}

// Adds what items are asked by these steps.
fn add_items(steps: &[Step], marks: &[bool], items: &mut Numbered) -> Result<(), AllocError>
    ensures { OnOk result
        (SameMembers items.new (items.old ++ items_of_steps marks.now steps.now)) }
{
    for step in steps {
        if is_marked(marks, step.rest) {
            items.number(step.item.copy()?)?;
        }
    }
    Ok(())
}
