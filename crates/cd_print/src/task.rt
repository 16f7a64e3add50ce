//! What is left to be written of a text.
ghost use Rattle.std.specs.Prelude.{◌≡◌, [], OnOk, MatchOption};
ghost use Rattle.cd_cells.specs.declared.values.Values.{Values};
ghost use Rattle.cd_print.specs.Inner.Tasks.{task_text, tasks_text, Puts};

use cd_cells::{Part, ValueId};
use std::alloc::{AllocError, Global};

/// A piece of a text that is left to be written.
#[derive(Clone, Copy)]
pub(crate) enum Task<'v> {
    /// A value.
    Value(ValueId),
    /// What stands after an item of a sequence, where the items from this value on are left.
    AfterItem(ValueId),
    /// What stands after a part of a tuple, where the parts from this value on are left.
    AfterPart(ValueId),
    /// The parenthesis after a tuple.
    Close,
    /// What stands after a field of a record, where these fields are left.
    Fields(&'v [Part]),
    /// These attributes, and the content of their XML value.
    Attributes(&'v [Part], ValueId),
}

/// The pieces of a text that are left to be written. The last one is written first.
#[derive(Drop)]
pub(crate) struct Tasks<'v> {
    items: Vec<Task<'v>>,
}

impl<'v> Tasks<'v> {
    /// Nothing is left.
    pub(crate) fn new(alloc: Global) -> Tasks<'v>
        ensures { (values : Values) → tasks_text values result ≡ [] }
    {
        Tasks {
            items: Vec::new(alloc),
        }
    }

    /// Puts a piece before what is left.
    #[tactic(auto, using(crate::proofs::Stacks::stack_push))]
    pub(crate) fn push(&mut self, task: Task<'v>) -> Result<(), AllocError>
        ensures { OnOk result (Puts task.entry self.old self.new) }
    {
        self.items.push(task)?;
        Ok(())
    }

    /// Takes the next piece, if one is left.
    #[tactic(auto, using(crate::proofs::Stacks::stack_push))]
    pub(crate) fn pop(&mut self) -> Option<Task<'v>>
        ensures { MatchOption result ((values : Values) → tasks_text values self.old ≡ [])
            (λ task. Puts task self.new self.old) }
    {
        self.items.pop()
    }
}
