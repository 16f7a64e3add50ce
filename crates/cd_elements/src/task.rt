//! What is left to be written of a text.
ghost use Rattle.std.specs.Prelude.{◌≡◌, List, [], OnOk, MatchOption};
ghost use Rattle.std.specs.Str.{chars};
ghost use Rattle.cd_model.specs.Thing.{Thing};
ghost use Rattle.cd_elements.specs.Inner.Marks.{mark_text};
ghost use Rattle.cd_elements.specs.Inner.Tasks.{task_text, tasks_text, text_in, Puts};

use crate::shape::ElementId;
use cd_syntax::name::Name;
use std::alloc::{AllocError, Global};

/// A text that stands between elements or after them.
#[derive(Clone, Copy)]
pub(crate) enum Mark {
    Comma,
    Semicolon,
    Space,
    Quote,
    Maps,
    Fails,
    Parenthesis,
    Bracket,
    Brace,
    Greater,
}

impl Mark {
    /// How it is written.
    #[tactic(auto, using(crate::proofs::Marks::mark_characters))]
    pub(crate) fn text(self) -> &'static str
        ensures { chars result.now ≡ mark_text self }
    {
        match self {
            Mark::Comma => ", ",
            Mark::Semicolon => "; ",
            Mark::Space => " ",
            Mark::Quote => "'",
            Mark::Maps => " => ",
            Mark::Fails => " => ?",
            Mark::Parenthesis => ")",
            Mark::Bracket => "]",
            Mark::Brace => "}",
            Mark::Greater => ">",
        }
    }
}

/// A piece of a text that is left to be written.
#[derive(Drop)]
pub(crate) enum Task<'a> {
    /// This text.
    Mark(Mark),
    /// A character between single quotes, without them.
    Letter(char),
    /// A field of a record.
    Field(&'a Name, ElementId),
    /// An element.
    Element(ElementId),
}

/// The pieces of a text that are left to be written. The last one is written first.
#[derive(Drop)]
pub(crate) struct Tasks<'a> {
    items: Vec<Task<'a>>,
}

impl<'a> Tasks<'a> {
    /// Nothing is left.
    pub(crate) fn new(alloc: Global) -> Tasks<'a>
        ensures { (all : List Thing) → tasks_text all result ≡ [] }
    {
        Tasks {
            items: Vec::new(alloc),
        }
    }

    /// Puts a piece before what is left.
    #[tactic(auto, using(crate::proofs::Stacks::stack_push))]
    pub(crate) fn push(&mut self, task: Task<'a>) -> Result<(), AllocError>
        ensures { OnOk result (Puts (λ all. task_text all task.entry) self.old self.new) }
    {
        self.items.push(task)?;
        Ok(())
    }

    /// Puts a mark before what is left.
    pub(crate) fn push_mark(&mut self, mark: Mark) -> Result<(), AllocError>
        ensures { OnOk result (Puts (λ all. mark_text mark) self.old self.new) }
    {
        self.push(Task::Mark(mark))
    }

    /// Puts an element before what is left.
    pub(crate) fn push_element(&mut self, id: ElementId) -> Result<(), AllocError>
        ensures { OnOk result (Puts (λ all. text_in all id) self.old self.new) }
    {
        self.push(Task::Element(id))
    }

    /// Takes the next piece, if one is left.
    #[tactic(auto, using(crate::proofs::Stacks::stack_push))]
    pub(crate) fn pop(&mut self) -> Option<Task<'a>>
        ensures { MatchOption result
            ((all : List Thing) → tasks_text all self.old ≡ [])
            (λ task. Puts (λ all. task_text all task) self.new self.old) }
    {
        self.items.pop()
    }
}
