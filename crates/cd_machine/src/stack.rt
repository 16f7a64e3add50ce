//! What was put there last is taken away first.
use std::alloc::{AllocError, Global};
use std::marker::Model;

/// Items of which the one that was put there last is taken away first. A contract sees them in a
/// list, from the top on.
#[derive(Drop)]
pub(crate) struct Stack<T: Copy> {
    items: Vec<T>,
}

impl<T: Copy> Model for Stack<T> {
    ghost use Rattle.std.specs.Prelude.{List, reverse};

    ghost Value = { List T };

    ghost view = { λ stack. reverse stack.items.items };
}

impl<T: Copy> Stack<T> {
    ghost use Rattle.std.specs.Prelude.{◌≡◌, List, [], ◌∷◌, OnOk, MatchOption};

    /// No items.
    pub(crate) fn new(alloc: Global) -> Stack<T>
        ensures { result ≡ [] }
    {
        Stack {
            items: Vec::new(alloc),
        }
    }

    /// Puts an item on the top.
    #[inline]
    pub(crate) fn push(&mut self, item: T) -> Result<(), AllocError>
        ensures { OnOk result (self.new ≡ item ∷ self.old) }
    {
        self.items.push(item)?;
        Ok(())
    }

    /// Takes the item on the top away.
    #[inline]
    pub(crate) fn pop(&mut self) -> Option<T>
        ensures { MatchOption result ((self.old ≡ []) × (self.new ≡ []))
            (λ item. self.old ≡ item ∷ self.new) }
    {
        self.items.pop()
    }
}
