use std::alloc::{AllocError, Global};
use std::marker::Model;

/// Items of which the one that was put there last is taken away first. A contract sees them in a
/// list, from the top on.
#[derive(Drop)]
pub(crate) struct Stack<T: Drop> {
    items: Vec<T>,
}

impl<T: Drop> Model for Stack<T> {
    ghost use Rattle.std.specs.Prelude.{List, reverse};

    ghost Value = { List T };

    ghost view = { λ stack. reverse stack.items.items };
}

impl<T: Drop> Stack<T> {
    ghost use Rattle.std.specs.Prelude.{◌≡◌, ◌++◌, [], ◌∷◌, OnOk, MatchOption};
    ghost use Rattle.std.specs.Prelude.{IsTrue, ◌↔◌};

    /// No items.
    pub(crate) fn new(alloc: Global) -> Stack<T>
        ensures { result ≡ [] }
    {
        Stack {
            items: Vec::new(alloc),
        }
    }

    /// Whether there is no item.
    pub(crate) fn is_empty(&self) -> bool
        ensures { IsTrue result ↔ (self.now ≡ []) }
    {
        self.items.as_slice().is_empty()
    }

    /// Puts an item on the top.
    pub(crate) fn push(&mut self, item: T) -> Result<(), AllocError>
        ensures { OnOk result (self.new ≡ item ∷ self.old) }
    {
        self.items.push(item)?;
        Ok(())
    }

    /// Puts items on the top, the first one last.
    pub(crate) fn push_all(&mut self, items: Vec<T>) -> Result<(), AllocError>
        ensures { OnOk result (self.new ≡ items.items ++ self.old) }
    {
        let mut items = items;
        items.reverse();
        if self.is_empty() {
            self.items = items;
            return Ok(());
        }
        self.items.append(&mut items)?;
        Ok(())
    }

    /// Takes the item on the top away.
    pub(crate) fn pop(&mut self) -> Option<T>
        ensures { MatchOption result ((self.old ≡ []) × (self.new ≡ []))
            (λ item. self.old ≡ item ∷ self.new) }
    {
        self.items.pop()
    }

    /// Takes all items away.
    pub(crate) fn clear(&mut self)
        ensures { self.new ≡ [] }
    {
        self.items.clear();
    }
}
