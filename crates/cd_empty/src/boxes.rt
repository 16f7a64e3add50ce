use std::alloc::{AllocError, Global};
use std::marker::Model;

/// Items of which the one that was put there last is taken away first, each in a box, so that a
/// wide one is not moved. A contract sees them in a list, from the top on.
#[derive(Drop)]
pub(crate) struct Boxes<T: Drop> {
    items: Vec<Box<T>>,
}

impl<T: Drop> Model for Boxes<T> {
    ghost use Rattle.std.specs.Prelude.{List, map, reverse};

    ghost Value = { List T };

    ghost view = { λ boxes. map (λ item. item.value) (reverse boxes.items.items) };
}

impl<T: Drop> Boxes<T> {
    ghost use Rattle.std.specs.Prelude.{◌≡◌, [], ◌∷◌, OnOk, MatchOption};

    /// No items.
    pub(crate) fn new(alloc: Global) -> Boxes<T>
        ensures { result ≡ [] }
    {
        Boxes {
            items: Vec::new(alloc),
        }
    }

    /// Puts an item on the top.
    pub(crate) fn push(&mut self, item: Box<T>) -> Result<(), AllocError>
        ensures { OnOk result (self.new ≡ item.value ∷ self.old) }
    {
        self.items.push(item)?;
        Ok(())
    }

    /// Takes the item on the top away.
    pub(crate) fn pop(&mut self) -> Option<Box<T>>
        ensures { MatchOption result ((self.old ≡ []) × (self.new ≡ []))
            (λ item. self.old ≡ item.value ∷ self.new) }
    {
        self.items.pop()
    }
}
