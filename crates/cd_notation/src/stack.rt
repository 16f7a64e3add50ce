use std::alloc::{AllocError, Global};
use std::marker::Model;

/// Items of which the one that was put there last is taken away first. A contract sees them in a
/// list, from the top on.
#[derive(Drop)]
pub(crate) struct Stack<T: Copy> {
    items: Vec<T>,
}

impl<T: Copy> Model for Stack<T> {
    ghost use Rattle.std.specs.Prelude.{List, reverse};

    ghost Value = { List T };

    ghost view = { λ stack. reverse stack.items.items };
}

impl<T: Copy> Stack<T> {
    ghost use Rattle.std.specs.Prelude.{◌≡◌, ◌++◌, List, [], ◌∷◌, OnOk, OnErr, MatchOption, length};
    ghost use Rattle.std.specs.Prelude.{◌-◌, drop};

    /// No items.
    pub(crate) fn new(alloc: Global) -> Stack<T>
        ensures { result ≡ [] }
    {
        Stack {
            items: Vec::new(alloc),
        }
    }

    /// How many items there are.
    pub(crate) fn len(&self) -> usize
        ensures { result ≡ length self.now }
    {
        self.items.len()
    }

    /// Puts an item on the top.
    pub(crate) fn push(&mut self, item: T) -> Result<(), AllocError>
        ensures added { OnOk result (self.new ≡ item ∷ self.old) }
        ensures kept { OnErr result (self.new ≡ self.old) }
    {
        self.items.push(item)?;
        Ok(())
    }

    /// Takes the item on the top away.
    pub(crate) fn pop(&mut self) -> Option<T>
        ensures { MatchOption result ((self.old ≡ []) × (self.new ≡ []))
            (λ item. self.old ≡ item ∷ self.new) }
    {
        self.items.pop()
    }

    /// The item on the top.
    pub(crate) fn top(&self) -> Option<T>
        ensures { MatchOption result (self.now ≡ [])
            (λ item. (rest : List T) × (self.now ≡ item ∷ rest)) }
    {
        match self.items.last() {
            Some(item) => Some(*item),
            None => None,
        }
    }

    /// Takes items from the top away until so many are left.
    pub(crate) fn cut(&mut self, count: usize)
        ensures { self.new ≡ drop (length self.old - count) self.old }
    {
        self.items.truncate(count);
    }

    /// Takes the item on the top away, which was looked at.
    pub(crate) fn drop_top(&mut self)
        ensures { (item : T) (rest : List T) → self.old ≡ item ∷ rest → self.new ≡ rest }
    {
        self.items.pop();
    }
}
