use crate::open_labels::OpenLabels;
use crate::stack::Stack;
use std::alloc::{AllocError, Global};
use std::marker::Model;

/// The labels of the forms that are open, by their numbers. A contract sees them in a list, the
/// last one first.
#[derive(Drop)]
pub(crate) struct Labels {
    numbers: Stack<u32>,
    shown: OpenLabels,
}

impl Model for Labels {
    ghost use Rattle.std.specs.Prelude.{◌≡◌, ℕ, List, reverse};
    ghost use Rattle.cd_notation.specs.OpenOf.{labels as open_labels};

    ghost Value = { List ℕ };

    ghost view = { λ all. all.numbers };

    ghost invariant = { λ all. open_labels all.shown ≡ reverse all.numbers };
}

impl Labels {
    ghost use Rattle.std.specs.Prelude.{◌≡◌, ◌++◌, ℕ, List, [], ◌∷◌, true, false, length};
    ghost use Rattle.std.specs.Prelude.{◌-◌, drop, IfOk, MatchOption};
    ghost use Rattle.cd_notation.specs.Open.{is_label_of};

    /// No labels.
    pub(crate) fn new(alloc: Global) -> Labels
        ensures { result ≡ [] }
    {
        Labels {
            numbers: Stack::new(alloc),
            shown: OpenLabels::new(alloc),
        }
    }

    /// How many labels there are.
    pub(crate) fn len(&self) -> usize
        ensures { result ≡ length self.now }
    {
        self.numbers.len()
    }

    /// Adds a label, unless it is one of the form whose labels begin here. Answers whether it was
    /// added.
    pub(crate) fn add(&mut self, from: usize, label: u32) -> Result<bool, AllocError>
        ensures fresh { IfOk result (λ added. added ≡ true → (top below : List ℕ)
            → self.old ≡ top ++ below → from ≡ length below
            → (is_label_of label top ≡ false) × (self.new ≡ label ∷ self.old)) }
        ensures again { IfOk result (λ added. added ≡ false → (top below : List ℕ)
            → self.old ≡ top ++ below → from ≡ length below
            → is_label_of label top ≡ true) }
    {
        self.numbers.push(label)?;
        match self.shown.add(from, label) {
            Ok(true) => Ok(true),
            Ok(false) => {
                self.numbers.pop();
                Ok(false)
            }
            Err(error) => {
                self.numbers.pop();
                Err(error)
            }
        }
    }

    /// Takes the last label away.
    pub(crate) fn pop(&mut self) -> Option<u32>
        ensures { MatchOption result ((self.old ≡ []) × (self.new ≡ []))
            (λ label. self.old ≡ label ∷ self.new) }
    {
        let label = self.numbers.pop();
        self.shown.cut(self.numbers.len());
        label
    }

    /// Takes labels away until so many are left.
    pub(crate) fn cut(&mut self, count: usize)
        ensures { self.new ≡ drop (length self.old - count) self.old }
    {
        self.numbers.cut(count);
        self.shown.cut(count);
    }
}
