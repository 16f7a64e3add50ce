//! A value for each of some numbers.
ghost use Rattle.std.specs.Prelude.{◌≡◌, ℕ, [], Some, OnOk};
ghost use Rattle.cd_cells.specs.Slots.{slot_at, PutsOnly};

use std::alloc::{AllocError, Global};
use std::marker::Model;

/// A value for each of some numbers. A contract sees a list, in which a number has its value at its
/// place.
#[derive(Drop)]
pub struct Slots<T: Copy> {
    slots: Vec<Option<T>>,
}

impl<T: Copy> Model for Slots<T> {
    ghost use Rattle.std.specs.Prelude.{List, Option};

    ghost Value = { List (Option T) };

    ghost view = { λ all. all.slots.items };
}

impl<T: Copy> Slots<T> {
    /// No values.
    pub fn new(alloc: Global) -> Slots<T>
        ensures { result ≡ [] }
    {
        Slots {
            slots: Vec::new(alloc),
        }
    }

    /// The value of a number, if it has one.
    pub fn get(&self, number: usize) -> Option<T>
        ensures { result ≡ slot_at self.now number }
    {
        match self.slots.get(number) {
            Some(slot) => *slot,
            None => None,
        }
    }

    /// Gives a number this value.
    ///
    /// # Errors
    ///
    /// Want of memory. No value is added.
    pub fn put(&mut self, number: usize, value: T) -> Result<(), AllocError>
        ensures put { OnOk result (slot_at self.new number ≡ Some value) }
        ensures others { (other : ℕ) → (other ≡ number → ⊥)
            → slot_at self.new other ≡ slot_at self.old other }
        ensures only { PutsOnly number value self.old self.new }
    {
        if number < self.slots.len() {
            self.slots[number] = Some(value);
            return Ok(());
        }
        self.slots.resize(number, None)?;
        self.slots.push(Some(value))?;
        Ok(())
    }
}
