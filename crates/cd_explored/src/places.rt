//! Places under numbers.
ghost use Rattle.std.specs.Prelude.{◌≡◌, ◌∷◌, ◌++◌, ◌⊎◌, ℕ, [], Some, length, slice_get};
ghost use Rattle.std.specs.Prelude.{option_copied, IfOk, OnErr};
ghost use Rattle.cd_explored.specs.declared.place.Place.{Place as APlace};

use crate::place::Place;
use indexmap::IndexSet;
use std::alloc::{AllocError, Global};
use std::marker::Model;

/// Places, each once, under the numbers of their order. A contract sees them in a list.
#[derive(Drop)]
pub struct Places {
    places: IndexSet<Place>,
}

impl Model for Places {
    ghost use Rattle.std.specs.Prelude.{List};
    ghost use Rattle.cd_explored.specs.declared.place.Place.{Place as APlace};

    ghost Value = { List APlace };

    ghost view = { λ places. places.places.keys };
}

impl Places {
    /// No places.
    pub fn new(alloc: Global) -> Places
        ensures { result ≡ [] }
    {
        Places {
            places: IndexSet::new(alloc),
        }
    }

    /// The number of a place, which is added as the last one if it is not there. Where memory runs
    /// out none is added.
    pub fn number(&mut self, place: Place) -> Result<usize, AllocError>
        ensures found { IfOk result (λ number. slice_get self.new number ≡ Some place) }
        ensures grows { (self.new ≡ self.old) ⊎ (self.new ≡ self.old ++ place ∷ []) }
        ensures kept { OnErr result (self.new ≡ self.old) }
    {
        let (number, _) = self.places.insert_full(place)?;
        Ok(number)
    }

    /// The place of a number.
    pub fn get(&self, number: usize) -> Option<&Place>
        ensures { option_copied result ≡ slice_get self.now number }
    {
        self.places.get_index(number)
    }

    /// How many places there are, each of which is there once.
    pub fn len(&self) -> usize
        ensures count { result ≡ length self.now }
        ensures once { (one other : ℕ) (place : APlace) → slice_get self.now one ≡ Some place
            → slice_get self.now other ≡ Some place → one ≡ other }
    {
        self.places.len()
    }
}
