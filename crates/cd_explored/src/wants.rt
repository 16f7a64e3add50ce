//! Nodes that are wanted, under numbers.
ghost use Rattle.std.specs.Prelude.{◌≡◌, ◌∷◌, ◌++◌, ◌⊎◌, ℕ, [], Some, length, slice_get};
ghost use Rattle.std.specs.Prelude.{option_copied, IfOk, OnErr};
ghost use Rattle.cd_explored.specs.declared.want.Want.{Want as AWant};

use crate::want::Want;
use indexmap::IndexSet;
use std::alloc::{AllocError, Global};
use std::marker::Model;

/// What nodes are to hold, each once, under the numbers of their order. A contract sees them in a
/// list.
#[derive(Drop)]
pub(crate) struct Wants {
    wants: IndexSet<Want>,
}

impl Model for Wants {
    ghost use Rattle.std.specs.Prelude.{List};
    ghost use Rattle.cd_explored.specs.declared.want.Want.{Want as AWant};

    ghost Value = { List AWant };

    ghost view = { λ wants. wants.wants.keys };
}

impl Wants {
    /// No wants.
    pub(crate) fn new(alloc: Global) -> Wants
        ensures { result ≡ [] }
    {
        Wants {
            wants: IndexSet::new(alloc),
        }
    }

    /// The number of a want, which is added as the last one if it is not there.
    pub(crate) fn number(&mut self, want: Want) -> Result<usize, AllocError>
        ensures found { IfOk result (λ number. slice_get self.new number ≡ Some want) }
        ensures grows { (self.new ≡ self.old) ⊎ (self.new ≡ self.old ++ want ∷ []) }
    {
        let (number, _) = self.wants.insert_full(want)?;
        Ok(number)
    }

    /// The want of a number.
    pub(crate) fn get(&self, number: usize) -> Option<&Want>
        ensures { option_copied result ≡ slice_get self.now number }
    {
        self.wants.get_index(number)
    }

    /// What is known of all wants: each is there once.
    pub(crate) fn knows(&self)
        ensures { (one other : ℕ) (want : AWant) → slice_get self.now one ≡ Some want
            → slice_get self.now other ≡ Some want → one ≡ other }
    {
        let _len = self.wants.len();
    }
}
