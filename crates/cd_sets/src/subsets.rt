ghost use Rattle.std.specs.Prelude.{◌≡◌, IfOk, OnErr, length};
ghost use Rattle.cd_sets.specs.Subsets.{subsets_of, IsNext};
ghost use Rattle.cd_sets.specs.Counting.{next_digits, digits_left};

use crate::id_set::IdSet;
use std::alloc::{AllocError, Global};
use std::marker::Model;

/// The subsets of a set that are left to give. A contract sees them as a list.
#[derive(Drop)]
pub struct Subsets {
    set: IdSet,
    digits: Vec<bool>,
    more: bool,
}

impl Model for Subsets {
    ghost use Rattle.std.specs.Prelude.{◌≡◌, List, length};
    ghost use Rattle.cd_sets.specs.declared.node_id.NodeId.{NodeId as AnId};
    ghost use Rattle.cd_sets.specs.Counting.{left_from, digits_left};

    ghost Value = { List (List AnId) };

    ghost view = { λ subsets.
        left_from subsets.set (digits_left subsets.more subsets.digits.items) };

    ghost invariant = { λ subsets. length subsets.digits.items ≡ length subsets.set };
}

impl Subsets {
    // All subsets of a set.
    pub(crate) fn of(alloc: Global, set: IdSet) -> Result<Subsets, AllocError>
        ensures { IfOk result (λ subsets. subsets ≡ subsets_of set) }
    {
        let digits = Vec::from_elem(alloc, false, set.len())?;
        Ok(Subsets {
            set,
            digits,
            more: true,
        })
    }

    /// The next subset, if one is left. Where memory runs out all that are left stay.
    pub fn next(&mut self) -> Result<Option<IdSet>, AllocError>
        ensures given { IfOk result (λ found. IsNext found self.old self.new) }
        ensures kept { OnErr result (self.new ≡ self.old) }
    {
        if !self.more {
            return Ok(None);
        }
        let set = self.set.chosen(self.digits.as_slice())?;
        self.more = count_on(self.digits.as_mut_slice());
        Ok(Some(set))
    }
}

// Goes on to the next count, if the digits suffice for it.
fn count_on(digits: &mut [bool]) -> bool
    ensures { next_digits digits.old ≡ digits_left result digits.new }
{
    for index in 0..digits.len() {
        if !digits[index] {
            digits[index] = true;
            return true;
        }
        digits[index] = false;
    }
    false
}
