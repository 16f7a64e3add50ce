ghost use Rattle.std.specs.Prelude.{◌≡◌, ◌==◌, ◌||◌, ◌≤◌, [], Some, IfOk, OnOk, OnErr, length};
ghost use Rattle.std.specs.Prelude.{refl};
ghost use Rattle.std.specs.Cmp.{partial_equiv_from_equiv};
ghost use Rattle.std.specs.Cmp.Lexicographic.{pointwise, slice_cmp};
ghost use Rattle.std.specs.Hash as fed;
ghost use Rattle.cd_sets.specs.declared.node_id.NodeId.{NodeId as AnId};
ghost use Rattle.cd_sets.specs.IdSet.{AreRising, holds, place_of};
ghost use Rattle.cd_sets.specs.Subsets.{subsets_of};
ghost use Rattle.cd_sets.specs.Counting.{chosen_of};
ghost use Rattle.cd_sets.specs.Comparing.{same_id, id_cmp, id_input};
ghost use Rattle.cd_sets.specs.Comparing.{sets_equiv, sets_partial, sets_total, sets_ties};
ghost use Rattle.cd_sets.specs.Comparing.{sets_alike};

use crate::node_id::NodeId;
use crate::subsets::Subsets;
use smallvec::SmallVec;
use std::alloc::{AllocError, Global};
use std::cmp::Ordering;
use std::hash::{Hash, Hasher};
use std::marker::Model;

/// A set of node numbers. A contract sees them in a list that rises strictly.
#[derive(Drop)]
pub struct IdSet {
    ids: SmallVec<NodeId, 4>,
}

impl Model for IdSet {
    ghost use Rattle.std.specs.Prelude.{List};
    ghost use Rattle.cd_sets.specs.declared.node_id.NodeId.{NodeId as AnId};
    ghost use Rattle.cd_sets.specs.IdSet.{AreRising};

    ghost Value = { List AnId };

    ghost view = { λ set. set.ids.items };

    ghost invariant = { λ set. AreRising set.ids.items };
}

impl IdSet {
    /// The set that holds nothing.
    pub fn new(alloc: Global) -> IdSet
        ensures { result ≡ [] }
    {
        IdSet {
            ids: SmallVec::new(alloc),
        }
    }

    /// Adds a number, if it is not there yet. Where memory runs out the set stays as it was.
    pub fn insert(&mut self, id: NodeId) -> Result<(), AllocError>
        ensures added { OnOk result ((one : AnId)
            → holds self.new one ≡ ((one.0 == id.0) || holds self.old one)) }
        ensures kept { OnErr result (self.new ≡ self.old) }
    {
        let place = place(self.ids.as_slice(), id);
        if place == self.ids.len() {
            self.ids.push(id)?;
        } else if !self.contains(id) {
            self.ids.insert(place, id)?;
        }
        Ok(())
    }

    /// The numbers that are in one of the sets.
    pub fn union(&self, other: &IdSet) -> Result<IdSet, AllocError>
        ensures { IfOk result (λ set. (one : AnId)
            → holds set one ≡ (holds self.now one || holds other.now one)) }
    {
        let mut all = self.copy()?;
        for id in other.ids.iter() {
            all.insert(*id)?;
        }
        Ok(all)
    }

    /// Whether the number is in the set.
    pub fn contains(&self, id: NodeId) -> bool
        ensures { result ≡ holds self.now id }
    {
        self.ids.iter().any(|one| one.0 == id.0)
    }

    /// How many numbers it holds.
    pub fn len(&self) -> usize
        ensures { result ≡ length self.now }
    {
        self.ids.len()
    }

    /// What is known of every set: its numbers rise strictly.
    pub fn knows(&self)
        ensures { AreRising self.now }
    {
        let _ids = &self.ids;
    }

    /// Its numbers. They rise strictly.
    pub fn ids(&self) -> &[NodeId]
        ensures value { result.now ≡ self.now }
        ensures rising { AreRising self.now }
    {
        self.ids.as_slice()
    }

    /// Its subsets, each once, in the order of binary counting, with the least number as the lowest
    /// digit.
    pub fn subsets(&self) -> Result<Subsets, AllocError>
        ensures { IfOk result (λ subsets. subsets ≡ subsets_of self.now) }
    {
        Subsets::of(*self.ids.allocator(), self.copy()?)
    }

    // The numbers at whose digits there is a one.
    pub(crate) fn chosen(&self, digits: &[bool]) -> Result<IdSet, AllocError>
        requires { length digits.now ≡ length self.now }
        ensures { IfOk result (λ set. set ≡ chosen_of self.now digits.now) }
    {
        let mut ids = SmallVec::new(*self.ids.allocator());
        for index in 0..digits.len() {
            if digits[index] {
                ids.push(self.ids.as_slice()[index])?;
            }
        }
        Ok(IdSet { ids })
    }

    /// An equal set.
    pub fn copy(&self) -> Result<IdSet, AllocError>
        ensures { IfOk result (λ set. set ≡ self.now) }
    {
        Ok(IdSet {
            ids: SmallVec::from_slice(*self.ids.allocator(), self.ids.as_slice())?,
        })
    }
}

// How many numbers come before this one.
fn place(ids: &[NodeId], id: NodeId) -> usize
    ensures place { result ≡ place_of ids.now id }
    ensures within { result ≤ length ids.now }
{
    for index in 0..ids.len() {
        if id.0 <= ids[index].0 {
            return index;
        }
    }
    ids.len()
}

impl PartialEq for IdSet {
    ghost eq = { pointwise same_id };

    ghost laws = { partial_equiv_from_equiv sets_equiv };

    fn eq(&self, other: &IdSet) -> bool {
        self.ids.as_slice() == other.ids.as_slice()
    }
}

impl Eq for IdSet {
    ghost laws = { sets_equiv };
}

impl PartialOrd for IdSet {
    ghost partial_cmp = { λ set other. Some (slice_cmp id_cmp set other) };

    ghost laws = { sets_partial };

    fn partial_cmp(&self, other: &IdSet) -> Option<Ordering> {
        Some(self.cmp(other))
    }
}

impl Ord for IdSet {
    ghost cmp = { slice_cmp id_cmp };

    ghost total = { sets_total };

    ghost matches_partial_cmp = { λ set other. refl };

    ghost matches_eq = { sets_ties };

    fn cmp(&self, other: &IdSet) -> Ordering {
        self.ids.as_slice().cmp(&other.ids.as_slice())
    }
}

impl Hash for IdSet {
    ghost hash_input = { fed.slice id_input };

    ghost respects_eq = { sets_alike.fed };

    fn hash<H: Hasher>(&self, state: &mut H) {
        self.ids.as_slice().hash(state);
    }
}
