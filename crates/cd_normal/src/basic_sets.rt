ghost use Rattle.std.specs.Prelude.{◌≡◌, ℤ, ℕ, true, false, not, ◌&&◌, ◌||◌, ◌↔◌, IsTrue, IfOk};
ghost use Rattle.std.specs.Char.{IsScalar};
ghost use Rattle.cd_sets.specs.Interval.{holds};
ghost use Rattle.cd_sets.specs.Characters.{holds_character};
ghost use Rattle.cd_model.specs.Formula as formula;
ghost use Rattle.cd_normal.specs.HoldNothing.{HoldNothing};
ghost use Rattle.cd_normal.specs.Inner.ExactSets.{AreExact, Passing};

use cd_sets::atom_set::AtomSet;
use cd_sets::char_set::CharSet;
use cd_sets::int_set::IntSet;
use std::alloc::{AllocError, Global};

/// Integers, characters and atoms.
#[derive(Drop)]
pub struct Basics {
    /// The integers.
    pub integers: IntSet,
    /// The characters.
    pub characters: CharSet,
    /// The atoms.
    pub atoms: AtomSet,
}

impl Basics {
    /// Whether there is none.
    pub fn is_empty(&self) -> bool
        ensures { IsTrue result ↔ HoldNothing self.now }
    {
        self.integers.is_empty() && self.characters.is_empty() && self.atoms.is_empty()
    }

    // The same ones.
    pub(crate) fn copy(&self) -> Result<Basics, AllocError>
        ensures { IfOk result (λ copy. copy ≡ self.now) }
    {
        Ok(Basics {
            integers: self.integers.copy()?,
            characters: self.characters.copy()?,
            atoms: self.atoms.copy()?,
        })
    }

    // None.
    pub(crate) fn none(alloc: Global) -> Basics
        ensures { AreExact (λ test. false) result }
    {
        Basics {
            integers: IntSet::empty(alloc),
            characters: CharSet::empty(alloc),
            atoms: AtomSet::empty(alloc),
        }
    }

    // All.
    pub(crate) fn all(alloc: Global) -> Result<Basics, AllocError>
        ensures { IfOk result (AreExact (λ test. true)) }
    {
        Ok(Basics {
            integers: IntSet::interval(alloc, i128::MIN, i128::MAX)?,
            characters: CharSet::interval(alloc, '\0', '\u{10FFFF}')?,
            atoms: AtomSet::all(alloc),
        })
    }

    // These integers alone.
    pub(crate) fn of_integers(alloc: Global, set: &IntSet) -> Result<Basics, AllocError>
        ensures { IfOk result (AreExact (λ test. test (formula.Ints set.now))) }
    {
        Ok(Basics {
            integers: set.copy()?,
            characters: CharSet::empty(alloc),
            atoms: AtomSet::empty(alloc),
        })
    }

    // These characters alone.
    pub(crate) fn of_characters(alloc: Global, set: &CharSet) -> Result<Basics, AllocError>
        ensures { IfOk result (AreExact (λ test. test (formula.Chars set.now))) }
    {
        Ok(Basics {
            integers: IntSet::empty(alloc),
            characters: set.copy()?,
            atoms: AtomSet::empty(alloc),
        })
    }

    // These atoms alone.
    pub(crate) fn of_atoms(alloc: Global, set: &AtomSet) -> Result<Basics, AllocError>
        ensures { IfOk result (AreExact (λ test. test (formula.Atoms set.now))) }
    {
        Ok(Basics {
            integers: IntSet::empty(alloc),
            characters: CharSet::empty(alloc),
            atoms: set.copy()?,
        })
    }

    // Those that are of one of both.
    pub(crate) fn union(self, other: Basics) -> Result<Basics, AllocError>
        ensures { IfOk result (λ all. (one two : Passing) → AreExact one self
            → AreExact two other → AreExact (λ test. one test || two test) all) }
    {
        if self.is_empty() {
            return Ok(other);
        }
        if other.is_empty() {
            return Ok(self);
        }
        Ok(Basics {
            integers: self.integers.union(&other.integers)?,
            characters: self.characters.union(&other.characters)?,
            atoms: self.atoms.union(&other.atoms)?,
        })
    }

    // Those that are of both.
    pub(crate) fn intersect(&self, alloc: Global, other: &Basics) -> Result<Basics, AllocError>
        ensures { IfOk result (λ all. (one two : Passing) → AreExact one self.now
            → AreExact two other.now → AreExact (λ test. one test && two test) all) }
    {
        Ok(Basics {
            integers: integers_of_both(alloc, &self.integers, &other.integers)?,
            characters: characters_of_both(alloc, &self.characters, &other.characters)?,
            atoms: self.atoms.intersect(&other.atoms)?,
        })
    }

    // Those that are of this and not of the other.
    pub(crate) fn minus(&self, alloc: Global, other: &Basics) -> Result<Basics, AllocError>
        ensures { IfOk result (λ all. (one two : Passing) → AreExact one self.now
            → AreExact two other.now → AreExact (λ test. one test && not (two test)) all) }
    {
        Ok(Basics {
            integers: integers_without(alloc, &self.integers, &other.integers)?,
            characters: characters_without(alloc, &self.characters, &other.characters)?,
            atoms: self.atoms.minus(&other.atoms)?,
        })
    }
}

// The integers of both sets.
fn integers_of_both(alloc: Global, one: &IntSet, other: &IntSet) -> Result<IntSet, AllocError>
    ensures { IfOk result (λ set. (z : ℤ) → holds set z ≡ (holds one.now z && holds other.now z)) }
{
    if one.is_empty() {
        return Ok(IntSet::empty(alloc));
    }
    one.intersect(other)
}

// The integers of the one set that are not of the other.
fn integers_without(alloc: Global, one: &IntSet, other: &IntSet) -> Result<IntSet, AllocError>
    ensures { IfOk result (λ set. (z : ℤ)
        → holds set z ≡ (holds one.now z && not (holds other.now z))) }
{
    if one.is_empty() {
        return Ok(IntSet::empty(alloc));
    }
    one.minus(other)
}

// The characters of both sets.
fn characters_of_both(alloc: Global, one: &CharSet, other: &CharSet) -> Result<CharSet, AllocError>
    ensures { IfOk result (λ set. (c : ℕ) → IsScalar c
        → holds_character set c ≡ (holds_character one.now c && holds_character other.now c)) }
{
    if one.is_empty() {
        return Ok(CharSet::empty(alloc));
    }
    one.intersect(other)
}

// The characters of the one set that are not of the other.
fn characters_without(alloc: Global, one: &CharSet, other: &CharSet) -> Result<CharSet, AllocError>
    ensures { IfOk result (λ set. (c : ℕ) → IsScalar c
        → holds_character set c
        ≡ (holds_character one.now c && not (holds_character other.now c))) }
{
    if one.is_empty() {
        return Ok(CharSet::empty(alloc));
    }
    one.minus(other)
}
