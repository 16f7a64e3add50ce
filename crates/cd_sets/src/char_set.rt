ghost use Rattle.std.specs.Prelude.{◌≡◌, ℕ, ℤ, pos, ◌≤ℤ◌, ◌≤◌, ◌∷◌, Bool, true, false, [], ◌&&◌};
ghost use Rattle.std.specs.Prelude.{◌||◌, not, ◌↔◌, IsTrue, IfOk, MatchOption, slice_get};
ghost use Rattle.std.specs.Char.{IsScalar};
ghost use Rattle.std.specs.Option.{option_map};
ghost use Rattle.cd_sets.specs.Interval.{holds};
ghost use Rattle.cd_sets.specs.Inner.Combine.{keeps_of};
ghost use Rattle.cd_sets.specs.Characters.{is_among, holds_character, HoldsNoCharacter};
ghost use Rattle.cd_sets.specs.Characters.{bounding_characters, number_of, character_at};
ghost use Rattle.cd_sets.specs.Characters.{characters_of, IsOfCharacters};

use crate::combine::{Operation, combine};
use crate::interval::Interval;
use std::alloc::{AllocError, Global};
use std::marker::Model;

/// A set of characters. A contract sees its intervals, in rising order and with a character left
/// out between any two. U+E000 is the next character after U+D7FF.
#[derive(Drop)]
pub struct CharSet {
    numbers: Vec<Interval>,
}

impl Model for CharSet {
    ghost use Rattle.std.specs.Prelude.{List, map};
    ghost use Rattle.cd_sets.specs.Characters.{CharInterval, characters_of, AreOfCharacters};

    ghost Value = { List CharInterval };

    ghost view = { λ s. map characters_of s.numbers.items };

    ghost invariant = { λ s. AreOfCharacters s.numbers.items };
}

impl CharSet {
    /// The set that holds nothing.
    pub fn empty(alloc: Global) -> CharSet
        ensures { result ≡ [] }
    {
        CharSet {
            numbers: Vec::new(alloc),
        }
    }

    /// The characters from `low` to `high`, both among them; none where `low` is above `high`.
    pub fn interval(alloc: Global, low: char, high: char) -> Result<CharSet, AllocError>
        ensures characters { IfOk result
            (λ set. (c : ℕ) → IsScalar c → holds_character set c ≡ is_among low high c) }
        ensures list { IfOk result
            (λ set. low ≤ high → set ≡ record { low = low; high = high } ∷ []) }
    {
        let mut numbers = Vec::new(alloc);
        if low <= high {
            numbers.push(Interval {
                low: number(low),
                high: number(high),
            })?;
        }
        Ok(CharSet { numbers })
    }

    /// The characters that are in one of the sets.
    pub fn union(&self, other: &CharSet) -> Result<CharSet, AllocError>
        ensures { IfOk result (λ set. (c : ℕ) → IsScalar c →
            holds_character set c ≡ (holds_character self.now c || holds_character other.now c)) }
    {
        self.combined(Operation::Union, other)
    }

    /// The characters that are in both sets.
    pub fn intersect(&self, other: &CharSet) -> Result<CharSet, AllocError>
        ensures { IfOk result (λ set. (c : ℕ) → IsScalar c →
            holds_character set c ≡ (holds_character self.now c && holds_character other.now c)) }
    {
        self.combined(Operation::Intersection, other)
    }

    /// The characters that are in this set and not in the other.
    pub fn minus(&self, other: &CharSet) -> Result<CharSet, AllocError>
        ensures { IfOk result (λ set. (c : ℕ) → IsScalar c →
            holds_character set c ≡ (holds_character self.now c
            && not (holds_character other.now c))) }
    {
        self.combined(Operation::Difference, other)
    }

    /// A set with the same characters, by the same intervals.
    pub fn copy(&self) -> Result<CharSet, AllocError>
        ensures { IfOk result (λ set. set ≡ self.now) }
    {
        Ok(CharSet {
            numbers: self.numbers.clone()?,
        })
    }

    /// Whether the character is in the set.
    pub fn contains(&self, value: char) -> bool
        ensures { result ≡ holds_character self.now value }
    {
        holds_number(self.numbers.as_slice(), number(value))
    }

    /// Whether no character is in the set.
    pub fn is_empty(&self) -> bool
        ensures { IsTrue result ↔ HoldsNoCharacter self.now }
    {
        self.some_member().is_none()
    }

    /// The bounds of the interval with this number, counted from 0, in the list that contracts see.
    pub fn piece(&self, index: usize) -> Option<(char, char)>
        ensures { result ≡ option_map bounding_characters (slice_get self.now index) }
    {
        let interval = self.numbers.get(index)?;
        Some(bounds(interval))
    }

    /// Some character of the set, if there is one: `a` is preferred, which each notation shows as
    /// it is.
    pub fn some_member(&self) -> Option<char>
        ensures { MatchOption result (HoldsNoCharacter self.now)
            (λ c. holds_character self.now c ≡ true) }
    {
        if self.contains('a') {
            return Some('a');
        }
        let interval = self.numbers.first()?;
        let (low, _) = bounds(interval);
        Some(low)
    }

    fn combined(&self, operation: Operation, other: &CharSet) -> Result<CharSet, AllocError>
        ensures { IfOk result (λ set. (c : ℕ) → IsScalar c →
            holds_character set c ≡ keeps_of operation (holds_character self.now c)
            (holds_character other.now c)) }
    {
        let numbers = combine(
            *self.numbers.allocator(),
            operation,
            self.numbers.as_slice(),
            other.numbers.as_slice(),
        )?;
        Ok(CharSet { numbers })
    }
}

// Whether one of the intervals holds the number.
fn holds_number(intervals: &[Interval], number: i128) -> bool
    ensures { result ≡ holds intervals.now number }
{
    intervals.iter().any(|interval| interval.low <= number && number <= interval.high)
}

// The characters with the numbers that bound the interval.
fn bounds(interval: &Interval) -> (char, char)
    requires { IsOfCharacters interval.now }
    ensures { result ≡ bounding_characters (characters_of interval.now) }
{
    (character(interval.low), character(interval.high))
}

// The number of a character, counted from 0 with no number left out.
fn number(character: char) -> i128
    ensures { result ≡ number_of character }
{
    let code = character as u32;
    if code < 0xD800 {
        code as i128
    } else {
        code as i128 - 0x800
    }
}

// The character with a number.
fn character(number: i128) -> char
    requires least { pos 0 ≤ℤ number }
    requires greatest { number ≤ℤ pos 0x10F7FF }
    ensures { result ≡ character_at number }
{
    let code = if number < 0xD800 {
        number
    } else {
        number + 0x800
    };
    char::from_u32(code as u32).unwrap()
}
