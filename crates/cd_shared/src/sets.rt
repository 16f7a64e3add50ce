//! Whether sets are equal.
ghost use Rattle.std.specs.Prelude.{◌≡◌, IsTrue};

use cd_sets::atom_set::AtomSet;
use cd_sets::char_set::CharSet;
use cd_sets::int_set::IntSet;

/// Whether two sets of integers have the same intervals.
pub(crate) fn have_same_integers(one: &IntSet, other: &IntSet) -> bool
    ensures { IsTrue result → one.now ≡ other.now }
{
    for index in 0..usize::MAX {
        match (one.piece(index), other.piece(index)) {
            (None, None) => return true,
            (Some(piece), Some(next)) if piece == next => {}
            _ => return false,
        }
    }
    false
}

/// Whether two sets of characters have the same intervals.
pub(crate) fn have_same_characters(one: &CharSet, other: &CharSet) -> bool
    ensures { IsTrue result → one.now ≡ other.now }
{
    for index in 0..usize::MAX {
        match (one.piece(index), other.piece(index)) {
            (None, None) => return true,
            (Some(piece), Some(next)) if piece == next => {}
            _ => return false,
        }
    }
    false
}

/// Whether two sets of atoms list the same names in the same order.
pub(crate) fn have_same_atoms(one: &AtomSet, other: &AtomSet) -> bool
    ensures { IsTrue result → one.now ≡ other.now }
{
    one.all_but() == other.all_but() && have_same_names(one, other)
}

fn have_same_names(one: &AtomSet, other: &AtomSet) -> bool
    ensures { IsTrue result → one.now.names ≡ other.now.names }
{
    for index in 0..usize::MAX {
        match (one.listed(index), other.listed(index)) {
            (None, None) => return true,
            (Some(name), Some(next)) if name == next => {}
            _ => return false,
        }
    }
    false
}
