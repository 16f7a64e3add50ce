//! Formulas of integers, of characters and of an atom.
ghost use Rattle.std.specs.Prelude.{◌≡◌, IfOk};
ghost use Rattle.std.specs.Option.{option_map};
ghost use Rattle.cd_syntax.specs.Name.{IsLabel};
ghost use Rattle.cd_graph.specs.PlainFormula.{plain};
ghost use Rattle.cd_resolve.specs.Inner.Leaves.{integers as integers_between};
ghost use Rattle.cd_resolve.specs.Inner.Leaves.{characters as characters_between};
ghost use Rattle.cd_resolve.specs.Inner.Leaves.{atom as atom_named};

use cd_graph::Formula;
use cd_sets::atom_set::AtomSet;
use cd_sets::char_set::CharSet;
use cd_sets::int_set::IntSet;
use cd_syntax::name::Name;
use std::alloc::{AllocError, Global};

/// The integers between two bounds, if there are such. A bound that is not there is the least or
/// the greatest integer.
pub(crate) fn integers(
    alloc: Global,
    low: Option<i128>,
    high: Option<i128>,
) -> Result<Option<Formula>, AllocError>
    ensures { IfOk result (λ leaf. option_map plain leaf ≡ integers_between low high) }
{
    let low = low.unwrap_or(i128::MIN);
    let high = high.unwrap_or(i128::MAX);
    if low <= high {
        return Ok(Some(Formula::ints(IntSet::interval(alloc, low, high)?)));
    }
    Ok(None)
}

/// The characters from one to another, if there are such.
pub(crate) fn characters(
    alloc: Global,
    low: char,
    high: char,
) -> Result<Option<Formula>, AllocError>
    ensures { IfOk result (λ leaf. option_map plain leaf ≡ characters_between low high) }
{
    if low <= high {
        return Ok(Some(Formula::chars(CharSet::interval(alloc, low, high)?)));
    }
    Ok(None)
}

/// The atom of this name.
pub(crate) fn atom(alloc: Global, name: &Name) -> Result<Formula, AllocError>
    requires { IsLabel name.now }
    ensures { IfOk result (λ leaf. plain leaf ≡ atom_named name.now) }
{
    Ok(Formula::atoms(AtomSet::one(alloc, name.as_str())?))
}
