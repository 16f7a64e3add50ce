//! Formulas that hold one thing without parts, and the characters of texts.
ghost use Rattle.std.specs.Prelude.{◌≡◌, [], ◌∷◌, codes, IfOk};
ghost use Rattle.cd_syntax.specs.Name.{IsLabel};
ghost use Rattle.cd_model.specs.BuiltIns.{atoms_of};
ghost use Rattle.cd_model.specs.Leaves.{one_integer, one_character, one_atom};
ghost use Rattle.cd_graph.specs.PlainFormula.{plain};

use cd_graph::Formula;
use cd_sets::atom_set::AtomSet;
use cd_sets::char_set::CharSet;
use cd_sets::int_set::IntSet;
use cd_syntax::name::Name;
use std::alloc::{AllocError, Global};

/// This integer alone.
///
/// # Errors
///
/// Want of memory.
pub fn integer(alloc: Global, n: i128) -> Result<Formula, AllocError>
    ensures { IfOk result (λ is. plain is ≡ one_integer n) }
{
    Ok(Formula::ints(IntSet::interval(alloc, n, n)?))
}

/// This character alone.
///
/// # Errors
///
/// Want of memory.
pub fn character(alloc: Global, c: char) -> Result<Formula, AllocError>
    ensures { IfOk result (λ is. plain is ≡ one_character c) }
{
    Ok(Formula::chars(CharSet::interval(alloc, c, c)?))
}

/// This atom alone.
///
/// # Errors
///
/// Want of memory.
pub fn atom(alloc: Global, name: &Name) -> Result<Formula, AllocError>
    requires { IsLabel name.now }
    ensures { IfOk result (λ is. plain is ≡ one_atom name.now) }
{
    Ok(Formula::atoms(AtomSet::one(alloc, name.as_str())?))
}

/// The end of a sequence.
///
/// # Errors
///
/// Want of memory.
pub fn nil(alloc: Global) -> Result<Formula, AllocError>
    ensures { IfOk result (λ is. plain is ≡ atoms_of (codes "nil" ∷ [])) }
{
    Ok(Formula::atoms(AtomSet::one(alloc, "nil")?))
}

/// The characters of a text.
///
/// # Errors
///
/// Want of memory.
#[tactic(auto, using(std::proofs::lemmas::Str::chars_from_encodes))]
pub fn characters(alloc: Global, text: &Name) -> Result<Vec<char>, AllocError>
    ensures { IfOk result (λ characters. characters.items ≡ text.now) }
{
    text.as_str().chars().collect(alloc)
}
