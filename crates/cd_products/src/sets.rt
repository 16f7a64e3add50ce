//! Formulas of sets.
ghost use Rattle.std.specs.Prelude.{◌≡◌, map, IfOk, OnOk};
ghost use Rattle.cd_sets.specs.Interval.{HoldsNothing};
ghost use Rattle.cd_sets.specs.Characters.{HoldsNoCharacter};
ghost use Rattle.cd_sets.specs.Atoms.{HoldsNoAtom};
ghost use Rattle.cd_model.specs.Formula.{Ints as AnInts, Chars as AChars, Atoms as AnAtoms};
ghost use Rattle.cd_graph.specs.PlainFormula.{plain};
ghost use Rattle.cd_products.specs.Inner.Sets.{IsOfSets, Adds};

use cd_graph::{Formula, Formulas};
use cd_normal::basic_sets::Basics;
use cd_sets::atom_set::AtomSet;
use cd_sets::char_set::CharSet;
use cd_sets::int_set::IntSet;
use std::alloc::{AllocError, Global};

/// The union of sets of integers, of characters and of atoms, without those that are empty.
pub(crate) fn of_sets(alloc: Global, sets: Basics) -> Result<Formula, AllocError>
    ensures { IfOk result (λ is. IsOfSets sets (plain is)) }
{
    let Basics {
        integers,
        characters,
        atoms,
    } = sets;
    let mut members = Vec::new(alloc);
    add_integers(&mut members, integers)?;
    add_characters(&mut members, characters)?;
    add_atoms(&mut members, atoms)?;
    Ok(Formula::or(Formulas::of(members)?))
}

fn add_integers(members: &mut Vec<Formula>, set: IntSet) -> Result<(), AllocError>
    ensures { OnOk result (Adds (AnInts set) (HoldsNothing set)
        (map plain members.old.items) (map plain members.new.items)) }
{
    if set.is_empty() {
        return Ok(());
    }
    Ok(members.push(Formula::ints(set))?)
}

fn add_characters(members: &mut Vec<Formula>, set: CharSet) -> Result<(), AllocError>
    ensures { OnOk result (Adds (AChars set) (HoldsNoCharacter set)
        (map plain members.old.items) (map plain members.new.items)) }
{
    if set.is_empty() {
        return Ok(());
    }
    Ok(members.push(Formula::chars(set))?)
}

fn add_atoms(members: &mut Vec<Formula>, set: AtomSet) -> Result<(), AllocError>
    ensures { OnOk result (Adds (AnAtoms set) (HoldsNoAtom set)
        (map plain members.old.items) (map plain members.new.items)) }
{
    if set.is_empty() {
        return Ok(());
    }
    Ok(members.push(Formula::atoms(set))?)
}
