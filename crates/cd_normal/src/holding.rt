//! The integers, characters and atoms that are in formulas and in questions.
ghost use Rattle.std.specs.Prelude.{◌≡◌, ◌<◌, ◌&&◌, not, ℤ, ℕ, List, map, length, IfOk};
ghost use Rattle.std.specs.Char.{IsScalar};
ghost use Rattle.cd_sets.specs.Interval.{holds};
ghost use Rattle.cd_sets.specs.Characters.{holds_character};
ghost use Rattle.cd_sets.specs.Atoms.{IsAtom, holds as holds_atom};
ghost use Rattle.cd_syntax.specs.Integer.{IsInteger};
ghost use Rattle.cd_syntax.specs.Name.{Name};
ghost use Rattle.cd_model.specs.AllOf.{AllOf};
ghost use Rattle.cd_model.specs.Formula as formula;
ghost use Rattle.cd_model.specs.Formula.{formulas_of};
ghost use Rattle.cd_graph.specs.Nodes.{nodes};
ghost use Rattle.cd_graph.specs.PlainFormula.{plain};
ghost use Rattle.cd_rules.specs.BasicSets.{passes, all_pass, one_passes, in_all, in_none};
ghost use Rattle.cd_rules.specs.BasicSets.{question_passes, integer_test, character_test};
ghost use Rattle.cd_rules.specs.BasicSets.{atom_test};
ghost use Rattle.cd_normal.specs.Inner.ExactSets.{AreExact, AreExactEach, Passing, has_parts};

use crate::basic_sets::Basics;
use cd_graph::{Formula, Graph};
use cd_sets::node_id::NodeId;
use cd_sets::question::Question;
use std::alloc::{AllocError, Global};

/// The integers, the characters and the atoms that are in a question.
///
/// # Errors
///
/// Want of memory.
pub fn basics(alloc: Global, graph: &Graph, question: &Question) -> Result<Basics, AllocError>
    requires pos { AllOf (λ id. id.0 < length (nodes graph.now)) question.now.pos }
    requires neg { AllOf (λ id. id.0 < length (nodes graph.now)) question.now.neg }
    ensures integers { IfOk result (λ sets. (z : ℤ) → IsInteger z → holds sets.integers z
        ≡ question_passes (integer_test z) (nodes graph.now) question.now) }
    ensures characters { IfOk result (λ sets. (c : ℕ) → IsScalar c
        → holds_character sets.characters c
        ≡ question_passes (character_test c) (nodes graph.now) question.now) }
    ensures atoms { IfOk result (λ sets. (name : Name) → IsAtom name
        → holds_atom sets.atoms name
        ≡ question_passes (atom_test name) (nodes graph.now) question.now) }
{
    let inside = wanted(alloc, graph, question.pos.ids())?;
    without(alloc, graph, inside, question.neg.ids())
}

// Those that are in each of these nodes. The built-in nodes come first, so it begins at the end.
fn wanted(alloc: Global, graph: &Graph, ids: &[NodeId]) -> Result<Basics, AllocError>
    requires { AllOf (λ id. id.0 < length (nodes graph.now)) ids.now }
    ensures { IfOk result (AreExact (λ test. in_all test (nodes graph.now) ids.now)) }
{
    let mut index = ids.len();
    if index == 0 {
        return Basics::all(alloc);
    }
    index -= 1;
    let mut all = of_formula(alloc, graph.formula(ids[index]))?;
    while index > 0 {
        if all.is_empty() {
            return Ok(all);
        }
        index -= 1;
        all = of_formula(alloc, graph.formula(ids[index]))?.intersect(alloc, &all)?;
    }
    Ok(all)
}

// Those of these that are in none of the nodes.
fn without(alloc: Global, graph: &Graph, sets: Basics, ids: &[NodeId]) -> Result<Basics, AllocError>
    requires { AllOf (λ id. id.0 < length (nodes graph.now)) ids.now }
    ensures { IfOk result (λ left. (passing : Passing) → AreExact passing sets
        → AreExact (λ test. passing test && in_none test (nodes graph.now) ids.now) left) }
{
    if sets.is_empty() {
        return Ok(sets);
    }
    let mut left = sets;
    let mut index = ids.len();
    while index > 0 {
        index -= 1;
        left = left.minus(alloc, &of_formula(alloc, graph.formula(ids[index]))?)?;
    }
    Ok(left)
}

// Those that are in a formula.
#[cycle(basics)]
fn of_formula(alloc: Global, formula: &Formula) -> Result<Basics, AllocError>
    ensures { IfOk result (AreExact (λ test. passes test (plain formula.now))) }
{
    match formula {
        Formula::None => Ok(Basics::none(alloc)),
        Formula::All => Basics::all(alloc),
        Formula::Ints(set) => Basics::of_integers(alloc, set),
        Formula::Chars(set) => Basics::of_characters(alloc, set),
        Formula::Atoms(set) => Basics::of_atoms(alloc, set),
        Formula::And(formulas) => of_each(alloc, formulas.items()),
        Formula::Or(formulas) => of_one(alloc, formulas.items()),
        Formula::Not(inner) => others(alloc, &of_formula(alloc, inner)?),
        Formula::Pair(_, _) | Formula::Xml(_, _, _) | Formula::Record(_) | Formula::Arrow(_, _) =>
            Ok(Basics::none(alloc)),
    }
}

// Those that are in each of the formulas.
#[cycle(basics)]
fn of_each(alloc: Global, formulas: &[Formula]) -> Result<Basics, AllocError>
    ensures { IfOk result
        (AreExact (λ test. all_pass test (formulas_of (map plain formulas.now)))) }
{
    let mut sets = Vec::new(alloc);
    for formula in formulas {
        let set = of_formula(alloc, formula)?;
        if set.is_empty() {
            return Ok(set);
        }
        sets.push(set)?;
    }
    in_each(alloc, sets.as_slice())
}

// Those that are in one of the formulas. There are none in those of things that have parts, of which
// a union may have many thousand.
#[cycle(basics)]
fn of_one(alloc: Global, formulas: &[Formula]) -> Result<Basics, AllocError>
    ensures { IfOk result
        (AreExact (λ test. one_passes test (formulas_of (map plain formulas.now)))) }
{
    let mut sets = Vec::new(alloc);
    for formula in formulas {
        if !has_parts(formula) {
            sets.push(of_formula(alloc, formula)?)?;
        }
    }
    in_one(alloc, sets.as_slice())
}

// Those that are of each of these, by halves.
fn in_each(alloc: Global, sets: &[Basics]) -> Result<Basics, AllocError>
    ensures { IfOk result (λ all. (formulas : List formula.Formula) → AreExactEach formulas sets.now
        → AreExact (λ test. all_pass test (formulas_of formulas)) all) }
{
    match sets {
        [] => Basics::all(alloc),
        [set, rest @ ..] if rest.is_empty() => set.copy(),
        [_, ..] => {
            let half = sets.len() / 2;
            let first = in_each(alloc, &sets[..half])?;
            if first.is_empty() {
                return Ok(first);
            }
            first.intersect(alloc, &in_each(alloc, &sets[half..])?)
        }
    }
}

// Those that are of one of these, by halves.
fn in_one(alloc: Global, sets: &[Basics]) -> Result<Basics, AllocError>
    ensures { IfOk result (λ all. (formulas : List formula.Formula) → AreExactEach formulas sets.now
        → AreExact (λ test. one_passes test (formulas_of formulas)) all) }
{
    match sets {
        [] => Ok(Basics::none(alloc)),
        [set, rest @ ..] if rest.is_empty() => set.copy(),
        [_, ..] => {
            let half = sets.len() / 2;
            let first = in_one(alloc, &sets[..half])?;
            first.union(in_one(alloc, &sets[half..])?)
        }
    }
}

// Whether a formula is of things that have parts.
fn has_parts(formula: &Formula) -> bool
    ensures { result ≡ has_parts (plain formula.now) }
{
    match formula {
        Formula::Pair(_, _) | Formula::Xml(_, _, _) | Formula::Record(_) | Formula::Arrow(_, _) =>
            true,
        Formula::None
        | Formula::All
        | Formula::Ints(_)
        | Formula::Chars(_)
        | Formula::Atoms(_)
        | Formula::And(_)
        | Formula::Or(_)
        | Formula::Not(_) => false,
    }
}

// Those that are not among these.
fn others(alloc: Global, sets: &Basics) -> Result<Basics, AllocError>
    ensures { IfOk result (λ others. (passing : Passing) → AreExact passing sets.now
        → AreExact (λ test. not (passing test)) others) }
{
    Basics::all(alloc)?.minus(alloc, sets)
}
