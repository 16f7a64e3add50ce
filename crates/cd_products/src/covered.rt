//! Formulas that are seen to hold all that others hold.
ghost use Rattle.std.specs.Prelude.{◌<◌, ◌≤◌, map, length, IsTrue};
ghost use Rattle.cd_model.specs.Formula.{IsWithin, And, Or, Ints, Chars, Atoms, formulas_of};
ghost use Rattle.cd_graph.specs.Nodes.{nodes};
ghost use Rattle.cd_graph.specs.PlainFormula.{plain};
ghost use Rattle.cd_products.specs.Keeping.{AreValuesWithin};
ghost use Rattle.cd_products.specs.Inner.Covering.{HoldsToo};

use cd_graph::{Formula, Graph};
use cd_sets::atom_set::AtomSet;
use cd_sets::char_set::CharSet;
use cd_sets::int_set::IntSet;
use cd_sets::node_id::NodeId;

// So many steps at most are taken for two nodes.
const MOST_STEPS: usize = 200;

/// Whether all that the one node holds is seen to be in the other, by their formulas alone: each
/// member of the one is a member of the other, or of its sets. So much that is asked is no question.
pub fn is_seen_within(graph: &Graph, one: NodeId, other: NodeId) -> bool
    requires one { one.0 < length (nodes graph.now) }
    requires other { other.0 < length (nodes graph.now) }
    ensures elements { IsTrue result → IsWithin (nodes graph.now) one other }
    ensures values { IsTrue result → AreValuesWithin (nodes graph.now) one other }
{
    let mut steps = MOST_STEPS;
    is_covered(graph.formula(one), graph.formula(other), &mut steps)
}

// Whether a formula is seen to hold nothing that the other one does not.
#[cycle(is_covered)]
fn is_covered(one: &Formula, other: &Formula, steps: &mut usize) -> bool
    ensures covered { IsTrue result → HoldsToo (plain one.now) (plain other.now) }
    ensures steps { steps.new ≤ steps.old }
{
    if !step(steps) {
        return false;
    }
    match one {
        Formula::None => true,
        Formula::And(formulas) => one_is_covered(formulas.items(), other, steps),
        Formula::Or(formulas) => all_are_covered(formulas.items(), other, steps),
        _ => covers(other, one, steps),
    }
}

// Whether this is seen of one of some formulas.
#[cycle(is_covered)]
fn one_is_covered(formulas: &[Formula], other: &Formula, steps: &mut usize) -> bool
    ensures covered { IsTrue result
        → HoldsToo (And (formulas_of (map plain formulas.now))) (plain other.now) }
    ensures steps { steps.new ≤ steps.old }
{
    match formulas {
        [first, rest @ ..] if step(steps) => {
            is_covered(first, other, steps) || one_is_covered(rest, other, steps)
        }
        _ => false,
    }
}

// Whether this is seen of all of some formulas.
#[cycle(is_covered)]
fn all_are_covered(formulas: &[Formula], other: &Formula, steps: &mut usize) -> bool
    ensures covered { IsTrue result
        → HoldsToo (Or (formulas_of (map plain formulas.now))) (plain other.now) }
    ensures steps { steps.new ≤ steps.old }
{
    match formulas {
        [] => true,
        [first, rest @ ..] if step(steps) => {
            is_covered(first, other, steps) && all_are_covered(rest, other, steps)
        }
        _ => false,
    }
}

// Whether a formula is seen to hold all that one that is no connective holds.
#[cycle(covers)]
fn covers(formula: &Formula, one: &Formula, steps: &mut usize) -> bool
    ensures covered { IsTrue result → HoldsToo (plain one.now) (plain formula.now) }
    ensures steps { steps.new ≤ steps.old }
{
    if !step(steps) {
        return false;
    }
    match formula {
        Formula::All => true,
        Formula::And(formulas) => all_cover(formulas.items(), one, steps),
        Formula::Or(formulas) => one_covers(formulas.items(), one, steps),
        _ => are_sets_within(one, formula) || are_same_parts(one, formula),
    }
}

// Whether this is seen of all of some formulas.
#[cycle(covers)]
fn all_cover(formulas: &[Formula], one: &Formula, steps: &mut usize) -> bool
    ensures covered { IsTrue result
        → HoldsToo (plain one.now) (And (formulas_of (map plain formulas.now))) }
    ensures steps { steps.new ≤ steps.old }
{
    match formulas {
        [] => true,
        [first, rest @ ..] if step(steps) => {
            covers(first, one, steps) && all_cover(rest, one, steps)
        }
        _ => false,
    }
}

// Whether this is seen of one of some formulas.
#[cycle(covers)]
fn one_covers(formulas: &[Formula], one: &Formula, steps: &mut usize) -> bool
    ensures covered { IsTrue result
        → HoldsToo (plain one.now) (Or (formulas_of (map plain formulas.now))) }
    ensures steps { steps.new ≤ steps.old }
{
    match formulas {
        [first, rest @ ..] if step(steps) => {
            covers(first, one, steps) || one_covers(rest, one, steps)
        }
        _ => false,
    }
}

/// Takes one step, if one is left.
pub(crate) fn step(steps: &mut usize) -> bool
    ensures taken { IsTrue result → steps.new < steps.old }
    ensures most { steps.new ≤ steps.old }
{
    match steps.checked_sub(1) {
        Some(rest) => {
            *steps = rest;
            true
        }
        None => false,
    }
}

/// Whether these are sets of one kind, of which the second has all that is in the first.
pub(crate) fn are_sets_within(one: &Formula, other: &Formula) -> bool
    ensures { IsTrue result → HoldsToo (plain one.now) (plain other.now) }
{
    match (one, other) {
        (Formula::Ints(set), Formula::Ints(all)) => are_integers_in(set, all),
        (Formula::Chars(set), Formula::Chars(all)) => are_characters_in(set, all),
        (Formula::Atoms(set), Formula::Atoms(all)) => are_atoms_in(set, all),
        _ => false,
    }
}

// Whether all integers of a set are found to be in another.
fn are_integers_in(set: &IntSet, all: &IntSet) -> bool
    ensures { IsTrue result → HoldsToo (Ints set.now) (Ints all.now) }
{
    match set.minus(all) {
        Ok(left) => left.is_empty(),
        Err(_) => false,
    }
}

// Whether all characters of a set are found to be in another.
fn are_characters_in(set: &CharSet, all: &CharSet) -> bool
    ensures { IsTrue result → HoldsToo (Chars set.now) (Chars all.now) }
{
    match set.minus(all) {
        Ok(left) => left.is_empty(),
        Err(_) => false,
    }
}

// Whether all atoms of a set are found to be in another.
fn are_atoms_in(set: &AtomSet, all: &AtomSet) -> bool
    ensures { IsTrue result → HoldsToo (Atoms set.now) (Atoms all.now) }
{
    match set.minus(all) {
        Ok(left) => left.is_empty(),
        Err(_) => false,
    }
}

// Whether these are of one form, pairs, XML elements or functions, with the same nodes.
fn are_same_parts(one: &Formula, other: &Formula) -> bool
    ensures { IsTrue result → HoldsToo (plain one.now) (plain other.now) }
{
    match (one, other) {
        (Formula::Pair(first, second), Formula::Pair(third, fourth))
        | (Formula::Arrow(first, second), Formula::Arrow(third, fourth)) => {
            *first == *third && *second == *fourth
        }
        (Formula::Xml(tag, attributes, content), Formula::Xml(tags, all, contents)) => {
            *tag == *tags && *attributes == *all && *content == *contents
        }
        _ => false,
    }
}
