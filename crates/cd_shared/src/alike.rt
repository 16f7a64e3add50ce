//! Whether equations are equal, but for the classes of the nodes in them.
ghost use Rattle.std.specs.Prelude.{◌≡◌, map, IsTrue};
ghost use Rattle.cd_model.specs.Formula as formula;
ghost use Rattle.cd_graph.specs.PlainFormula.{plain, plain_formulas, plain_named};
ghost use Rattle.cd_shared.specs.Equation.{plain_equation};
ghost use Rattle.cd_shared.specs.Shared.{class_in, renamed_field, renamed_formula};
ghost use Rattle.cd_shared.specs.Shared.{renamed_formulas, classed, classed_sign};
ghost use Rattle.cd_shared.specs.Inner.Found.{plain_pair};

use crate::classes::Classes;
use crate::equation::Equation;
use crate::sets::{have_same_atoms, have_same_characters, have_same_integers};
use cd_graph::fields::{Field, Fields, is_same};
use cd_graph::{Formula, Formulas};
use cd_sets::atom_set::AtomSet;
use cd_sets::char_set::CharSet;
use cd_sets::int_set::IntSet;
use cd_sets::node_id::NodeId;
use cd_syntax::name::Name;

/// Two classes that count as one.
#[derive(Clone, Copy)]
pub(crate) struct Joined {
    pub(crate) one: NodeId,
    pub(crate) other: NodeId,
}

/// Whether two equations are equal, but for the classes of the nodes in them, where the one of two
/// classes in the first counts as the other in the second. Two names are not compared.
pub(crate) fn are_alike(classes: &Classes, joined: Joined, one: &Equation, other: &Equation) -> bool
    ensures { joined.one ≡ joined.other → IsTrue result
        → classed (class_in classes.now) (plain_equation one.now)
        ≡ classed (class_in classes.now) (plain_equation other.now) }
{
    match (one, other) {
        (Equation::Is(one), Equation::Is(other)) => are_alike_formulas(classes, joined, one, other),
        (Equation::And(some), Equation::And(others)) => {
            have_same_signs(classes, joined, some.as_slice(), others.as_slice())
        }
        (Equation::Or(some), Equation::Or(others)) => {
            have_same_classes(classes, joined, some.as_slice(), others.as_slice())
        }
        _ => false,
    }
}

fn have_same_signs(
    classes: &Classes,
    joined: Joined,
    some: &[(bool, NodeId)],
    others: &[(bool, NodeId)],
) -> bool
    ensures { joined.one ≡ joined.other → IsTrue result
        → map (classed_sign (class_in classes.now)) some.now
        ≡ map (classed_sign (class_in classes.now)) others.now }
{
    if some.len() != others.len() {
        return false;
    }
    for index in 0..some.len() {
        let (kept, id) = some[index];
        let (next, other) = others[index];
        if kept != next || !have_one_class(classes, joined, id, other) {
            return false;
        }
    }
    true
}

fn have_same_classes(classes: &Classes, joined: Joined, some: &[NodeId], others: &[NodeId]) -> bool
    ensures { joined.one ≡ joined.other → IsTrue result
        → map (class_in classes.now) some.now ≡ map (class_in classes.now) others.now }
{
    if some.len() != others.len() {
        return false;
    }
    for index in 0..some.len() {
        if !have_one_class(classes, joined, some[index], others[index]) {
            return false;
        }
    }
    true
}

/// Whether two formulas are equal, but for the classes of the nodes that they name.
#[cycle(alike)]
fn are_alike_formulas(classes: &Classes, joined: Joined, one: &Formula, other: &Formula) -> bool
    ensures { joined.one ≡ joined.other → IsTrue result
        → renamed_formula (class_in classes.now) (plain one.now)
        ≡ renamed_formula (class_in classes.now) (plain other.now) }
{
    match one {
        Formula::None => is_nothing(other),
        Formula::All => is_everything(other),
        Formula::Ints(set) => are_integers(set, other),
        Formula::Chars(set) => are_characters(set, other),
        Formula::Atoms(set) => are_atoms(set, other),
        Formula::Pair(first, second) => are_pairs(classes, joined, *first, *second, other),
        Formula::Xml(tag, attributes, content) => {
            are_elements(classes, joined, *tag, *attributes, *content, other)
        }
        Formula::Record(fields) => are_records(classes, joined, fields, other),
        Formula::Arrow(argument, mapped) => are_arrows(classes, joined, *argument, *mapped, other),
        Formula::And(formulas) => are_meets(classes, joined, formulas, other),
        Formula::Or(formulas) => are_unions(classes, joined, formulas, other),
        Formula::Not(negated) => are_complements(classes, joined, negated, other),
    }
}

#[cycle(alike)]
fn are_meets(classes: &Classes, joined: Joined, formulas: &Formulas, other: &Formula) -> bool
    ensures { joined.one ≡ joined.other → IsTrue result
        → formula.And (renamed_formulas (class_in classes.now)
        (plain_formulas formulas.now))
        ≡ renamed_formula (class_in classes.now) (plain other.now) }
{
    match other {
        Formula::And(others) => are_alike_lists(classes, joined, formulas, others),
        _ => false,
    }
}

#[cycle(alike)]
fn are_unions(classes: &Classes, joined: Joined, formulas: &Formulas, other: &Formula) -> bool
    ensures { joined.one ≡ joined.other → IsTrue result
        → formula.Or (renamed_formulas (class_in classes.now)
        (plain_formulas formulas.now))
        ≡ renamed_formula (class_in classes.now) (plain other.now) }
{
    match other {
        Formula::Or(others) => are_alike_lists(classes, joined, formulas, others),
        _ => false,
    }
}

#[cycle(alike)]
fn are_complements(classes: &Classes, joined: Joined, negated: &Formula, other: &Formula) -> bool
    ensures { joined.one ≡ joined.other → IsTrue result
        → formula.Not (renamed_formula (class_in classes.now) (plain negated.now))
        ≡ renamed_formula (class_in classes.now) (plain other.now) }
{
    match other {
        Formula::Not(other) => are_alike_formulas(classes, joined, negated, other),
        _ => false,
    }
}

#[cycle(alike)]
fn are_alike_lists(classes: &Classes, joined: Joined, some: &Formulas, others: &Formulas) -> bool
    ensures { joined.one ≡ joined.other → IsTrue result
        → renamed_formulas (class_in classes.now) (plain_formulas some.now)
        ≡ renamed_formulas (class_in classes.now) (plain_formulas others.now) }
{
    let items = some.items();
    let next = others.items();
    if items.len() != next.len() {
        return false;
    }
    for index in 0..items.len() {
        if !are_alike_formulas(classes, joined, &items[index], &next[index]) {
            return false;
        }
    }
    true
}

fn is_nothing(other: &Formula) -> bool
    ensures { IsTrue result → plain other.now ≡ formula.Nothing }
{
    match other {
        Formula::None => true,
        _ => false,
    }
}

fn is_everything(other: &Formula) -> bool
    ensures { IsTrue result → plain other.now ≡ formula.Everything }
{
    match other {
        Formula::All => true,
        _ => false,
    }
}

fn are_integers(set: &IntSet, other: &Formula) -> bool
    ensures { IsTrue result → plain other.now ≡ formula.Ints set.now }
{
    match other {
        Formula::Ints(next) => have_same_integers(set, next),
        _ => false,
    }
}

fn are_characters(set: &CharSet, other: &Formula) -> bool
    ensures { IsTrue result → plain other.now ≡ formula.Chars set.now }
{
    match other {
        Formula::Chars(next) => have_same_characters(set, next),
        _ => false,
    }
}

fn are_atoms(set: &AtomSet, other: &Formula) -> bool
    ensures { IsTrue result → plain other.now ≡ formula.Atoms set.now }
{
    match other {
        Formula::Atoms(next) => have_same_atoms(set, next),
        _ => false,
    }
}

fn are_pairs(
    classes: &Classes,
    joined: Joined,
    first: NodeId,
    second: NodeId,
    other: &Formula,
) -> bool
    ensures { joined.one ≡ joined.other → IsTrue result
        → formula.Pair (class_in classes.now first) (class_in classes.now second)
        ≡ renamed_formula (class_in classes.now) (plain other.now) }
{
    match other {
        Formula::Pair(one, next) => {
            have_one_class(classes, joined, first, *one)
                && have_one_class(classes, joined, second, *next)
        }
        _ => false,
    }
}

fn are_arrows(
    classes: &Classes,
    joined: Joined,
    argument: NodeId,
    mapped: NodeId,
    other: &Formula,
) -> bool
    ensures { joined.one ≡ joined.other → IsTrue result
        → formula.Arrow (class_in classes.now argument) (class_in classes.now mapped)
        ≡ renamed_formula (class_in classes.now) (plain other.now) }
{
    match other {
        Formula::Arrow(one, next) => {
            have_one_class(classes, joined, argument, *one)
                && have_one_class(classes, joined, mapped, *next)
        }
        _ => false,
    }
}

fn are_elements(
    classes: &Classes,
    joined: Joined,
    tag: NodeId,
    attributes: NodeId,
    content: NodeId,
    other: &Formula,
) -> bool
    ensures { joined.one ≡ joined.other → IsTrue result
        → formula.Xml (class_in classes.now tag) (class_in classes.now attributes)
        (class_in classes.now content)
        ≡ renamed_formula (class_in classes.now) (plain other.now) }
{
    match other {
        Formula::Xml(one, next, last) => {
            have_one_class(classes, joined, tag, *one)
                && have_one_class(classes, joined, attributes, *next)
                && have_one_class(classes, joined, content, *last)
        }
        _ => false,
    }
}

fn are_records(classes: &Classes, joined: Joined, fields: &Fields, other: &Formula) -> bool
    ensures { joined.one ≡ joined.other → IsTrue result
        → formula.Record (map (renamed_field (class_in classes.now))
        (plain_named fields.now.named)) (class_in classes.now fields.now.rest)
        ≡ renamed_formula (class_in classes.now) (plain other.now) }
{
    match other {
        Formula::Record(others) => {
            have_one_class(classes, joined, fields.rest, others.rest)
                && have_same_fields(classes, joined, fields.named.items(), others.named.items())
        }
        _ => false,
    }
}

fn have_same_fields(
    classes: &Classes,
    joined: Joined,
    some: &[(Name, Field)],
    others: &[(Name, Field)],
) -> bool
    ensures { joined.one ≡ joined.other → IsTrue result
        → map (renamed_field (class_in classes.now)) (plain_named some.now)
        ≡ map (renamed_field (class_in classes.now)) (plain_named others.now) }
{
    if some.len() != others.len() {
        return false;
    }
    for index in 0..some.len() {
        if !is_same_field(classes, joined, &some[index], &others[index]) {
            return false;
        }
    }
    true
}

fn is_same_field(
    classes: &Classes,
    joined: Joined,
    one: &(Name, Field),
    other: &(Name, Field),
) -> bool
    ensures { joined.one ≡ joined.other → IsTrue result
        → renamed_field (class_in classes.now) (plain_pair one.now)
        ≡ renamed_field (class_in classes.now) (plain_pair other.now) }
{
    is_same(&one.0, &other.0)
        && one.1.optional == other.1.optional
        && have_one_class(classes, joined, one.1.node, other.1.node)
}

fn have_one_class(classes: &Classes, joined: Joined, one: NodeId, other: NodeId) -> bool
    ensures { joined.one ≡ joined.other → IsTrue result
        → class_in classes.now one ≡ class_in classes.now other }
{
    let class = classes.class(one);
    let next = classes.class(other);
    class == next || (class == joined.one && next == joined.other)
}
