//! Whether an element is in a formula.
ghost use Rattle.std.specs.Prelude.{◌≡◌, List};
ghost use Rattle.cd_sets.specs.Atoms as atoms;
ghost use Rattle.cd_syntax.specs.Name.{IsLabel};
ghost use Rattle.cd_graph.specs.PlainFormula.{plain, plain_formulas};
ghost use Rattle.cd_model.specs.Formula as formula;
ghost use Rattle.cd_facts.specs.Inner.Finding.{HasLabel, finding_of as finding, finding_of_all};
ghost use Rattle.cd_facts.specs.Inner.Finding.{finding_of_any};
ghost use Rattle.cd_facts.specs.Facts.{Fact};
ghost use Rattle.cd_facts.specs.Inner.Known.{known};

use crate::facts::Facts;
use crate::facts_of_parts::{at_arrow, at_pair, at_record, at_xml};
use crate::finding::{Finding, opposite};
use cd_elements::Shape;
use cd_graph::{Formula, Formulas};
use cd_sets::atom_set::AtomSet;
use cd_sets::char_set::CharSet;
use cd_sets::int_set::IntSet;
use cd_syntax::name::Name;

/// Whether the element of a shape is in a formula, as far as it follows from what is known of the
/// shape's parts.
#[cycle(finding_of)]
pub(crate) fn finding_of(facts: &Facts, shape: &Shape, formula: &Formula) -> Finding
    requires { HasLabel shape.now }
    ensures { result ≡ finding (known facts.now) shape.now (plain formula.now) }
{
    match formula {
        Formula::None => Finding::Known(false),
        Formula::All => Finding::Known(true),
        Formula::And(formulas) => of_all(facts, shape, formulas),
        Formula::Or(formulas) => of_any(facts, shape, formulas),
        Formula::Not(inner) => opposite(finding_of(facts, shape, inner)),
        Formula::Ints(set) => at_integers(shape, set),
        Formula::Chars(set) => at_characters(shape, set),
        Formula::Atoms(set) => at_atoms(shape, set),
        Formula::Pair(one, other) => at_pair(facts, shape, *one, *other),
        Formula::Xml(one, other, last) => at_xml(facts, shape, *one, *other, *last),
        Formula::Record(fields) => at_record(facts, shape, fields),
        Formula::Arrow(argument, mapped) => at_arrow(facts, shape, *argument, *mapped),
    }
}

/// Whether a formula speaks of few parts, so that a finding takes few steps.
pub(crate) fn has_few_parts(formula: &Formula) -> bool {
    match formula {
        Formula::None
        | Formula::All
        | Formula::Ints(_)
        | Formula::Chars(_)
        | Formula::Atoms(_)
        | Formula::Pair(_, _)
        | Formula::Xml(_, _, _) => true,
        Formula::Record(_)
        | Formula::Arrow(_, _)
        | Formula::And(_)
        | Formula::Or(_)
        | Formula::Not(_) => false,
    }
}

// Whether it is in each of these formulas.
#[cycle(finding_of)]
fn of_all(facts: &Facts, shape: &Shape, formulas: &Formulas) -> Finding
    requires { HasLabel shape.now }
    ensures { result ≡ finding_of_all (known facts.now) shape.now (plain_formulas formulas.now) }
{
    for formula in formulas.items() {
        match finding_of(facts, shape, formula) {
            Finding::Known(true) => {}
            Finding::Known(false) => return Finding::Known(false),
            Finding::Unknown(id, node) => return Finding::Unknown(id, node),
        }
    }
    Finding::Known(true)
}

// Whether it is in one of these formulas.
#[cycle(finding_of)]
fn of_any(facts: &Facts, shape: &Shape, formulas: &Formulas) -> Finding
    requires { HasLabel shape.now }
    ensures { result ≡ finding_of_any (known facts.now) shape.now (plain_formulas formulas.now) }
{
    for formula in formulas.items() {
        match finding_of(facts, shape, formula) {
            Finding::Known(true) => return Finding::Known(true),
            Finding::Known(false) => {}
            Finding::Unknown(id, node) => return Finding::Unknown(id, node),
        }
    }
    Finding::Known(false)
}

// Whether it is one of these integers.
fn at_integers(shape: &Shape, set: &IntSet) -> Finding
    ensures { (facts : List Fact)
        → result ≡ finding (known facts) shape.now (formula.Ints set.now) }
{
    match shape {
        Shape::Int(n) => Finding::Known(set.contains(*n)),
        _ => Finding::Known(false),
    }
}

// Whether it is one of these characters.
fn at_characters(shape: &Shape, set: &CharSet) -> Finding
    ensures { (facts : List Fact)
        → result ≡ finding (known facts) shape.now (formula.Chars set.now) }
{
    match shape {
        Shape::Char(c) => Finding::Known(set.contains(*c)),
        _ => Finding::Known(false),
    }
}

// Whether it is one of these atoms.
fn at_atoms(shape: &Shape, set: &AtomSet) -> Finding
    requires { HasLabel shape.now }
    ensures { (facts : List Fact)
        → result ≡ finding (known facts) shape.now (formula.Atoms set.now) }
{
    match shape {
        Shape::Atom(name) => Finding::Known(is_among(name, set)),
        _ => Finding::Known(false),
    }
}

// Whether the atom of a name is in a set.
fn is_among(name: &Name, set: &AtomSet) -> bool
    requires { IsLabel name.now }
    ensures { result ≡ atoms.holds set.now name.now }
{
    set.contains(name.as_str())
}
