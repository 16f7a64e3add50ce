//! Formulas from their parts.
ghost use Rattle.std.specs.Prelude.{◌≡◌};
ghost use Rattle.cd_model.specs.Formula as formula;
ghost use Rattle.cd_graph.specs.PlainFormula.{plain, plain_formulas, plain_named};

use crate::fields::Fields;
use crate::formula::{Formula, Formulas};
use cd_sets::atom_set::AtomSet;
use cd_sets::char_set::CharSet;
use cd_sets::int_set::IntSet;
use cd_sets::node_id::NodeId;
use std::rc::Rc;

impl Formula {
    /// Nothing.
    pub fn none() -> Formula
        ensures { plain result ≡ formula.Nothing }
    {
        Formula::None
    }

    /// Everything.
    pub fn all() -> Formula
        ensures { plain result ≡ formula.Everything }
    {
        Formula::All
    }

    /// These integers.
    pub fn ints(set: IntSet) -> Formula
        ensures { plain result ≡ formula.Ints set }
    {
        Formula::Ints(set)
    }

    /// These characters.
    pub fn chars(set: CharSet) -> Formula
        ensures { plain result ≡ formula.Chars set }
    {
        Formula::Chars(set)
    }

    /// These atoms.
    pub fn atoms(set: AtomSet) -> Formula
        ensures { plain result ≡ formula.Atoms set }
    {
        Formula::Atoms(set)
    }

    /// The pairs whose parts are in the two nodes.
    pub fn pair(first: NodeId, second: NodeId) -> Formula
        ensures { plain result ≡ formula.Pair first second }
    {
        Formula::Pair(first, second)
    }

    /// The XML elements whose tag, attributes and content are in the three nodes.
    pub fn xml(tag: NodeId, attributes: NodeId, content: NodeId) -> Formula
        ensures { plain result ≡ formula.Xml tag attributes content }
    {
        Formula::Xml(tag, attributes, content)
    }

    /// The records with these fields.
    pub fn record(fields: Fields) -> Formula
        ensures { plain result ≡ formula.Record (plain_named fields.named) fields.rest }
    {
        Formula::Record(fields)
    }

    /// The functions that map what is in the first node into the second.
    pub fn arrow(argument: NodeId, mapped: NodeId) -> Formula
        ensures { plain result ≡ formula.Arrow argument mapped }
    {
        Formula::Arrow(argument, mapped)
    }

    /// What is in each of these.
    pub fn and(formulas: Formulas) -> Formula
        ensures { plain result ≡ formula.And (plain_formulas formulas) }
    {
        Formula::And(formulas)
    }

    /// What is in one of these.
    pub fn or(formulas: Formulas) -> Formula
        ensures { plain result ≡ formula.Or (plain_formulas formulas) }
    {
        Formula::Or(formulas)
    }

    /// What is not in this one.
    pub fn not(negated: Rc<Formula>) -> Formula
        ensures { plain result ≡ formula.Not (plain negated.value) }
    {
        Formula::Not(negated)
    }
}
