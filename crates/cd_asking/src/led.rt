//! The nodes at which formulas ask a child of a value.
ghost use Rattle.std.specs.Prelude.{◌≡◌, ◌<◌, ℕ, true, length, IfSome, IfOk, OnOk};
ghost use Rattle.cd_sets.specs.IdSet.{holds};
ghost use Rattle.cd_graph.specs.Nodes.{nodes};
ghost use Rattle.cd_graph.specs.PlainFormula.{plain, plain_formulas, plain_named};
ghost use Rattle.cd_model.specs.Formula as formula;
ghost use Rattle.cd_model.specs.Formula.{IsFormula, AreFormulas};
ghost use Rattle.cd_asking.specs.Inner.Tasks.{led, AsksIn, AskIn, Covers, Includes, HoldsBelow};
ghost use Rattle.cd_asking.specs.Inner.Asked.{child_by, AreBelow};

use crate::node::node_formula;
use cd_graph::fields::Fields;
use cd_graph::{Formula, Formulas, Graph};
use cd_sets::id_set::IdSet;
use cd_sets::node_id::NodeId;
use cd_syntax::name::Name;
use std::alloc::{AllocError, Global};

/// A child of a value. A field of a record is named by the number of its label.
#[derive(Clone, Copy)]
pub(crate) enum Child {
    First,
    Second,
    Tag,
    Attributes,
    Content,
    At(u32),
}

/// The nodes at which the formulas of a set of nodes ask a child. The label is that of a field.
pub(crate) fn led_from(
    alloc: Global,
    graph: &Graph,
    set: &[NodeId],
    child: Child,
    label: &Name,
) -> Result<IdSet, AllocError>
    ensures covers { IfOk result
        (λ next. Covers (nodes graph.now) (child_by label.now child) set.now next) }
    ensures below { IfOk result (AreBelow (length (nodes graph.now))) }
{
    let mut next = IdSet::new(alloc);
    for id in set {
        add_led_from(&mut next, graph, *id, child, label)?;
    }
    Ok(next)
}

// Adds the nodes at which the formula of a node asks a child.
fn add_led_from(
    next: &mut IdSet,
    graph: &Graph,
    id: NodeId,
    child: Child,
    label: &Name,
) -> Result<(), AllocError>
    ensures added { OnOk result
        (AsksIn (child_by label.now child) next.new (formula.formula_at (nodes graph.now) id)) }
    ensures below { let bound = length (nodes graph.now) in
        HoldsBelow bound next.old → HoldsBelow bound next.new }
    ensures grows { Includes next.old next.new }
{
    match node_formula(graph, id) {
        Some(formula) => add_led(next, formula, child, label),
        None => Ok(()),
    }
}

// Adds the nodes at which a formula asks a child.
#[cycle(add_led)]
fn add_led(
    next: &mut IdSet,
    formula: &Formula,
    child: Child,
    label: &Name,
) -> Result<(), AllocError>
    ensures added { OnOk result (AsksIn (child_by label.now child) next.new (plain formula.now)) }
    ensures below { (bound : ℕ) → IsFormula bound (plain formula.now)
        → HoldsBelow bound next.old → HoldsBelow bound next.new }
    ensures grows { Includes next.old next.new }
{
    match formula {
        Formula::And(formulas) => add_all_led(next, formulas, child, label),
        Formula::Or(formulas) => add_all_led(next, formulas, child, label),
        Formula::Not(inner) => add_led(next, inner, child, label),
        Formula::Pair(first, second) => add_one(next, led_of_pair(child, *first, *second)),
        Formula::Xml(tag, attributes, content) => {
            add_one(next, led_of_xml(child, *tag, *attributes, *content))
        }
        Formula::Record(fields) => add_one(next, led_of_record(child, label, fields)),
        Formula::None => Ok(()),
        Formula::All => Ok(()),
        Formula::Ints(_) => Ok(()),
        Formula::Chars(_) => Ok(()),
        Formula::Atoms(_) => Ok(()),
        Formula::Arrow(_, _) => Ok(()),
    }
}

// Adds the nodes at which one of these formulas asks a child.
#[cycle(add_led)]
fn add_all_led(
    next: &mut IdSet,
    formulas: &Formulas,
    child: Child,
    label: &Name,
) -> Result<(), AllocError>
    ensures added { OnOk result
        (AskIn (child_by label.now child) next.new (plain_formulas formulas.now)) }
    ensures below { (bound : ℕ) → AreFormulas bound (plain_formulas formulas.now)
        → HoldsBelow bound next.old → HoldsBelow bound next.new }
    ensures grows { Includes next.old next.new }
{
    for formula in formulas.items() {
        add_led(next, formula, child, label)?;
    }
    Ok(())
}

// Adds a node, if there is one.
fn add_one(next: &mut IdSet, id: Option<NodeId>) -> Result<(), AllocError>
    ensures added { OnOk result (IfSome id (λ id. holds next.new id ≡ true)) }
    ensures below { (bound : ℕ) → IfSome id (λ id. id.0 < bound)
        → HoldsBelow bound next.old → HoldsBelow bound next.new }
    ensures grows { Includes next.old next.new }
{
    match id {
        Some(id) => next.insert(id),
        None => Ok(()),
    }
}

// The node at which pairs ask the child.
fn led_of_pair(child: Child, first: NodeId, second: NodeId) -> Option<NodeId>
    ensures { (label : _) → result ≡ led (formula.Pair first second) (child_by label child) }
{
    match child {
        Child::First => Some(first),
        Child::Second => Some(second),
        Child::Tag => None,
        Child::Attributes => None,
        Child::Content => None,
        Child::At(_) => None,
    }
}

// The node at which XML values ask the child.
fn led_of_xml(child: Child, tag: NodeId, attributes: NodeId, content: NodeId) -> Option<NodeId>
    ensures { (label : _)
        → result ≡ led (formula.Xml tag attributes content) (child_by label child) }
{
    match child {
        Child::Tag => Some(tag),
        Child::Attributes => Some(attributes),
        Child::Content => Some(content),
        Child::First => None,
        Child::Second => None,
        Child::At(_) => None,
    }
}

// The node at which a record type asks the child.
fn led_of_record(child: Child, label: &Name, fields: &Fields) -> Option<NodeId>
    ensures { let type = formula.Record (plain_named fields.now.named) fields.now.rest in
        result ≡ led type (child_by label.now child) }
{
    match child {
        Child::At(_) => Some(fields.at(label).node),
        Child::First => None,
        Child::Second => None,
        Child::Tag => None,
        Child::Attributes => None,
        Child::Content => None,
    }
}
