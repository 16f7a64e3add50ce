//! Formulas for the states of sequences that are followed by what is in a node.
ghost use Rattle.std.specs.Prelude.{◌≡◌, ◌<◌, ◌+◌, ℕ, map, length, IfOk, OnOk};
ghost use Rattle.std.specs.List.{AllZip};
ghost use Rattle.cd_model.specs.AllOf.{AllOf};
ghost use Rattle.cd_model.specs.BuiltIns.{node};
ghost use Rattle.cd_graph.specs.Nodes.{nodes};
ghost use Rattle.cd_graph.specs.PlainFormula.{plain};
ghost use Rattle.cd_rules.specs.Family.{AsksNodes};
ghost use Rattle.cd_forms.specs.Inner.Numbered.{GrowTo};
ghost use Rattle.cd_forms.specs.Inner.StateFormulas.{AreStateFormulas, StepsAsk, StatesAsk};
ghost use Rattle.cd_forms.specs.Inner.StateFormulas.{IsItemNode, IsStepFormula, when_ends};
ghost use Rattle.cd_forms.specs.Inner.StateFormulas.{IsStateFormula};
ghost use Rattle.cd_forms.specs.Inner.States.{plain_state};

use crate::of_sequences::asking::alone;
use crate::of_sequences::numbered::Numbered;
use crate::of_sequences::question_formulas::question_formulas;
use crate::of_sequences::state::State;
use crate::of_sequences::step::Step;
use cd_graph::{Formula, Formulas, Graph};
use cd_sets::node_id::NodeId;
use cd_sets::question::Question;
use std::alloc::{AllocError, Global};

/// Formulas that are to stand after those of a graph: for each state one that holds its sequences,
/// each followed by what is in a node, and then those of what items are asked.
pub(crate) fn state_formulas(
    alloc: Global,
    graph: &Graph,
    states: &[State],
    second: NodeId,
) -> Result<Vec<Formula>, AllocError>
    requires second { second.0 < length (nodes graph.now) }
    requires asks { StatesAsk (length (nodes graph.now)) (map plain_state states.now) }
    ensures { IfOk result (λ batch. AreStateFormulas (nodes graph.now) second
        (map plain_state states.now) (map plain batch.items)) }
{
    let first = graph.len();
    let after = place(first, states.len())?;
    let mut items = Numbered::new(alloc);
    let mut batch = all_states(
        alloc,
        first,
        after.0,
        graph.formula(second),
        states,
        &mut items,
    )?;
    let mut others = question_formulas(alloc, graph, &items)?;
    batch.append(&mut others)?;
    Ok(batch)
}

// Formulas of states.
fn all_states(
    alloc: Global,
    first: usize,
    after: usize,
    end: &Formula,
    states: &[State],
    items: &mut Numbered,
) -> Result<Vec<Formula>, AllocError>
    ensures made { IfOk result (λ made.
        AllZip (IsStateFormula first after items.new (plain end.now))
        (map plain_state states.now) (map plain made.items)) }
    ensures asks { OnOk result ((count : ℕ) → StatesAsk count (map plain_state states.now)
        → AllOf (AsksNodes count) items.old → AllOf (AsksNodes count) items.new) }
{
    let mut made = Vec::new(alloc);
    for state in states {
        made.push(state_formula(alloc, first, after, end, state, items)?)?;
    }
    Ok(made)
}

// The formula of a state.
fn state_formula(
    alloc: Global,
    first: usize,
    after: usize,
    end: &Formula,
    state: &State,
    items: &mut Numbered,
) -> Result<Formula, AllocError>
    ensures made { IfOk result (λ is. IsStateFormula first after items.new (plain end.now)
        (plain_state state.now) (plain is)) }
    ensures grow { OnOk result (GrowTo items.old items.new) }
    ensures asks { OnOk result ((count : ℕ) → StepsAsk count (plain_state state.now).steps
        → AllOf (AsksNodes count) items.old → AllOf (AsksNodes count) items.new) }
{
    let mut members = end_of(alloc, state.ends, end)?;
    let steps = state.steps.as_slice();
    let mut pairs = step_formulas(alloc, first, after, steps, items)?;
    members.append(&mut pairs)?;
    Ok(Formula::or(Formulas::of(members)?))
}

// What comes after the empty sequence, if it is there.
fn end_of(alloc: Global, ends: bool, end: &Formula) -> Result<Vec<Formula>, AllocError>
    ensures { IfOk result (λ members. map plain members.items ≡ when_ends ends (plain end.now)) }
{
    let mut members = Vec::new(alloc);
    if ends {
        members.push(end.copy()?)?;
    }
    Ok(members)
}

// The pairs of steps.
fn step_formulas(
    alloc: Global,
    first: usize,
    after: usize,
    steps: &[Step],
    items: &mut Numbered,
) -> Result<Vec<Formula>, AllocError>
    ensures made { IfOk result (λ members. AllZip (IsStepFormula first after items.new) steps.now
        (map plain members.items)) }
    ensures grow { OnOk result (GrowTo items.old items.new) }
    ensures asks { OnOk result ((count : ℕ) → StepsAsk count steps.now
        → AllOf (AsksNodes count) items.old → AllOf (AsksNodes count) items.new) }
{
    let mut members = Vec::new(alloc);
    for step in steps {
        let item = item_node(after, items, &step.item)?;
        members.push(Formula::pair(item, place(first, step.rest)?))?;
    }
    Ok(members)
}

// The node of what an item is asked: the one that is asked alone, or one for the question.
fn item_node(after: usize, items: &mut Numbered, question: &Question) -> Result<NodeId, AllocError>
    ensures node { IfOk result (λ id. IsItemNode after items.new question.now id) }
    ensures grow { OnOk result (GrowTo items.old items.new) }
    ensures asks { OnOk result ((count : ℕ) → AsksNodes count question.now
        → AllOf (AsksNodes count) items.old → AllOf (AsksNodes count) items.new) }
{
    match alone(question) {
        Some(id) => Ok(id),
        None => place(after, items.number(question.copy()?)?),
    }
}

// The node that is so many after the first. No graph has so many that their number is no word.
fn place(first: usize, number: usize) -> Result<NodeId, AllocError>
    ensures { IfOk result (λ id. id ≡ node (first + number)) }
{
    match first.checked_add(number) {
        Some(sum) => Ok(NodeId(sum)),
        None => Err(AllocError),
    }
}
