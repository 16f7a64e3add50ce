//! The formulas of equations, each made of those that it reads.
ghost use Rattle.std.specs.Prelude.{◌≡◌, ℕ, ◌+◌, ◌<◌, ◌≤◌, map, length, Some, IfOk};
ghost use Rattle.std.specs.Prelude.{slice_set};
ghost use Rattle.std.specs.Option.{option_map};
ghost use Rattle.cd_model.specs.AllOf.{AllOf};
ghost use Rattle.cd_model.specs.Formula.{IsFormula};
ghost use Rattle.cd_graph.specs.Nodes.{nodes};
ghost use Rattle.cd_graph.specs.PlainFormula.{plain, plain_list};
ghost use Rattle.cd_shared.specs.Equation.{Equation as PlainEquation, plain_equation};
ghost use Rattle.cd_shared.specs.Equation.{plain_equations};
ghost use Rattle.cd_shared.specs.Shared.{class_in};
ghost use Rattle.cd_resolve.specs.Inner.Solves.{signed, made, IsNode, IsEquation, AreEquations};
ghost use Rattle.cd_resolve.specs.Inner.Solves.{IsSolution};
ghost use Rattle.cd_resolve.specs.Inner.Links.{links};
ghost use Rattle.cd_resolve.specs.Inner.Order.{Ends};
ghost use Rattle.cd_resolve.specs.Inner.Filling.{at_once, left, so_far, with_made, filled};
ghost use Rattle.cd_resolve.specs.Inner.Filling.{AreFilled};

use crate::links::links;
use crate::ordering::order;
use cd_graph::{Formula, Formulas, Graph};
use cd_sets::node_id::NodeId;
use cd_shared::{Classes, Equation, share};
use std::alloc::{AllocError, Global};
use std::rc::Rc;

// A copy of the formula of a node, of those that were made for the equations.
fn copy_of(
    old: &Graph,
    first: usize,
    formulas: &[Formula],
    id: NodeId,
) -> Result<Formula, AllocError>
    requires node { IsNode (length (nodes old.now)) first (length formulas.now) id }
    requires old { length (nodes old.now) ≤ first }
    ensures { IfOk result (λ copy. plain copy
        ≡ so_far (nodes old.now) first (map plain formulas.now) id) }
{
    if first <= id.0 {
        formulas[id.0 - first].copy()
    } else {
        old.formula(id).copy()
    }
}

// A formula, or what is not in it.
fn with_sign(alloc: Global, kept: bool, formula: Formula) -> Result<Formula, AllocError>
    ensures { IfOk result (λ is. plain is ≡ signed kept (plain formula)) }
{
    if kept {
        Ok(formula)
    } else {
        Ok(Formula::not(Rc::new(alloc, formula)?))
    }
}

// Copies of the formulas of nodes.
fn copies(
    alloc: Global,
    old: &Graph,
    first: usize,
    formulas: &[Formula],
    ids: &[NodeId],
) -> Result<Formulas, AllocError>
    requires nodes { AllOf (IsNode (length (nodes old.now)) first (length formulas.now)) ids.now }
    requires old { length (nodes old.now) ≤ first }
    ensures { IfOk result (λ copies. plain_list copies
        ≡ map (so_far (nodes old.now) first (map plain formulas.now)) ids.now) }
{
    let mut items = Vec::new(alloc);
    for id in ids {
        items.push(copy_of(old, first, formulas, *id)?)?;
    }
    Ok(Formulas::of(items)?)
}

// Copies of the formulas of nodes with signs.
fn signed_copies(
    alloc: Global,
    old: &Graph,
    first: usize,
    formulas: &[Formula],
    signs: &[(bool, NodeId)],
) -> Result<Formulas, AllocError>
    requires nodes { AllOf (λ sign.
        IsNode (length (nodes old.now)) first (length formulas.now) sign.1) signs.now }
    requires old { length (nodes old.now) ≤ first }
    ensures { IfOk result (λ copies. plain_list copies ≡ map (λ sign. signed sign.0
        (so_far (nodes old.now) first (map plain formulas.now) sign.1)) signs.now) }
{
    let mut items = Vec::new(alloc);
    for (kept, id) in signs {
        let copy = copy_of(old, first, formulas, *id)?;
        items.push(with_sign(alloc, *kept, copy)?)?;
    }
    Ok(Formulas::of(items)?)
}

// The formula that an equation gives.
fn formula_of(
    alloc: Global,
    old: &Graph,
    first: usize,
    formulas: &[Formula],
    equation: &Equation,
) -> Result<Formula, AllocError>
    requires sound { IsEquation (length (nodes old.now)) first (length formulas.now)
        (plain_equation equation.now) }
    requires old { length (nodes old.now) ≤ first }
    ensures { IfOk result (λ is. plain is
        ≡ made (so_far (nodes old.now) first (map plain formulas.now))
        (plain_equation equation.now)) }
{
    match equation {
        Equation::Is(formula) => formula.copy(),
        Equation::Same(id) => copy_of(old, first, formulas, *id),
        Equation::And(signs) => Ok(Formula::and(signed_copies(
            alloc,
            old,
            first,
            formulas,
            signs.as_slice(),
        )?)),
        Equation::Or(ids) => Ok(Formula::or(copies(alloc, old, first, formulas, ids.as_slice())?)),
    }
}

// The formulas with this one in its place.
fn put(mut formulas: Vec<Formula>, number: usize, formula: Formula) -> Vec<Formula>
    requires { number < length formulas.items }
    ensures { result.items ≡ slice_set formulas.items number formula }
{
    formulas[number] = formula;
    formulas
}

// The formulas with that of an equation in its place, if there is one.
fn put_made(
    alloc: Global,
    old: &Graph,
    first: usize,
    mut formulas: Vec<Formula>,
    number: usize,
    equation: &Option<Equation>,
) -> Result<Vec<Formula>, AllocError>
    requires sound { (is : PlainEquation) → option_map plain_equation equation.now ≡ Some is
        → IsEquation (length (nodes old.now)) first (length formulas.items) is }
    requires old { length (nodes old.now) ≤ first }
    requires number { number < length formulas.items }
    ensures made { IfOk result (λ filled_up. map plain filled_up.items
        ≡ with_made (nodes old.now) first (map plain formulas.items) number
        (option_map plain_equation equation.now)) }
    ensures length { IfOk result (λ filled_up. length filled_up.items ≡ length formulas.items) }
{
    match equation {
        None => Ok(formulas),
        Some(equation) => {
            let formula = formula_of(alloc, old, first, formulas.as_slice(), equation)?;
            Ok(put(formulas, number, formula))
        }
    }
}

// The formulas after those of these numbers were made in turn.
fn fill(
    alloc: Global,
    old: &Graph,
    first: usize,
    equations: &[Option<Equation>],
    mut formulas: Vec<Formula>,
    order: &[usize],
) -> Result<Vec<Formula>, AllocError>
    requires sound { AreEquations (length (nodes old.now)) first (plain_equations equations.now) }
    requires old { length (nodes old.now) ≤ first }
    requires formulas { length formulas.items ≡ length equations.now }
    requires known { AllOf (λ number. number < length equations.now) order.now }
    ensures { IfOk result (λ filled_up. map plain filled_up.items
        ≡ filled (nodes old.now) first (plain_equations equations.now) order.now
        (map plain formulas.items)) }
{
    for number in order {
        formulas = put_made(alloc, old, first, formulas, *number, &equations[*number])?;
    }
    Ok(formulas)
}

// The formula that an equation gives at once, and what is left to make.
fn parted(equation: Equation) -> (Formula, Option<Equation>)
    ensures formula { plain result.0 ≡ at_once (Some (plain_equation equation)) }
    ensures left { option_map plain_equation result.1 ≡ left (Some (plain_equation equation)) }
{
    match equation {
        Equation::Is(formula) => (formula, None),
        Equation::Same(id) => (Formula::none(), Some(Equation::Same(id))),
        Equation::And(signs) => (Formula::none(), Some(Equation::And(signs))),
        Equation::Or(ids) => (Formula::none(), Some(Equation::Or(ids))),
    }
}

// The same of a node that may have no equation.
fn parted_if(equation: Option<Equation>) -> (Formula, Option<Equation>)
    ensures formula { plain result.0 ≡ at_once (option_map plain_equation equation) }
    ensures left { option_map plain_equation result.1 ≡ left (option_map plain_equation equation) }
{
    match equation {
        Some(equation) => parted(equation),
        None => (Formula::none(), None),
    }
}

// The formulas that equations give at once, and the equations that are left.
fn apart(
    alloc: Global,
    equations: Vec<Option<Equation>>,
) -> Result<(Vec<Formula>, Vec<Option<Equation>>), AllocError>
    ensures formulas { IfOk result (λ (formulas, others).
        map plain formulas.items ≡ map at_once (plain_equations equations.items)) }
    ensures left { IfOk result (λ (formulas, others).
        plain_equations others.items ≡ map left (plain_equations equations.items)) }
{
    let mut formulas = Vec::new(alloc);
    let mut others = Vec::new(alloc);
    for equation in equations {
        let (formula, other) = parted_if(equation);
        formulas.push(formula)?;
        others.push(other)?;
    }
    Ok((formulas, others))
}

// The formulas of equations, made in an order.
fn formulas_of(
    alloc: Global,
    old: &Graph,
    first: usize,
    equations: Vec<Option<Equation>>,
) -> Result<Vec<Formula>, AllocError>
    requires sound { AreEquations (length (nodes old.now)) first (plain_equations equations.items) }
    requires ends { (number : ℕ) → number < length equations.items
        → Ends (links first (plain_equations equations.items)) number }
    requires old { length (nodes old.now) ≤ first }
    ensures { IfOk result (λ formulas.
        AreFilled (nodes old.now) first (plain_equations equations.items)
        (map plain formulas.items)) }
{
    let rows = links(alloc, first, equations.as_slice())?;
    let order = order(alloc, rows.as_slice())?;
    let (formulas, others) = apart(alloc, equations)?;
    fill(
        alloc,
        old,
        first,
        others.as_slice(),
        formulas,
        order.as_slice(),
    )
}

/// The formulas of equations, in which equal nodes are named by one number.
#[derive(Drop)]
pub(crate) struct Solution {
    pub(crate) formulas: Formulas,
    pub(crate) classes: Classes,
}

/// The formulas of equations: put after those of a graph of `first` nodes that begins with this
/// one, they solve them, but that the nodes in them are named by their classes.
pub(crate) fn solve(
    alloc: Global,
    old: &Graph,
    first: usize,
    equations: Vec<Option<Equation>>,
) -> Result<Solution, AllocError>
    requires sound { AreEquations (length (nodes old.now)) first (plain_equations equations.items) }
    requires ends { (number : ℕ) → number < length equations.items
        → Ends (links first (plain_equations equations.items)) number }
    requires old { length (nodes old.now) ≤ first }
    ensures number { IfOk result
        (λ solution. length (plain_list solution.formulas) ≡ length equations.items) }
    ensures formulas { IfOk result (λ solution.
        AllOf (IsFormula (first + length (plain_list solution.formulas)))
        (plain_list solution.formulas)) }
    ensures solves { IfOk result (λ solution. IsSolution (nodes old.now) first
        (plain_equations equations.items) (class_in solution.classes)
        (plain_list solution.formulas)) }
{
    // With its length it is known that the old formulas are those of a graph.
    let _nodes = old.len();
    let shared = share(alloc, first, equations)?;
    let formulas = formulas_of(alloc, old, first, shared.equations)?;
    Ok(Solution {
        formulas: Formulas::of(formulas)?,
        classes: shared.classes,
    })
}
