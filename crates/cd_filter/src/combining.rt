//! Rows that are formed of others. A meet with All is the other formula, and a meet of meets is one
//! of all their formulas, so that a long chain of Both nests no deeper than a short one. A union
//! with All is All, and a union of one formula is that one.
ghost use Rattle.std.specs.Prelude.{◌≡◌, IfOk, OnOk, map, [], ◌∷◌, ◌++◌};
ghost use Rattle.std.specs.List.{list_any};
ghost use Rattle.std.specs.Option.{IfSome};
ghost use Rattle.cd_model.specs.Formula as formula;
ghost use Rattle.cd_model.specs.Formula.{formulas_of};
ghost use Rattle.cd_graph.specs.PlainFormula.{plain};
ghost use Rattle.cd_filter.specs.Inner.Forming.{row_formula, formula_in, IsUnion, IsMeet};
ghost use Rattle.cd_filter.specs.Simpler.{is_everything, conjuncts, IsSimpler};

use crate::formed::Formed;
use crate::members::joined;
use crate::rows::{alone, are_there, formula_in, formulas_in, is_there, members_in};
use cd_graph::{Formula, Formulas};
use std::alloc::{AllocError, Global};

/// What both of two take.
pub(crate) fn meet(
    alloc: Global,
    rows: &[Option<Formed>],
    number: usize,
    p: usize,
    q: usize,
) -> Result<Option<Formed>, AllocError>
    ensures { IfOk result (λ formed. IfSome formed (IsMeet rows.now number p q)) }
{
    if !is_there(rows, p) || !is_there(rows, q) {
        return Ok(None);
    }
    alone(alloc, number, meet_of(alloc, rows, p, q)?)
}

/// What one of two takes: the union of the members of both.
pub(crate) fn union(
    alloc: Global,
    rows: &[Option<Formed>],
    p: usize,
    q: usize,
) -> Result<Option<Formed>, AllocError>
    ensures { IfOk result (λ formed. IfSome formed (IsUnion rows.now p q)) }
{
    if !is_there(rows, p) || !is_there(rows, q) {
        return Ok(None);
    }
    let members = joined(alloc, members_in(rows, p), members_in(rows, q))?;
    if !are_there(rows, members.as_slice()) {
        return Ok(None);
    }
    let formula = union_of(alloc, rows, members.as_slice())?;
    Ok(Some(Formed { members, formula }))
}

// What both of the formulas for two hold: where one is All, the other one, and else the meet of the
// conjuncts of both.
fn meet_of(
    alloc: Global,
    rows: &[Option<Formed>],
    p: usize,
    q: usize,
) -> Result<Formula, AllocError>
    ensures { IfOk result (λ meet. IsSimpler (formula.And (formulas_of
        (formula_in rows.now p ∷ formula_in rows.now q ∷ []))) (plain meet)) }
{
    if is_all_at(rows, p) {
        return formula_in(rows, q);
    }
    if is_all_at(rows, q) {
        return formula_in(rows, p);
    }
    let mut formulas = Vec::new(alloc);
    add_conjuncts(&mut formulas, formula_in(rows, p)?)?;
    add_conjuncts(&mut formulas, formula_in(rows, q)?)?;
    Ok(Formula::and(Formulas::of(formulas)?))
}

// Puts the formulas of a meet after others, or any other formula alone.
fn add_conjuncts(formulas: &mut Vec<Formula>, formula: Formula) -> Result<(), AllocError>
    ensures { OnOk result (map plain formulas.new.items
        ≡ map plain formulas.old.items ++ conjuncts (plain formula)) }
{
    match formula {
        Formula::And(members) => add_copies(formulas, members.items()),
        other => Ok(formulas.push(other)?),
    }
}

// Puts copies of these formulas after others.
fn add_copies(formulas: &mut Vec<Formula>, others: &[Formula]) -> Result<(), AllocError>
    ensures { OnOk result (map plain formulas.new.items
        ≡ map plain formulas.old.items ++ map plain others.now) }
{
    for other in others {
        formulas.push(other.copy()?)?;
    }
    Ok(())
}

// What one of the formulas for these holds: where one is All, that one.
fn union_of(
    alloc: Global,
    rows: &[Option<Formed>],
    numbers: &[usize],
) -> Result<Formula, AllocError>
    ensures { IfOk result (λ union. IsSimpler (formula.Or (formulas_of
        (map (formula_in rows.now) numbers.now))) (plain union)) }
{
    if one_is_all(rows, numbers) {
        return Ok(Formula::all());
    }
    match numbers {
        [only] => formula_in(rows, *only),
        _ => Ok(Formula::or(Formulas::of(formulas_in(alloc, rows, numbers)?)?)),
    }
}

// Whether the formula for one of these is All.
fn one_is_all(rows: &[Option<Formed>], numbers: &[usize]) -> bool
    ensures { result ≡ list_any (λ number. is_everything (formula_in rows.now number)) numbers.now }
{
    numbers.iter().any(|number| is_all_at(rows, *number))
}

// Whether the formula for this number is All.
fn is_all_at(rows: &[Option<Formed>], number: usize) -> bool
    ensures { result ≡ is_everything (formula_in rows.now number) }
{
    match rows.get(number) {
        Some(row) => is_all_in(row),
        None => false,
    }
}

// Whether the formula in a row is All.
fn is_all_in(row: &Option<Formed>) -> bool
    ensures { result ≡ is_everything (row_formula row.now) }
{
    match row {
        Some(formed) => is_all(&formed.formula),
        None => false,
    }
}

// Whether a formula is All.
fn is_all(formula: &Formula) -> bool
    ensures { result ≡ is_everything (plain formula.now) }
{
    match formula {
        Formula::All => true,
        _ => false,
    }
}
