//! Rows of formulas that are formed.
ghost use Rattle.std.specs.Prelude.{◌≡◌, IfOk, map, is_some};
ghost use Rattle.std.specs.List.{list_all};
ghost use Rattle.std.specs.Option.{IfSome};
ghost use Rattle.cd_graph.specs.PlainFormula.{plain};
ghost use Rattle.cd_filter.specs.Inner.Forming.{row_formula, row_members, is_there};
ghost use Rattle.cd_filter.specs.Inner.Forming.{formula_in, members_in, IsAlone};

use crate::formed::Formed;
use cd_graph::Formula;
use std::alloc::{AllocError, Global};

/// Whether the formula for this number is there.
pub(crate) fn is_there(rows: &[Option<Formed>], number: usize) -> bool
    ensures { result ≡ is_there rows.now number }
{
    match rows.get(number) {
        Some(row) => row.is_some(),
        None => false,
    }
}

// A copy of the formula in a row.
fn formula_of(row: &Option<Formed>) -> Result<Formula, AllocError>
    ensures { IfOk result (λ is. plain is ≡ row_formula row.now) }
{
    match row {
        Some(formed) => formed.formula.copy(),
        None => Ok(Formula::none()),
    }
}

/// A copy of the formula for this number.
pub(crate) fn formula_in(rows: &[Option<Formed>], number: usize) -> Result<Formula, AllocError>
    ensures { IfOk result (λ is. plain is ≡ formula_in rows.now number) }
{
    match rows.get(number) {
        Some(row) => formula_of(row),
        None => Ok(Formula::none()),
    }
}

// The members in a row.
fn members_of(row: &Option<Formed>) -> &[usize]
    ensures { result.now ≡ row_members row.now }
{
    match row {
        Some(formed) => formed.members.as_slice(),
        None => &[],
    }
}

/// The members for this number.
pub(crate) fn members_in(rows: &[Option<Formed>], number: usize) -> &[usize]
    ensures { result.now ≡ members_in rows.now number }
{
    match rows.get(number) {
        Some(row) => members_of(row),
        None => &[],
    }
}

/// Whether the formulas for all of these are there.
pub(crate) fn are_there(rows: &[Option<Formed>], numbers: &[usize]) -> bool
    ensures { result ≡ list_all (is_there rows.now) numbers.now }
{
    numbers.iter().all(|number| is_there(rows, *number))
}

/// Copies of the formulas for these.
pub(crate) fn formulas_in(
    alloc: Global,
    rows: &[Option<Formed>],
    numbers: &[usize],
) -> Result<Vec<Formula>, AllocError>
    ensures { IfOk result (λ all. map plain all.items ≡ map (formula_in rows.now) numbers.now) }
{
    let mut all = Vec::new(alloc);
    for number in numbers {
        all.push(formula_in(rows, *number)?)?;
    }
    Ok(all)
}

/// A formula by itself.
pub(crate) fn alone(
    alloc: Global,
    number: usize,
    formula: Formula,
) -> Result<Option<Formed>, AllocError>
    ensures { IfOk result (λ formed. IfSome formed (IsAlone number (plain formula))) }
{
    let members = vec![in alloc; number]?;
    Ok(Some(Formed { members, formula }))
}

/// Whether the formulas in all rows are there.
pub(crate) fn are_full(rows: &[Option<Formed>]) -> bool
    ensures { result ≡ list_all is_some rows.now }
{
    rows.iter().all(|row| row.is_some())
}

/// Copies of the formulas in all rows.
pub(crate) fn formulas(alloc: Global, rows: &[Option<Formed>]) -> Result<Vec<Formula>, AllocError>
    ensures { IfOk result (λ all. map plain all.items ≡ map row_formula rows.now) }
{
    let mut all = Vec::new(alloc);
    for row in rows {
        all.push(formula_of(row)?)?;
    }
    Ok(all)
}
