//! Which formulas are copied into which, as rows of numbers.
ghost use Rattle.std.specs.Prelude.{◌≡◌, ◌++◌, map, IfOk, OnOk};
ghost use Rattle.std.specs.Option.{option_map};
ghost use Rattle.cd_shared.specs.Equation.{plain_equation, plain_equations};
ghost use Rattle.cd_resolve.specs.Inner.Links.{number_at, numbers_of, numbers_under, links};

use cd_sets::node_id::NodeId;
use cd_shared::Equation;
use std::alloc::{AllocError, Global};

// Puts the number of a node's equation, if it has one, at the end of a row.
fn push_number(row: &mut Vec<usize>, first: usize, id: NodeId) -> Result<(), AllocError>
    ensures { OnOk result (row.new.items ≡ row.old.items ++ number_at first id) }
{
    if first <= id.0 {
        row.push(id.0 - first)?;
    }
    Ok(())
}

// The numbers of nodes.
fn row_of_nodes(alloc: Global, first: usize, ids: &[NodeId]) -> Result<Vec<usize>, AllocError>
    ensures { IfOk result (λ row. row.items ≡ numbers_of first ids.now) }
{
    let mut row = Vec::new(alloc);
    for id in ids {
        push_number(&mut row, first, *id)?;
    }
    Ok(row)
}

// The numbers of nodes with signs.
fn row_of_signs(
    alloc: Global,
    first: usize,
    signs: &[(bool, NodeId)],
) -> Result<Vec<usize>, AllocError>
    ensures { IfOk result (λ row. row.items ≡ numbers_of first (map (λ sign. sign.1) signs.now)) }
{
    let mut row = Vec::new(alloc);
    for (_, id) in signs {
        push_number(&mut row, first, *id)?;
    }
    Ok(row)
}

// The row of a name, which holds what one node does.
fn row_of_node(alloc: Global, first: usize, id: NodeId) -> Result<Vec<usize>, AllocError>
    ensures { IfOk result (λ row. row.items ≡ number_at first id) }
{
    let mut row = Vec::new(alloc);
    push_number(&mut row, first, id)?;
    Ok(row)
}

// The row of an equation: what a name or a connective stands over.
fn row_of_equation(
    alloc: Global,
    first: usize,
    equation: &Option<Equation>,
) -> Result<Vec<usize>, AllocError>
    ensures { IfOk result (λ row.
        row.items ≡ numbers_under first (option_map plain_equation equation.now)) }
{
    match equation {
        None => Ok(Vec::new(alloc)),
        Some(Equation::Is(_)) => Ok(Vec::new(alloc)),
        Some(Equation::Same(id)) => row_of_node(alloc, first, *id),
        Some(Equation::And(signs)) => row_of_signs(alloc, first, signs.as_slice()),
        Some(Equation::Or(ids)) => row_of_nodes(alloc, first, ids.as_slice()),
    }
}

/// For each equation the numbers of those that its formula is made of.
pub(crate) fn links(
    alloc: Global,
    first: usize,
    equations: &[Option<Equation>],
) -> Result<Vec<Vec<usize>>, AllocError>
    ensures { IfOk result (λ rows.
        map (λ row. row.items) rows.items ≡ links first (plain_equations equations.now)) }
{
    let mut rows = Vec::new(alloc);
    for equation in equations {
        rows.push(row_of_equation(alloc, first, equation)?)?;
    }
    Ok(rows)
}
