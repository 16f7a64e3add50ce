//! The nodes that hold the sequences of an expression.
ghost use Rattle.std.specs.Prelude.{◌≡◌, ◌+◌, ◌<◌, ◌^◌, map, IfOk};
ghost use Rattle.cd_graph.specs.PlainFormula.{plain as plain_formula};
ghost use Rattle.cd_regex.specs.Regular.{items_in};
ghost use Rattle.cd_regex.specs.PlainRegular.{plain};
ghost use Rattle.cd_regex.specs.Automaton.{start, sequence_formulas};

use crate::count::fits;
use crate::first_edges::{add_first_edges, is_nullable};
use crate::follow::Follow;
use crate::regular::Reg;
use crate::states::add_states;
use cd_graph::Formula;
use std::alloc::{AllocError, Global};

/// The formulas of the states of an expression, which are to stand in a graph from this number on:
/// where the expression asks for nodes before that alone, the first of them holds exactly the
/// sequences whose items fit it (`states_hold_sequences`).
///
/// # Errors
///
/// Want of memory, also where the number of the last node would be no word.
pub fn sequence_nodes(
    alloc: Global,
    first: usize,
    regular: &Reg,
) -> Result<Vec<Formula>, AllocError>
    ensures { IfOk result (λ batch.
        map plain_formula batch.items ≡ sequence_formulas first (plain regular.now)) }
{
    // No graph is so long.
    if !fits(first, regular) {
        return Err(AllocError);
    }
    formulas_of_states(alloc, first, regular)
}

// The formulas of all states.
fn formulas_of_states(
    alloc: Global,
    first: usize,
    regular: &Reg,
) -> Result<Vec<Formula>, AllocError>
    requires { first + items_in (plain regular.now) < 2 ^ 64 }
    ensures { IfOk result (λ batch.
        map plain_formula batch.items ≡ sequence_formulas first (plain regular.now)) }
{
    let mut batch = Vec::new(alloc);
    batch.push(start_of(alloc, first, regular)?.formula(alloc)?)?;
    add_states(alloc, regular, first, &Follow::finish(alloc), &mut batch)?;
    Ok(batch)
}

// What may follow in the state to start in.
fn start_of(alloc: Global, first: usize, regular: &Reg) -> Result<Follow, AllocError>
    requires { first + items_in (plain regular.now) < 2 ^ 64 }
    ensures { IfOk result (λ follow. follow ≡ start (plain regular.now) first) }
{
    let mut edges = Vec::new(alloc);
    add_first_edges(regular, first, &mut edges)?;
    Ok(Follow::of(edges, is_nullable(regular)))
}
