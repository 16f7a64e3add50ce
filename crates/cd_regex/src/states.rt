//! The states after the items of an expression.
ghost use Rattle.std.specs.Prelude.{◌≡◌, ◌+◌, ◌<◌, ◌^◌, [], ◌∷◌, ◌++◌, map, IfOk, OnOk};
ghost use Rattle.cd_graph.specs.PlainFormula.{plain as plain_formula};
ghost use Rattle.cd_regex.specs.Regular.{items_in, items_in_all};
ghost use Rattle.cd_regex.specs.PlainRegular.{plain, plain_all};
ghost use Rattle.cd_regex.specs.Automaton.{edges_if, before_all, after_turn, states};
ghost use Rattle.cd_regex.specs.Automaton.{states_in_turn, states_of_one, state_formula};

use crate::first_edges::{add_first_edges, add_first_edges_in_turn, are_nullable, items_in};
use crate::follow::{Edge, Follow};
use crate::regular::Reg;
use cd_graph::Formula;
use std::alloc::{AllocError, Global};

/// Adds the formulas of the states after the items of an expression, from the left. `follow` is
/// what may follow the whole expression. The states are numbered after this number.
#[cycle(add_states)]
pub(crate) fn add_states(
    alloc: Global,
    is: &Reg,
    before: usize,
    follow: &Follow,
    batch: &mut Vec<Formula>,
) -> Result<(), AllocError>
    requires { before + items_in (plain is.now) < 2 ^ 64 }
    ensures { OnOk result (map plain_formula batch.new.items
        ≡ map plain_formula batch.old.items
        ++ map state_formula (states (plain is.now) before follow.now)) }
{
    match is {
        Reg::Nothing => Ok(()),
        Reg::Item(_) => add_state(alloc, follow, batch),
        Reg::Seq(all) => add_in_turn(alloc, all.items.as_slice(), before, follow, batch),
        Reg::Alt(all) => add_of_one(alloc, all.items.as_slice(), before, follow, batch),
        Reg::Star(is) | Reg::Plus(is) => add_of_turns(alloc, is, before, follow, batch),
        Reg::Opt(is) => add_states(alloc, is, before, follow, batch),
    }
}

// Adds those of an expression that may be gone through many times.
#[cycle(add_states)]
fn add_of_turns(
    alloc: Global,
    is: &Reg,
    before: usize,
    follow: &Follow,
    batch: &mut Vec<Formula>,
) -> Result<(), AllocError>
    requires { before + items_in (plain is.now) < 2 ^ 64 }
    ensures { OnOk result (map plain_formula batch.new.items
        ≡ map plain_formula batch.old.items
        ++ map state_formula (states (plain is.now) before
        (after_turn (plain is.now) before follow.now))) }
{
    let again = after_turn(alloc, is, before, follow)?;
    add_states(alloc, is, before, &again, batch)
}

// Adds those of some in turn.
#[cycle(add_states)]
fn add_in_turn(
    alloc: Global,
    all: &[Reg],
    before: usize,
    follow: &Follow,
    batch: &mut Vec<Formula>,
) -> Result<(), AllocError>
    requires { before + items_in_all (plain_all all.now) < 2 ^ 64 }
    ensures { OnOk result (map plain_formula batch.new.items
        ≡ map plain_formula batch.old.items
        ++ map state_formula (states_in_turn (plain_all all.now) before follow.now)) }
{
    let mut at = before;
    for (place, is) in all.iter().enumerate() {
        let after = at + items_in(is);
        let between = before_all(alloc, &all[place + 1..], after, follow)?;
        add_states(alloc, is, at, &between, batch)?;
        at = after;
    }
    Ok(())
}

// Adds those of alternatives.
#[cycle(add_states)]
fn add_of_one(
    alloc: Global,
    all: &[Reg],
    before: usize,
    follow: &Follow,
    batch: &mut Vec<Formula>,
) -> Result<(), AllocError>
    requires { before + items_in_all (plain_all all.now) < 2 ^ 64 }
    ensures { OnOk result (map plain_formula batch.new.items
        ≡ map plain_formula batch.old.items
        ++ map state_formula (states_of_one (plain_all all.now) before follow.now)) }
{
    let mut at = before;
    for is in all {
        add_states(alloc, is, at, follow, batch)?;
        at += items_in(is);
    }
    Ok(())
}

// What may come after one of many turns: another turn, or what comes after all.
fn after_turn(alloc: Global, is: &Reg, before: usize, follow: &Follow) -> Result<Follow, AllocError>
    requires { before + items_in (plain is.now) < 2 ^ 64 }
    ensures { IfOk result (λ again. again ≡ after_turn (plain is.now) before follow.now) }
{
    let mut edges = Vec::new(alloc);
    add_first_edges(is, before, &mut edges)?;
    add_edges(follow.edges(), &mut edges)?;
    Ok(Follow::of(edges, follow.accepting()))
}

// What may come before these in turn.
fn before_all(
    alloc: Global,
    all: &[Reg],
    before: usize,
    follow: &Follow,
) -> Result<Follow, AllocError>
    requires { before + items_in_all (plain_all all.now) < 2 ^ 64 }
    ensures { IfOk result (λ first. first ≡ before_all (plain_all all.now) before follow.now) }
{
    let mut edges = Vec::new(alloc);
    add_first_edges_in_turn(all, before, &mut edges)?;
    let nullable = are_nullable(all);
    add_edges_if(nullable, follow.edges(), &mut edges)?;
    Ok(Follow::of(edges, nullable && follow.accepting()))
}

// Adds the formula of a state.
fn add_state(alloc: Global, follow: &Follow, batch: &mut Vec<Formula>) -> Result<(), AllocError>
    ensures { OnOk result (map plain_formula batch.new.items
        ≡ map plain_formula batch.old.items ++ map state_formula (follow.now ∷ [])) }
{
    batch.push(follow.formula(alloc)?)?;
    Ok(())
}

// Adds edges.
fn add_edges(others: &[Edge], edges: &mut Vec<Edge>) -> Result<(), AllocError>
    ensures { OnOk result (edges.new.items ≡ edges.old.items ++ others.now) }
{
    edges.extend_from_slice(others)
}

// Adds edges where it is so.
fn add_edges_if(so: bool, others: &[Edge], edges: &mut Vec<Edge>) -> Result<(), AllocError>
    ensures { OnOk result (edges.new.items ≡ edges.old.items ++ edges_if so others.now) }
{
    if so {
        return add_edges(others, edges);
    }
    Ok(())
}
