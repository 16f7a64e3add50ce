//! The first edges of an expression: those to the items that may come first.
ghost use Rattle.std.specs.Prelude.{◌≡◌, ◌+◌, ◌<◌, ◌^◌, [], ◌∷◌, ◌++◌, OnOk};
ghost use Rattle.cd_model.specs.BuiltIns.{node};
ghost use Rattle.cd_regex.specs.Regular.{items_in, items_in_all};
ghost use Rattle.cd_regex.specs.PlainRegular.{plain, plain_all};
ghost use Rattle.cd_regex.specs.Automaton.{nullable, all_nullable, one_nullable, first_edges};
ghost use Rattle.cd_regex.specs.Automaton.{first_edges_in_turn, first_edges_of_one};

use crate::follow::Edge;
use crate::regular::Reg;
use cd_sets::node_id::NodeId;
use std::alloc::AllocError;

/// How many items stand in an expression.
#[cycle(items_in)]
pub(crate) fn items_in(is: &Reg) -> usize
    requires { items_in (plain is.now) < 2 ^ 64 }
    ensures { result ≡ items_in (plain is.now) }
{
    match is {
        Reg::Nothing => 0,
        Reg::Item(_) => 1,
        Reg::Seq(all) | Reg::Alt(all) => items_in_all(all.items.as_slice()),
        Reg::Star(is) | Reg::Plus(is) | Reg::Opt(is) => items_in(is),
    }
}

#[cycle(items_in)]
fn items_in_all(all: &[Reg]) -> usize
    requires { items_in_all (plain_all all.now) < 2 ^ 64 }
    ensures { result ≡ items_in_all (plain_all all.now) }
{
    let mut count = 0;
    for is in all {
        count += items_in(is);
    }
    count
}

/// Whether no item at all fits an expression.
#[cycle(is_nullable)]
pub(crate) fn is_nullable(is: &Reg) -> bool
    ensures { result ≡ nullable (plain is.now) }
{
    match is {
        Reg::Nothing | Reg::Star(_) | Reg::Opt(_) => true,
        Reg::Item(_) => false,
        Reg::Seq(all) => are_nullable(all.items.as_slice()),
        Reg::Alt(all) => has_nullable(all.items.as_slice()),
        Reg::Plus(is) => is_nullable(is),
    }
}

/// Whether no item at all fits these in turn.
#[cycle(is_nullable)]
pub(crate) fn are_nullable(all: &[Reg]) -> bool
    ensures { result ≡ all_nullable (plain_all all.now) }
{
    for is in all {
        if !is_nullable(is) {
            return false;
        }
    }
    true
}

#[cycle(is_nullable)]
fn has_nullable(all: &[Reg]) -> bool
    ensures { result ≡ one_nullable (plain_all all.now) }
{
    for is in all {
        if is_nullable(is) {
            return true;
        }
    }
    false
}

/// Adds the first edges of an expression, whose states are numbered after this number.
#[cycle(add_first_edges)]
pub(crate) fn add_first_edges(
    is: &Reg,
    before: usize,
    edges: &mut Vec<Edge>,
) -> Result<(), AllocError>
    requires { before + items_in (plain is.now) < 2 ^ 64 }
    ensures { OnOk result (edges.new.items ≡ edges.old.items ++ first_edges (plain is.now) before) }
{
    match is {
        Reg::Nothing => Ok(()),
        Reg::Item(id) => add_edge(*id, before, edges),
        Reg::Seq(all) => add_first_edges_in_turn(all.items.as_slice(), before, edges),
        Reg::Alt(all) => add_first_edges_of_one(all.items.as_slice(), before, edges),
        Reg::Star(is) | Reg::Plus(is) | Reg::Opt(is) => add_first_edges(is, before, edges),
    }
}

/// Adds those of these in turn.
#[cycle(add_first_edges)]
pub(crate) fn add_first_edges_in_turn(
    all: &[Reg],
    before: usize,
    edges: &mut Vec<Edge>,
) -> Result<(), AllocError>
    requires { before + items_in_all (plain_all all.now) < 2 ^ 64 }
    ensures { OnOk result (edges.new.items
        ≡ edges.old.items ++ first_edges_in_turn (plain_all all.now) before) }
{
    let mut at = before;
    for is in all {
        add_first_edges(is, at, edges)?;
        if !is_nullable(is) {
            return Ok(());
        }
        at += items_in(is);
    }
    Ok(())
}

#[cycle(add_first_edges)]
fn add_first_edges_of_one(
    all: &[Reg],
    before: usize,
    edges: &mut Vec<Edge>,
) -> Result<(), AllocError>
    requires { before + items_in_all (plain_all all.now) < 2 ^ 64 }
    ensures { OnOk result (edges.new.items
        ≡ edges.old.items ++ first_edges_of_one (plain_all all.now) before) }
{
    let mut at = before;
    for is in all {
        add_first_edges(is, at, edges)?;
        at += items_in(is);
    }
    Ok(())
}

// Adds an edge to the state after this number.
fn add_edge(item: NodeId, before: usize, edges: &mut Vec<Edge>) -> Result<(), AllocError>
    requires { before + 1 < 2 ^ 64 }
    ensures { OnOk result (edges.new.items
        ≡ edges.old.items ++ record { item = item; to = node (before + 1) } ∷ []) }
{
    let to = NodeId(before + 1);
    edges.push(Edge { item, to })?;
    Ok(())
}
