//! The states of a copy of an automaton as nodes.
ghost use Rattle.std.specs.Prelude.{◌≡◌, ◌+◌, suc, Some, None, IfOk, OnOk};
ghost use Rattle.std.specs.List.{slice_get};
ghost use Rattle.std.specs.Option.{unwrap_or, IfSome};
ghost use Rattle.cd_matching.specs.PlainKernel.{plain_node, plain_nodes};
ghost use Rattle.cd_kernel.specs.Inner.Building.{put_before, put_empty, step, put_move, put_row};
ghost use Rattle.cd_kernel.specs.Inner.Building.{with_move_before, moves_chain, or_failing};
ghost use Rattle.cd_kernel.specs.Inner.Building.{put_rows};
ghost use Rattle.cd_kernel.specs.Inner.Building.{before_move, of_moves, before_row, places_of};
ghost use Rattle.cd_kernel.specs.Inner.PlainSteps.{plain_steps};
ghost use Rattle.cd_moves.specs.Inner.PlainMoves.{plain_move, plain_moves};
ghost use Rattle.cd_moves.specs.Inner.Rows.{plain_row, plain_rows};

use crate::chain::put;
use cd_graph::built_in::{ANY, EMPTY, NIL};
use cd_matching::kernel::KernelNode;
use cd_moves::moves::{Move, Moves};
use cd_sets::node_id::NodeId;
use cd_syntax::constant::Constant;
use std::alloc::{AllocError, Global};

/// What the states of a copy need: the variables of its group, the one that gathers each item, the
/// node of each item, and that of the state after it.
#[derive(Drop)]
pub(crate) struct Steps {
    pub(crate) group: Vec<usize>,
    pub(crate) gatherers: Vec<Option<usize>>,
    pub(crate) items: Vec<usize>,
    pub(crate) states: Vec<usize>,
}

// How many nodes stand before the last one of a move, in a group of so many.
fn before_move(group: usize, one: Move) -> Option<usize>
    ensures { IfSome result (λ count. count ≡ before_move group (plain_move one)) }
{
    match one {
        Move::End => group.checked_add(group),
        Move::To(_) => Some(0),
    }
}

// How many nodes these moves are, with one more for each.
fn of_moves(group: usize, moves: &[Move]) -> Option<usize>
    ensures { IfSome result (λ count. count ≡ of_moves group (plain_moves moves.now)) }
{
    let mut count = 0usize;
    for one in moves {
        count = count
            .checked_add(before_move(group, *one)?)?
            .checked_add(2)?;
    }
    Some(count)
}

// How many nodes stand before the last one of a state.
fn before_row(group: usize, row: &Moves) -> Option<usize>
    ensures { IfSome result (λ count. count ≡ before_row group (plain_row row.now)) }
{
    match row.moves.as_slice() {
        [] => group.checked_add(group)?.checked_add(2),
        moves => of_moves(group, moves)?.checked_sub(2),
    }
}

/// The nodes of the states with these moves, where the first one's are put after so many.
pub(crate) fn places(
    alloc: Global,
    group: usize,
    before: usize,
    rows: &[Moves],
) -> Result<Vec<usize>, AllocError>
    ensures { IfOk result (λ places.
        places.items ≡ places_of group before (plain_rows rows.now)) }
{
    let mut places = Vec::new(alloc);
    let mut at = before;
    for row in rows {
        let place = place(group, at, row)?;
        places.push(place)?;
        at = after(place)?;
    }
    Ok(places)
}

fn place(group: usize, at: usize, row: &Moves) -> Result<usize, AllocError>
    ensures { IfOk result (λ place. place ≡ at + before_row group (plain_row row.now)) }
{
    before_row(group, row)
        .and_then(|count| at.checked_add(count))
        .ok_or(AllocError)
}

fn after(place: usize) -> Result<usize, AllocError>
    ensures { IfOk result (λ next. next ≡ suc place) }
{
    place.checked_add(1).ok_or(AllocError)
}

// Puts the things of a type, where each of these variables is the empty sequence.
fn put_empty(
    id: NodeId,
    variables: &[usize],
    nodes: &mut Vec<KernelNode>,
) -> Result<usize, AllocError>
    ensures { IfOk result (λ number. (number, plain_nodes nodes.new.items)
        ≡ put_empty id variables.now (plain_nodes nodes.old.items)) }
{
    let mut rest = put(KernelNode::Test(id), nodes)?;
    let mut index = variables.len();
    while index > 0 {
        index -= 1;
        rest = put_before(variables[index], rest, nodes)?;
    }
    Ok(rest)
}

fn put_before(
    variable: usize,
    rest: usize,
    nodes: &mut Vec<KernelNode>,
) -> Result<usize, AllocError>
    ensures { IfOk result (λ number. (number, plain_nodes nodes.new.items)
        ≡ put_before variable (rest, plain_nodes nodes.old.items)) }
{
    let first = put(KernelNode::Put(variable, Constant::Nil), nodes)?;
    Ok(put(KernelNode::Both(first, rest), nodes)?)
}

fn at(numbers: &[usize], place: usize) -> usize
    ensures { result ≡ unwrap_or (slice_get numbers.now place) 0 }
{
    numbers.get(place).copied().unwrap_or(0)
}

fn gatherer(gatherers: &[Option<usize>], place: usize) -> Option<usize>
    ensures { result ≡ unwrap_or (slice_get gatherers.now place) None }
{
    gatherers.get(place).copied().unwrap_or(None)
}

// The item with this number, and the state after it.
fn step(steps: &Steps, place: usize) -> KernelNode
    ensures { plain_node result
        ≡ step (unwrap_or (slice_get (plain_steps steps.now).gatherers place) None)
        (unwrap_or (slice_get (plain_steps steps.now).items place) 0)
        (unwrap_or (slice_get (plain_steps steps.now).states place) 0) }
{
    let item = at(steps.items.as_slice(), place);
    let next = at(steps.states.as_slice(), place);
    match gatherer(steps.gatherers.as_slice(), place) {
        None => KernelNode::Pair(item, next),
        Some(variable) => KernelNode::Gather(variable, item, next),
    }
}

fn put_move(steps: &Steps, one: Move, nodes: &mut Vec<KernelNode>) -> Result<usize, AllocError>
    ensures { IfOk result (λ number. (number, plain_nodes nodes.new.items)
        ≡ put_move (plain_steps steps.now) (plain_move one) (plain_nodes nodes.old.items)) }
{
    match one {
        Move::End => put_empty(NIL, steps.group.as_slice(), nodes),
        Move::To(place) => put(step(steps, place), nodes),
    }
}

// A move before others, if there are such.
fn put_move_before(
    steps: &Steps,
    one: Move,
    rest: Option<usize>,
    nodes: &mut Vec<KernelNode>,
) -> Result<usize, AllocError>
    ensures { IfOk result (λ number. (Some number, plain_nodes nodes.new.items)
        ≡ with_move_before (plain_steps steps.now) (plain_move one)
        (rest, plain_nodes nodes.old.items)) }
{
    let first = put_move(steps, one, nodes)?;
    match rest {
        None => Ok(first),
        Some(rest) => Ok(put(KernelNode::First(first, rest), nodes)?),
    }
}

fn moves_chain(
    steps: &Steps,
    moves: &[Move],
    nodes: &mut Vec<KernelNode>,
) -> Result<Option<usize>, AllocError>
    ensures { IfOk result (λ rest. (rest, plain_nodes nodes.new.items)
        ≡ moves_chain (plain_steps steps.now) (plain_moves moves.now)
        (plain_nodes nodes.old.items)) }
{
    let mut rest = None;
    let mut index = moves.len();
    while index > 0 {
        index -= 1;
        rest = Some(put_move_before(steps, moves[index], rest, nodes)?);
    }
    Ok(rest)
}

/// Puts a state after these nodes, and gives its number.
pub(crate) fn put_row(
    steps: &Steps,
    row: &Moves,
    nodes: &mut Vec<KernelNode>,
) -> Result<usize, AllocError>
    ensures { IfOk result (λ number. (number, plain_nodes nodes.new.items)
        ≡ put_row (plain_steps steps.now) (plain_row row.now) (plain_nodes nodes.old.items)) }
{
    match moves_chain(steps, row.moves.as_slice(), nodes)? {
        Some(number) => Ok(number),
        None => Ok(put_failing(steps, nodes)?),
    }
}

// A state without a move, which takes nothing.
fn put_failing(steps: &Steps, nodes: &mut Vec<KernelNode>) -> Result<usize, AllocError>
    ensures { IfOk result (λ number. (number, plain_nodes nodes.new.items)
        ≡ or_failing (plain_steps steps.now) (None, plain_nodes nodes.old.items)) }
{
    let first = put(KernelNode::Test(EMPTY), nodes)?;
    let second = put_empty(ANY, steps.group.as_slice(), nodes)?;
    Ok(put(KernelNode::Both(first, second), nodes)?)
}

/// Puts the states with these moves after these nodes.
pub(crate) fn put_rows(
    steps: &Steps,
    rows: &[Moves],
    nodes: &mut Vec<KernelNode>,
) -> Result<(), AllocError>
    ensures { OnOk result (plain_nodes nodes.new.items
        ≡ put_rows (plain_steps steps.now) (plain_rows rows.now) (plain_nodes nodes.old.items)) }
{
    for row in rows {
        put_row(steps, row, nodes)?;
    }
    Ok(())
}
