//! The type of sequences of one type, each followed by what is in another one.
ghost use Rattle.std.specs.Prelude.{◌≡◌, ◌<◌, length, IfOk, OnErr, IfSome};
ghost use Rattle.cd_meaning.specs.Sequences.{IsJoinOf};
ghost use Rattle.cd_meaning.specs.Sets.{◌⊆◌, elements_of};
ghost use Rattle.cd_model.specs.Formula.{IsGraph};
ghost use Rattle.cd_empty.specs.Growth.{Grows};
ghost use Rattle.cd_empty.specs.Seen.{graph_of};
ghost use Rattle.cd_forms.specs.Inner.Joins.{IsJoin, IsAnswer};

use crate::of_sequences::explore::explore;
use crate::of_sequences::state_formulas::state_formulas;
use cd_empty::World;
use cd_graph::Formulas;
use cd_graph::built_in::{EMPTY, NIL};
use cd_sets::node_id::NodeId;
use cd_verdicts::Verdict;
use std::alloc::{AllocError, Global};

/// A node that holds exactly the sequences of the first node, each followed by an element of the
/// second. Where the first holds the empty sequence alone it is the second.
///
/// # Errors
///
/// Want of memory. The graph stays as it was.
pub fn joined(
    alloc: Global,
    world: &mut World,
    first: NodeId,
    second: NodeId,
) -> Result<NodeId, AllocError>
    requires first { first.0 < length (graph_of world.old) }
    requires second { second.0 < length (graph_of world.old) }
    ensures has { IfOk result (λ id. IsJoinOf (elements_of (graph_of world.old) first)
        (elements_of (graph_of world.old) second) ⊆ elements_of (graph_of world.new) id) }
    ensures only { IfOk result (λ id. elements_of (graph_of world.new) id
        ⊆ IsJoinOf (elements_of (graph_of world.old) first)
        (elements_of (graph_of world.old) second)) }
    ensures node { IfOk result (λ id. id.0 < length (graph_of world.new)) }
    ensures unchanged { OnErr result (graph_of world.new ≡ graph_of world.old) }
    ensures sound { IsGraph (graph_of world.new) }
    ensures grows { Grows world.old world.new }
{
    match known_join(world, first, second)? {
        Some(id) => Ok(id),
        None => put_join(alloc, world, first, second),
    }
}

// A node of the graph that holds what is joined, where there is at most the empty sequence in the
// first node.
fn known_join(
    world: &mut World,
    first: NodeId,
    second: NodeId,
) -> Result<Option<NodeId>, AllocError>
    requires first { first.0 < length (graph_of world.old) }
    requires second { second.0 < length (graph_of world.old) }
    ensures join { IfOk result (λ known. IfSome known (λ id. IsJoin (graph_of world.old)
        (graph_of world.old) first second id)) }
    ensures node { IfOk result
        (λ known. IfSome known (λ id. id.0 < length (graph_of world.old))) }
    ensures sound { IsGraph (graph_of world.new) }
    ensures graph { graph_of world.new ≡ graph_of world.old }
    ensures grows { Grows world.old world.new }
{
    // The contract of this call says that the graph is sound and begins with the built-in nodes.
    world.graph();
    if !is_within(world, first, NIL)? {
        return Ok(None);
    }
    if is_within(world, first, EMPTY)? {
        return Ok(Some(EMPTY));
    }
    Ok(Some(second))
}

// Whether what is in the one node is in the other.
fn is_within(world: &mut World, one: NodeId, other: NodeId) -> Result<bool, AllocError>
    requires one { one.0 < length (graph_of world.old) }
    requires other { other.0 < length (graph_of world.old) }
    ensures within { IfOk result (λ answer. IsAnswer (graph_of world.old) one other answer) }
    ensures graph { graph_of world.new ≡ graph_of world.old }
    ensures grows { Grows world.old world.new }
{
    match world.subtype(one, other)? {
        Verdict::Empty => Ok(true),
        Verdict::Inhabited(_) => Ok(false),
    }
}

// Puts nodes for what is joined into the graph.
fn put_join(
    alloc: Global,
    world: &mut World,
    first: NodeId,
    second: NodeId,
) -> Result<NodeId, AllocError>
    requires first { first.0 < length (graph_of world.old) }
    requires second { second.0 < length (graph_of world.old) }
    ensures join { IfOk result
        (λ id. IsJoin (graph_of world.old) (graph_of world.new) first second id) }
    ensures node { IfOk result (λ id. id.0 < length (graph_of world.new)) }
    ensures unchanged { OnErr result (graph_of world.new ≡ graph_of world.old) }
    ensures sound { IsGraph (graph_of world.new) }
    ensures grows { Grows world.old world.new }
{
    // The contract of this call says that the graph is sound.
    world.graph();
    let explored = explore(alloc, world, first)?;
    let states = explored.states.as_slice();
    let batch = state_formulas(alloc, world.graph(), states, second)?;
    world.extend(Formulas::of(batch)?)
}
