//! What is needed of operands.
ghost use Rattle.std.specs.Prelude.{◌≡◌, ◌<◌, Option, length, IfOk, IfErr, OnOk, MatchOption};
ghost use Rattle.cd_model.specs.Formula.{IsGraph};
ghost use Rattle.cd_meaning.specs.Sets.{◌⊆◌, elements_of};
ghost use Rattle.cd_empty.specs.Growth.{Grows};
ghost use Rattle.cd_empty.specs.Seen.{graph_of, table_of};
ghost use Rattle.cd_operators.specs.Misfits.{Misses, IsMisfitOf, IsMisfitOfBoth};

use crate::misfit::{Misfit, Side, Stop};
use cd_elements::ElementId;
use cd_empty::World;
use cd_products::is_seen_within;
use cd_sets::node_id::NodeId;
use cd_typing::rule::Rule;
use cd_verdicts::Verdict;
use std::alloc::AllocError;

/// An element of a node that is not in another one, if there is one. The graph stays.
///
/// # Errors
///
/// Want of memory.
pub fn outside(
    world: &mut World,
    id: NodeId,
    needed: NodeId,
) -> Result<Option<ElementId>, AllocError>
    requires id { id.0 < length (graph_of world.old) }
    requires needed { needed.0 < length (graph_of world.old) }
    ensures found { IfOk result (λ found. MatchOption found
        (elements_of (graph_of world.old) id ⊆ elements_of (graph_of world.old) needed)
        (λ element. Misses (graph_of world.old) (table_of world.new) id
        (elements_of (graph_of world.old) needed) element)) }
    ensures graph { graph_of world.new ≡ graph_of world.old }
    ensures grows { Grows world.old world.new }
{
    if is_seen_within(world.graph(), id, needed) {
        return Ok(None);
    }
    match world.subtype(id, needed)? {
        Verdict::Empty => Ok(None),
        Verdict::Inhabited(element) => Ok(Some(element)),
    }
}

/// Refuses an operand that is not within a node.
pub(crate) fn need(
    world: &mut World,
    side: Side,
    id: NodeId,
    needed: NodeId,
    rule: Rule,
) -> Result<(), Stop>
    requires id { id.0 < length (graph_of world.old) }
    requires needed { needed.0 < length (graph_of world.old) }
    ensures within { OnOk result
        (elements_of (graph_of world.old) id ⊆ elements_of (graph_of world.old) needed) }
    ensures misfit { IfErr result (IsMisfitOf (graph_of world.old) (table_of world.new) side id
        (elements_of (graph_of world.old) needed) rule) }
    ensures graph { graph_of world.new ≡ graph_of world.old }
    ensures grows { Grows world.old world.new }
{
    match outside(world, id, needed)? {
        None => Ok(()),
        Some(element) => Err(Stop::Misfit(Misfit {
            side,
            rule,
            element,
        })),
    }
}

/// Refuses two operands where one of them is not within a node.
pub(crate) fn need_both(
    world: &mut World,
    first: NodeId,
    second: NodeId,
    needed: NodeId,
    rule: Rule,
) -> Result<(), Stop>
    requires first { first.0 < length (graph_of world.old) }
    requires second { second.0 < length (graph_of world.old) }
    requires needed { needed.0 < length (graph_of world.old) }
    ensures first { OnOk result
        (elements_of (graph_of world.old) first ⊆ elements_of (graph_of world.old) needed) }
    ensures second { OnOk result
        (elements_of (graph_of world.old) second ⊆ elements_of (graph_of world.old) needed) }
    ensures misfit { IfErr result (IsMisfitOfBoth (graph_of world.old) (table_of world.new)
        first second (elements_of (graph_of world.old) needed) rule) }
    ensures graph { graph_of world.new ≡ graph_of world.old }
    ensures grows { Grows world.old world.new }
{
    need(world, Side::First, first, needed, rule)?;
    need(world, Side::Second, second, needed, rule)
}
