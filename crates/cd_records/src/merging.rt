//! Merged records.
ghost use Rattle.std.specs.Prelude.{◌≡◌, ◌<◌, length, map, IfOk, OnErr};
ghost use Rattle.cd_model.specs.Formula.{IsGraph};
ghost use Rattle.cd_needs.specs.RecordTypes.{plain_row};
ghost use Rattle.cd_empty.specs.Growth.{Grows};
ghost use Rattle.cd_empty.specs.Seen.{graph_of};
ghost use Rattle.cd_meaning.specs.Records.{IsMergeOf};
ghost use Rattle.cd_meaning.specs.Sets.{◌⊆◌, elements_of};
ghost use Rattle.cd_records.specs.Inner.Rests.{IsMergedNode, IsMergedSaid};
ghost use Rattle.cd_records.specs.Inner.Rows.{AreRowsIn};
ghost use Rattle.cd_records.specs.Inner.Standing.{IsNodeFor};

use crate::merged_formulas::made_of;
use crate::node_rows::rows_of;
use crate::putting::put_in;
use cd_empty::World;
use cd_graph::built_in::EMPTY;
use cd_needs::row::Row;
use cd_sets::node_id::NodeId;
use std::alloc::{AllocError, Global};

/// A node that holds exactly the records that merge, label by label, records of the two nodes: at
/// each label what the second has, or else what the first has.
///
/// # Errors
///
/// Want of memory. The graph stays as it was.
pub fn merged(
    alloc: Global,
    world: &mut World,
    first: NodeId,
    second: NodeId,
) -> Result<NodeId, AllocError>
    requires first { first.0 < length (graph_of world.old) }
    requires second { second.0 < length (graph_of world.old) }
    ensures has { IfOk result (λ id. IsMergeOf (elements_of (graph_of world.old) first)
        (elements_of (graph_of world.old) second) ⊆ elements_of (graph_of world.new) id) }
    ensures only { IfOk result (λ id. elements_of (graph_of world.new) id
        ⊆ IsMergeOf (elements_of (graph_of world.old) first)
        (elements_of (graph_of world.old) second)) }
    ensures node { IfOk result (λ id. id.0 < length (graph_of world.new)) }
    ensures unchanged { OnErr result (graph_of world.new ≡ graph_of world.old) }
    ensures sound { IsGraph (graph_of world.new) }
    ensures grows { Grows world.old world.new }
{
    // The contract of this call says that the graph is sound.
    world.graph();
    let one = rows_of(alloc, world, first)?;
    let other = rows_of(alloc, world, second)?;
    merged_node(alloc, world, one.as_slice(), other.as_slice())
}

// The node, by the rows of both.
fn merged_node(
    alloc: Global,
    world: &mut World,
    first: &[Row],
    second: &[Row],
) -> Result<NodeId, AllocError>
    requires first { AreRowsIn (graph_of world.old) (map plain_row first.now) }
    requires second { AreRowsIn (graph_of world.old) (map plain_row second.now) }
    ensures holding { IfOk result (λ id. IsMergedNode (graph_of world.old) (graph_of world.new)
        (map plain_row first.now) (map plain_row second.now) id) }
    ensures unchanged { OnErr result (graph_of world.new ≡ graph_of world.old) }
    ensures sound { IsGraph (graph_of world.new) }
    ensures grows { Grows world.old world.new }
{
    // The contract of this call says that the graph is sound and begins with the built-in nodes.
    world.graph();
    match first {
        [] => Ok(EMPTY),
        [_, ..] => match second {
            [] => Ok(EMPTY),
            [_, ..] => put_merged(alloc, world, first, second),
        },
    }
}

// A new node.
fn put_merged(
    alloc: Global,
    world: &mut World,
    first: &[Row],
    second: &[Row],
) -> Result<NodeId, AllocError>
    requires first { AreRowsIn (graph_of world.old) (map plain_row first.now) }
    requires second { AreRowsIn (graph_of world.old) (map plain_row second.now) }
    ensures holding { IfOk result (λ id. IsNodeFor (graph_of world.new)
        (IsMergedSaid (graph_of world.old) (map plain_row first.now) (map plain_row second.now))
        id) }
    ensures unchanged { OnErr result (graph_of world.new ≡ graph_of world.old) }
    ensures sound { IsGraph (graph_of world.new) }
    ensures grows { Grows world.old world.new }
{
    let made = made_of(alloc, world.graph(), first, second)?;
    Ok(put_in(world, made)?)
}
